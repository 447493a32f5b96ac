ghost use Rattle.cov_admit.specs.Laws.{FaultlessValidLaw, ValidFaultlessLaw};

/// Uses in range with even ends are valid exactly where none is at fault. A call does nothing.
pub fn faultless_law()
    ensures faultless { FaultlessValidLaw }
    ensures valid { ValidFaultlessLaw }
{}
