ghost use Rattle.cov_valid.specs.Marks.{FaultMarksLaw};

/// Two lists of the marks of the faults of the same uses are equal. A call does nothing.
pub fn marks_law()
    ensures { FaultMarksLaw }
{}
