ghost use Rattle.region_laws.specs.Laws.{BalancedSidesLaw, KeptLaw, JoinedNumberLaw, CrossedLaw};

/// A test on sides that next and the links keep is the same on joined sides, and one that crossings keep on all. A call does nothing.
pub fn side_law()
    ensures balanced { BalancedSidesLaw }
    ensures kept { KeptLaw }
    ensures number { JoinedNumberLaw }
    ensures crossed { CrossedLaw }
{}
