ghost use Rattle.overlaid_laws.specs.Laws.{JointUsesLaw, JointRangeLaw, PairBelowLaw, OuterPairLaw, OnePairsLaw, OverlaidOwnersLaw, OverlaidHoldsLaw, OverlaidValidLaw, OneOverlaidLaw};

/// Two coverages as one. A call does nothing.
pub fn joint_law()
    ensures uses { JointUsesLaw }
    ensures range { JointRangeLaw }
{}

/// The pairs of the regions of two coverages. A call does nothing.
pub fn pair_law()
    ensures below { PairBelowLaw }
    ensures outer { OuterPairLaw }
    ensures one { OnePairsLaw }
{}

/// The overlay of two coverages holds each point by its pair, is valid, and is one. A call does nothing.
pub fn overlaid_law()
    ensures owners { OverlaidOwnersLaw }
    ensures holds { OverlaidHoldsLaw }
    ensures valid { OverlaidValidLaw }
    ensures one { OneOverlaidLaw }
{}
