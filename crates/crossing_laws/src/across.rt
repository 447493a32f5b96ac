ghost use Rattle.crossing_laws.specs.Laws.{BesideLaw, AcrossLaw, MemberAcrossLaw, SumAcrossLaw};

/// From the side point below an edge to the one above it, only that edge changes. A call does nothing.
pub fn across_law()
    ensures beside { BesideLaw }
    ensures edges { AcrossLaw }
    ensures members { MemberAcrossLaw }
    ensures sums { SumAcrossLaw }
{}
