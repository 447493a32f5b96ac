ghost use Rattle.crossing_laws.specs.Laws.{OppositeSidesLaw, CrossLaw};

/// A way and a segment on opposite sides of each other meet, and where. A call does nothing.
pub fn opposite_sides_law()
    ensures { OppositeSidesLaw }
{}

/// Two segments strictly on opposite sides of each other meet inside both. A call does nothing.
pub fn cross_law()
    ensures { CrossLaw }
{}
