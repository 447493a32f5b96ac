ghost use Rattle.distance_laws.specs.Laws.{DoubledLaw, ReachLaw};

/// The room of a point of the half grid from an edge, by one whole number that code computes. A call does nothing.
pub fn reach_law()
    ensures doubled { DoubledLaw }
    ensures reach { ReachLaw }
{}
