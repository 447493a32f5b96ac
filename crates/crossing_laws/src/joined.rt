ghost use Rattle.crossing_laws.specs.Laws.{ReflexiveLaw, SymmetricLaw, TransitiveLaw, OffLaw, SameEndLaw, FewerEdgesLaw};

/// Joined is an equivalence on the points off the edges, whatever fractions stand for them. A call does nothing.
pub fn joined_law()
    ensures reflexive { ReflexiveLaw }
    ensures symmetric { SymmetricLaw }
    ensures transitive { TransitiveLaw }
    ensures off { OffLaw }
    ensures same_end { SameEndLaw }
    ensures fewer_edges { FewerEdgesLaw }
{}
