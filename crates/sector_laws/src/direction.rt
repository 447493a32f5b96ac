ghost use Rattle.sector_laws.specs.DirectionExamples.{DirectionExamples};
ghost use Rattle.sector_laws.specs.DirectionLaws.{TotalLaw, AtVertexLaw, OneLaw};

/// The order of directions is total, and at one vertex it is the order by angle. A call does nothing.
pub fn direction_law()
    ensures total { TotalLaw }
    ensures at_vertex { AtVertexLaw }
    ensures one { OneLaw }
    ensures examples { DirectionExamples }
{}
