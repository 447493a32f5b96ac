ghost use Rattle.crossing_laws.specs.Examples.{IslandExample, TriangleExample, WindingExamples};

/// Points that are joined, points that are not, and how often rings wind round points. A call does nothing.
pub fn joined_examples()
    ensures island { IslandExample }
    ensures triangle { TriangleExample }
    ensures winding { WindingExamples }
{}
