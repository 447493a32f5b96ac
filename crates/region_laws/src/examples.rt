ghost use Rattle.region_laws.specs.Examples.{UnderExamples};

/// Which edges of a square are under which points. A call does nothing.
pub fn below_examples()
    ensures under { UnderExamples }
{}
