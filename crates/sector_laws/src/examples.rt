ghost use Rattle.sector_laws.specs.Examples.{FanExamples, SectorExamples, SquareExamples};

/// A fan of eight directions, sectors up to a full turn, and the half-edges of a square. A call does nothing.
pub fn sector_examples()
    ensures fan { FanExamples }
    ensures sectors { SectorExamples }
    ensures square { SquareExamples }
{}
