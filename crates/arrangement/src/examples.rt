ghost use Rattle.arrangement.specs.Examples.{LengthExamples, SnappedExamples, OverlapExamples};
ghost use Rattle.arrangement.specs.Snaps.{HotExamples, ChainExamples};
ghost use Rattle.arrangement.specs.Square.{SquareExamples};

/// Examples with numbers, by computation. A call does nothing.
pub fn vectors()
    ensures lengths { LengthExamples }
    ensures snapped { SnappedExamples }
    ensures overlap { OverlapExamples }
{}

/// Small instances of the definitions that do not compute. A call does nothing.
pub fn instances()
    ensures hot { HotExamples }
    ensures chains { ChainExamples }
    ensures square { SquareExamples }
{}
