ghost use Rattle.region_owners.specs.Examples.{RuleExamples, OverlapExamples, RowExamples, MoatExamples};
ghost use Rattle.region_owners.specs.Frame.{FrameExamples};
ghost use Rattle.region_owners.specs.Square.{SquareExamples};

/// Examples with numbers, by computation. A call does nothing.
pub fn vectors()
    ensures rules { RuleExamples }
    ensures overlap { OverlapExamples }
    ensures row { RowExamples }
    ensures moat { MoatExamples }
{}

/// Small instances of the definitions that do not compute. A call does nothing.
pub fn instances()
    ensures square { SquareExamples }
    ensures frame { FrameExamples }
{}
