ghost use Rattle.sound_polygons.specs.Examples.{OverlapExamples, MoatExamples, NotchedExamples, AngleExamples};
ghost use Rattle.sound_polygons.specs.Instances.{PolygonExamples};
ghost use Rattle.sound_polygons.specs.Square.{SquareExamples, HoldingExamples};

/// Examples with numbers, by computation. A call does nothing.
pub fn vectors()
    ensures overlap { OverlapExamples }
    ensures moat { MoatExamples }
    ensures notched { NotchedExamples }
    ensures angles { AngleExamples }
{}

/// Small instances of the definitions that do not compute. A call does nothing.
pub fn instances()
    ensures square { SquareExamples }
    ensures holding { HoldingExamples }
    ensures polygons { PolygonExamples }
{}
