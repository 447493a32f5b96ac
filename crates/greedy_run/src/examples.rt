ghost use Rattle.greedy_run.specs.Borders.{NeighbourExamples, SideExamples};
ghost use Rattle.greedy_run.specs.Examples.{StateExamples};
ghost use Rattle.greedy_run.specs.Runs.{RunExamples};
ghost use Rattle.greedy_run.specs.Valid.{ValidExamples};

/// Examples with numbers, by computation. A call does nothing.
pub fn vectors()
    ensures states { StateExamples }
    ensures sides { SideExamples }
{}

/// Small instances of the definitions that do not compute. A call does nothing.
pub fn instances()
    ensures run { RunExamples }
    ensures borders { NeighbourExamples }
    ensures valid { ValidExamples }
{}
