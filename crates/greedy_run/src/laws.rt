ghost use Rattle.greedy_run.specs.Laws.{LinesLaw, CommonEdgeLaw, CoveringLaw, PlaceLaw, EdgeLineLaw, VertexLineLaw, TrailLaw, WalkLaw, LoopLaw, BeforeLaw, AfterLaw, NoNodeLaw, NextPointLaw, FinalStateLaw, SimplifiedLaw, ExhaustedLaw, NothingLeftLaw, HolderLaw};

/// Edges have one list of lines, and two lines with a common edge or a common vertex that is no node are one. A call does nothing.
pub fn lines_law()
    ensures one { LinesLaw }
    ensures edge { CommonEdgeLaw }
    ensures covering { CoveringLaw }
    ensures place { PlaceLaw }
{}

/// Each edge stands in exactly one line, and each vertex that is no node at one place of one line. A call does nothing.
pub fn line_law()
    ensures edge { EdgeLineLaw }
    ensures vertex { VertexLineLaw }
{}

/// A walk from any edge ends where other than two edges meet, or it is back; then its least point is the node. A call does nothing.
pub fn walk_law()
    ensures bound { TrailLaw }
    ensures done { WalkLaw }
    ensures least { LoopLaw }
{}

/// The neighbours of a place, and that a point that can be removed is no node. A call does nothing.
pub fn neighbour_law()
    ensures before { BeforeLaw }
    ensures after { AfterLaw }
    ensures no_node { NoNodeLaw }
{}

/// The run goes one way: there is one next point, one last state and one coverage. A call does nothing.
pub fn run_law()
    ensures next { NextPointLaw }
    ensures last { FinalStateLaw }
    ensures simplified { SimplifiedLaw }
{}

/// A coverage from which nothing is removable is its own simplification. A call does nothing.
pub fn exhausted_law()
    ensures own { ExhaustedLaw }
    ensures nothing { NothingLeftLaw }
{}

/// In a valid coverage a point off the segments has one holder. A call does nothing.
pub fn holder_law()
    ensures { HolderLaw }
{}
