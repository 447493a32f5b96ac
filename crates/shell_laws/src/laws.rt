ghost use Rattle.shell_laws.specs.Laws.{WholeLaw, SimpleLaw, OutsideLaw, RegionPartLaw, NextOutsideLaw, WalkOutsideLaw, AllOrNoneLaw, OneShellLaw, LeastVertexLaw, InPartLaw, PartEvenOddLaw};

/// Edges of a part's boundary with even ends have two half-edges that follow one another, or neither; so a way round a part passes no vertex twice. A call does nothing.
pub fn part_law()
    ensures whole { WholeLaw }
    ensures simple { SimpleLaw }
{}

/// Sides that are joined round a part's boundary alone are both in the part or both out. A call does nothing.
pub fn outside_law()
    ensures { OutsideLaw }
{}

/// A region that is not outer is a part. A call does nothing.
pub fn region_law()
    ensures { RegionPartLaw }
{}

/// Next half-edges round a part's boundary keep the part on the right, and a walk of them round it is a ring when it is taken back. A call does nothing.
pub fn walk_law()
    ensures outside { NextOutsideLaw }
    ensures ring { WalkOutsideLaw }
{}

/// A ring round a part holds all of the part or none of it, and exactly one of the part's rings, its shell, holds it. A call does nothing.
pub fn shell_law()
    ensures all_or_none { AllOrNoneLaw }
    ensures one_shell { OneShellLaw }
{}

/// At the least vertex of a ring the order of its two half-edges by angle tells whether it is the shell. A call does nothing.
pub fn least_vertex_law()
    ensures { LeastVertexLaw }
{}

/// Off the edges a point is in a part exactly where the shell holds it and no hole does, and exactly where the edges of all the part's rings hold it. A call does nothing.
pub fn point_law()
    ensures in_part { InPartLaw }
    ensures even_odd { PartEvenOddLaw }
{}
