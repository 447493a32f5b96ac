ghost use Rattle.removal_laws.specs.Laws.{PaschLaw, EarLaw, OddLaw, InnerLaw, HoldersLaw, ValidLaw, RingsLaw, StaysValidLaw, KeepsLaw, OneMoreLaw, CoverageMoreLaw, StepLaw, FreeEndsLaw, RemovableEarLaw, StateRangeLaw, NextStateLaw, RunStateLaw, SimplifiedValidLaw};

/// A segment that meets two sides of a triangle in ends alone, and has no end in it but at the third side, comes into it nowhere else; so it meets the third side in ends alone. A call does nothing.
pub fn ear_law()
    ensures pasch { PaschLaw }
    ensures third { EarLaw }
{}

/// A point off the three sides of a triangle over which an odd number of them is, is strictly inside. A call does nothing.
pub fn odd_law()
    ensures { OddLaw }
{}

/// Without its third side, nothing comes between two points of the triangle. A call does nothing.
pub fn inner_law()
    ensures { InnerLaw }
{}

/// A coverage stays valid where a point is taken out between two neighbouring segments whose triangle is free of all else, and out of the triangle each member holds what it held. A call does nothing.
pub fn removal_law()
    ensures holders { HoldersLaw }
    ensures valid { ValidLaw }
{}

/// Where a point is taken out of the rings of a coverage, its two segments give way to one; so a valid coverage without the point between two neighbouring segments is valid, where their triangle is free of all else. A call does nothing.
pub fn rings_law()
    ensures exchange { RingsLaw }
    ensures valid { StaysValidLaw }
{}

/// The triangle of a removable point is free of all current segments that do not end at the point. A call does nothing.
pub fn free_ends_law()
    ensures { FreeEndsLaw }
{}

/// A ring with two different points keeps two, points go out of it one after the other, and where a state is valid and has an ear at a point, the state without that point is valid. A call does nothing.
pub fn steps_law()
    ensures keeps { KeepsLaw }
    ensures one_more { OneMoreLaw }
    ensures coverage { CoverageMoreLaw }
    ensures step { StepLaw }
{}

/// In a state whose coverage is valid and in range and has the current segments, the triangle of a removable point is an ear. A call does nothing.
pub fn removable_ear_law()
    ensures { RemovableEarLaw }
{}

/// Each state of the run over a valid coverage in range is valid and in range, and so is the simplified coverage. A call does nothing.
pub fn run_state_law()
    ensures range { StateRangeLaw }
    ensures next { NextStateLaw }
    ensures run { RunStateLaw }
    ensures simplified { SimplifiedValidLaw }
{}
