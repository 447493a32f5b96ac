ghost use Rattle.region_laws.specs.Laws.{BelowLaw, NoneBelowLaw, NearestOrNoneLaw};

/// A point off the edges is joined with the upper side of the nearest edge below it, and is outer where there is none. A call does nothing.
pub fn below_law()
    ensures nearest { BelowLaw }
    ensures none { NoneBelowLaw }
    ensures some { NearestOrNoneLaw }
{}
