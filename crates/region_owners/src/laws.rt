ghost use Rattle.region_owners.specs.Laws.{ClearanceLaw, NarrowLaw, EdgeUnderLaw, EdgeOverLaw, BoxLaw, ClearanceExistsLaw, OwnRoomLaw, OwnSearchLaw, PickLaw, AreLawful, CandidateLaw, LabelOwnerLaw, NeighbourLaw, OwnerLaw, OwnerBelowLaw, OwnersLaw, NoWidthLaw};

/// A region has one clearance at most, and is narrow where that is passed. A call does nothing.
pub fn clearance_law()
    ensures one { ClearanceLaw }
    ensures narrow { NarrowLaw }
{}

/// A region that is not outer has edges of its own under and over its points, which are in the box of these; so it has a clearance. A call does nothing.
pub fn box_law()
    ensures under { EdgeUnderLaw }
    ensures over { EdgeOverLaw }
    ensures inside { BoxLaw }
    ensures clearance { ClearanceExistsLaw }
{}

/// Only a region's own edges can be nearest to a point of it, so room is searched for among these, in their box. A call does nothing.
pub fn room_law()
    ensures room { OwnRoomLaw }
    ensures search { OwnSearchLaw }
{}

/// What the four rules pick. A call does nothing.
pub fn pick_law()
    ensures { PickLaw }
{}

/// The candidates for a region, which ascend by member. A call does nothing.
pub fn candidate_law()
    ensures { CandidateLaw }
{}

/// Each of the four rules picks one of the candidates. A call does nothing.
pub fn lawful_law<State>()
    ensures { AreLawful State }
{}

/// A region that members hold has an owner among them, and a gap a neighbour that owns a region beside it. A call does nothing.
pub fn owned_law<State>()
    ensures held { LabelOwnerLaw State }
    ensures gap { NeighbourLaw State }
    ensures below { OwnerBelowLaw State }
{}

/// A region has one owner at most, and owners exist. A call does nothing.
pub fn owner_law<State>()
    ensures one { OwnerLaw State }
    ensures exist { OwnersLaw State }
    ensures no_width { NoWidthLaw State }
{}
