ghost use Rattle.clearance_laws.specs.Laws.{LipschitzLaw, RoomBoundLaw, HandingDownLaw, HandingDownFarLaw, HalfPointLaw, OutsideRoomLaw, StaysInsideLaw, NearestSideLaw, AloneLaw, FacingLaw, InsideLaw, BesideSumLaw, AcrossLaw, UpwardsLaw, InWholeLaw, NearCentreLaw};

/// From a point to one within s of it, room changes by s at most. A call does nothing.
pub fn lipschitz_law()
    ensures near { LipschitzLaw }
    ensures bound { RoomBoundLaw }
{}

/// An edge that is far beside another one is not needed near a point. A call does nothing.
pub fn handing_down_law()
    ensures room { HandingDownLaw }
    ensures far { HandingDownFarLaw }
{}

/// A way from a point of a region to one that is not in it meets an edge of the region, which bounds the room of both. A call does nothing.
pub fn outside_room_law()
    ensures half { HalfPointLaw }
    ensures outside { OutsideRoomLaw }
    ensures inside { StaysInsideLaw }
{}

/// A point of a region is on the region's side of its nearest own edge, which bounds its room between edges that face each other. A call does nothing.
pub fn facing_law()
    ensures side { NearestSideLaw }
    ensures alone { AloneLaw }
    ensures facing { FacingLaw }
{}

/// Whether a point off a region's own edges is in it, by these alone. A call does nothing.
pub fn inside_law()
    ensures point { InsideLaw }
    ensures edges { BesideSumLaw }
{}

/// The two parts of a block of grid points cover it, and its points are near its centre. A call does nothing.
pub fn blocks_law()
    ensures across { AcrossLaw }
    ensures upwards { UpwardsLaw }
    ensures whole { InWholeLaw }
    ensures near { NearCentreLaw }
{}
