ghost use Rattle.sound_polygons.specs.Laws.{SamePartLaw, PartExistsLaw, AngleLaw, PolygonLaw, BuiltLaw, CleanedLaw};

/// The parts of an owner are disjoint, and each region that it owns is in one. A call does nothing.
pub fn part_law()
    ensures disjoint { SamePartLaw }
    ensures exist { PartExistsLaw }
{}

/// The angles at a vertex are the sectors between half-edges. A call does nothing.
pub fn angle_law()
    ensures { AngleLaw }
{}

/// A part has one polygon, and owners one coverage that is built of them. A call does nothing.
pub fn polygon_law()
    ensures one { PolygonLaw }
    ensures built { BuiltLaw }
{}

/// At most one coverage is a given one, cleaned. A call does nothing.
pub fn cleaned_law<State>()
    ensures { CleanedLaw State }
{}
