ghost use Rattle.part_polygons.specs.Laws.{TestExistsLaw, PartTestLaw, SoundLaw, PointLaw, PolygonEvenOddLaw, BeginsLaw};

/// Some test tells the half-edges with regions inside on their left; where these regions are a part of an owner, the test is one of a part. A call does nothing.
pub fn part_test_law()
    ensures exists { TestExistsLaw }
    ensures part { PartTestLaw }
{}

/// The rings of a part, its shell first, are a polygon that is sound for it, and a ring that leaves its least vertex first begins at its least point. A call does nothing.
pub fn sound_law()
    ensures sound { SoundLaw }
    ensures begins { BeginsLaw }
{}

/// Off the edges the polygon has the points of the part's regions, and so do the edges of all its rings by even-odd. A call does nothing.
pub fn point_law()
    ensures in_polygon { PointLaw }
    ensures even_odd { PolygonEvenOddLaw }
{}
