ghost use Rattle.crossing_laws.specs.Laws.{RegionLaw, OneRegionLaw, SameRegionLaw};

/// Points have one region exactly where they are joined. A call does nothing.
pub fn region_law()
    ensures joined { RegionLaw }
    ensures one { OneRegionLaw }
    ensures same { SameRegionLaw }
{}
