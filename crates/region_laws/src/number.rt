ghost use Rattle.region_laws.specs.Laws.{RegionsExistLaw, OneNumberingLaw, WalkLaw, FewerLinksLaw, OuterNumberLaw};

/// The regions of distinct planar edges have numbers by least sides, and only ones. A call does nothing.
pub fn number_law()
    ensures some { RegionsExistLaw }
    ensures one { OneNumberingLaw }
    ensures walk { WalkLaw }
    ensures fewer_links { FewerLinksLaw }
    ensures outer { OuterNumberLaw }
{}
