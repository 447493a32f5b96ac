ghost use Rattle.sector_laws.specs.Laws.{NumberLaw, TwinNumberLaw, SideNumberLaw, SomeNumberLaw, OneNumberLaw};

/// Which half-edge has which number, and which side. A call does nothing.
pub fn number_law()
    ensures number { NumberLaw }
    ensures twin { TwinNumberLaw }
    ensures side { SideNumberLaw }
    ensures some { SomeNumberLaw }
    ensures one { OneNumberLaw }
{}
