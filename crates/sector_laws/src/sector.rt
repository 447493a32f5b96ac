ghost use Rattle.sector_laws.specs.Laws.{NextJoinedLaw, SidesJoinedLaw, SomeNextLaw, OneNextLaw, NextOfOneLaw, SomeNextNumberLaw, OneNextNumberLaw, NextOfOneNumberLaw};

/// The side points on the left of a half-edge and of the next one are joined. A call does nothing.
pub fn sector_law()
    ensures half_edges { NextJoinedLaw }
    ensures sides { SidesJoinedLaw }
{}

/// Each half-edge has one next, and is the next of one. A call does nothing.
pub fn next_law()
    ensures some { SomeNextLaw }
    ensures one { OneNextLaw }
    ensures of_one { NextOfOneLaw }
    ensures some_number { SomeNextNumberLaw }
    ensures one_number { OneNextNumberLaw }
    ensures of_one_number { NextOfOneNumberLaw }
{}
