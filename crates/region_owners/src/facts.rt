ghost use Rattle.std.specs.Prelude.{IsTrue};
ghost use Rattle.region_owners.specs.Candidates.{ascend};

use crate::candidate::Candidate;
use std::marker::Model;

/// What a merge rule is told of a region that several members hold; its candidates ascend strictly by member.
#[derive(Debug, Drop)]
pub struct Facts {
    /// The members that hold the region.
    pub candidates: Vec<Candidate>,
    /// The doubled area of the region.
    pub region_area2: i128,
    pub ghost ascending: { IsTrue (ascend candidates.items) },
}

impl Model for Facts {
    ghost use Rattle.region_owners.specs.Facts.{RegionFacts};

    ghost Value = { RegionFacts };

    ghost view = { λ f. record { candidates = f.candidates.items; region_area2 = f.region_area2; ascending = f.ascending } };
}
