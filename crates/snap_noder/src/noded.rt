ghost use Rattle.arrangement.specs.Noding.{IsAscending};
ghost use Rattle.snap_noder.specs.Order.{AreOddAscending};
ghost use Rattle.snap_noder.specs.Places.{HavePlaces};

use arrangement::OddUse;
use cov_types::Seg;

/// Edges, and for each member those that it has an odd number of times.
#[derive(Drop)]
pub struct Noded {
    pub edges: Vec<Seg>,
    pub odd: Vec<OddUse>,
    pub ghost ascending: { IsAscending edges.items },
    pub ghost odd_ascending: { AreOddAscending odd.items },
    pub ghost places: { HavePlaces edges.items odd.items },
}
