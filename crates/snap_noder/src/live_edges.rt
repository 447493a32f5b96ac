ghost use Rattle.arrangement.specs.Noding.{IsAscending};
ghost use Rattle.snap_noder.specs.Order.{AreOddAscending};
ghost use Rattle.snap_noder.specs.Places.{HavePlaces, AreAllUsed};

use arrangement::OddUse;
use cov_types::Seg;

/// Edges that some member has an odd number of times each, and for each member which.
#[derive(Drop)]
pub struct LiveEdges {
    pub edges: Vec<Seg>,
    pub odd: Vec<OddUse>,
    pub ghost ascending: { IsAscending edges.items },
    pub ghost odd_ascending: { AreOddAscending odd.items },
    pub ghost places: { HavePlaces edges.items odd.items },
    pub ghost used: { AreAllUsed edges.items odd.items },
}
