ghost use Rattle.std.specs.Prelude.{◌≡◌, ◌∷◌, ◌++◌, [], OnOk, cond};
ghost use Rattle.cov_types.specs.Coord.{is_same_coord};
ghost use Rattle.cov_types.specs.declared.coord.Coord.{Coord};
ghost use Rattle.visvalingam.specs.Waiting.{waiting_at};

use crate::spot::QueuedSpot;
use cov_types::{Coord, NoMemory};
use std::alloc::Global;
use std::collections::HashMap;

/// Spots that wait for a vertex to go (`waiting_at` lists those of a vertex).
#[derive(Drop)]
pub(crate) struct Waiting {
    alloc: Global,
    pub(crate) spots: HashMap<Coord, Vec<QueuedSpot>>,
}

impl Waiting {
    /// None waits.
    pub(crate) fn new(alloc: Global) -> Waiting
        ensures { (p : Coord) → waiting_at result.spots p ≡ [] }
    {
        Waiting {
            alloc,
            spots: HashMap::new(alloc),
        }
    }

    /// Lets a spot wait for p to go.
    pub(crate) fn push(&mut self, p: Coord, spot: QueuedSpot) -> Result<(), NoMemory>
        ensures { OnOk result ((q : Coord) → waiting_at self.new.spots q ≡ cond (is_same_coord p q) (waiting_at self.old.spots p ++ spot ∷ []) (waiting_at self.old.spots q)) }
    {
        let mut spots = self.take(p);
        spots.push(spot)?;
        self.spots.insert(p, spots)?;
        Ok(())
    }

    /// Those that wait for p; none waits for it then.
    pub(crate) fn take(&mut self, p: Coord) -> Vec<QueuedSpot>
        ensures taken { result.items ≡ waiting_at self.old.spots p }
        ensures left { (q : Coord) → waiting_at self.new.spots q ≡ cond (is_same_coord p q) [] (waiting_at self.old.spots q) }
    {
        match self.spots.remove(&p) {
            Some(spots) => spots,
            None => Vec::new(self.alloc),
        }
    }
}
