ghost use Rattle.std.specs.Prelude.{◌≡◌, ◌∷◌, [], All, IfSome, IfNone, OnOk, Contains, IsPermutation};
ghost use Rattle.visvalingam.specs.Queue.{IsNoLater};
ghost use Rattle.visvalingam.specs.declared.spot.QueuedSpot.{QueuedSpot};

use crate::spot::QueuedSpot;
use cov_types::NoMemory;
use std::alloc::Global;
use std::cmp::Reverse;
use std::collections::BinaryHeap;
use std::marker::Model;

/// Spots of which the least comes first. A contract sees them as a list in no particular order.
#[derive(Drop)]
pub(crate) struct Queue {
    heap: BinaryHeap<Reverse<QueuedSpot>>,
}

impl Model for Queue {
    ghost use Rattle.std.specs.Prelude.{List, map};
    ghost use Rattle.std.specs.BinaryHeap.{heap_items};
    ghost use Rattle.visvalingam.specs.declared.spot.QueuedSpot.{QueuedSpot};
    ghost use Rattle.visvalingam.specs.Queue.{spots_of, IsInOrder};

    ghost Value = { List QueuedSpot };

    ghost view = { λ queue. spots_of (heap_items queue.heap) };

    ghost invariant = { λ queue. IsInOrder (heap_items queue.heap) };
}

impl Queue {
    /// No spots.
    pub(crate) fn new(alloc: Global) -> Queue
        ensures { result ≡ [] }
    {
        Queue {
            heap: BinaryHeap::new(alloc),
        }
    }

    /// Enters a spot.
    pub(crate) fn push(&mut self, spot: QueuedSpot) -> Result<(), NoMemory>
        ensures { OnOk result (IsPermutation (spot ∷ self.old) self.new) }
    {
        self.heap.push(Reverse(spot))?;
        Ok(())
    }

    /// Enters all these spots.
    pub(crate) fn push_all(&mut self, spots: &[QueuedSpot]) -> Result<(), NoMemory>
        ensures kept { OnOk result ((q : QueuedSpot) → Contains self.old q → Contains self.new q) }
        ensures entered { OnOk result ((q : QueuedSpot) → Contains spots.now q → Contains self.new q) }
    {
        for spot in spots {
            self.push(*spot)?;
        }
        Ok(())
    }

    /// Takes the least spot out, if there is one.
    pub(crate) fn pop(&mut self) -> Option<QueuedSpot>
        ensures one { IfSome result (λ spot. IsPermutation self.old (spot ∷ self.new)) }
        ensures least { IfSome result (λ spot. All (IsNoLater spot) self.new) }
        ensures none { IfNone result (self.old ≡ []) }
    {
        let Reverse(spot) = self.heap.pop()?;
        Some(spot)
    }
}
