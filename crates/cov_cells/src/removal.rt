ghost use Rattle.std.specs.Prelude.{◌≡◌, ◌∷◌, [], List, Option, pos};
ghost use Rattle.cov_types.specs.declared.coord.Coord.{Coord};
ghost use Rattle.greedy_run.specs.Run.{current};
ghost use Rattle.cov_cells.specs.Slots.{living, AreCells};

use box_tree::{BoxTree, Rect, Search};
use cov_types::Coord;
use std::marker::{Brand, PhantomData};

/// What a removal begins with.
pub trait Begin {
    /// The slots as they were.
    ghost slots: { List (Option Coord) };

    /// The point that goes.
    ghost point: { Coord };
}

impl Begin for Brand {
    ghost slots = { [] };

    ghost point = { record { x = pos 0; y = pos 0 } };
}

/// A search among the boxes of slots that empties each slot with the point.
#[derive(Drop)]
pub struct Removal<B: Begin> {
    slots: Vec<Option<Coord>>,
    point: Coord,
    // The box of the point alone.
    at: Rect,
    begin: PhantomData<B>,
}

impl<B: Begin> Search for Removal<B> {
    ghost use Rattle.std.specs.Prelude.{◌≡◌};
    ghost use Rattle.box_tree.specs.Rect.{box_of_point};
    ghost use Rattle.cov_cells.specs.Slots.{AreCells, StandsIn, IsRemoval};

    ghost is_among = { λ s boxes. (s.point ≡ B.point) × (s.at ≡ box_of_point B.point) × IsRemoval B.slots B.point s.slots.items boxes };

    ghost is_settled = { λ s k. ¬ StandsIn s.slots.items k B.point };

    fn may_matter(&self, hull: Rect) -> bool {
        self.at.touches(hull)
    }

    fn visit(&mut self, k: usize) {
        if self.slots[k] == Some(self.point) {
            self.slots[k] = None;
        }
    }
}

/// The slots with each emptied that has the point; the tree is over their boxes.
pub(crate) fn without<B: Begin>(
    slots: Vec<Option<Coord>>,
    tree: &BoxTree,
    point: Coord,
) -> Vec<Option<Coord>>
    requires begin { (slots.items ≡ B.slots) × (point ≡ B.point) }
    requires cells { AreCells slots.items tree.now }
    ensures cells { AreCells result.items tree.now }
    ensures left { living result.items ≡ current (point ∷ []) (living slots.items) }
{
    let mut removal = Removal::<B> {
        slots,
        point,
        at: Rect::of_point(point),
        begin: PhantomData,
    };
    tree.search(&mut removal);
    removal.slots
}
