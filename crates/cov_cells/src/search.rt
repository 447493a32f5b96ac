ghost use Rattle.std.specs.Prelude.{◌≡◌, ℕ, ◌<◌, [], List, Option, length, pos, IsTrue, ◌↔◌};
ghost use Rattle.cov_types.specs.Range.{IsInRange};
ghost use Rattle.cov_types.specs.declared.coord.Coord.{Coord};
ghost use Rattle.cov_cells.specs.declared.wanted.Wanted.{Wanted};
ghost use Rattle.cov_cells.specs.Slots.{AreCells, StandsIn, IsWantedInRange, IsWanted, IsRound, IsHeld, IsSlotSettled, IsEarlier, IsFirstWanted};
ghost use Rattle.cov_cells.specs.Way.{IsInWay};

use crate::found::Found;
use crate::triangle::is_in_triangle;
use crate::wanted::Wanted;
use box_tree::{BoxTree, Rect, Search};
use cov_types::Coord;
use std::marker::{Brand, PhantomData};

/// What is asked of a search, from its begin to its end.
pub trait Query {
    /// The slots.
    ghost slots: { List (Option Coord) };

    /// What is looked for.
    ghost wanted: { Wanted };
}

impl Query for Brand {
    ghost slots = { [] };

    ghost wanted = { Wanted.At (record { x = pos 0; y = pos 0 }) };
}

/// A search among the boxes of slots for the least wanted point.
#[derive(Drop)]
pub struct FirstSearch<'a, Q: Query> {
    slots: &'a [Option<Coord>],
    wanted: Wanted,
    // A box round all that is wanted.
    round: Rect,
    // The least so far.
    pub first: Option<Found>,
    query: PhantomData<Q>,
}

impl<'a, Q: Query> Search for FirstSearch<'a, Q> {
    ghost use Rattle.std.specs.Prelude.{◌≡◌};
    ghost use Rattle.cov_cells.specs.Slots.{AreCells, IsWantedInRange, IsRound, IsHeld, IsSlotSettled};

    ghost is_among = { λ s boxes. (s.slots.now ≡ Q.slots) × (s.wanted ≡ Q.wanted) × AreCells Q.slots boxes × IsWantedInRange Q.wanted × IsRound Q.wanted s.round × IsHeld Q.slots Q.wanted s.first };

    ghost is_settled = { λ s k. IsSlotSettled Q.slots Q.wanted s.first k };

    fn may_matter(&self, hull: Rect) -> bool {
        self.round.touches(hull)
    }

    fn visit(&mut self, k: usize) {
        self.first = first_with(self.slots, self.wanted, self.first, k);
    }
}

/// The least wanted point in the slots, over whose boxes the tree is; None where there is none.
pub(crate) fn first_wanted<Q: Query>(
    slots: &[Option<Coord>],
    tree: &BoxTree,
    wanted: Wanted,
) -> Option<Found>
    requires query { (slots.now ≡ Q.slots) × (wanted ≡ Q.wanted) }
    requires cells { AreCells slots.now tree.now }
    requires in_range { IsWantedInRange wanted }
    ensures { IsFirstWanted slots.now wanted result }
{
    let mut search = FirstSearch::<Q> {
        slots,
        wanted,
        round: round(wanted),
        first: None,
        query: PhantomData,
    };
    tree.search(&mut search);
    search.first
}

// A box round all that is wanted.
fn round(wanted: Wanted) -> Rect
    ensures { IsRound wanted result }
{
    match wanted {
        Wanted::At(p) => Rect::of_point(p),
        Wanted::InWay(a, b, c) => Rect::of_point(a)
            .hull(Rect::of_point(b))
            .hull(Rect::of_point(c)),
    }
}

// The lesser of what was found so far and the point in the slot, where that is wanted.
fn first_with(
    slots: &[Option<Coord>],
    wanted: Wanted,
    first: Option<Found>,
    k: usize,
) -> Option<Found>
    requires within { k < length slots.now }
    requires in_range { (p : Coord) → StandsIn slots.now k p → IsInRange p }
    requires wanted_in_range { IsWantedInRange wanted }
    requires held { IsHeld slots.now wanted first }
    ensures held { IsHeld slots.now wanted result }
    ensures settled { IsSlotSettled slots.now wanted result k }
    ensures kept { (j : ℕ) → IsSlotSettled slots.now wanted first j → IsSlotSettled slots.now wanted result j }
{
    match slots[k] {
        None => first,
        Some(point) => {
            if is_wanted(wanted, point) {
                Some(earlier(first, Found { place: k, point }))
            } else {
                first
            }
        }
    }
}

// The one found with the lesser point.
fn earlier(first: Option<Found>, found: Found) -> Found
    ensures { IsEarlier first found result }
{
    match first {
        None => found,
        Some(other) => {
            if found.point < other.point {
                found
            } else {
                other
            }
        }
    }
}

// Whether the point is wanted.
fn is_wanted(wanted: Wanted, p: Coord) -> bool
    requires in_range { IsWantedInRange wanted }
    requires point_in_range { IsInRange p }
    ensures { IsTrue result ↔ IsWanted wanted p }
{
    match wanted {
        Wanted::At(q) => p == q,
        Wanted::InWay(a, b, c) => is_in_way(a, b, c, p),
    }
}

// Whether p is in the triangle abc and none of its corners.
fn is_in_way(a: Coord, b: Coord, c: Coord, p: Coord) -> bool
    requires a_in_range { IsInRange a }
    requires b_in_range { IsInRange b }
    requires c_in_range { IsInRange c }
    requires p_in_range { IsInRange p }
    ensures { IsTrue result ↔ IsInWay (record { a = a; b = b; c = c }) p }
{
    if (p == a) | (p == b) | (p == c) {
        return false;
    }
    is_in_triangle(a, b, c, p)
}
