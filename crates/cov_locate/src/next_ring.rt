ghost use Rattle.std.specs.Prelude.{◌≡◌, ◌≤◌, ◌<◌, MatchOption, length};
ghost use Rattle.cov_types.specs.Range.{IsInRange};
ghost use Rattle.cov_locate.specs.Rings.{IsNextRing, IsRingIndex, IsRingPart};
ghost use Rattle.cov_locate.specs.Where.{IsOnEdge};

use crate::block::{Placed, widest_block};
use crate::ring_index::RingIndex;
use crate::run::run_holds;
use box_tree::Rect;
use cov_types::Coord;

/// The least number from `least` on of a ring that holds the point, and the count of the rings where none does; None where the point
/// is on a segment. It looks only at the rings whose boxes have the point: no other ring is round it.
pub fn next_ring(index: &RingIndex, least: usize, p: Coord) -> Option<usize>
    requires index { IsRingIndex index.now }
    requires point { IsInRange p }
    ensures { MatchOption result (IsOnEdge index.now.outline.uses.items p) (λ next. IsNextRing index.now.outline.uses.items index.now.outline.rings.items p least next) }
{
    let mut next = index.outline.rings.len();
    let mut from = 0;
    while from < index.numbers.len() {
        let part = rings_from(index, least, from, p)?;
        next = next.min(part.next);
        from = part.to;
    }
    Some(next)
}

/// Some rings along the curve: where they end, and the next one of them.
#[derive(Clone, Copy)]
pub struct RingPart {
    pub to: usize,
    pub next: usize,
}

// The rings from a place along the curve on: those of a block that lies beside or above the point, or one ring; None where the point is
// on a segment of it.
fn rings_from(index: &RingIndex, least: usize, from: usize, p: Coord) -> Option<RingPart>
    requires index { IsRingIndex index.now }
    requires point { IsInRange p }
    requires some { from < length index.now.numbers.items }
    ensures { MatchOption result (IsOnEdge index.now.outline.uses.items p) (λ part. IsRingPart index.now p least from part) }
{
    let none = index.outline.rings.len();
    let round = Rect::of_point(p);
    let block = widest_block(&index.over_rings, from, index.numbers.len(), round);
    match block.placed {
        Placed::Beside | Placed::Higher => Some(RingPart {
            to: block.to,
            next: none,
        }),
        Placed::Near => {
            let number = index.numbers[from];
            let run = index.outline.rings[number];
            let holds = run_holds(&index.outline, &index.over_uses, run, p)?;
            let next = if holds && least <= number {
                number
            } else {
                none
            };
            Some(RingPart { to: from + 1, next })
        }
    }
}
