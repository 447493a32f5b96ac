ghost use Rattle.std.specs.Prelude.{◌≡◌, ℕ, ◌+◌, ◌≤◌, ◌<◌, ◌^◌, ◌⊎◌, ◌↔◌, length, List, All, IfOk, IsTrue, IsFalse, pos};
ghost use Rattle.crossing_laws.specs.Crossing.{crossing_sum};
ghost use Rattle.clearance_laws.specs.Inside.{half_point};
ghost use Rattle.grid_pred.specs.Half.{IsHalfInRange};
ghost use Rattle.cov_types.specs.declared.seg.Seg.{Seg};
ghost use Rattle.gap_width.specs.Own.{IsSmallEdge, weighed, AreOwn};
ghost use Rattle.gap_width.specs.Search.{IsMeasured, StandFor, IsKnown, IsBest, asked_for};

use crate::block::Block;
use crate::facing::is_bounded;
use crate::near::{Measured, edges_within, halves_by_room, some_or_all};
use crate::own::{OwnEdge, weight_over};
use cov_types::{Coord, NoMemory};
use std::alloc::Global;

// In smaller blocks, asking what edges that face each other tell takes longer than it saves.
const SMALL: u32 = 4;

// How much finer each search is than the one before.
const FINER: u32 = 16;

/// The greater of best and the room of the grid points of the block that are in the region with these own edges; where that comes to
/// enough, the search stops. Of the own edges near has those that can be nearest to a point of the block. Of a block with a half
/// diagonal below finest only the half with the more room at its centre is searched. So at 0 all is, and otherwise there may be more room
/// than is found.
pub fn most_room(
    alloc: Global,
    own: &[OwnEdge],
    near: &[OwnEdge],
    here: Measured,
    best: u32,
    enough: u32,
    finest: u32,
) -> Result<u32, NoMemory>
    requires own { All IsSmallEdge own.now }
    requires near { All IsSmallEdge near.now }
    requires here { IsMeasured near.now here }
    requires best { best ≤ 2 ^ 31 }
    ensures small { IfOk result (λ found. found ≤ 2 ^ 31) }
    ensures best { (edges : List Seg) (r : ℕ) → AreOwn edges r own.now → StandFor own.now near.now here.block → IsKnown edges r here.block
        → IfOk result (λ found. IsBest edges r (asked_for finest enough) here.block best found) }
{
    if best >= enough {
        return Ok(best);
    }
    let block = here.block;
    let room = here.room;
    let far = block.half_diagonal();
    if room + far <= best {
        return Ok(best);
    }
    let centre = block.centre();
    let decides = does_decide(room, far, best);
    let inside = is_inside(own, block, centre, decides);
    if decides && !inside {
        return Ok(best);
    }
    let size = block.size();
    if size == 0 {
        return Ok(room);
    }
    let limit = room as u64 + 1 + 2 * far as u64;
    if size >= SMALL && is_bounded(near, block, centre, limit, best + 1) {
        return Ok(best);
    }
    let near_centre = edges_within(alloc, near, centre, limit)?;
    let near = some_or_all(&near_centre, near);
    let known = Block {
        inside: block.inside || inside && far < room,
        ..block
    };
    let (first, second) = halves_by_room(near, known);
    let best = most_room(alloc, own, near, first, best, enough, finest)?;
    if far < finest {
        return Ok(best);
    }
    most_room(alloc, own, near, second, best, enough, finest)
}

/// The greater of best and the room of some grid point of the region, as a rule one with nearly the most: searches in blocks down to the
/// coarsest half diagonal, and then in finer and finer ones.
pub fn coarse_room(
    alloc: Global,
    own: &[OwnEdge],
    whole: Measured,
    best: u32,
    enough: u32,
    coarsest: u32,
) -> Result<u32, NoMemory>
    requires own { All IsSmallEdge own.now }
    requires whole { IsMeasured own.now whole }
    requires best { best ≤ 2 ^ 31 }
    ensures small { IfOk result (λ found. found ≤ 2 ^ 31) }
    ensures some { (edges : List Seg) (r : ℕ) → AreOwn edges r own.now → IsKnown edges r whole.block → IfOk result (λ found. IsBest edges r 0 whole.block best found) }
{
    let mut most = best;
    let mut finest = coarsest;
    while finest > 0 {
        most = most_room(alloc, own, own, whole, most, enough, finest)?;
        finest /= FINER;
    }
    Ok(most)
}

// Whether a centre off the region decides that nothing in the region, within so far of it, has more room than best: a way from there to
// the centre meets an edge, which leaves so much less room there as the centre has.
fn does_decide(room: u32, far: u32, best: u32) -> bool
    requires best { best ≤ 2 ^ 31 }
    requires room { room ≤ 2 ^ 31 }
    ensures { IsTrue result ↔ (0 < room × far ≤ best + room) }
{
    0 < room && far as u64 <= best as u64 + room as u64
}

// Whether the centre of the block is known to be in the region: the block was, or the centre is asked for, and is.
fn is_inside(own: &[OwnEdge], block: Block, centre: Coord, is_asked: bool) -> bool
    requires own { All IsSmallEdge own.now }
    requires centre { IsHalfInRange centre }
    ensures inside { IsTrue result → IsTrue block.inside ⊎ (IsTrue is_asked × (crossing_sum (weighed own.now) (half_point centre) ≡ pos 1)) }
    ensures outside { IsFalse result → IsTrue is_asked → ¬ (crossing_sum (weighed own.now) (half_point centre) ≡ pos 1) }
{
    block.inside || is_asked && weight_over(own, centre) == 1
}
