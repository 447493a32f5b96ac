ghost use Rattle.std.specs.Prelude.{◌≡◌, ℕ, ◌*◌, ◌^◌, ◌≤◌, ◌<◌, ◌⊎◌, [], length, filter, nat_lt, All, IfOk};
ghost use Rattle.distance_laws.specs.Room.{reach};
ghost use Rattle.grid_pred.specs.Half.{IsHalfInRange};
ghost use Rattle.gap_width.specs.Own.{IsSmallEdge};
ghost use Rattle.gap_width.specs.Search.{IsRoom, IsLeastReach, IsBlock, IsMeasured, AreHalves, size};

use crate::block::Block;
use crate::own::OwnEdge;
use cov_types::{Coord, NoMemory};
use grid_pred::{reach, root};
use std::alloc::Global;

// Of so many edges or fewer, leaving some out takes longer than it saves.
const FEW: usize = 8;

/// A block and the room of its centre, rounded down.
#[derive(Clone, Copy)]
pub struct Measured {
    pub block: Block,
    pub room: u32,
}

/// The block with the room of its centre from the edges.
pub fn measure(near: &[OwnEdge], block: Block) -> Measured
    requires edges { All IsSmallEdge near.now }
    requires some { 0 < length near.now }
    requires block { IsBlock block }
    ensures block { result.block ≡ block }
    ensures measured { IsMeasured near.now result }
{
    Measured {
        block,
        room: room(near, block.centre()),
    }
}

/// The halves of a block, that whose centre has more room first.
pub fn halves_by_room(near: &[OwnEdge], block: Block) -> (Measured, Measured)
    requires edges { All IsSmallEdge near.now }
    requires some { 0 < length near.now }
    requires block { IsBlock block }
    requires several { 0 < size block }
    ensures first { IsMeasured near.now result.0 }
    ensures second { IsMeasured near.now result.1 }
    ensures halves { AreHalves block result.0.block result.1.block }
{
    let (low, high) = block.halves();
    let low = measure(near, low);
    let high = measure(near, high);
    if low.room < high.room {
        (high, low)
    } else {
        (low, high)
    }
}

// The room of the point c/2 from the edges, rounded down.
fn room(near: &[OwnEdge], c: Coord) -> u32
    requires edges { All IsSmallEdge near.now }
    requires some { 0 < length near.now }
    requires point { IsHalfInRange c }
    ensures room { IsRoom near.now c result }
    ensures small { result ≤ 3 * 2 ^ 29 }
{
    root(least_reach(near, c) as u128) as u32
}

// The least reach of c/2 from the edges.
fn least_reach(near: &[OwnEdge], c: Coord) -> u64
    requires edges { All IsSmallEdge near.now }
    requires some { 0 < length near.now }
    requires point { IsHalfInRange c }
    ensures least { IsLeastReach near.now c result }
    ensures small { result ≤ 2 ^ 61 }
{
    let mut least = reach(c, near[0].edge);
    for o in near {
        let here = reach(c, o.edge);
        if here < least {
            least = here;
        }
    }
    least
}

/// The edges from which the point c/2 has not this room; none where the edges are few.
pub fn edges_within(
    alloc: Global,
    near: &[OwnEdge],
    c: Coord,
    room: u64,
) -> Result<Vec<OwnEdge>, NoMemory>
    requires edges { All IsSmallEdge near.now }
    requires point { IsHalfInRange c }
    requires small { room < 2 ^ 32 }
    ensures { IfOk result (λ v. (v.items ≡ []) ⊎ (v.items ≡ filter (λ o. nat_lt (reach c o.edge) (room * room)) near.now)) }
{
    let mut within = Vec::new(alloc);
    if near.len() <= FEW {
        return Ok(within);
    }
    for o in near {
        if reach(c, o.edge) < room * room {
            within.push(*o)?;
        }
    }
    Ok(within)
}

/// Those edges where there are some, otherwise all.
pub fn some_or_all<'a>(some: &'a [OwnEdge], all: &'a [OwnEdge]) -> &'a [OwnEdge]
    ensures { (0 < length some.now × (result.now ≡ some.now)) ⊎ (result.now ≡ all.now) }
{
    if some.len() == 0 { all } else { some }
}
