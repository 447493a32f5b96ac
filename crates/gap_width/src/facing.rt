ghost use Rattle.std.specs.Prelude.{◌≡◌, ◌+◌, ◌*◌, ◌^◌, ◌≤◌, ◌<◌, ◌+ℤ◌, ◌-ℤ◌, ◌*ℤ◌, ◌≤ℤ◌, ◌<ℤ◌, ◌++◌, [], ◌∷◌, pos, ℕ, List, All, IsTrue, filter, nat_lt};
ghost use Rattle.integer_laws.specs.Bound.{IsWithin};
ghost use Rattle.cov_types.specs.Range.{IsSegInRange};
ghost use Rattle.distance_laws.specs.Room.{reach};
ghost use Rattle.clearance_laws.specs.Block.{AtCorners, corner};
ghost use Rattle.clearance_laws.specs.Facing.{IsBeside, IsLeastDepth, depth, both};
ghost use Rattle.grid_pred.specs.Half.{IsHalfInRange};
ghost use Rattle.gap_width.specs.declared.own.OwnEdge.{OwnEdge};
ghost use Rattle.gap_width.specs.Own.{IsSmallEdge};
ghost use Rattle.gap_width.specs.Search.{IsBlock};
ghost use Rattle.gap_width.specs.Depth.{IsPair, IsBetweenPair};
ghost use Rattle.gap_width.specs.Facing.{AreFew, front_side, IsBounded, IsBoundedByOne, IsBoundedByTwo};

use crate::block::Block;
use crate::depth::{Pair, depth, is_beside, least_depth};
use crate::own::OwnEdge;
use cov_types::{Coord, Seg};
use grid_pred::reach;

/// The edges of a list, where they are two at most.
#[derive(Clone, Copy)]
pub enum Few {
    Nothing,
    One(OwnEdge),
    Two(OwnEdge, OwnEdge),
    Many,
}

impl Few {
    // With one edge more.
    fn and(self, o: OwnEdge) -> Few
        ensures { (few : List OwnEdge) → AreFew self few → AreFew result (few ++ o ∷ []) }
    {
        match self {
            Few::Nothing => Few::One(o),
            Few::One(p) => Few::Two(p, o),
            _ => Few::Many,
        }
    }
}

/// Whether one edge, or two that face each other, tell that no grid point of the block that is in the region has this room. They are
/// those from which the point c/2 has not the room of the limit.
pub fn is_bounded(near: &[OwnEdge], block: Block, c: Coord, limit: u64, room: u32) -> bool
    requires edges { All IsSmallEdge near.now }
    requires block { IsBlock block }
    requires point { IsHalfInRange c }
    requires limit { limit < 2 ^ 32 }
    requires room { room ≤ 2 ^ 31 + 1 }
    ensures { IsTrue result → IsBounded block room (filter (λ o. nat_lt (reach c o.edge) (limit * limit)) near.now) }
{
    match few_within(near, c, limit) {
        Few::One(only) => is_bounded_by_one(only, block, room),
        Few::Two(first, second) => is_bounded_by_two(first, second, block, room),
        _ => false,
    }
}

// The edges from which the point c/2 has not this room.
fn few_within(near: &[OwnEdge], c: Coord, room: u64) -> Few
    requires edges { All IsSmallEdge near.now }
    requires point { IsHalfInRange c }
    requires small { room < 2 ^ 32 }
    ensures { AreFew result (filter (λ o. nat_lt (reach c o.edge) (room * room)) near.now) }
{
    let mut few = Few::Nothing;
    for o in near {
        if reach(c, o.edge) < room * room {
            few = few.and(*o);
            if matches!(few, Few::Many) {
                return few;
            }
        }
    }
    few
}

// Whether no corner of the block is as deep from the edge as a grid point with this room is.
fn is_bounded_by_one(only: OwnEdge, block: Block, room: u32) -> bool
    requires edge { IsSmallEdge only }
    requires block { IsBlock block }
    requires room { room ≤ 2 ^ 31 + 1 }
    ensures { IsTrue result → IsBoundedByOne block room (only ∷ []) }
{
    is_block_beside(block, only.edge) && is_block_shallow(block, only, least_depth(only.edge, room))
}

// Whether the corners of the block are between the two edges, closer than grid points with this room allow.
fn is_bounded_by_two(first: OwnEdge, second: OwnEdge, block: Block, room: u32) -> bool
    requires first { IsSmallEdge first }
    requires second { IsSmallEdge second }
    requires block { IsBlock block }
    requires room { room ≤ 2 ^ 31 + 1 }
    ensures { IsTrue result → IsBoundedByTwo block room (first ∷ second ∷ []) }
{
    is_block_beside_both(block, first.edge, second.edge)
        && is_block_between(block, Pair::build(first, second, room))
}

// Whether the corners of the block have their feet inside both edges.
fn is_block_beside_both(b: Block, e: Seg, f: Seg) -> bool
    requires block { IsBlock b }
    requires first { IsSegInRange e }
    requires second { IsSegInRange f }
    ensures { IsTrue result → AtCorners b.lo b.hi (λ c. IsBeside c e) × AtCorners b.lo b.hi (λ c. IsBeside c f) }
{
    is_block_beside(b, e) && is_block_beside(b, f)
}

// Whether the corners of the block have their feet inside the edge.
fn is_block_beside(b: Block, e: Seg) -> bool
    requires block { IsBlock b }
    requires edge { IsSegInRange e }
    ensures { IsTrue result → AtCorners b.lo b.hi (λ c. IsBeside c e) }
{
    is_row_beside(b, b.lo.y, e) && is_row_beside(b, b.hi.y, e)
}

// The same of the two corners in the row y.
fn is_row_beside(b: Block, y: i32, e: Seg) -> bool
    requires block { IsBlock b }
    requires row { IsWithin (2 ^ 28) y }
    requires edge { IsSegInRange e }
    ensures { IsTrue result → IsBeside (corner b.lo.x y) e × IsBeside (corner b.hi.x y) e }
{
    let left = corner(b.lo.x, y);
    let right = corner(b.hi.x, y);
    is_beside(left, e) && is_beside(right, e)
}

// Whether the corners of the block are less deep than that in front of the edge.
fn is_block_shallow(b: Block, o: OwnEdge, least: i64) -> bool
    requires block { IsBlock b }
    requires edge { IsSmallEdge o }
    ensures { IsTrue result → AtCorners b.lo b.hi (λ c. depth (front_side o) c o.edge <ℤ least) }
{
    is_row_shallow(b, b.lo.y, o, least) && is_row_shallow(b, b.hi.y, o, least)
}

// The same of the two corners in the row y.
fn is_row_shallow(b: Block, y: i32, o: OwnEdge, least: i64) -> bool
    requires block { IsBlock b }
    requires row { IsWithin (2 ^ 28) y }
    requires edge { IsSmallEdge o }
    ensures { IsTrue result → depth (front_side o) (corner b.lo.x y) o.edge <ℤ least × depth (front_side o) (corner b.hi.x y) o.edge <ℤ least }
{
    let left = depth(o, corner(b.lo.x, y));
    let right = depth(o, corner(b.hi.x, y));
    left < least && right < least
}

// Whether the corners of the block are between the two.
fn is_block_between(b: Block, pair: Pair) -> bool
    requires block { IsBlock b }
    requires pair { IsPair pair }
    ensures { IsTrue result → AtCorners b.lo b.hi (IsBetweenPair pair) }
{
    is_row_between(b, b.lo.y, pair) && is_row_between(b, b.hi.y, pair)
}

// The same of the two corners in the row y.
fn is_row_between(b: Block, y: i32, pair: Pair) -> bool
    requires block { IsBlock b }
    requires row { IsWithin (2 ^ 28) y }
    requires pair { IsPair pair }
    ensures { IsTrue result → IsBetweenPair pair (corner b.lo.x y) × IsBetweenPair pair (corner b.hi.x y) }
{
    let left = corner(b.lo.x, y);
    let right = corner(b.hi.x, y);
    pair.is_between(left) && pair.is_between(right)
}

// A grid point in doubled coordinates.
fn corner(x: i32, y: i32) -> Coord
    requires x { IsWithin (2 ^ 28) x }
    requires y { IsWithin (2 ^ 28) y }
    ensures exact { result ≡ corner x y }
    ensures in_range { IsHalfInRange result }
{
    Coord { x: 2 * x, y: 2 * y }
}
