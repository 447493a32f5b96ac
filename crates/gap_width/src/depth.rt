ghost use Rattle.std.specs.Prelude.{◌≡◌, ℕ, ◌+◌, ◌-◌, ◌*◌, ◌^◌, ◌≤◌, ◌<◌, ◌+ℤ◌, ◌-ℤ◌, ◌*ℤ◌, pos, IsTrue};
ghost use Rattle.integer_laws.specs.Bound.{IsWithin};
ghost use Rattle.cov_types.specs.Range.{IsSegInRange};
ghost use Rattle.plane.specs.Length.{edge_length};
ghost use Rattle.distance_laws.specs.Room.{foot, half_side, squared_length};
ghost use Rattle.clearance_laws.specs.Facing.{IsBeside, IsLeastDepth, depth, both};
ghost use Rattle.grid_pred.specs.Half.{IsHalfInRange};
ghost use Rattle.gap_width.specs.Own.{IsSmallEdge};
ghost use Rattle.gap_width.specs.Facing.{front_side};
ghost use Rattle.gap_width.specs.Depth.{Divides, IsShortVector, IsPair, IsPairFor, IsBetweenPair};

use crate::own::OwnEdge;
use cov_types::{Coord, Seg};
use grid_pred::exact::{difference, product, wide_product};
use grid_pred::{edge_len, root};

// A vector in doubled coordinates.
#[derive(Clone, Copy)]
struct Vector {
    x: i64,
    y: i64,
}

/// Whether the foot of c/2 is inside the edge.
pub fn is_beside(c: Coord, e: Seg) -> bool
    requires point { IsHalfInRange c }
    requires edge { IsSegInRange e }
    ensures { IsTrue result → IsBeside c e }
{
    let along = vector_of(e);
    let foot = scalar(along, vector_from(e, c));
    0 < foot && foot < 2 * scalar(along, along)
}

/// How deep the point c/2 is in front of the edge: twice its distance to the edge's line times the edge's length, and negative behind it.
pub fn depth(o: OwnEdge, c: Coord) -> i64
    requires edge { IsSmallEdge o }
    requires point { IsHalfInRange c }
    ensures exact { result ≡ depth (front_side o) c o.edge }
    ensures small { IsWithin (2 ^ 61) result }
{
    let side = across(vector_of(o.edge), vector_from(o.edge, c));
    if o.weight < 0 { side } else { -side }
}

/// How deep a grid point with this room is at least in front of the edge. The depths of grid points are even, and multiples of what
/// divides both coordinates of the edge.
pub fn least_depth(e: Seg, room: u32) -> i64
    requires edge { IsSegInRange e }
    requires room { room ≤ 2 ^ 31 + 1 }
    ensures least { IsLeastDepth room e result }
    ensures small { IsWithin (2 ^ 62) result }
{
    let along = vector_of(e);
    let length = scalar(along, along).unsigned_abs();
    let depth = root_up(room as u128 * room as u128 * length as u128);
    let step = 2 * common_divisor(along.x.unsigned_abs(), along.y.unsigned_abs());
    multiple_up(depth, step) as i64
}

// The square root of a number, rounded up.
fn root_up(n: u128) -> u64
    requires { n ≤ 2 ^ 124 - 2 ^ 122 }
    ensures least { (j : ℕ) → n ≤ j * j → result ≤ j }
    ensures small { result ≤ 2 ^ 62 - 2 ^ 33 }
{
    let down = root(n);
    if down * down < n {
        down as u64 + 1
    } else {
        down as u64
    }
}

// The next multiple of the step from a number on.
fn multiple_up(n: u64, step: u64) -> u64
    requires n { n ≤ 2 ^ 62 - 2 ^ 33 }
    requires some { 0 < step }
    requires step { step ≤ 2 ^ 33 }
    ensures least { (t : ℕ) → n ≤ t * step → result ≤ t * step }
    ensures small { result ≤ 2 ^ 62 }
{
    let over = n % step;
    if over == 0 { n } else { n + (step - over) }
}

// The greatest number that divides both, one of which is not 0.
fn common_divisor(a: u64, b: u64) -> u64
    requires some { 0 < a + b }
    requires small { a + b ≤ 2 ^ 32 }
    ensures first { Divides result a }
    ensures second { Divides result b }
    ensures some { 0 < result }
    ensures small { result ≤ 2 ^ 32 }
{
    let mut greater = a;
    let mut lesser = b;
    while lesser != 0 {
        let rest = greater % lesser;
        greater = lesser;
        lesser = rest;
    }
    greater
}

/// Two edges with their lengths in 1/256 units, and the sum of the least depths of grid points with some room, each times the length of
/// the other edge.
#[derive(Clone, Copy)]
pub struct Pair {
    first: OwnEdge,
    second: OwnEdge,
    first_length: i64,
    second_length: i64,
    least: i128,
}

impl Pair {
    /// The two edges, for this room.
    pub fn build(first: OwnEdge, second: OwnEdge, room: u32) -> Pair
        requires first { IsSmallEdge first }
        requires second { IsSmallEdge second }
        requires room { room ≤ 2 ^ 31 + 1 }
        ensures { IsPairFor first second room result }
    {
        let first_length = length_of(first.edge);
        let second_length = length_of(second.edge);
        let first_depth = least_depth(first.edge, room);
        let second_depth = least_depth(second.edge, room);
        Pair {
            first,
            second,
            first_length,
            second_length,
            least: weighted(second_length, first_depth, first_length, second_depth),
        }
    }

    /// Whether the point c/2 is between the two edges, closer than their least depths allow.
    pub fn is_between(self, c: Coord) -> bool
        requires pair { IsPair self }
        requires point { IsHalfInRange c }
        ensures { IsTrue result → IsBetweenPair self c }
    {
        let first = depth(self.first, c);
        let second = depth(self.second, c);
        let sum = weighted(self.second_length, first, self.first_length, second);
        if self.least <= sum {
            return false;
        }
        0 < sum + second as i128 && 0 < sum + first as i128
    }
}

// The length of the edge in 1/256 units.
fn length_of(e: Seg) -> i64
    requires { IsSegInRange e }
    ensures exact { result ≡ pos (edge_length e) }
    ensures small { IsWithin (2 ^ 39) result }
{
    edge_len(e) as i64
}

// a·x + b·y, in 128 bits.
fn weighted(a: i64, x: i64, b: i64, y: i64) -> i128
    requires a_small { IsWithin (2 ^ 39) a }
    requires x_small { IsWithin (2 ^ 62) x }
    requires b_small { IsWithin (2 ^ 39) b }
    requires y_small { IsWithin (2 ^ 62) y }
    ensures exact { result ≡ (a *ℤ x) +ℤ (b *ℤ y) }
    ensures small { IsWithin (2 ^ 102) result }
{
    wide_product(a, x) + wide_product(b, y)
}

// From lo to hi.
fn vector_of(e: Seg) -> Vector
    requires { IsSegInRange e }
    ensures x { result.x ≡ e.hi.x -ℤ e.lo.x }
    ensures y { result.y ≡ e.hi.y -ℤ e.lo.y }
    ensures small { IsShortVector result }
{
    Vector {
        x: difference(e.hi.x, e.lo.x),
        y: difference(e.hi.y, e.lo.y),
    }
}

// From lo to the point c/2, doubled.
fn vector_from(e: Seg, c: Coord) -> Vector
    requires edge { IsSegInRange e }
    requires point { IsHalfInRange c }
    ensures x { result.x ≡ c.x -ℤ (pos 2 *ℤ e.lo.x) }
    ensures y { result.y ≡ c.y -ℤ (pos 2 *ℤ e.lo.y) }
    ensures small { IsShortVector result }
{
    Vector {
        x: c.x as i64 - 2 * e.lo.x as i64,
        y: c.y as i64 - 2 * e.lo.y as i64,
    }
}

// The scalar product.
fn scalar(u: Vector, v: Vector) -> i64
    requires u_small { IsShortVector u }
    requires v_small { IsShortVector v }
    ensures exact { result ≡ (u.x *ℤ v.x) +ℤ (u.y *ℤ v.y) }
    ensures small { IsWithin (2 ^ 61) result }
{
    product(u.x, v.x) + product(u.y, v.y)
}

// The vector product.
fn across(u: Vector, v: Vector) -> i64
    requires u_small { IsShortVector u }
    requires v_small { IsShortVector v }
    ensures exact { result ≡ (u.x *ℤ v.y) -ℤ (u.y *ℤ v.x) }
    ensures small { IsWithin (2 ^ 61) result }
{
    product(u.x, v.y) - product(u.y, v.x)
}
