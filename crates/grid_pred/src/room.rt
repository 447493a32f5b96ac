//! How far points of the half grid are from edges, by squares.
ghost use Rattle.std.specs.Prelude.{◌≡◌, ◌≤◌, ◌^◌, ◌+ℤ◌, ◌-ℤ◌, ◌*ℤ◌, unsigned_abs, IsTrue, ◌↔◌};
ghost use Rattle.integer_laws.specs.Bound.{IsWithin};
ghost use Rattle.cov_types.specs.Range.{IsInRange, IsSegInRange};
ghost use Rattle.distance_laws.specs.Room.{HasRoom, doubled, reach};
ghost use Rattle.grid_pred.specs.Half.{IsHalfInRange};
ghost use Rattle.grid_pred.specs.Ray.{IsSmallVector};

use crate::exact::{difference, product, wide_product};
use crate::ray::{Vector, half, side_of, vector_from};
use cov_types::{Coord, Seg};

/// Four times the squared distance of the point c/2 and the edge, in square grid units, rounded down.
pub fn reach(c: Coord, e: Seg) -> u64
    requires point { IsHalfInRange c }
    requires edge_in_range { IsSegInRange e }
    ensures exact { result ≡ reach c e }
    ensures small { result ≤ 2 ^ 61 }
{
    let from_lo = vector_from(e.lo, half(c));
    let along = vector_of(e);
    let foot = scalar(along, from_lo);
    if foot <= 0 {
        return squared(from_lo);
    }
    let length = squared(along);
    if 2 * length <= foot as u64 {
        return squared(vector_from(e.hi, half(c)));
    }
    let side = side_of(e, from_lo);
    (wide_product(side, side).unsigned_abs() / length as u128) as u64
}

/// Whether twice the distance of a grid point to a segment is w or more, in grid units. Takes constant time.
pub fn at_least(q: Coord, s: Seg, w: u32) -> bool
    requires point { IsInRange q }
    requires segment { IsSegInRange s }
    requires width { w ≤ 2 ^ 30 }
    ensures { IsTrue result ↔ HasRoom q w s }
{
    w as u64 * w as u64 <= reach(twice(q), s)
}

// The grid point in doubled coordinates.
fn twice(q: Coord) -> Coord
    requires { IsInRange q }
    ensures exact { result ≡ doubled q }
    ensures in_range { IsHalfInRange result }
{
    Coord {
        x: 2 * q.x,
        y: 2 * q.y,
    }
}

// From lo to hi.
fn vector_of(e: Seg) -> Vector
    requires { IsSegInRange e }
    ensures x { result.x ≡ e.hi.x -ℤ e.lo.x }
    ensures y { result.y ≡ e.hi.y -ℤ e.lo.y }
    ensures small { IsSmallVector result }
{
    Vector {
        x: difference(e.hi.x, e.lo.x),
        y: difference(e.hi.y, e.lo.y),
    }
}

// The scalar product.
fn scalar(u: Vector, v: Vector) -> i64
    requires u_small { IsSmallVector u }
    requires v_small { IsSmallVector v }
    ensures exact { result ≡ (u.x *ℤ v.x) +ℤ (u.y *ℤ v.y) }
    ensures small { IsWithin (2 ^ 61) result }
{
    product(u.x, v.x) + product(u.y, v.y)
}

// The square of the length of a vector.
fn squared(v: Vector) -> u64
    requires { IsSmallVector v }
    ensures exact { result ≡ unsigned_abs ((v.x *ℤ v.x) +ℤ (v.y *ℤ v.y)) }
    ensures small { result ≤ 2 ^ 61 }
{
    scalar(v, v).unsigned_abs()
}
