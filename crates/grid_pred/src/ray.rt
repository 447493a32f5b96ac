ghost use Rattle.std.specs.Prelude.{◌≡◌, ◌^◌, pos, ◌+ℤ◌, ◌-ℤ◌, ◌*ℤ◌};
ghost use Rattle.integer_laws.specs.Bound.{IsWithin};
ghost use Rattle.cov_types.specs.Range.{IsInRange, IsSegInRange};
ghost use Rattle.plane.specs.Point.{Point, at_coord};
ghost use Rattle.plane.specs.Segment.{midpoint, upper};
ghost use Rattle.plane.specs.Ray.{is_over};
ghost use Rattle.plane.specs.Below.{sweep_rise};
ghost use Rattle.grid_pred.specs.Half.{IsHalfInRange};
ghost use Rattle.grid_pred.specs.Ray.{IsSmallPoint, IsSmallVector, Writes};

use crate::exact::{difference, product, sum};
use cov_types::{Coord, Seg};

/// Whether the edge is over a grid point: the ray from the point meets it. Takes constant time.
pub fn over(e: Seg, p: Coord) -> bool
    requires edge_in_range { IsSegInRange e }
    requires point_in_range { IsInRange p }
    ensures { result ≡ is_over e (at_coord p) }
{
    over_point(
        e,
        RationalPoint {
            x: p.x as i64,
            y: p.y as i64,
            d: 1,
        },
    )
}

/// Whether the edge e is over the midpoint of s. Takes constant time.
pub fn over_mid(e: Seg, s: Seg) -> bool
    requires edge_in_range { IsSegInRange e }
    requires segment_in_range { IsSegInRange s }
    ensures { result ≡ is_over e (midpoint s) }
{
    over_point(
        e,
        RationalPoint {
            x: sum(s.lo.x, s.hi.x),
            y: sum(s.lo.y, s.hi.y),
            d: 2,
        },
    )
}

/// Whether the edge e is over the upper side point of s. It is exactly where it is over the midpoint: the ray leads from the one to
/// the other, which is so near that each edge strictly above the midpoint is strictly above it too. Takes constant time.
pub fn over_upper(e: Seg, s: Seg) -> bool
    requires edge_in_range { IsSegInRange e }
    requires segment_in_range { IsSegInRange s }
    ensures { result ≡ is_over e (upper s) }
{
    over_mid(e, s)
}

/// Whether the edge is over the point c/2 of the half grid: the ray from the point meets it. Takes constant time.
pub fn over_half(e: Seg, c: Coord) -> bool
    requires edge_in_range { IsSegInRange e }
    requires point { IsHalfInRange c }
    ensures { (p : Point) → (p.x ≡ c.x) → (p.y ≡ c.y) → (p.d ≡ 2) → result ≡ is_over e p }
{
    over_point(e, half(c))
}

/// How much the sweep value grows along a segment. Takes constant time.
pub fn rise(s: Seg) -> i64
    requires { IsSegInRange s }
    ensures exact { result ≡ sweep_rise s }
    ensures small { IsWithin (2 ^ 60) result }
{
    rise_along(Vector {
        x: difference(s.hi.x, s.lo.x),
        y: difference(s.hi.y, s.lo.y),
    })
}

/// How far the ray goes up, in grid units, where it goes one to the left.
pub const SLOPE: i64 = 1 << 30;

/// The point (x/d, y/d).
#[derive(Clone, Copy)]
pub(crate) struct RationalPoint {
    pub(crate) x: i64,
    pub(crate) y: i64,
    pub(crate) d: i64,
}

/// A difference of points, times a denominator.
#[derive(Clone, Copy)]
pub(crate) struct Vector {
    pub(crate) x: i64,
    pub(crate) y: i64,
}

/// The point c/2.
pub(crate) fn half(c: Coord) -> RationalPoint
    requires { IsHalfInRange c }
    ensures x { result.x ≡ c.x }
    ensures y { result.y ≡ c.y }
    ensures d { result.d ≡ pos 2 }
    ensures small { IsSmallPoint result }
{
    RationalPoint {
        x: c.x as i64,
        y: c.y as i64,
        d: 2,
    }
}

fn over_point(e: Seg, p: RationalPoint) -> bool
    requires edge_in_range { IsSegInRange e }
    requires small { IsSmallPoint p }
    ensures { (q : Point) → Writes p q → result ≡ is_over e q }
{
    let from_lo = vector_from(e.lo, p);
    let before_lo = rise_along(from_lo) < 0;
    let before_hi = rise_along(vector_from(e.hi, p)) < 0;
    if before_lo {
        return false;
    }
    if !before_hi {
        return false;
    }
    side_of(e, from_lo) < 0
}

/// From c to p.
pub(crate) fn vector_from(c: Coord, p: RationalPoint) -> Vector
    requires in_range { IsInRange c }
    requires small { IsSmallPoint p }
    ensures x { result.x ≡ p.x -ℤ (c.x *ℤ p.d) }
    ensures y { result.y ≡ p.y -ℤ (c.y *ℤ p.d) }
    ensures small { IsSmallVector result }
{
    Vector {
        x: offset(c.x, p.x, p.d),
        y: offset(c.y, p.y, p.d),
    }
}

// From a to n/d, times d.
fn offset(a: i32, n: i64, d: i64) -> i64
    requires a_small { IsWithin (2 ^ 28) a }
    requires n_small { IsWithin (2 ^ 29) n }
    requires d_small { IsWithin 2 d }
    ensures exact { result ≡ n -ℤ (a *ℤ d) }
    ensures small { IsWithin (2 ^ 30) result }
{
    n - product(a as i64, d)
}

// How much the sweep value grows along v.
fn rise_along(v: Vector) -> i64
    requires small { IsSmallVector v }
    ensures { result ≡ (pos (2 ^ 30) *ℤ v.x) +ℤ v.y }
{
    product(SLOPE, v.x) + v.y
}

/// On which side of the edge v leads from its end lo.
pub(crate) fn side_of(e: Seg, v: Vector) -> i64
    requires edge_in_range { IsSegInRange e }
    requires small { IsSmallVector v }
    ensures { result ≡ ((e.hi.x -ℤ e.lo.x) *ℤ v.y) -ℤ ((e.hi.y -ℤ e.lo.y) *ℤ v.x) }
{
    product(difference(e.hi.x, e.lo.x), v.y) - product(difference(e.hi.y, e.lo.y), v.x)
}
