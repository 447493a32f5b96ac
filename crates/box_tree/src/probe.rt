ghost use Rattle.std.specs.Prelude.{◌≡◌, ◌+◌, ◌≤◌, ◌^◌, pos, ◌-ℤ◌, ◌*ℤ◌};
ghost use Rattle.integer_laws.specs.Bound.{IsWithin};
ghost use Rattle.cov_types.specs.Range.{IsSegInRange};
ghost use Rattle.plane.specs.Segment.{turn_of};
ghost use Rattle.box_tree.specs.Probe.{IsProbeInRange, is_above_point, is_below_point, is_near_line, is_near_pixels, reach_of, reaches};

use crate::rect::Rect;
use cov_types::{Coord, Seg};

/// What a tree is asked for: each box that the probe reaches. A probe that reaches a box reaches each box about it.
#[derive(Clone, Copy, Debug)]
pub enum Probe {
    /// Boxes that this one touches.
    Box(Rect),
    /// Boxes that may have a grid point whose pixel the segment meets. The segment has to be in range.
    Pixels(Seg),
    /// Twice a point: boxes that have a point of its column, and one strictly above it.
    Above(Coord),
    /// Twice a point: boxes that have a point of its column, and one that is not above it.
    Below(Coord),
}

impl Probe {
    /// Whether the probe reaches a box. Takes constant time.
    pub fn reaches(&self, b: Rect) -> bool
        requires { IsProbeInRange self.now }
        ensures { result ≡ reaches self.now b }
    {
        match self {
            Probe::Box(own) => own.touches(b),
            Probe::Pixels(s) => is_near_pixels(*s, b),
            Probe::Above(p) => is_above_point(*p, b),
            Probe::Below(p) => is_below_point(*p, b),
        }
    }
}

fn is_near_pixels(s: Seg, b: Rect) -> bool
    requires { IsSegInRange s }
    ensures { result ≡ is_near_pixels s b }
{
    if Rect::of_segment(s).touches(b) {
        is_near_line(s, b)
    } else {
        false
    }
}

// Whether some corner is no farther on the left of the segment's line than a pixel reaches, and some corner no farther on its right.
fn is_near_line(s: Seg, b: Rect) -> bool
    requires { IsSegInRange s }
    ensures { result ≡ is_near_line s b }
{
    let reach = reach(s);
    let lower_left = twice_turn(s, b.lo.x, b.lo.y);
    let lower_right = twice_turn(s, b.hi.x, b.lo.y);
    let upper_left = twice_turn(s, b.lo.x, b.hi.y);
    let upper_right = twice_turn(s, b.hi.x, b.hi.y);
    let near_left = (lower_left <= reach)
        | (lower_right <= reach)
        | (upper_left <= reach)
        | (upper_right <= reach);
    let near_right = (-reach <= lower_left)
        | (-reach <= lower_right)
        | (-reach <= upper_left)
        | (-reach <= upper_right);
    near_left & near_right
}

// How far twice the turn of a grid point can be from 0 whose pixel the segment meets.
fn reach(s: Seg) -> i64
    requires { IsSegInRange s }
    ensures exact { result ≡ pos (reach_of s) }
    ensures small { IsWithin (2 ^ 30) result }
{
    s.hi.x.abs_diff(s.lo.x) as i64 + s.hi.y.abs_diff(s.lo.y) as i64
}

// Twice the turn of a point against the segment.
fn twice_turn(s: Seg, x: i32, y: i32) -> i64
    requires { IsSegInRange s }
    ensures { result ≡ pos 2 *ℤ turn_of s.lo s.hi (record { x = x; y = y }) }
{
    2 * (product(extent(s.lo.x, s.hi.x), distance(s.lo.y, y))
        - product(extent(s.lo.y, s.hi.y), distance(s.lo.x, x)))
}

// From one coordinate of an end to that of the other.
fn extent(a: i32, b: i32) -> i64
    requires a_small { IsWithin (2 ^ 28) a }
    requires b_small { IsWithin (2 ^ 28) b }
    ensures exact { result ≡ b -ℤ a }
    ensures small { IsWithin (2 ^ 29) result }
{
    (b - a) as i64
}

// From a coordinate of an end to that of any point.
fn distance(a: i32, n: i32) -> i64
    requires a_small { IsWithin (2 ^ 28) a }
    ensures exact { result ≡ n -ℤ a }
    ensures small { IsWithin (2 ^ 28 + 2 ^ 31) result }
{
    n as i64 - a as i64
}

fn product(a: i64, n: i64) -> i64
    requires a_small { IsWithin (2 ^ 29) a }
    requires n_small { IsWithin (2 ^ 28 + 2 ^ 31) n }
    ensures exact { result ≡ a *ℤ n }
    ensures small { IsWithin (2 ^ 57 + 2 ^ 60) result }
{
    a * n
}

fn is_above_point(p: Coord, b: Rect) -> bool
    ensures { result ≡ is_above_point p b }
{
    (twice(b.lo.x) <= p.x as i64) & (p.x as i64 <= twice(b.hi.x)) & ((p.y as i64) < twice(b.hi.y))
}

fn is_below_point(p: Coord, b: Rect) -> bool
    ensures { result ≡ is_below_point p b }
{
    (twice(b.lo.x) <= p.x as i64) & (p.x as i64 <= twice(b.hi.x)) & (twice(b.lo.y) <= p.y as i64)
}

fn twice(n: i32) -> i64
    ensures { result ≡ pos 2 *ℤ n }
{
    2 * n as i64
}
