ghost use Rattle.std.specs.Prelude.{◌≡◌, ◌≤ℤ◌, ◌<ℤ◌, ◌-ℤ◌, ◌+ℤ◌, ◌*ℤ◌, pos, ◌^◌, IsTrue, ◌↔◌};
ghost use Rattle.integer_laws.specs.Bound.{IsWithin};
ghost use Rattle.cov_types.specs.Range.{IsSegInRange};
ghost use Rattle.plane.specs.Segment.{turn_of};
ghost use Rattle.plane.specs.Snapping.{MeetsPixel, PassesFirst};
ghost use Rattle.rounding_laws.specs.Formulas.{ComesFirst, IsBesideUp, IsBesideDown, reach_up, reach_down};

use cov_types::{Coord, Seg};
use grid_pred::turn;

/// Whether the segment has a point in the pixel of r. Takes constant time.
pub fn meets(s: Seg, r: Coord) -> bool
    ensures { IsTrue result ↔ MeetsPixel s r }
{
    if r.x < s.lo.x || s.hi.x < r.x {
        return false;
    }
    if s.lo.y <= s.hi.y {
        is_beside_up(s, r)
    } else {
        is_beside_down(s, r)
    }
}

/// Whether the segment, from lo to hi, passes the pixel of a before that of b. Takes constant time.
pub fn before(s: Seg, a: Coord, b: Coord) -> bool
    requires in_range { IsSegInRange s }
    requires meets_a { MeetsPixel s a }
    requires meets_b { MeetsPixel s b }
    ensures { IsTrue result ↔ PassesFirst s a b }
{
    comes_first(s, a, b)
}

fn is_beside_up(s: Seg, r: Coord) -> bool
    requires { s.lo.y ≤ℤ s.hi.y }
    ensures { IsTrue result ↔ IsBesideUp s r }
{
    if r.y < s.lo.y || s.hi.y < r.y {
        return false;
    }
    let reach = extent(s.lo.x, s.hi.x) + extent(s.lo.y, s.hi.y);
    let twice = twice_turn(s, r);
    -reach < twice && twice < reach
}

fn is_beside_down(s: Seg, r: Coord) -> bool
    requires { s.hi.y <ℤ s.lo.y }
    ensures { IsTrue result ↔ IsBesideDown s r }
{
    if r.y < s.hi.y || s.lo.y < r.y {
        return false;
    }
    let reach = extent(s.lo.x, s.hi.x) + extent(s.hi.y, s.lo.y);
    let twice = twice_turn(s, r);
    -reach < twice && twice <= reach
}

fn extent(from: i32, to: i32) -> i128
    ensures exact { result ≡ to -ℤ from }
    ensures small { IsWithin (2 ^ 32) result }
{
    to as i128 - from as i128
}

// Twice the turn of r against the segment.
fn twice_turn(s: Seg, r: Coord) -> i128
    ensures exact { result ≡ pos 2 *ℤ turn_of s.lo s.hi r }
    ensures small { IsWithin (2 ^ 67) result }
{
    2 * turn(s.lo, s.hi, r)
}

// Whether a comes before b in the order of centres along the segment.
fn comes_first(s: Seg, a: Coord, b: Coord) -> bool
    ensures { IsTrue result ↔ ComesFirst s a b }
{
    if a.x != b.x {
        return a.x < b.x;
    }
    if s.lo.y <= s.hi.y {
        a.y < b.y
    } else {
        b.y < a.y
    }
}
