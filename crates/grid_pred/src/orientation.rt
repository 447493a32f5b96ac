ghost use Rattle.std.specs.Prelude.{◌≡◌, ◌^◌};
ghost use Rattle.integer_laws.specs.Bound.{IsWithin};
ghost use Rattle.cov_types.specs.Range.{IsInRange, IsSegInRange};
ghost use Rattle.plane.specs.Point.{at_coord};
ghost use Rattle.plane.specs.Segment.{turn_of, side};

use crate::exact::{difference, product, wide_product};
use cov_types::{Coord, Seg};

/// Twice the area of the triangle abc, in square grid units: positive where c is on the left of a to b. Takes constant time.
pub fn turn(a: Coord, b: Coord, c: Coord) -> i128
    ensures { result ≡ turn_of a b c }
{
    wide_product(difference(b.x, a.x), difference(c.y, a.y))
        - wide_product(difference(b.y, a.y), difference(c.x, a.x))
}

/// The same of three points in range, in 64 bits. Takes constant time.
pub fn turn_in_range(a: Coord, b: Coord, c: Coord) -> i64
    requires a_in_range { IsInRange a }
    requires b_in_range { IsInRange b }
    requires c_in_range { IsInRange c }
    ensures exact { result ≡ turn_of a b c }
    ensures small { IsWithin (2 ^ 59) result }
{
    product(difference(b.x, a.x), difference(c.y, a.y))
        - product(difference(b.y, a.y), difference(c.x, a.x))
}

/// The turn from the ends of a segment to a point: negative where the point is on the right of lo to hi, 0 where it is on their
/// line, positive on the left. Takes constant time.
pub fn turn_to(s: Seg, p: Coord) -> i64
    requires segment_in_range { IsSegInRange s }
    requires point_in_range { IsInRange p }
    ensures exact { result ≡ turn_of s.lo s.hi p }
    ensures side { result ≡ side s (at_coord p) }
    ensures small { IsWithin (2 ^ 59) result }
{
    turn_in_range(s.lo, s.hi, p)
}
