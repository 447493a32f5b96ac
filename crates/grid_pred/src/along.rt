ghost use Rattle.std.specs.Prelude.{◌≡◌, ◌↔◌, ◌<ℤ◌, ◌≤ℤ◌, pos};
ghost use Rattle.std.specs.Ordering.{MatchOrdering};
ghost use Rattle.cov_types.specs.Range.{IsInRange, IsSegInRange};
ghost use Rattle.plane.specs.Point.{at_coord};
ghost use Rattle.plane.specs.Segment.{IsOn, side};
ghost use Rattle.plane.specs.Ray.{sweep};
ghost use Rattle.grid_pred.specs.Along.{LiesBelow, LiesAbove};

use crate::orientation::turn_to;
use cov_types::{Coord, Seg};
use std::cmp::Ordering;

/// How a grid point lies to a segment along the ray, at a point within the segment's sweep range: Less
/// below it, Equal on it, Greater above it. Takes constant time.
pub fn below(p: Coord, s: Seg) -> Ordering
    requires point_in_range { IsInRange p }
    requires segment_in_range { IsSegInRange s }
    requires from { sweep (at_coord s.lo) ≤ℤ sweep (at_coord p) }
    requires to { sweep (at_coord p) ≤ℤ sweep (at_coord s.hi) }
    ensures less { (result ≡ Ordering.Less) ↔ LiesBelow (at_coord p) s }
    ensures equal { (result ≡ Ordering.Equal) ↔ IsOn s (at_coord p) }
    ensures greater { (result ≡ Ordering.Greater) ↔ LiesAbove (at_coord p) s }

    // The side of the point is negative, zero or positive.
    ensures side { MatchOrdering result
        (side s (at_coord p) <ℤ pos 0)
        (side s (at_coord p) ≡ pos 0)
        (pos 0 <ℤ side s (at_coord p)) }
{
    turn_to(s, p).cmp(&0)
}
