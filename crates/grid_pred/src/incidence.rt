ghost use Rattle.std.specs.Prelude.{IsTrue, ◌↔◌};
ghost use Rattle.cov_types.specs.Range.{IsInRange, IsSegInRange};
ghost use Rattle.plane.specs.Point.{at_coord};
ghost use Rattle.plane.specs.Segment.{IsOn};

use crate::orientation::turn_to;
use cov_types::{Coord, Seg};

/// Whether p is a point of s, the ends included. Takes constant time.
pub fn on_segment(p: Coord, s: Seg) -> bool
    requires point { IsInRange p }
    requires segment { IsSegInRange s }
    ensures { IsTrue result ↔ IsOn s (at_coord p) }
{
    if turn_to(s, p) != 0 {
        return false;
    }
    s.lo <= p && p <= s.hi
}
