ghost use Rattle.std.specs.Prelude.{◌≡◌, ◌^◌, ◌*ℤ◌, IsTrue, ◌↔◌};
ghost use Rattle.integer_laws.specs.Bound.{IsWithin};
ghost use Rattle.cov_types.specs.Range.{IsInRange, IsSegInRange};
ghost use Rattle.plane.specs.Point.{at_coord};
ghost use Rattle.plane.specs.Segment.{side};
ghost use Rattle.plane.specs.Below.{is_under, sweep_rise, IsNearer};

use crate::exact::wide_product;
use crate::orientation::turn_to;
use crate::ray::rise;
use cov_types::{Coord, Seg};

/// Whether the edge is under a grid point: the way straight down the ray from the point meets it, and not in its greater end.
/// Takes constant time.
pub fn is_under(e: Seg, v: Coord) -> bool
    requires edge_in_range { IsSegInRange e }
    requires point_in_range { IsInRange v }
    ensures { result ≡ is_under e (at_coord v) }
{
    e.lo <= v && v < e.hi && turn_to(e, v) > 0
}

/// Whether e is nearer below v than f, of two edges under v: by how far each is below v, and then by which leads on above the other.
/// Takes constant time.
pub fn is_nearer(v: Coord, e: Seg, f: Seg) -> bool
    requires point_in_range { IsInRange v }
    requires e_in_range { IsSegInRange e }
    requires f_in_range { IsSegInRange f }
    ensures { IsTrue result ↔ IsNearer (at_coord v) e f }
{
    let depth_of_e = depth(v, e, f);
    let depth_of_f = depth(v, f, e);
    if depth_of_e == depth_of_f {
        turn_to(f, e.hi) > 0
    } else {
        depth_of_e < depth_of_f
    }
}

// How far e is below v, times the rises of e and f: that far is the turn to v over the rise of e.
fn depth(v: Coord, e: Seg, f: Seg) -> i128
    requires point_in_range { IsInRange v }
    requires e_in_range { IsSegInRange e }
    requires f_in_range { IsSegInRange f }
    ensures exact { result ≡ side e (at_coord v) *ℤ sweep_rise f }
    ensures small { IsWithin (2 ^ 119) result }
{
    wide_product(turn_to(e, v), rise(f))
}
