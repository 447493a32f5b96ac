ghost use Rattle.std.specs.Prelude.{◌≡◌, IsTrue, ◌↔◌};
ghost use Rattle.cov_types.specs.Range.{IsInRange};
ghost use Rattle.greedy_run.specs.Run.{IsInTriangle};
ghost use Rattle.cov_cells.specs.Tests.{are_one_way, is_amid};

use cov_types::Coord;
use grid_pred::turn_in_range;

/// Whether p is in the closed triangle abc. A flat triangle is the segment that has all three.
pub(crate) fn is_in_triangle(a: Coord, b: Coord, c: Coord, p: Coord) -> bool
    requires a_in_range { IsInRange a }
    requires b_in_range { IsInRange b }
    requires c_in_range { IsInRange c }
    requires p_in_range { IsInRange p }
    ensures { IsTrue result ↔ IsInTriangle (record { a = a; b = b; c = c }) p }
{
    let from_ab = turn_in_range(a, b, p);
    let from_bc = turn_in_range(b, c, p);
    let from_ca = turn_in_range(c, a, p);
    are_one_way(from_ab, from_bc, from_ca) & is_amid(a, b, c, p)
}

// Whether none of the three is negative, or none is positive.
fn are_one_way(x: i64, y: i64, z: i64) -> bool
    ensures { result ≡ are_one_way x y z }
{
    ((0 <= x) & (0 <= y) & (0 <= z)) | ((x <= 0) & (y <= 0) & (z <= 0))
}

// Whether p is neither before all three nor after all three, in the order of coordinates. For a point of their line that is all.
fn is_amid(a: Coord, b: Coord, c: Coord, p: Coord) -> bool
    ensures { result ≡ is_amid a b c p }
{
    ((a <= p) | (b <= p) | (c <= p)) & ((p <= a) | (p <= b) | (p <= c))
}
