ghost use Rattle.std.specs.Prelude.{◌≡◌, ◌^◌, pos, ◌+ℤ◌, ◌*ℤ◌};
ghost use Rattle.cov_types.specs.Range.{IsInRange, IsSegInRange};
ghost use Rattle.cov_valid.specs.Levels.{IsPlaced, twice_middle};
ghost use Rattle.parity_laws.specs.Paths.{is_started};
ghost use Rattle.plane.specs.Segment.{midpoint};

use box_tree::{Probe, Rect};
use cov_types::{Coord, Seg};
use grid_pred::SLOPE;

/// Where a box lies about a midpoint.
#[derive(Clone, Copy)]
pub enum Placed {
    /// Left, right or below: no edge in the box is over the midpoint.
    Beside,
    /// Strictly above: the edges of a path in the box count by its ends.
    Higher,
    /// Each edge has to be looked at.
    Near,
}

/// Where the box lies about the half of a point.
pub fn place_of(b: Rect, middle: Coord) -> Placed
    ensures { IsPlaced b middle result }
{
    if !Probe::Above(middle).reaches(b) {
        Placed::Beside
    } else if (middle.y as i64) < 2 * b.lo.y as i64 {
        Placed::Higher
    } else {
        Placed::Near
    }
}

/// The midpoint of the segment, taken twice.
pub fn twice_middle(s: Seg) -> Coord
    requires { IsSegInRange s }
    ensures { result ≡ twice_middle s }
{
    Coord {
        x: s.lo.x + s.hi.x,
        y: s.lo.y + s.hi.y,
    }
}

/// Whether the sweep value of a point is not past that of the midpoint of the segment.
pub fn is_started(c: Coord, s: Seg) -> bool
    requires point_in_range { IsInRange c }
    requires segment_in_range { IsSegInRange s }
    ensures { result ≡ is_started c (midpoint s) }
{
    2 * sweep_of(c) <= sweep_of(twice_middle(s))
}

fn sweep_of(p: Coord) -> i64
    ensures { result ≡ (pos (2 ^ 30) *ℤ p.x) +ℤ p.y }
{
    SLOPE * p.x as i64 + p.y as i64
}
