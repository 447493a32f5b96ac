ghost use Rattle.std.specs.Prelude.{◌≡◌, pos, neg_ℤ, ◌*ℤ◌, ◌≤ℤ◌, ◌<ℤ◌, ◌^◌, ◌↔◌};
ghost use Rattle.cov_types.specs.declared.coord.TheConstants.{LIMIT};
ghost use Rattle.cov_types.specs.Range.{IsInRange};
ghost use Rattle.plane.specs.Snapping.{IsInPixel};
ghost use Rattle.grid_pred.specs.Crossing.{at_cross, IsCrossInRange};
ghost use Rattle.hot_pixel.specs.Pixel.{RoundsTo};

use cov_types::Coord;
use grid_pred::Cross;

/// The grid point whose pixel holds a crossing. Takes constant time.
pub fn pixel_of(c: &Cross) -> Coord
    requires { IsCrossInRange c.now }
    ensures exact { (r : Coord) → IsInPixel (at_cross c.now) r ↔ (r ≡ result) }
    ensures in_range { IsInRange result }
{
    Coord {
        x: rounded(c.num_x, c.den),
        y: rounded(c.num_y, c.den),
    }
}

// The whole number that n/d rounds to; halves go up.
fn rounded(n: i128, d: i128) -> i32
    requires positive { pos 0 <ℤ d }
    requires small { d ≤ℤ pos (2 ^ 60) }
    requires low { ((neg_ℤ LIMIT) *ℤ d) ≤ℤ n }
    requires high { n ≤ℤ (LIMIT *ℤ d) }
    ensures exact { RoundsTo n d result }
    ensures low { (neg_ℤ LIMIT) ≤ℤ result }
    ensures high { result ≤ℤ LIMIT }
{
    (2 * n + d).div_euclid(2 * d) as i32
}
