ghost use Rattle.std.specs.Prelude.{◌≡◌, ◌<◌, ◌∷◌, List, IfSome, All, length, unsigned_abs};
ghost use Rattle.cov_types.specs.Range.{IsInRange};
ghost use Rattle.cov_types.specs.declared.coord.Coord.{Coord};
ghost use Rattle.plane.specs.Segment.{turn_of};

use crate::chains::Links;
use cov_types::Coord;
use grid_pred::turn_in_range;

/// A point b of a line between its neighbours a and c, with the places of these two.
#[derive(Clone, Copy, Debug)]
pub struct Corner {
    pub a: Coord,
    pub b: Coord,
    pub c: Coord,
    pub before: usize,
    pub after: usize,
}

impl Corner {
    ghost use Rattle.visvalingam.specs.Chains.{IsCornerInRange, IsCornerAnswer, AreLinked, IsStanding};

    /// The doubled area of the triangle, in square grid units.
    pub fn size(self) -> u64
        requires { IsCornerInRange self }
        ensures { result ≡ unsigned_abs (turn_of self.a self.b self.c) }
    {
        turn_in_range(self.a, self.b, self.c).unsigned_abs()
    }

    /// The point at the place of a line between its neighbours; None where it has gone, is an end, or is none.
    pub(crate) fn at(points: &[Coord], links: &[Option<Links>], place: usize) -> Option<Corner>
        requires { All IsInRange points.now }
        ensures in_range { IfSome result IsCornerInRange }
        ensures standing { IfSome result (IsStanding links.now place) }
        ensures answer { (removed : List Coord) → AreLinked removed points.now links.now → IsCornerAnswer removed points.now place result }
    {
        if links.len() != points.len() || place >= links.len() {
            return None;
        }
        let Some(own) = links[place] else {
            return None;
        };
        if !own.is_inner(place, points.len()) {
            return None;
        }
        Some(Corner {
            a: points[own.before],
            b: points[place],
            c: points[own.after],
            before: own.before,
            after: own.after,
        })
    }
}
