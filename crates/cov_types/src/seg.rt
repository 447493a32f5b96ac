ghost use Rattle.std.specs.Prelude.{◌≡◌, IsTrue, IfSome, IsNone, ◌↔◌, ◌⊎◌};
ghost use Rattle.cov_types.specs.Coord.{is_before};

use crate::coord::Coord;

/// A segment of non-zero length, written with its lesser end first; ordered by `lo`, then `hi`.
#[derive(Clone, Copy, Debug, PartialEq, Eq, PartialOrd, Ord)]
pub struct Seg {
    pub lo: Coord,
    pub hi: Coord,
    pub ghost ordered: { IsTrue (is_before lo hi) },
}

impl Seg {
    ghost use Rattle.cov_types.specs.Seg.{IsSegBetween};
    ghost use Rattle.cov_types.specs.Uses.{seg_between};

    /// Whether the two are one segment. Takes constant time.
    pub fn is_same(self, other: Seg) -> bool
        ensures { IsTrue result ↔ (self ≡ other) }
    {
        self == other
    }

    /// The segment between two points, or None where they are one point. Takes constant time.
    pub fn between(a: Coord, b: Coord) -> Option<Seg>
        ensures same { IsNone result ↔ (a ≡ b) }
        ensures value { result ≡ seg_between a b }
        ensures ends { IfSome result (λ s. IsSegBetween a b s) }
    {
        if a < b {
            Some(Seg { lo: a, hi: b })
        } else if b < a {
            Some(Seg { lo: b, hi: a })
        } else {
            None
        }
    }
}
