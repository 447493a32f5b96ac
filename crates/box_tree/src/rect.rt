ghost use Rattle.std.specs.Prelude.{◌≡◌, ◌≤ℤ◌, ℤ};
ghost use Rattle.std.specs.Int.{int_min, int_max};

use cov_types::{Coord, Seg};

/// A closed box with its sides along the axes: `lo` is its lower left corner and `hi` its upper right one. It may be a point.
#[derive(Clone, Copy, Debug, PartialEq, Eq)]
pub struct Rect {
    pub lo: Coord,
    pub hi: Coord,
    pub ghost across: { lo.x ≤ℤ hi.x },
    pub ghost upright: { lo.y ≤ℤ hi.y },
}

impl Rect {
    ghost use Rattle.box_tree.specs.Rect.{IsInside, box_of_point, box_of_segment, is_touching, spanned};

    /// The box of one point. Takes constant time.
    pub fn of_point(p: Coord) -> Rect
        ensures { result ≡ box_of_point p }
    {
        Rect { lo: p, hi: p }
    }

    /// The least box that has both ends of the segment, and so all of it. Takes constant time.
    pub fn of_segment(s: Seg) -> Rect
        ensures { result ≡ box_of_segment s }
    {
        Rect::spanning(s.lo, s.hi)
    }

    /// The least box that has both points. Takes constant time.
    pub fn spanning(a: Coord, b: Coord) -> Rect
        ensures { result ≡ spanned a b }
    {
        Rect {
            lo: Coord {
                x: lesser(a.x, b.x),
                y: lesser(a.y, b.y),
            },
            hi: Coord {
                x: greater(a.x, b.x),
                y: greater(a.y, b.y),
            },
        }
    }

    /// The least box that has both boxes. Takes constant time.
    pub fn hull(self, other: Rect) -> Rect
        ensures has_self { IsInside self result }
        ensures has_other { IsInside other result }
        ensures least { (b : Rect) → IsInside self b → IsInside other b → IsInside result b }
    {
        Rect {
            lo: Coord {
                x: lesser(self.lo.x, other.lo.x),
                y: lesser(self.lo.y, other.lo.y),
            },
            hi: Coord {
                x: greater(self.hi.x, other.hi.x),
                y: greater(self.hi.y, other.hi.y),
            },
        }
    }

    /// Whether the two closed boxes have a point in common. Takes constant time.
    pub fn touches(self, other: Rect) -> bool
        ensures { result ≡ is_touching self other }
    {
        (self.lo.x <= other.hi.x)
            & (other.lo.x <= self.hi.x)
            & (self.lo.y <= other.hi.y)
            & (other.lo.y <= self.hi.y)
    }
}

fn lesser(a: i32, b: i32) -> i32
    ensures value { result ≡ int_min a b }
    ensures first { result ≤ℤ a }
    ensures second { result ≤ℤ b }
    ensures greatest { (c : ℤ) → c ≤ℤ a → c ≤ℤ b → c ≤ℤ result }
{
    if b < a { b } else { a }
}

fn greater(a: i32, b: i32) -> i32
    ensures value { result ≡ int_max a b }
    ensures first { a ≤ℤ result }
    ensures second { b ≤ℤ result }
    ensures least { (c : ℤ) → a ≤ℤ c → b ≤ℤ c → result ≤ℤ c }
{
    if b < a { a } else { b }
}
