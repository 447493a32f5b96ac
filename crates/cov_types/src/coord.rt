ghost use Rattle.std.specs.Prelude.{IsTrue, ◌↔◌};
ghost use Rattle.cov_types.specs.Range.{IsInRange};

/// The greatest number that a coordinate in range may have, in grid units; the least is its negative.
pub const LIMIT: i32 = 268_435_456;

/// A grid point: its place in grid units, ordered by x, then y.
#[derive(Clone, Copy, Debug, PartialEq, Eq, PartialOrd, Ord, Hash)]
pub struct Coord {
    pub x: i32,
    pub y: i32,
}

impl Coord {
    /// Whether both numbers lie from -LIMIT to LIMIT. Takes constant time.
    pub fn is_in_range(self) -> bool
        ensures { IsTrue result ↔ IsInRange self }
    {
        -LIMIT <= self.x && self.x <= LIMIT && -LIMIT <= self.y && self.y <= LIMIT
    }
}
