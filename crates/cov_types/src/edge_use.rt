ghost use Rattle.std.specs.Prelude.{IsTrue, ◌↔◌, ◌≡◌};

use crate::seg::Seg;

/// One use of a segment by a member of a coverage.
#[derive(Clone, Copy, Debug, PartialEq, Eq)]
pub struct EdgeUse {
    /// The number of the member, from 0.
    pub member: u32,
    pub seg: Seg,
}

impl EdgeUse {
    /// Whether the two are one use. Takes constant time.
    pub fn is_same(self, other: EdgeUse) -> bool
        ensures { IsTrue result ↔ (self ≡ other) }
    {
        self == other
    }
}
