/// Why a segment of a coverage is marked. The first four are faults: the first kind that applies, in this order, decides. Only a segment of
/// a coverage without faults is marked with the last.
#[derive(Clone, Copy, Debug, PartialEq, Eq)]
pub enum Kind {
    /// Another segment has a point in common with it that isn't an end of both.
    Meets,
    /// Its member has it more than once.
    Repeated,
    /// Another member has it too, and lies on the same side of it.
    SameSide,
    /// A member that doesn't have it holds its midpoint.
    Inside,
    /// One of its two sides is in a gap that is narrower than the gap width.
    NarrowGap,
}

/// A segment that is marked.
#[derive(Clone, Copy, Debug, PartialEq, Eq)]
pub struct Mark {
    /// The number of the segment's member.
    pub member: u32,
    /// The segment's place among the uses of the coverage, from 0.
    pub place: u64,
    pub kind: Kind,
}
