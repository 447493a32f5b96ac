/// How two segments meet.
#[derive(Clone, Copy, Debug, PartialEq, Eq)]
pub enum Contact {
    /// No common point.
    Apart,
    /// The segments are equal.
    SameSegment,
    /// One common point, an end of both.
    CommonEnd,
    /// They meet in another way.
    Bad(Badness),
}

/// How two segments meet that may not stand in one coverage.
#[derive(Clone, Copy, Debug, PartialEq, Eq)]
pub enum Badness {
    /// One common point, inside both.
    Cross,
    /// One common point, an end of just one.
    Touch,
    /// Several common points, and the segments are not equal.
    Overlap,
}
