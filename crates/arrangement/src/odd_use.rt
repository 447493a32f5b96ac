/// An edge that a member uses an odd number of times; ordered by `member`, then `edge`.
#[derive(Clone, Copy, Debug, PartialEq, Eq, PartialOrd, Ord)]
pub struct OddUse {
    /// The number of the member, from 0.
    pub member: u32,
    /// The place of the edge in the list of edges.
    pub edge: usize,
}
