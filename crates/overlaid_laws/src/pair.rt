/// A member of one coverage with a member of another, which it meets; ordered by `a`, then `b`.
#[derive(Clone, Copy, Debug, PartialEq, Eq, PartialOrd, Ord)]
pub struct Pair {
    /// The number of the member of the first coverage, from 0.
    pub a: u32,
    /// The number of the member of the second coverage, from 0.
    pub b: u32,
}
