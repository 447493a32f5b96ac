/// Where a point lies in a coverage.
#[derive(Clone, Copy, Debug, PartialEq, Eq)]
pub enum Where {
    /// On a segment of the coverage.
    Edge,
    /// On none, and this is the least member that holds it.
    Member(u32),
    /// On none, and no member holds it.
    Nowhere,
}
