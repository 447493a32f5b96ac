/// A side of a region beyond which a region with a label has an owner.
#[derive(Clone, Copy, Debug, PartialEq, Eq)]
pub struct OwnedSide {
    /// The number of that owner.
    pub member: u32,
    /// The length of the side, in 1/256 units.
    pub length: u128,
}
