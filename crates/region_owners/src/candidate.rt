/// A member that a merge rule can give a shared region to.
#[derive(Clone, Copy, Debug, PartialEq, Eq)]
pub struct Candidate {
    /// The number of the member, from 0.
    pub member: u32,
    /// Its doubled area.
    pub area2: i128,
    /// Its border with the region, in 1/256 units.
    pub border: u128,
}
