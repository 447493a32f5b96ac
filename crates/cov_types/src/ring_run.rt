/// Where the uses of a ring stand among those of its coverage: from the place `from` to before the place `to`, both counted from 0.
#[derive(Clone, Copy, Debug, PartialEq, Eq)]
pub struct RingRun {
    /// The number of the ring's member.
    pub member: u32,
    pub from: usize,
    pub to: usize,
}
