/// A place in a line with the doubled area of the triangle there, ordered by size, then line, then place.
#[derive(Clone, Copy, Debug, PartialEq, Eq, PartialOrd, Ord)]
pub struct QueuedSpot {
    pub size: u64,
    pub line: usize,
    pub place: usize,
}
