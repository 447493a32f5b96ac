use cov_types::Coord;

/// A point that a search found, and the place of its slot.
#[derive(Clone, Copy, Debug)]
pub struct Found {
    pub place: usize,
    pub point: Coord,
}
