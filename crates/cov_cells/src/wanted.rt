use cov_types::Coord;

/// What a search among cells looks for.
#[derive(Clone, Copy, Debug)]
pub enum Wanted {
    /// This point.
    At(Coord),
    /// A point in the closed triangle of these three that is none of them.
    InWay(Coord, Coord, Coord),
}
