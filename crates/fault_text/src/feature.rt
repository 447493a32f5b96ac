use cov_types::{Poly, Seg};
use cov_valid::Kind;

/// What a map of faults shows. Areas are doubled and, as clearances are, in grid units; polygons have their shell first.
#[derive(Debug, Drop)]
pub enum MapFeature {
    /// A segment that is marked: of which kind, which member has it, and its place among the uses of the coverage.
    Marked {
        kind: Kind,
        member: u32,
        place: u64,
        segment: Seg,
    },
    /// A region that several members hold, by its number.
    Overlap {
        members: Vec<u32>,
        area2: i128,
        region: usize,
        polygon: Poly,
    },
    /// A region that no member holds and that is not outer, by its number, and the members that border on it.
    Gap {
        area2: i128,
        clearance: u32,
        region: usize,
        members: Vec<u32>,
        polygon: Poly,
    },
}
