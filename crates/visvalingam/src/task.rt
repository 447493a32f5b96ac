use cov_types::Coord;

/// What is asked of the run.
#[derive(Clone, Copy)]
pub struct Task<'a> {
    pub lines: &'a [Vec<Coord>],
    /// Which lines may lose points.
    pub open_lines: &'a [bool],
    /// In grid units: a point may go where its doubled triangle is at most twice the square of this.
    pub tolerance: u32,
}
