//! The text format, written: coverages as lines of `POLYGON` and `MULTIPOLYGON`, lists of segments as lines of
//! `MULTILINESTRING`, the rows that list regions, those that tell where points lie, and single numbers.
//!
//! Its promise: the bytes are exactly the written form, whatever the coverage, the segments, the scale, the region or the
//! place.
#![tactic(auto)]

mod coverage;
mod number;
mod place_row;
mod region_row;
mod segment;
mod written;

pub use coverage::text_of;
pub use number::{append_coordinate, append_number};
pub use place_row::{append_edge_row, append_member_row, append_none_row};
pub use region_row::{append_inner_row, append_outer_row};
pub use segment::lines_of;
