//! Simplifying a valid coverage: its lines, with the members beside them, and the coverage without the points that a run over its lines
//! removes.
//!
//! Its promise: `lines` answers all lines of a valid coverage in the order of their numbers, each with the members that hold the points
//! on the left and on the right of its first segment. `simplify` answers the coverage of the last state of the run over these lines,
//! which is valid and formed; its nodes are those of the coverage, and its lines those of the coverage without the removed points, with
//! both ends kept and the same members on the two sides. What these are is defined in `greedy_run`.
//!
//! The files: `edges` has the segments of a valid coverage, `side_holder` the member that holds a side point, and `coverage_lines` the
//! lines. `inner` has the lines that may lose points, `without` a coverage without points, and `simplifying` the whole.
#![tactic(auto)]

mod coverage_lines;
mod edges;
mod inner;
mod side_holder;
mod simplifying;
mod without;

pub use coverage_lines::{Line, lines};
pub use simplifying::simplify;
