//! Coordinates, segments and polygon coverages on a whole-number grid: the types that every other crate
//! speaks of, and the segments that a coverage uses.
//!
//! Its promise: `uses` lists the segments of non-zero length of a coverage, in the order of its members,
//! polygons, rings and points, and of any set of points each member has an even number of their ends in it. `Outline::build` lists
//! them too, with where each begins and which stand for one ring.
#![tactic(auto)]

mod coord;
mod coverage;
mod edge_use;
mod no_memory;
mod outline;
mod range;
mod ring_run;
mod same;
mod seg;
mod shape;
#[cfg(test)]
mod tests;
mod use_list;

pub use coord::{Coord, LIMIT};
pub use coverage::{Coverage, Member, Poly, Ring};
pub use edge_use::EdgeUse;
pub use no_memory::NoMemory;
pub use outline::Outline;
pub use range::in_range;
pub use ring_run::RingRun;
pub use same::same_coverage;
pub use seg::Seg;
pub use shape::formed;
pub use use_list::uses;
