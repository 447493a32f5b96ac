//! Points that may go one after the other, with one question: which is the least of those left in a closed triangle.
//!
//! Its promise: `Cells::first_in` gives that point, and none exactly where no point that is left is in the triangle but its corners
//! (`IsFirstInWay` of `specs/Way`).
//!
//! `Cells` holds the points in slots along a curve that keeps near ones near, with a tree over their boxes; a point that goes leaves
//! its slot empty. `removal` empties the slots of a point in one search; `search` finds the least point that is wanted; `triangle`
//! tells of a grid point whether it is in a triangle, by the signs of turns in 64 bits.
//!
//! A crate above takes a lemma by `use Rattle.cov_cells.proofs.FILE.{NAME}` in its `proofs/`: of `Triangles`, `in_triangle_is` (a closed
//! triangle of grid points by the turns of its three sides).
#![tactic(auto)]

mod cells;
mod found;
mod removal;
mod search;
mod triangle;
mod wanted;

pub use cells::Cells;

#[cfg(test)]
mod tests;
