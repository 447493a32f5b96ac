//! Coverages to try programs on: a grid of square cells, each of whose corners is moved by up to one unit, anew for each cell, so that
//! neighbours overlap and leave slivers between them.
//!
//! Its promise: [`jittered_cells`] is the coverage of the definition (`cells`), which the number of cells on a side and the seed determine.
//!
//! A crate above takes a lemma by `use Rattle.jittered_grid.proofs.Shapes.{NAME}` in its `proofs/`.
#![tactic(auto)]

mod cell;
mod draws;
mod grid;
#[cfg(test)]
mod tests;

pub use grid::jittered_cells;
