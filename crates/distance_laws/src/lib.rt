//! The room of points from edges: twice their distance, compared with a whole number.
//!
//! It has definitions and laws, and no code. Its promise: room, which is said of each point of an edge, is told by one whole number,
//! the point's reach, that code computes. A point is on the half grid: a `Coord` c in doubled coordinates stands for c/2.
//!
//! The files of `specs/`: `Room`, the room of grid points and of the half grid, and the reach; `Laws`.
//!
//! A crate above takes a lemma by `use Rattle.distance_laws.proofs.FILE.{NAME}` in its `proofs/`. The file:
//!
//! - `Reach`: room from an edge by one whole number (`reach_is`), and the room of a grid point (`doubled_room`).
#![tactic(auto)]

mod laws;

pub use laws::reach_law;
