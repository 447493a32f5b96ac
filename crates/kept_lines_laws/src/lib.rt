//! Lines are kept: what becomes of the lines of a coverage while it is simplified.
//!
//! It has definitions and laws, and no code. Its promise, for each state of the run over a valid coverage: the nodes are those of the
//! input; each line is thinned, with both ends kept, and has the members on its two sides that it had; and these are all lines, each in
//! its own lesser direction. The laws are the public functions.
//!
//! The files of `specs/`: `Kept`, what is kept of a line; `Laws`.
//!
//! A crate above takes a lemma by `use Rattle.kept_lines_laws.proofs.FILE.{NAME}` in its `proofs/`. The files:
//!
//! - `Sums`: sums over lists of which one element changes, and over lists with the same elements. `Exchanged`: in a sum over the current
//!   segments ab and bc give way to ac (`exchanged`).
//! - `Thinned`: so no current segment stands twice, and as many meet at each point that is left as before (`IsThinned`). `Nodes`: so the
//!   nodes are those of the input (`node_kept`, `node_was`).
//! - `Nested`: the side points of a segment and of a part of it are joined (`nested_joined`). `Bent`: those of the three sides of a
//!   triangle (`past_first`, `past_second`). `Beside`: so the members beside ab are those beside ac (`sides_kept`). `Others`: the side
//!   points of any other segment are out of the triangle (`upper_out`, `lower_out`).
//! - `LineSides`: so the members beside a line are kept (`left_kept`, `right_kept`). `Along`: they are the same along all of it
//!   (`left_from_end`).
//! - `KeptLines`: what is left of the lines are the lines of the state (`state_line`, `left_of_line`).
#![tactic(auto)]

mod laws;

pub use laws::{line_law, lines_law, nodes_law};
