//! From the edges of a coverage to its lines, which lead from node to node.
//!
//! Its promise: `lines_of` answers all lines, each once, in the order of their numbers. What lines are is defined in `greedy_run`.
//!
//! The files, lowest first: `edge_end` sorts the ends of the edges by their vertices; `partners` has the other edge at each vertex at
//! which just two meet; `walk` goes along the edges until it ends or is back; `line` makes a line of that; `lines` makes all of them.
#![tactic(auto)]

mod edge_end;
mod line;
mod lines;
mod partners;
mod walk;

pub use lines::lines_of;
