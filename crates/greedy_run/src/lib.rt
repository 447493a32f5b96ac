//! Lines and the greedy run of the simplifier, after Visvalingam and Whyatt (1993).
//!
//! It has definitions, laws and examples, and no code. Its promise: a line is a list of points and a state a list of removed
//! points, and no definition knows a heap, a stale entry or an index. The laws are the public functions `lines_law` to `run_law`;
//! `vectors` has examples with numbers, and `instances` has small cases of what does not compute.
//!
//! The files of `specs/`, lowest first:
//!
//! - `Lines`: nodes, and lines from node to node.
//! - `Run`: states, neighbours, removable points, the greedy run, and the coverage of a state. `Sides`: the members beside a line.
//! - `Laws`; `Examples`; `Runs`: the instance of a run; `Borders`: two neighbours and a triangle; `Valid`: valid coverages.
//!
//! A crate above takes a lemma by `use Rattle.greedy_run.proofs.FILE.{NAME}` in its `proofs/`. The files:
//!
//! - `Orders`: spots of which neither is past the other are one (`spots_same`).
//! - `Threads`: two paths from node to node that share an edge are one (`are_one`). `OneLine`: two lines with a common edge are one
//!   (`common_edge`), lines that have each edge are all lines (`covering`), and a vertex that is no node stands at one place
//!   (`one_place`).
//! - `Trails`: walks by places that go on where two edges meet, and how they end (`walk_ends`). `Loops`: a walk that is back: walks do
//!   not leave its points (`stays`), and its least point is its one node. `Ended`: one that ends at a node. `Listed`: such walks as
//!   lists (`line_of`). `Walks`: each edge stands in one line (`edge_line`), each vertex that is no node at one place of one
//!   (`vertex_line`), and the laws of walks (`walk_done`, `least_of_loop`).
//! - `Kept`: the neighbours of a place are what filtering gives (`before_is`, `after_is`). `NoNodes`: a removable point is no node.
//! - `OneRun`: one list of lines (`one_list`), one next point (`one_next`), one last state (`one_last`), one coverage
//!   (`one_simplified`), and a coverage from which nothing is removable is its own (`own_simplification`). `Holders`: in a valid
//!   coverage a point off the segments has one holder (`holder_is`).
//! - `Computed`, `Spots`, `Straightening`, `Borders`, `Blocked`, `BorderExamples`, `Halves`: the examples and instances.
#![tactic(auto)]

mod examples;
mod laws;

pub use examples::{instances, vectors};
pub use laws::{exhausted_law, holder_law, line_law, lines_law, neighbour_law, run_law, walk_law};
