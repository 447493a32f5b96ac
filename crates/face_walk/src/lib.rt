//! The regions of the plane between the edges of an arena, each with the number of its least side.
//!
//! Its promise: two sides have one region exactly where their side points are joined, and the outer region is that of all points that
//! are joined with the point past the range.
//!
//! The sides of a boundary cycle have one region: each is joined with the one that follows it. Cycles are tied by links: where the
//! sector of a cycle at its least vertex has the way straight down the ray in it, the cycle is linked to that of the upper side of the
//! nearest edge below the vertex, or to the place past the range. The regions are the connected components of cycles, each with its
//! least side.
//!
//! These links are enough: a side that leaves a vertex over the ray is on a cycle that is linked down from there, or that has a side
//! that leaves an earlier vertex (`IsWalk` of `region_laws`). They are few: of the cycles of one connected piece of the drawing only the
//! one round its outside opens down at its least vertex. Where they are more than a few, the nearest edges below are found by a search in
//! a tree over the boxes of the edges, which leaves out what is wholly below the nearest one so far. No clause tells of the time.
//!
//! A crate above takes a lemma by `use Rattle.face_walk.proofs.FILE.{NAME}` in its `proofs/`. The files, lowest first:
//!
//! - `Nearer`: of two edges below a point one is nearer, and not both (`nearer-asymm`, `nearer-total`, `nearer-trans`, `one_nearest`).
//! - `Settling`: the nearest edge so far, and what one more edge changes.
//! - `Depth`: the columns and the rows of an edge under a point, and how far down the ray meets it (`under_row`, `nearer_by_row`).
//! - `Searching`: what a box rules out (`settled_outside`), and how the places and the boxes of the tree are made.
//! - `Places`: sides and the place past the range (`IsPlace`, `some_side`, `some_place`).
//! - `Marking`, `Cycles`: a walk along next comes back to its start, and marks a cycle; so all cycles are found.
//! - `LinksDown`, `Linking`: the link down from a side is the only one, and where there is none the first of the cycle leaves an earlier
//!   vertex.
//! - `Numbering`: the least sides of the components are the regions (`numbered`). `Reading`: what the table says.
#![tactic(auto)]

mod below;
mod cycle;
mod edge_tree;
mod links;
mod region;
mod search_below;
#[cfg(test)]
mod tests;

pub use region::Regions;
