//! Connected components: for each of so many numbered nodes the least node that links connect it with.
//!
//! Its promise: each node has the least node that a way of links leads to as its number, so that two nodes have one number exactly
//! where a way of links leads from one to the other.
//!
//! A crate above takes a lemma by `use Rattle.components.proofs.FILE.{NAME}` in its `proofs/`. The files:
//!
//! - `Ways`: connected is an equivalence (`connected-same`, `connected-sym`, `connected-trans`), and holds of each tie
//!   (`connected-tied`); both nodes of a tie are within, and a way stays within (`tied-within`, `connected-within`).
//! - `Numbers`: connected nodes have one number (`same_component`), nodes with one number are connected (`same_number`), the number
//!   of a node is its own number (`own_number`) and not past the node (`number-low`), and there is only one such list (`number-only`).
#![tactic(auto)]

mod component;
mod link;
#[cfg(test)]
mod tests;

pub use component::components;
pub use link::Link;
