//! Cases of the public calls of the base crates: predicates, trees, hot pixels, arenas, walks, runs and clearances, each with an answer worked out
//! by hand or with a plain search's.
//!
//! Its promise: none of its own. The tests stand in a crate above the calls that they try, so that they see what a caller sees, and so that a
//! change of a test proves nothing again.
#![tactic(auto)]

#[cfg(test)]
mod arenas;
#[cfg(test)]
mod clearances;
#[cfg(test)]
mod pixels;
#[cfg(test)]
mod predicates;
#[cfg(test)]
mod runs;
#[cfg(test)]
mod trees;
#[cfg(test)]
mod walks;
