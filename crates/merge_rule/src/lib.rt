//! Merge rules: which of the members that hold a shared region gets it.
//!
//! Its promise: a rule picks one of the candidates that it is told of, by these facts and by the state that it keeps from
//! region to region, and by nothing else. Generic code may rest on the three meanings of `MergeRule` and its law alone.
//!
//! What the four rules pick is defined in `region_owners`, and its `pick_law` says it again as the first best place.
//!
//! The files of `specs/`: `RuleState`, what a rule keeps; `InTurn`, a rule with a state, for trying what is generic over its
//! rule. A crate above needs no lemma of this one: the law of a bound `R: MergeRule` is `g.met.R.MergeRule.lawful`.
#![tactic(auto)]

mod by_area;
mod by_border;
mod by_index;
mod rule;

pub use by_area::{GreatestArea, LeastArea};
pub use by_border::LongestBorder;
pub use by_index::LeastIndex;
pub use region_owners::{Candidate, Facts};
pub use rule::MergeRule;

#[cfg(test)]
mod tests;
