//! Taking a point out of a shared border: the laws by which a coverage stays valid.
//!
//! It has definitions and laws, and no code. Its promise: where the triangle of two neighbouring segments of a valid coverage is
//! free of all other ends, the coverage without the point between them is valid; so a valid coverage, simplified, is valid. The laws
//! are the public functions.
//!
//! The files of `specs/`: `Ear`, triangles of two neighbouring segments and what stays out of them; `Exchange`, the uses without
//! the point between the two, said by sums; `Laws`.
//!
//! A crate above takes a lemma by `use Rattle.removal_laws.proofs.FILE.{NAME}` in its `proofs/`. The files:
//!
//! - `Cuts`: points between points (`between-trans`, `only_first`), and where a way leaves the points of three half-planes (`leave`).
//! - `Inside`: a closed triangle by the signs of its three sides (`inside-within`, `within-inside`), and its points on a side (`on_first`).
//! - `Pasch`: a segment that meets two sides in ends alone has no point in the triangle but such an end (`pasch`). `Ear`: so it meets the
//!   third side in ends alone (`ear`).
//! - `Odd`: an odd number of sides is over points inside alone (`odd`).
//! - `Inner`: points of the triangle off ac are joined by one step (`inner`), and with a point out of it (`way_out`); a flat
//!   triangle is ac (`flat_third`).
//! - `Counts`: sums over lists, and how often a member uses a segment. `Exchange`: what the new uses are (`new_is`), that each
//!   member holds what it held out of the triangle (`holders_kept`), and that they are valid (`valid_after`).
//! - `Walks`: sums round a closed ring with and without one point (`ring_kept`). `Rings`: the exchange on a ring
//!   (`ring_without_exchange`). `Members`: on a coverage (`coverage_exchange`), which stays valid (`coverage_valid`).
//! - `Steps`: a ring with two different points keeps two (`coverage_keeps`), and points are taken out one after the other
//!   (`coverage_without_more`), so the state after a valid one with an ear is valid (`step`).
//! - `Bridge`: the triangle of a removable point is free of the current segments that do not end at it (`free_ends`). `Chains`: the
//!   edges of a chain with and without a point that stands once. `Removable`: the triangle is an ear of the state (`ear_of`).
//! - `RunStates`: each state of the run is valid (`run_sound`), and so is the simplified coverage (`simplified_valid`).
#![tactic(auto)]

mod laws;

pub use laws::{
    ear_law, free_ends_law, inner_law, odd_law, removable_ear_law, removal_law, rings_law,
    run_state_law, steps_law,
};
