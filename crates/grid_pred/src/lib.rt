//! Exact predicates on grid points and segments: on which side a point lies, whether it is on a segment, how
//! two segments meet, in which point they cross, whether an edge is over or under a point, which of two edges under a point is nearer,
//! how long an edge is, and how far a point is from it.
//!
//! Its promise: each answer is the one that the definitions of the plane give. Nothing is rounded but roots, lengths and
//! squared distances, which are rounded down.
//!
//! Of coordinates in range a turn fits 64 bits, and so do the tests over and under an edge and four times a squared distance; `size_law` says how large each number is.
//! `exact` has the steps of whole-number arithmetic that these and the crates above are made of.
//!
//! A crate above takes a lemma by `use Rattle.grid_pred.proofs.FILE.{NAME}` in its `proofs/`:
//!
//! - `Order`: what `<=` and `<` of coordinates say of their sweep values, as `below` requires them (`le_from`, `lt_from`, ..).
//! - `Small`: what a step of `exact` answers, as the code reads it (`difference_is`, `times_read`, `plus_is`, `minus_is`, ..).
//! - `Sizes`: how large the numbers are (`turn_within`, `rise_within`, ..).
//! - `Upper`: an edge is over the upper side point of a segment exactly where it is over its midpoint (`over_upper-is_over_mid`).
#![tactic(auto)]

mod along;
mod cross;
pub mod exact;
mod incidence;
mod intersection;
mod laws;
mod measure;
mod meeting;
mod orientation;
mod ray;
mod room;
mod under;

pub use along::below;
pub use cross::Cross;
pub use incidence::on_segment;
pub use intersection::crossing;
pub use laws::size_law;
pub use measure::{edge_len, root};
pub use meeting::{meets_badly, relation};
pub use orientation::{turn, turn_in_range, turn_to};
pub use plane::{Badness, Contact};
pub use ray::{SLOPE, over, over_half, over_mid, over_upper, rise};
pub use room::{at_least, reach};
pub use under::{is_nearer, is_under};
