//! The overlay of two coverages, from its definition alone: it is valid, and each point is held by the pair of members that hold it.
//!
//! It has definitions and laws, and no code but a struct that contracts speak of. Two coverages are overlaid as one coverage, of the
//! members of the first and then those of the second: their segments are noded together, and a region has the pair of the least member
//! of each in its label. Its promise: off the jointly noded edges a point is held by the member of a pair exactly where the pair's members
//! are the least snapped ones that hold it, one of each coverage, and by one member at most; what is built is valid; and two coverages
//! have one overlay. The laws are the public functions.
//!
//! The files of `specs/`, lowest first: `Pairs`, the pairs of labels and of regions; `Overlaid`, the overlay as pairs and polygons, and how
//! it holds points; `Joint`, the uses of two coverages as one; `Laws`; `Examples`, labels, and two squares that overlap.
//!
//! A crate above takes a lemma by `use Rattle.overlaid_laws.proofs.FILE.{NAME}` in its `proofs/`. The files, lowest first:
//!
//! - `Joint`: the uses of two coverages as one (`joint_uses`), and their range (`joint_in_range`).
//! - `LeastPairs`: the first of an ascending list is the least; the pair of a label is that of the least members that pass (`pair_is`, `is_pair`).
//!   `BelowPairs`: its members are members of the two (`pair_below`).
//! - `OnePairs`: a pair stands at one place (`one_place`), and there is one list of pairs (`one_pairs`, `one_joint_pairs`).
//! - `SnappedLabels`: a region has the label of its points after snapping (`region_label`), and outer points have none (`outer_empty`).
//! - `PairOwners`: the outer region has no pair (`outer_pair`), and owners by pairs are owners that polygons can be built of
//!   (`member_owners`), of which there is one choice (`one_owning`).
//! - `Held`: what is built is valid (`overlaid_valid`), and holds each point by its pair (`overlaid_holds`). `OneOverlaid`: there is one
//!   overlay (`one_overlaid`).
//! - `Computed`, `Middle`, `OverlapPairs`, `OverlapBuilt`: the examples.
#![tactic(auto)]

mod examples;
mod laws;
mod pair;

pub use examples::{instances, vectors};
pub use laws::{joint_law, overlaid_law, pair_law};
pub use pair::Pair;
