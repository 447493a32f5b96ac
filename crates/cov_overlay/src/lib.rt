//! The overlay of two valid coverages: where a member of the first meets a member of the second.
//!
//! Its promise: `overlay` gives the pairs of members that meet, ascending, and for each pair the valid member that holds a point off the
//! jointly noded edges exactly where the first of the pair is the least snapped member of the first coverage that holds it, and the second
//! that of the second coverage (`IsOverlaid` of `overlaid_laws`).
//!
//! Both coverages are noded as one, in which the members of the second come after those of the first, so they are snapped together. Of
//! the regions between the live edges each has the pair of the least members in its label, and each pair becomes the polygons of the parts
//! of its regions.
//!
//! The files of `proofs/`, lowest first: `PairOrder`, the order of pairs; `PairPlaces`, where the search for a pair ends; `LabelPair`, the
//! pair of a label that is cut in two; `SomePairs`, the pairs of the sides that have one; `SidePairs`, the pairs of sides; `JointUses`, the
//! uses of both coverages; `BuiltPairs`, that the pairs of the sides are those of the regions, and that what is built is the overlay.
#![tactic(auto)]

mod error;
mod joint;
mod overlay_of;
mod pair_list;
mod region_pair;

pub use error::OverlayError;
pub use overlaid_laws::Pair;
pub use overlay_of::{Overlaid, overlay};
