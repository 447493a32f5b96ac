//! The union of a valid coverage: what its members hold, as one member.
//!
//! Its promise: `union_of` gives a valid member that holds each point off the segments of the coverage exactly where some member of the
//! coverage holds it. No point is moved: it is built of the coverage's own segments, as sound polygons of the parts of all regions that
//! have a label (`IsUnited` of `specs/United.antt`).
//!
//! Where two members have a segment it is within the union, so only the others are built of: the rim, which is what one member that has
//! all segments has an odd number of times. The regions between the segments of the rim are the parts of the union.
//!
//! The files of `proofs/`, lowest first: `ByLabel`, owners by labels are those of a union; `Merged`, what the one member holds; `Times`,
//! `Lasts`, `Cancelled`, the loop in which two equal segments cancel, and `RimEdges`, so what is left is the rim; `Existing`, a valid
//! coverage has an overlay (`overlay_exists`); `Parts`, `OnRim`, parts between the segments of the rim and those of the coverage have one
//! boundary (`one_boundary`); `RimUnion`, so what is built of the rim is built of the coverage (`rim_built`); `UnionOverlay`, the overlay
//! of the rim, and what is built of it; `OneUnited`, that there is one union in canonical order (`one_united`).
#![tactic(auto)]

mod owners;
mod rim;
mod union;

pub use union::union_of;
