//! Overlays of polygon coverages: noded edges, the regions on their two sides, labels and measures.
//!
//! It has definitions, laws and examples, and no code but a struct that contracts speak of. Its promise: each definition
//! counts crossings, asks for lists of points or adds up over edges, and none knows a half-edge, a cycle, a sweep, a heap or an
//! index. The laws are the public functions `odd_uses_law` to `valid_law`; `vectors` has examples with numbers, and `instances`
//! has small cases of what does not compute.
//!
//! The files of `specs/`, lowest first:
//!
//! - `Noding`: the distinct, odd and live edges of any list of uses, and the snapped members, which are such a list.
//! - `Overlay`: edges, uses and a numbering of the regions in one record, with the labels of regions, and the overlay of a coverage.
//! - `Measure`: doubled areas and borders, as sums over the edges of an overlay; lengths are those of `plane`.
//! - `Live`: what an overlay of a coverage keeps. `Ascending`: lists that ascend by a number.
//! - `Laws`; `Examples`; `Snaps`, `Square`: the instances.
//!
//! A crate above takes a lemma by `use Rattle.arrangement.proofs.FILE.{NAME}` in its `proofs/`. The files:
//!
//! - `OddUses`: where all uses are held, the odd ones are (`odd_uses_law`, `live_uses_law`); an odd edge is used (`odd_used`); the
//!   odd uses are distinct (`distinct_uses`), and any sum over them has the parity of that over all uses (`same_parity`).
//! - `OneNoding`: uses in range have one noding (`one_noding`); two lists in order with the same elements are one (`same_ordered`).
//! - `Labels`: some member holds just one side of a live edge (`sides_differ`), and none the point past the range (`far_free`).
//! - `OneOverlay`: uses have one overlay (`one_overlay`), and uses in range one of the snapped members (`one_snapped_overlay`).
//! - `Numberings`: the sides of edge k (`upper_side`, `lower_side`).
//! - `LiveOverlays`: an overlay of even uses is live (`live_overlay`), a region has the label of its points (`label_is`), and an edge
//!   a holder on one side alone (`side_holder`). `Ascending`: labels ascend (`label_ascends`).
//! - `SnappedPlanar`: the edges of a snapped overlay are in range and meet in ends alone (`snapped_planar`).
//! - `ValidLive`: the distinct segments of a valid coverage are its live edges (`valid_live`, `valid_overlay`).
//! - `PointOrders`: lists of points of which neither is past the other are one (`points_same`).
//! - `Short`: facts of short lists, element by element or by a test. `Computed`, `HalfCrossing`, `Squares`, `SquareRegions`,
//!   `SquareOverlay`: the examples and instances.
#![tactic(auto)]

mod examples;
mod laws;
mod odd_use;

pub use examples::{instances, vectors};
pub use laws::{label_law, live_overlay_law, noding_law, odd_uses_law, overlay_law, valid_law};
pub use odd_use::OddUse;
