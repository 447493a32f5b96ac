//! The cleaned coverage, from its definition alone: it is valid, and each point is held by the owner of its region.
//!
//! It has definitions and laws, and no code. Its promise: off the edges what is built of owners holds a point by the owner of the
//! region there and by no other member, and is valid; so is the cleaned coverage, where the owner is told by the members that hold
//! the point after snapping, and so is the union of a valid coverage. The laws are the public functions.
//!
//! The files of `specs/`: `Owning`, what the laws ask of the owners of regions; `HeldByLabel`, how a point with a label is held; `Laws`.
//!
//! A crate above takes a lemma by `use Rattle.cleaned_laws.proofs.FILE.{NAME}` in its `proofs/`. The files, lowest first:
//!
//! - `Sums`: sums over joined and numbered lists, in either order (`sum_exchanged`), and of tests that one element passes at most
//!   (`at_most_one`). `MemberUses`: sums over the uses of a coverage that count one member (`uses_at`, `uses_none`).
//! - `PartEdges`: any sum over the uses of a polygon is one over the edges with its part on one side alone (`part_sum`). `Level`: an odd
//!   number of these is over a point exactly where its region is in the part (`part_parity`).
//! - `OwnedPolygons`: a region is in the part of one polygon of its owner (`odd_owned`, `owned_odd`), and an edge on the boundary of one
//!   at most (`boundary_at_most`).
//! - `Built`: a member holds a point exactly where it owns its region (`held_is`), has a segment once at most (`used_once`), and only
//!   edges (`in_edges`). `Holders`: a point off the edges has a region or is outer (`region_or_outer`), and is held by the owner
//!   (`built_holds`). `Valid`: what is built is valid (`built_valid`).
//! - `SnappedLive`: the overlay of a coverage in range is live (`snapped_live`). `Cleaned`: the outer region has no label (`outer_label`) and
//!   no owner (`member_owners`), so the laws are those of the cleaned coverage (`cleaned_valid`, `cleaned_holds`). `ByLabel`: what the
//!   label of a point tells (`held_by_label`). `Union`: the union of a valid coverage (`union_holds`).
#![tactic(auto)]

mod laws;

pub use laws::{built_law, cleaned_coverage_law, held_by_label_law, union_law};
