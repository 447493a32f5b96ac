//! The map of the faults of a coverage: each segment that is marked, each region that several members hold and each gap, with its shape.
//!
//! Its promise, that of [`fault_map`]: first the marks of `cov_marks`, by ascending place; then the regions of the snapped members that
//! several of these hold, by ascending number, each with its label, its doubled area and its polygon; and then the gaps, with doubled
//! area, clearance and the members that border on them (`IsFaultMap` of `specs/FaultMap.antt`). The polygon of a region is sound for it
//! alone and canonical (`IsRegionPolygon`). Two maps of a coverage have one written form ([`one_map_law`]).
//!
//! The files of `proofs/`: `Listing`, a list of regions while it grows; `Single`, the one polygon of an owner of one region; `Pieces`,
//! polygons of the regions piece by piece; `Borders`, the members beyond the sides of a region; `Appended`, features at the end of
//! others; `Overlays`, the overlay that labels are those of; `OneFeature` and `OneMap`, that there is one map.
#![tactic(auto)]

mod bordering;
mod features;
mod laws;
mod listed;
mod map;
mod polygons;

pub use laws::one_map_law;
pub use map::{FaultMap, fault_map};
