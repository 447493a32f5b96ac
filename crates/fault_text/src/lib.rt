//! A map of the faults of a coverage, as GeoJSON (RFC 7946): one feature for each segment that is marked, for each region that several
//! members hold, and for each gap.
//!
//! Its promise, that of [`map_text`]: the bytes are exactly the written form of the features, in their order, whatever they are and at any
//! scale (`map_bytes` of `specs/MapText.antt`).
#![tactic(auto)]

mod feature;
mod geometry;
mod map;
mod properties;
mod written;

pub use feature::MapFeature;
pub use map::map_text;
