//! Overlay labels: which members hold the points of each region of the plane, how large regions and members are, and how long the borders
//! between them.
//!
//! Its promise: the label of a region is that of each of its points, and doubled areas and borders are the exact sums of the definitions.
//! No label is computed from a point: the outer region has the empty label, and labels spread from it over the edges, across each of
//! which exactly the members change that are odd for it.
//!
//! A crate above that has to show that a number is a region takes `answered_region` or `region_among` of `proofs/Overlays.antt`: what
//! `Regions::region_of` answers is one.
#![tactic(auto)]

mod label_table;
mod labels;
mod laws;
mod measure;
mod owned_side;
mod sided;
mod spread;
mod toggle;

pub use labels::Labels;
pub use laws::label_law;
pub use owned_side::OwnedSide;
