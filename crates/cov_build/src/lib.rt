//! The polygons of the owners of regions, in canonical order: each edge-connected part of the regions of an owner is one polygon.
//!
//! Its promise, that of [`polygons`]: the polygons of each member correspond one to one to the parts of the regions that it owns. Each
//! is sound for its part: the sides of its rings are the edges with the part on one side only, each once, with the part on the left; the
//! rings are simple; the shell comes first and is counter-clockwise, and the holes are clockwise; and no corner has a side of the
//! boundary in its outside. Each ring begins at its least point, the holes ascend, and the polygons ascend by their shells. (It is
//! `IsBuilt` of `sound_polygons`.) Rings have three points or more, and all points are in range.
//!
//! The proof goes in the order of the program. In `proofs/`:
//!
//! - parts of the owners' regions: `OwnerLinks`, `RegionParts`;
//! - the edges on the boundary of each part: `BoundaryLists`, `Thinned`, `PartSides`, `PartLists`;
//! - walks along a boundary, and their rings: `Walking`, `LeastEnds`, `RingSides`, `Passed`, `FlatLists`, `Orders`; the rings as closed
//!   ways of half-edges, and which of them is the shell: `ClosedRings`;
//! - such rings, the shell first, are sound for the part: `SoundParts`, by the laws of `shell_laws` and `part_polygons`;
//! - the polygons of each member: `MemberLists`, `RoundFacts`, `BuiltParts`, `Once`, `BuiltPolygons`.
#![tactic(auto)]

mod boundary;
mod build;
mod part;
mod polygon;
mod ring;

pub use build::polygons;
