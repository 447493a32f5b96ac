//! The polygons of owners: edge-connected parts, simple rings, sound polygons, and what clean answers.
//!
//! It has definitions, laws and examples, and no code. Its promise: a polygon is sound for a part by its edges, its rings and its
//! corners alone, and none of the definitions knows a half-edge, a walk or an area. The laws are the public functions `part_law` to
//! `cleaned_law`; `vectors` has examples with numbers, and `instances` has small cases of what does not compute, up to one
//! square that clean leaves as it is.
//!
//! The files of `specs/`, lowest first:
//!
//! - `Parts`: edge-connected parts, simple rings, angles, and polygons that are sound for a part.
//! - `Cleaned`: the polygons of owners, the canonical order, and the cleaned coverage. `Holding`: which points the answers hold.
//! - `Laws`; `Examples`; `Square`: the instances over one square; `Instances`: those of parts and polygons.
//!
//! A crate above takes a lemma by `use Rattle.sound_polygons.proofs.FILE.{NAME}` in its `proofs/`. The files:
//!
//! - `SameParts`: parts are disjoint (`part_equivalence`). `Reached`: the part of an owned region exists (`part_exists`).
//! - `NextWays`: with free corners the side that follows a side is one (`one_next_way`). `Rotated`: rings that begin elsewhere, and
//!   two rings that go on alike are one (`alike_same`). `OnePolygon`: a part has one polygon (`one_polygon`). `OneCleaned`: owners
//!   have one coverage that is built of them (`one_built`), and a coverage is cleaned in one way (`one_cleaned`).
//! - `Ways`: lists that are one list in another order, by a test (`reordered`, `ways_reordered`).
//! - `Angles`: the angle between two half-edges that leave a vertex is the sector between them (`angle_is_sector`).
//! - `Computed`, `SquareCleaned`, `SquareHolding`, `Polygons`: the examples and instances.
#![tactic(auto)]

mod examples;
mod laws;

pub use examples::{instances, vectors};
pub use laws::{angle_law, cleaned_law, part_law, polygon_law};
