//! The plane: rational points, segments and their lengths, the leaning ray and what it crosses.
//!
//! Its promise: each definition stands with a law that makes it believable, and none of them knows an
//! index, a sweep or a graph. The laws are the public functions `sweep_law`, `over_law`, `on_law`,
//! `contact_law`, `same_point_law` and `root_law`, and `vectors` has examples with numbers.
//!
//! A crate above takes a lemma by `use Rattle.plane.proofs.FILE.{NAME}` in its `proofs/`. The files, lowest first:
//!
//! - `Points`: one point as two fractions (`same_point-sym`, `same_point-trans`, ..), points between two points
//!   (`first_between`, `between-sym`, `between_by` from whole weights, ..).
//! - `Forms`: linear forms a·x + b·y + c·d, at a mean (`form-between`) and their signs between two points.
//! - `Sides`: turns when points are exchanged, and the side of a point (`side-at_coord`, `side_zero-on`, ..).
//! - `Sweeps`: the order of sweep values, on grid points, on a segment, on its line (`on-is`, `same_from_sweep`, ..).
//! - `Over`: what "over" says of numbers (`IsOver`, `over-is`), and that the ray meets the edge (`over-meets_ray`).
//! - `Same`: each test answers the same of one point as two fractions (`over-same`, `holds-same`, ..).
//! - `Contacts`: a contact is the only one (`contact_unique`).
//! - `Meeting`, `Along`, `Middle`, `MeetsBadly`: segments with opposite sides meet in one point, segments on one
//!   line, the middle of two common points, and when a contact is a bad one.
//! - `Roots`: the root is the whole part of the square root (`root_is`), and the only such number (`root_unique`).
#![tactic(auto)]

mod contact;
mod laws;

pub use contact::{Badness, Contact};
pub use laws::{contact_law, on_law, over_law, root_law, same_point_law, sweep_law, vectors};
