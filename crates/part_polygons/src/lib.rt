//! The polygon of a part: its rings, the shell first.
//!
//! It has definitions and laws, and no code. Its promise: rings of half-edges that go round a part, each edge of the boundary in one
//! of them, once, give a polygon that is sound for the part. The laws are the public functions.
//!
//! The files of `specs/`: `Inside`, the half-edges with regions inside on their left, and the points of rings of them; `Laws`.
//!
//! A crate above takes a lemma by `use Rattle.part_polygons.proofs.FILE.{NAME}` in its `proofs/`. The files:
//!
//! - `Sides`: the sides of a ring's points are its half-edges (`sides_are`), and so are its edges, the points on its left and its
//!   corners. `Boundary`: the sides of all rings are the boundary (`go_round`). `Corners`: corners are free (`free_corner`).
//! - `Sound`: the polygon is sound (`sound`). `Begins`: a ring begins at its least point (`begins_at_least`). `PolygonPoints`: in the
//!   polygon, in a region inside, and even-odd are the same off the edges (`polygon_points`, `polygon_even_odd`).
//! - `PartTest`: the half-edges with a part of an owner on their left are a part (`part_test`). `TestExists`: some test tells
//!   the half-edges with regions inside on their left (`test_exists`).
#![tactic(auto)]

mod laws;

pub use laws::{part_test_law, point_law, sound_law};
