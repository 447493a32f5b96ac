//! Half-edges round a vertex, and the sector between a half-edge and the one that follows it.
//!
//! Its promise: the side points on the left of a half-edge and of the one that follows it are joined, for any list of
//! edges in range that meet in ends alone. It has laws and no code: each is what a call that does nothing ensures.
//!
//! The way goes from the middle of the half-edge through the flat triangle beside it to a point near the vertex, in short steps
//! clockwise round the vertex, and through the flat triangle beside the next half-edge to its middle. A step that leaves the half of
//! the ways forwards, or of those back, goes over a point straight up or down the ray, where no half-edge leads.
//!
//! A crate above takes a lemma by `use Rattle.sector_laws.proofs.FILE.{NAME}` in its `proofs/`. The files, lowest first:
//!
//! - `Lines`: a way on one side of a line misses an edge on the other (`parted_above`); forms made of the sweep value and the side (`mix`).
//! - `Sliver`: nothing that meets an edge in ends alone comes into the flat triangle on a side of it (`sliver_free`, `sliver_clear`).
//! - `Near`: the points within 2^-30 of a vertex (`near`); edges that do not end there are far (`far_misses`), and those that do are missed
//!   where their other end is not in the sector of the way (`parted_misses`). `Vectors` says when that is, over plain numbers.
//! - `Leaving`: the half-edges of a vertex as ways from it, on the left or the right of the ray (`heading_same`, `heading_other`).
//! - `Turns`: clear steps round a vertex, to the ray, from it, within a half, and round an empty half (`to_ray`, `from_ray`, `in_half`,
//!   `to_ahead`, `from_ahead`). `Ends`: they begin and end in the flat triangles. `Angles`: sectors in cases.
//! - `Sectors`: the law (`sector_joined`, `next_joined`). `Order`: the order by angle (`one_or_before`, `before-asymm`, `before-trans`).
//!   `Next`, `Exists`: there is one next (`one_next`, `next_of_one`, `some_next`). `Shapes`: sectors by turns alone.
//!   `Numbers`: half-edges by number. `Fans`: neighbours in a fan.
//! - `Turning`, `AtVertex`: the order of directions, of half-edges of any vertices, by the way in which they lead, counter-clockwise
//!   from straight down. It is total, and at one vertex it is the order by angle, in which two that are equal are one (`direction_law`).
#![tactic(auto)]

mod angle;
mod direction;
mod examples;
mod number;
mod sector;

pub use angle::{angle_law, fan_law, shape_law};
pub use direction::direction_law;
pub use examples::sector_examples;
pub use number::number_law;
pub use sector::{next_law, sector_law};
