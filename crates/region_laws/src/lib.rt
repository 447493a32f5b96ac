//! Regions of the plane between edges: what is joined with what, by the edge below a point and by links between sides.
//!
//! Its promise, for any list of edges in range that meet in ends alone: a point off the edges is joined with the upper side point of the
//! nearest edge below it, and is outer where there is none; and, where no edge stands twice, two sides have joined side points exactly
//! where links tie them; and each region is reached from each other one over edges. It has laws and no code: each is what a call that
//! does nothing ensures.
//!
//! A side is linked to the side that follows it round the region, and, where the sector at its vertex has the way straight down the ray
//! in it, to the upper side of the nearest edge below the vertex, or past the range. A link down is enough where no side of the same
//! region that was tied to this one in another way leaves an earlier vertex: so one link for each boundary cycle, at its least vertex.
//!
//! A crate above takes a lemma by `use Rattle.region_laws.proofs.FILE.{NAME}` in its `proofs/`. The files, lowest first:
//!
//! - `Down`: a point a little past another one by the sweep (`past`), and points down the ray (`down`).
//! - `Edge`: down the ray from just past the point to just above the edge, and through the flat triangle to its upper side point
//!   (`below_joined`); with no edge below, to below the range and round it (`none_below_outer`). What the test says (`under-is`).
//! - `Links`: the point near a vertex, straight down the ray, has the edges below it that the vertex has (`link_down`, `link_out`).
//! - `Nearest`: edges below a point are ordered, so there is a nearest one or none (`nearest_or_none`).
//! - `Balance`: for a test on sides that next keeps, what lower sides weigh more than upper ones is balanced, by renumbering along next
//!   (`balanced_sides`).
//! - `Outwards`: what each half-edge has from the next one after its twin, and one over the ray from those that leave earlier vertices, all
//!   have (`of_all`); so some link leads past the range (`some_out`), and a test that crossings keep is the same on all sides
//!   (`crossed_same`).
//! - `Kept`: so the crossing sum less a side's own weight is one number on all sides, and a test that a walk keeps is the same on joined
//!   sides (`walk_test_joined`); one that all links keep is such a test (`kept_joined`).
//! - `Numbered`: the same for numbers (`walk_joined`, `outer_number`, `joined_number`), and when they are the numbers of the regions
//!   (`fewer_links_regions`, `walk_regions`, `one_numbering`).
//! - `Exists`: merging the two sides of each link gives such numbers (`regions_exist`).
#![tactic(auto)]

mod below;
mod examples;
mod link;
mod number;
mod side;

pub use below::below_law;
pub use examples::below_examples;
pub use link::link_law;
pub use number::number_law;
pub use side::side_law;
