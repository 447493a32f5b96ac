//! Where points lie in a coverage, and the files that list points.
//!
//! Its promise: `Locator::at` answers Edge exactly where the point lies on a segment of the coverage, else the least member that holds
//! it, else Nowhere (`specs/Where`). The coverage need not be valid. `read_points` answers the points of a points file exactly where no
//! line of it has a fault, and otherwise the first fault (`specs/Points`), unless memory runs out.
//!
//! A member holds a point where an odd number of its rings does. The rings that hold it are found one after the other, by ascending
//! number and so by ascending member, and the number of them is counted for one member at a time: that takes no memory. Only a ring
//! whose box has the point can hold it. A ring is walked along its uses, in blocks: one whose box is beside or below the point does not
//! count, and one that is above it counts by its two ends.
//!
//! `Locator::places` answers for many points what `at` answers for each, in less time: it takes some points at once that are neighbours
//! along a curve, finds the rings near the box about them, and cuts each of these into blocks that are beside or above the box as a
//! whole and single uses near it. Each of the points then looks at these alone.
//!
//! A crate above takes a lemma by `use Rattle.cov_locate.proofs.FILE.{NAME}` in its `proofs/`. The files, lowest first:
//!
//! - `Hulls`: the hulls of boxes, so many at a time. `Placing`: what a box beside or above a grid point tells of the segments in it.
//! - `Passing`: parts of a run (`above_part`, `clear_joined`). `Numbering`, `RingBoxes`: how the index over the rings is made.
//! - `Blocks`: the blocks of a run, one after the other. `NearRings`: the rings near a box, and the search for them. `Tallying`: what
//!   they tell of a point (`told_all`). `InPlaces`: places that are told in any order (`told_all`).
//! - `NextRing`: the next ring that holds a point (`next_joined`, `next_all`). `LeastHolder`: one member after the other (`seen_more`,
//!   `settled_where`). `OneWhere`: a point lies in one place (`one_where`).
//! - `Positions`, `Words`: the words of a line (`first_word`). `Numbers`, `Capped`: numbers with a capped size (`point_in`, `number_is`).
//!   `Lines`: one line after the other (`read_more`).
#![tactic(auto)]

mod block;
mod holder;
mod level;
mod line;
mod locator;
mod near;
mod next_ring;
mod place;
mod places;
mod points;
mod ring_index;
mod run;
mod tally;

pub use locator::Locator;
pub use place::Where;
pub use points::{PointsError, PointsFault, read_points};
