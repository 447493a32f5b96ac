//! A packed tree of boxes over a list of boxes, with one exact query.
//!
//! Its promise: `BoxTree::meeting` gives the numbers of all boxes that a probe reaches, ascending, and no others: `places` of the
//! list (`specs/Places`), by the test `reaches` (`specs/Probe`). So a loop over a list and a test is replaced by a loop over these
//! numbers where the probe reaches whatever passes the test. The order of the list is free; it is a query's time that wants boxes
//! which are near one another in the plane near one another in the list, as `curve` puts them.
//!
//! `BoxTree::search` shows a `Search` those boxes that may matter when their turn comes, as a nearest one is looked for.
//!
//! A crate above takes these laws by `use Rattle.box_tree.proofs.FILE.{NAME}` in its `proofs/`:
//!
//! - `PlaceLaws`: `place_in` (k is a place exactly where the box with the number k passes), `place_below`, `places_ascend`.
//! - `Touching`: `is_touching-is` (what the test tells), `touch_upward`, `touch_wider`.
//! - `CommonPoint`: `in_box-on` (a point of a segment is in its box), `touch-common` and `touch-common_of_segments` (boxes with a
//!   common point touch; so do those of two segments with one).
//! - `Reached`: `over_reached` (an edge over the midpoint of a segment is reached from there by `Above`), `pixel_reached` (a centre
//!   that is near the segment's line and within its box is reached by `Pixels`), with `inside_up`, `inside_down`, `reach_of-up` and
//!   `reach_of-down` for segments that go up or down.
//! - `Upward`: `reaches_upward` (a probe that reaches a box reaches each box about it). `Within`: `inside_refl`, `inside_trans`.
//! - `Under`: a box is within the hulls above it (`inside_above`).
#![tactic(auto)]

mod hulls;
mod morton;
mod narrow;
mod probe;
mod rect;
mod scan;
mod search;
mod tree;

pub use hulls::hull_of;
pub use morton::curve;
pub use narrow::narrow_into;
pub use probe::Probe;
pub use rect::Rect;
pub use search::Search;
pub use tree::BoxTree;
