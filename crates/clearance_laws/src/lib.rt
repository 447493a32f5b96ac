//! The laws on which a search for the clearance of a gap by blocks of grid points stands.
//!
//! It has definitions and laws, and no code. Its promise: each step of such a search is a law of points and edges, and none knows an
//! order of the blocks, a heap or a root. A point of the search is on the half grid: a `Coord` c in doubled coordinates stands
//! for c/2. The laws are the public functions.
//!
//! The files of `specs/`: `Near`, points within s of one another; `Block`, blocks of grid points and their centres;
//! `Inside`, the test on the sides of a region's edges; `Facing`, edges that bound the room in a block, alone or two that face each
//! other; `Laws`.
//!
//! A crate above takes a lemma by `use Rattle.clearance_laws.proofs.FILE.{NAME}` in its `proofs/`. The files:
//!
//! - `Near`: within s of a point room changes by s at most (`room_near`, `room_bound`), so far edges are not needed (`handed_down`,
//!   `handed_down-far`).
//! - `Along`: from a point of an edge along it to its middle and its upper side. `Inside`: so what the region's own edges weigh over a
//!   point off them tells whether it is in the region (`inside_is`), and the other edges weigh nothing (`beside_sum`).
//! - `Outside`: a way that meets none of the region's own edges stays in it, which bounds the room on both ends of one that leaves
//!   it (`room_to_outside`, `stays_inside`).
//! - `Sides`: so a point is on the region's side of its nearest own edge, if its foot is inside that: its way there is in the region
//!   until it is in the flat triangle beside the edge (`above_nearest`, `below_nearest`).
//! - `Corners`: what linear forms say at the corners of a block they say at each of its points (`shallow_within`, `facing_within`).
//!   `Facing`: so a block has no room where one edge alone bounds it, or two that face each other (`no_room_alone`, `no_room_between`).
//! - `Blocks`: two parts cover a block (`across_covered`, `upwards_covered`, `in_whole`), and its points are near its centre
//!   (`near_centre`).
#![tactic(auto)]

mod laws;

pub use laws::{
    blocks_law, facing_law, handing_down_law, inside_law, lipschitz_law, outside_room_law,
};
