//! How wide a gap is: the clearance of a region, and whether it is narrower than a width. Widths are in half grid units.
//!
//! Its promise: `clearance` is the greatest w for which some grid point of the region is w half grid units or more from every edge,
//! and 0 where there is none (`IsClearance`); `narrow` says whether it is below w (`IsNarrow`). Nothing is estimated: a block of grid
//! points is left out only where no point of it can have more room than one that was found.
//!
//! The search halves a block that has all grid points strictly inside the box of the region's edges. From the room r of a block's
//! centre and its half diagonal s no point of it has more room than r + s, and no point in the region more than s - r where the centre is
//! off it, as the weights of the region's own edges over the centre tell; where the centre is in the region and r past s, the block is.
//! Where only one edge is nearer than r + 2·s + 1 of the centre, or two that face each other, and all corners of the block have their
//! feet inside, the depths at the corners bound those of all its points: between two edges they add up to about the width of the
//! corridor, so a long straight corridor is left out in a few long blocks. The depths of grid points are multiples of what divides
//! both coordinates of an edge, which tells a corridor of odd width from one that has half a unit more.
//!
//! Only edges nearer than r + 2·s + 1 are handed down to the halves, where they are many. The half with the more room at its centre is
//! searched first. A clearance is looked for in coarse blocks first, of each of which one grid point is reached, and then in finer
//! and finer ones, so that the search of all blocks begins with nearly the most room and leaves out almost all. `GapSearch` keeps the sides of each region, found in one pass; the functions `narrow` and `clearance` make one for a
//! single question.
//!
//! The files of `src/`: `own`, the edges of a region and what they weigh over a point; `block`, blocks of grid points; `near`, the room
//! of a block's centre and the edges near it; `depth`, how deep a point is in front of one edge, or of a pair; `facing`, whether one edge
//! or two bound what a block can have; `search`, the most room in a block; `gaps`, the regions of an arena. The files of `specs/`:
//! `Own`, `Search`, `Facing` and `Depth`.
#![tactic(auto)]

mod block;
mod depth;
mod facing;
mod gaps;
mod near;
mod own;
mod search;

pub use gaps::{GapSearch, clearance, narrow};
