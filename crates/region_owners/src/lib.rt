//! Gaps and owners of regions: how narrow a gap is, what a merge rule is told of a region, and who owns a region.
//!
//! It has definitions, laws and examples, and no code but the structs that contracts speak of. Its promise: each definition
//! asks for grid points, adds up over edges or folds a rule over the shared regions, and none knows a search, a label that is
//! stored or an index. The laws are the public functions `clearance_law` to `owner_law`; `vectors` has examples with numbers,
//! and `instances` has small cases of what does not compute.
//!
//! The files of `specs/`, lowest first:
//!
//! - `Gap`: gaps, the room of a grid point, the clearance of a region. `Box`: the edges of a region, and the box of them.
//! - `Candidates`, `Facts`: the candidates for a region, by ascending member, and what a rule is told of it.
//! - `Owner`: lawful rules, the four rules, a rule with a state over the shared regions, and who owns a region.
//! - `Laws`; `Examples`; `Square`: the instances over one square; `Frame`: a gap.
//!
//! A crate above takes a lemma by `use Rattle.region_owners.proofs.FILE.{NAME}` in its `proofs/`. The files:
//!
//! - `OwnEdges`: a region that is not outer has an edge of its own under and over each of its points (`edge_under`, `edge_over`), by
//!   what its edges over a point weigh, which is 1 in the region (`own_sum`, for any test on sides: `IsSideTest`). `RegionBox`: so its points are in the box of its edges (`in_box`).
//!   `Searched`: and it has a clearance (`clearance_exists`).
//! - `StillNear`: a point on the way to a near one is as near (`not_past`). `NearestOwn`: so only a region's own edges can be nearest to
//!   a point of it (`room_by_own`, `own_search`): a way to another edge that meets none of these would leave the region by none.
//! - `Clearances`: one clearance (`clearance_unique`), and narrow by it (`narrow_is`).
//! - `Picks`: the first best place (`first_best_is`), whole numbers rank by a key (`ints_rank`), what the four rules pick (`picks`).
//!   `Held`: the candidates ascend (`ordered`), the four rules are lawful (`lawful`), and a region that is held has an owner
//!   (`held_owner`).
//! - `Neighbours`: an edge has a length (`has_length`), a gap has a region that is held beside it (`held_beside`) and so a neighbour
//!   (`gap_neighbour`). `Owners`: one owner, which is a member (`owner_below`), and owners exist (`owners_exist`, `no_width`).
//! - `Boxes`: points of a box that no edge enters are joined (`box_joined`). `Computed`, `SquareBox`, `SquareClearance`, `SquareOwners`, `Frame`: the examples and instances.
#![tactic(auto)]

mod candidate;
mod examples;
mod facts;
mod laws;

pub use candidate::Candidate;
pub use examples::{instances, vectors};
pub use facts::Facts;
pub use laws::{
    box_law, candidate_law, clearance_law, lawful_law, owned_law, owner_law, pick_law, room_law,
};
