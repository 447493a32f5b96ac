//! Parts of regions and the rings round them: what the law of one shell for each part stands on.
//!
//! It has definitions and laws, and no code. Its promise: a part is a test on half-edges and a ring a walk along its boundary with
//! the part on the left, and no definition knows an area. The laws are the public functions.
//!
//! The files of `specs/`: `Part`, parts, their boundaries, which half-edge follows round them, and ways; `Ring`, closed ways
//! and the rings of a part; `Laws`.
//!
//! A crate above takes a lemma by `use Rattle.shell_laws.proofs.FILE.{NAME}` in its `proofs/`. The files:
//!
//! - `Whole`: of two half-edges that follow one another round a part, edges of its boundary with even ends have both or neither
//!   (`both_or_neither`). `Simple`: so a way round a part passes no vertex twice (`no_vertex_twice`).
//! - `Outside`: sides that are joined round the boundary alone are both in the part or both out (`outside_kept`), so next
//!   half-edges round it keep the part on the right (`next_outside`).
//! - `Reversed`: a walk round a part from outside, taken back, is a ring round it (`walk_ring`).
//! - `Winding`: how often a closed way winds round a point (`winds`). `OneRing`: a ring holds all of the part or none of it
//!   (`all_or_none`). `AllRings`: all rings together wind once round the part, so exactly one of them holds it (`one_shell`).
//! - `LeastVertex`: at its least vertex a ring tells whether it is the shell (`told_at_least`). `Points`: off the edges, in the part, in
//!   the shell and in no hole, and held by all rings' edges are the same (`in_part_within`, `even_odd`).
//! - `RegionPart`: a region that is not outer is a part (`region_part`).
#![tactic(auto)]

mod laws;

pub use laws::{
    least_vertex_law, outside_law, part_law, point_law, region_law, shell_law, walk_law,
};
