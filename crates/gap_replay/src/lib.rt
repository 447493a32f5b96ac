//! Gaps by rule: a merge rule that is asked for the narrow gaps too, once it was asked for all shared regions.
//!
//! It has definitions and laws, and no code. A narrow gap's candidates are the members with an owned border with it, by the owners of the
//! regions with a label; the gaps are asked for in ascending order, and each goes to the candidate that the rule picks. Its promise: the
//! coverage that is cleaned so is valid, holds each point by the owner of its region, and is one; each narrow gap has an owner; and by the
//! longest border it is what is cleaned without asking for gaps. The laws are the public functions.
//!
//! The files of `specs/`, lowest first: `Replay`, what a rule is told of a gap, its states, and the owners that come of it; `Cleaned`, the
//! coverage that is cleaned so; `HeldByReplay`, how a point with a label is held; `Laws`.
//!
//! A crate above takes a lemma by `use Rattle.gap_replay.proofs.FILE.{NAME}` in its `proofs/`. The files, lowest first:
//!
//! - `GapCandidates`: the candidates for a gap are its neighbours, ascending (`neighbour_is`, `is_neighbour`, `candidates_are`), and there is
//!   one list of narrow gaps (`one_gaps`). `NarrowGaps`: and there is one, where it is known of each region whether it is one
//!   (`narrow_gaps_exist`).
//! - `Fillers`: the candidate at a place is the neighbour there (`candidate_is`), a gap has one that a lawful rule picks (`gap_filler`), and a
//!   region has one owner (`one_owner`).
//! - `ReplayOwners`: these owners are owners that polygons can be built of (`member_owners`), and a coverage is cleaned so in one way
//!   (`one_replay`). `Held`: what is built is valid (`replay_valid`), and holds each point by the owner of its region (`replay_holds`), as its
//!   label tells (`replay_held`); it takes the labels of snapped regions of `overlaid_laws`.
//! - `Longest`: by the longest border gaps by rule are gaps without asking (`longest_replay`).
#![tactic(auto)]

mod laws;

pub use laws::{filler_law, gap_law, longest_law, replay_law};
