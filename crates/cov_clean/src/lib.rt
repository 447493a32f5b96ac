//! The cleaner: each region of a coverage goes to one owner, and what an owner has becomes polygons.
//!
//! Its promise, that of [`clean`] and [`clean_with_gaps`]: the coverage is snapped, each region goes to the one member that holds it or,
//! where members overlap, to the one that the rule picks, each gap that is narrow at the gap width goes to the member with the longest owned
//! border or, with gaps asked for too, to the one that the rule picks of those with an owned border, and each member becomes the polygons of
//! the regions that it owns (`IsCleaned` of `sound_polygons` and `IsCleanedWithGaps` of `gap_replay`, which one coverage is at most each).
//! What they answer is valid. The rule is asked once for each shared region, in ascending order, then once for each narrow gap where gaps
//! are asked for too, in ascending order, and for no other; its state in the end is that of the definition, also after running out of memory:
//! then of the first of these.
//!
//! A narrow gap's neighbours are the owners beyond its own sides, by the labels alone: so gaps are filled after all other regions have
//! their owners, whoever gets another gap, each in time in proportion to its sides. Both calls are one private function, `cleaned_by`.
//!
//! The files of `specs/`: `SnappedEdges`, the live edges of the snapped members; `Asked`, the owner that a rule gives a region; `Longest`,
//! the member with the greatest length; `Runs`, the lengths of sides by member as a list; `Filled`, owners with those of gaps.
//!
//! The proof goes in the order of the program. In `proofs/`:
//!
//! - `Overlays`: the live edges with the numbers of their regions are the overlay of the coverage, which the labels are those of
//!   (`snapped_labels`), and no member holds the outer region (`snapped_outer`);
//! - `Numbers`: lists that are made of the numbers below a count. `Candidates`: one candidate more for each member of the label, and
//!   facts with the same candidates and area are the same (`same_facts`);
//! - `Asking`: the shared regions below a number are the first of all, so the state of a rule that was asked for these is the one in which
//!   it comes to the next (`state_there`). `SideOwners`: the owner of each side (`side_own`, `side_other`), and of each region
//!   (`of_region`);
//! - `LongestSides`: lengths are added up by member, and the longest is taken (`best_more`, `some_longest`). `Neighbour`: the member with
//!   the longest owned border is the neighbour (`longest_is`), which hangs on the owners of regions alone (`neighbour_same`);
//! - `RunLengths`: one side more in the runs of sides that ascend by member (`runs_more`). `GapFacts`: the runs of a gap are its neighbours,
//!   and as candidates those of the definition (`gap_candidates_are`). `LesserGaps`: the gaps that are less than one are those before it,
//!   so the rule comes to it in the state of the definition (`filler_there`, `asked_more`);
//! - `Filling`: one gap more is filled, whoever gets it (`filled_more`), and then each region has its owner (`filled_owners`,
//!   `replayed_owners`);
//! - `Cleaning`: what is built of these owners (`cleaned`), and the states of the rule (`has_last`, `has_some`). `Results`: what holds
//!   whatever a result has.
#![tactic(auto)]

mod borders;
mod cleaner;
mod facts;
mod fillers;
mod gap_facts;
mod gaps;
mod owners;
mod runs;

pub use cleaner::{clean, clean_with_gaps};
