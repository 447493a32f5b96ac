//! The marks of a coverage at a gap width: its faults or, where it has none, the segments beside narrow gaps.
//!
//! Its promise, that of [`marks`]: it lists exactly the marks of a coverage, by ascending place (`AreMarks` of `specs/Marks.antt`). Where
//! some segment is at fault these are the marks of `cov_valid`, and nothing else is looked at. Otherwise each segment is marked one side of
//! which is in a gap that is narrow at the width.
//!
//! The files of `proofs/`: `Alike`, lists of marks by two readings of their kinds; `Searching`, ascending lists of segments; `Beside`, the
//! edges beside the gaps; `GapMarks`, what the marks are (`fault_marks`, `gap_marks`), and that there is one list of them (`one_marks`).
#![tactic(auto)]

mod edges;
mod laws;
mod marking;

pub use laws::marks_law;
pub use marking::marks;
