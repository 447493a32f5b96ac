//! Validating a coverage: the segments that are at fault, each with the kind of its fault.
//!
//! Its promise: `marks` lists exactly the marks of the faults of a coverage, by ascending place; where `are_corners_faultless` says no
//! there is such a fault, and where it says yes it has looked at enough segments to know that there is none (`cov_admit` shows it).
#![tactic(auto)]

mod among;
mod contacts;
mod corners;
mod entry;
mod group;
mod holders;
mod kinds;
mod laws;
mod level;
mod mark;
mod placed;
mod present;
mod ring_tree;
mod run;
mod run_index;
mod table;
mod users;
mod validator;

pub use corners::are_corners_faultless;
pub use laws::marks_law;
pub use mark::{Kind, Mark};
pub use validator::marks;
