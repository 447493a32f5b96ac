//! Hot pixels after Hobby: the pixels that hold an end of a segment or a crossing, and the chain of a segment through them.
//!
//! Its promise: `HotSet::chain` is the chain of the definition, each hot pixel that the segment meets, in the order in which it
//! passes them, whatever segments in range the set was built of.
#![tactic(auto)]

mod along_curve;
mod centres;
mod columns;
mod crossings;
mod hot_set;
mod passing;
mod pixel;

pub use columns::Columns;
pub use hot_set::HotSet;
pub use passing::{before, meets};
pub use pixel::pixel_of;
