//! Reads polygons from GeoJSON (RFC 7946).
//!
//! Its promise: `read_json` answers features only where the bytes stand for a document of theirs that has no fault,
//! and a fault only where the bytes have it. By `one_answer` bytes have one reading or one fault, and not both: so
//! each of the two answers comes exactly there, unless memory runs out.
#![tactic(auto)]

mod collected;
mod coordinates;
mod error;
mod feature;
mod features;
mod first_faults;
mod geometry;
mod object;
mod reader;

pub use error::{JsonError, JsonFault};
pub use features::Features;
pub use reader::{one_answer, read_json};
