//! Coverages with properties and ids, in the form that the name of their file says: GeoJSON or text.
//!
//! Its promise: a file is read, or refused with its one fault, by the reader of its name's form, text without a scale or
//! at one; the bytes are the written form of the name, in which text keeps the members alone; and what is written as GeoJSON
//! reads back.
#![tactic(auto)]

mod bare;
mod error;
mod laws;
mod reader;
mod writer;

pub use bare::bare_features;
pub use error::{FileError, FileFault};
pub use laws::one_answer;
pub use reader::read_features;
pub use writer::text_for;
