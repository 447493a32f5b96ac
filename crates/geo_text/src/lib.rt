//! Reads polygons from well-known text.
//!
//! Numbers are whole, or decimals that are read at a scale: then each is the whole number nearest to it times a power
//! of ten.
//!
//! Its promise: `read_text` answers a coverage only where the bytes are a file that is read as it and has no fault,
//! and a fault only where the text has it. By `one_answer` a text has one reading or one fault, and not both: so
//! each of the two answers comes exactly there, unless memory runs out.
#![tactic(auto)]

mod error;
mod faults;
mod fraction;
mod keyword;
mod lexeme;
mod number;
mod parser;
mod place;
mod reader;

pub use error::{TextError, TextFault};
pub use reader::{LONGEST_INPUT, one_answer, read_text};
