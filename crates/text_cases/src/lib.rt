//! Cases of the public calls of the crates that read and write: text, documents, words and points, each with an answer worked out by hand.
//!
//! Its promise: none of its own. The tests stand in a crate above the calls that they try, so that they see what a caller sees, and so that a
//! change of a test proves nothing again.
#![tactic(auto)]

#[cfg(test)]
mod documents;
#[cfg(test)]
mod files;
#[cfg(test)]
mod json;
#[cfg(test)]
mod maps;
#[cfg(test)]
mod points;
#[cfg(test)]
mod round_trips;
#[cfg(test)]
mod text;
#[cfg(test)]
mod words;
#[cfg(test)]
mod writing;
