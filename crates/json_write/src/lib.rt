//! GeoJSON (RFC 7946), written: features as one FeatureCollection in compact text.
//!
//! Its promise: the bytes are exactly the written form, but for the digits of numbers in properties and ids that
//! serde_json holds as floats; a value of properties or of an id that has such a number is a text that serde_json's
//! compact writer may give for it. What is written of a formed coverage reads back, floats with it, where no value of
//! properties or of an id nests more than 124 deep.
#![tactic(auto)]

mod document;
mod geometry;
mod value;
mod written;

pub use document::json_of;
