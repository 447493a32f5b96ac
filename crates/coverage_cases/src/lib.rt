//! Cases of the public calls on coverages: noding, marks, admission, labels, polygons, cleaning, uniting, overlaying and simplifying, each with
//! an answer worked out by hand.
//!
//! Its promise: none of its own. The tests stand in a crate above the calls that they try, so that they see what a caller sees, and so that a
//! change of a test proves nothing again.
#![tactic(auto)]

#[cfg(test)]
mod admission;
#[cfg(test)]
mod cleaning;
#[cfg(test)]
mod labels;
#[cfg(test)]
mod marks;
#[cfg(test)]
mod narrow;
#[cfg(test)]
mod narrow_marks;
#[cfg(test)]
mod noding;
#[cfg(test)]
mod overlaying;
#[cfg(test)]
mod polygons;
#[cfg(test)]
mod rules;
#[cfg(test)]
mod simplifying;
#[cfg(test)]
mod uniting;
