//! Cases of the whole program: words, files in memory and the calls of them that are to fail, each with the
//! answer and with what the files then hold, as worked out by hand.
//!
//! Its promise: a case runs over exactly the files `in` and `out`, and `out` isn't empty before, so that a
//! refusal that touches it shows.
#![tactic(auto)]

#[cfg(test)]
mod borders;
#[cfg(test)]
mod cleaning;
#[cfg(test)]
mod documents;
mod files;
#[cfg(test)]
mod gaps;
#[cfg(test)]
mod handed;
#[cfg(test)]
mod hostile;
#[cfg(test)]
mod locating;
#[cfg(test)]
mod mapping;
#[cfg(test)]
mod overlaying;
#[cfg(test)]
mod rows;
#[cfg(test)]
mod sampling;
#[cfg(test)]
mod scaling;
#[cfg(test)]
mod simplifying;
#[cfg(test)]
mod tests;
#[cfg(test)]
mod uniting;

pub use files::{BEFORE, shelf_of};
