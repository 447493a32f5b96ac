//! Noding by snap rounding: the edges that the segments of a coverage become, each once, and which of them each member has an odd
//! number of times.
//!
//! Its promise: `node` gives exactly the edges of the chains, any two of them equal or with at most common ends in common. What
//! noded, odd and live edges are is defined in `arrangement`, whose `noding_law` says that uses have one noding.
#![tactic(auto)]

mod along_curve;
mod live_edges;
mod liveness;
mod noded;
mod noding;
mod parity;

pub use arrangement::OddUse;
pub use live_edges::LiveEdges;
pub use liveness::{live, uses_of_odd};
pub use noded::Noded;
pub use noding::{node, plain};
