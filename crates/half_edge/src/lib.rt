//! The half-edge arena: a table that says of each half-edge of a list of edges which one follows it.
//!
//! Its promise: `next` goes round the region on the left. The half-edge that it answers begins where the given one ends, none that
//! begins there lies strictly inside the sector on the left between the two, and the side points on the left of both are joined.
#![tactic(auto)]

mod arena;
mod arranged;
mod departure;
mod directed;
mod direction;
mod next;
mod noded;
mod side;

pub use arena::Arena;
pub use arranged::are_arranged;
pub use side::Side;
