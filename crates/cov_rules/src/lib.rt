//! Merge rules that a caller hands in: boxed objects that keep numbers from region to region.
//!
//! Its promise: a rule answers and keeps what its kind says, by two lists of whole numbers alone: what is fixed, of which the first number
//! is the kind, and what it keeps (`room`, `pick` and `next` of `Kinds`). A handed-in rule is a merge rule as the four of `merge_rule` are,
//! and where it picks nothing the first candidate is taken. `cleaned_by_hired` cleans a coverage by one, which it prepares
//! for the members first; it stands here, since only this crate can hand a `Hired` to code that is generic over its rule.
//!
//! The files of `specs/`, lowest first:
//!
//! - `EvenShare`, `Priority`, `ClearBorder`: the kinds 1 to 3, a file each. `Simple`: these three as they stand in two lists.
//! - `Chain`: kind 4, and how lists stand one after the other in one list. `Kinds`: all four, and what a chain keeps without memory.
//! - `Parts`: a chain as it is in the program. `Hired`: a rule by kind as a merge rule. `Asked`: how a cleaning leaves one. `Laws`.
//!
//! To add a kind, add its file to `specs/` and its case to `Simple`, or to `Kinds` where a chain is to have no such part; and a struct with
//! its `LiveRule`.
#![tactic(auto)]

mod chain;
mod clean;
mod clear_border;
mod even_share;
mod hired;
mod laws;
mod part;
mod priority;
mod rule;

pub use chain::Chain;
pub use clean::{cleaned_by, cleaned_by_hired};
pub use clear_border::ClearBorder;
pub use even_share::EvenShare;
pub use hired::{Hired, NamedRule};
pub use laws::place_law;
pub use part::Part;
pub use priority::Priority;
pub use rule::LiveRule;
