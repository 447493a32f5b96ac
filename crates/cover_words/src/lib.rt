//! The words of the program `cover`, read by `clap`.
//!
//! Its promise: `operation_named` answers the operation that the words name exactly where they are accepted. They are
//! accepted where the first word names an operation, the command of that operation takes the words after it, a merge
//! rule that they name is one of the four or handed in under that name, and a scale stands with no name of GeoJSON, which has none.
//! `specs/Commands.antt` writes out the arguments of each command.
//!
//! The operation's word is read by hand (`words`). A file for each operation makes its command of its `arguments`, has
//! `matched` run it on the words after that, and makes the operation of the `values` that were found.
#![tactic(auto)]

mod arguments;
mod clean;
mod commands;
mod inputs;
mod laws;
mod locate;
mod mapping;
mod matched;
mod node;
mod operation;
mod overlay;
mod regions;
mod rule_choice;
mod rule_name;
mod sample;
mod scale;
mod simplify;
mod union;
mod validate;
mod values;
mod words;

pub use inputs::Inputs;
pub use laws::accepted_law;
pub use mapping::{mapping_named, validation_words};
pub use operation::Operation;
pub use rule_choice::{RuleChoice, rule_chosen};
pub use rule_name::{RuleName, rule_named};
pub use words::operation_named;
