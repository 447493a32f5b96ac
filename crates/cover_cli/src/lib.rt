//! The programs `cover` and `cover_faults`, each as one call: words and files in, an outcome out.
//!
//! Its promise: every answer of `cover` comes only for its cause. Over a files object that tells its contents, a
//! success means that the output holds what the definitions say of the inputs. By `written_law` that is one text, unless clean
//! or simplify passes numbers on, from GeoJSON to GeoJSON, that serde_json holds as floats: their digits alone are open.
//!
//! Each operation takes the same steps. The words name it (`cover_words`); its inputs are read (`input`); of them it makes
//! its whole text, or refuses them (`making`, and a file for each operation); the text is written (`output`). The names of the
//! input and of the output say, each by itself, whether it is GeoJSON (`feature_files`). Only the reading and the writing know
//! of files, so a new operation is a variant with its words, its relation between inputs and text in `specs`, and its `make`.
#![tactic(auto)]

mod clean;
mod command;
mod counts;
mod input;
mod laws;
mod lines;
mod locate;
mod making;
mod mapping;
mod node;
mod outcome;
mod output;
mod overlay;
mod pairs;
mod refusal;
mod regions;
mod report;
mod sample;
mod simplify;
mod text;
mod union;
mod valid;
mod valid_features;
mod validate;

pub use command::{cover, cover_with, map_faults};
pub use laws::{
    answer_law, caller_rules_law, headline_law, locate_law, overlay_law, sample_law, written_law,
};
pub use outcome::{Outcome, message, status};
pub use report::{Report, closing};
