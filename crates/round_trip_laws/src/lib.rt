//! What `cov_write` writes, `geo_text` reads.
//!
//! Its promise: the text of a formed coverage, without a scale or at one, is read as that coverage without it or at it,
//! and has no fault.
#![tactic(auto)]

ghost use Rattle.round_trip_laws.specs.Laws.{IsReadBack};

/// The law of writing and reading a coverage, whatever the length of its text, without a scale and at each one. A call
/// does nothing.
pub fn reading_back()
    ensures { IsReadBack }
{}
