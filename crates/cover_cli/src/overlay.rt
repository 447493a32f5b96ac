ghost use Rattle.std.specs.Prelude.{◌≤◌, length, None, IfOk, IfErr};
ghost use Rattle.cov_types.specs.Coverage.{IsFormed};
ghost use Rattle.geo_text.specs.declared.reader.TheConstants.{LONGEST_INPUT};
ghost use Rattle.cover_cli.specs.Overlay.{IsAdmitted, IsOverlaying, RefusesBoth, RefusesOverlay, TellsTooMany};
ghost use Rattle.cover_cli.specs.Refusal.{IsRefusedFor};
ghost use Rattle.cover_cli.specs.Text.{IsReadAnd};

use crate::making::Made;
use crate::outcome::Outcome;
use crate::pairs::features_of_pairs;
use crate::text::features_of;
use cov_admit::{ValidCoverage, admit};
use cov_overlay::overlay;
use cov_types::Coverage;
use feature_files::text_for;
use std::alloc::Global;

// The text of the overlay of two valid coverages, for an output of this name.
fn overlaying(
    alloc: Global,
    a: &ValidCoverage,
    b: &ValidCoverage,
    to: &str,
) -> Result<Made, Outcome>
    requires first { IsAdmitted a.now }
    requires second { IsAdmitted b.now }
    ensures made { IfOk result (λ made. IsOverlaying to.now a.now b.now made.outcome made.text.items) }
    ensures refused { IfErr result (IsRefusedFor (TellsTooMany a.now b.now)) }
{
    let overlaid = overlay(alloc, a, b)?;
    let features = features_of_pairs(alloc, overlaid)?;
    let text = text_for(alloc, to, None, &features)?;
    Ok(Made {
        outcome: Outcome::Done,
        text,
    })
}

// The text of the overlay of two coverages where both are valid. The first that is not refuses them.
fn overlay_if_valid(alloc: Global, a: Coverage, b: Coverage, to: &str) -> Result<Made, Outcome>
    requires first { IsFormed a }
    requires second { IsFormed b }
    ensures made { IfOk result (λ made. IsOverlaying to.now a b made.outcome made.text.items) }
    ensures refused { IfErr result (IsRefusedFor (RefusesBoth a b)) }
{
    let first = admit(alloc, a)?;
    let second = admit(alloc, b)?;
    overlaying(alloc, &first, &second, to)
}

/// Overlays the coverages that two inputs of the names `first` and `second` are read as, where both are valid. The faults of the first
/// input come before those of the second, and both before what is at fault in a coverage.
pub fn make(
    alloc: Global,
    first: &str,
    second: &str,
    to: &str,
    a: Vec<u8>,
    b: Vec<u8>,
) -> Result<Made, Outcome>
    requires first { length a.items ≤ LONGEST_INPUT }
    requires second { length b.items ≤ LONGEST_INPUT }
    ensures made { IfOk result (λ made.
        IsReadAnd first.now None a.items (λ r. IsReadAnd second.now None b.items (λ s.
        IsOverlaying to.now r.members s.members made.outcome made.text.items))) }
    ensures refused { IfErr result (IsRefusedFor (RefusesOverlay first.now second.now a.items b.items)) }
{
    let a = features_of(alloc, first, None, a)?;
    let b = features_of(alloc, second, None, b)?;
    overlay_if_valid(alloc, a.coverage, b.coverage, to)
}
