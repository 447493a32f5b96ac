ghost use Rattle.std.specs.Prelude.{◌≡◌, ◌≤◌, ◌^◌, length, IfOk, IfErr};
ghost use Rattle.cov_types.specs.Coverage.{AllInRange};
ghost use Rattle.geo_text.specs.Decimal.{IsScale};
ghost use Rattle.geo_text.specs.declared.reader.TheConstants.{LONGEST_INPUT};
ghost use Rattle.cover_cli.specs.Refusal.{IsRefusedFor};
ghost use Rattle.cover_cli.specs.Text.{IsReadAnd, RefusesInput};
ghost use Rattle.cover_cli.specs.Validate.{marking, IsValidation};

use crate::lines::{lists_by_member, uses_at_marks};
use crate::making::Made;
use crate::outcome::Outcome;
use crate::text::features_of;
use cov_marks::marks;
use cov_types::{Coverage, NoMemory, uses};
use cov_write::lines_of;
use std::alloc::Global;

/// The outcome where so many segments are marked.
pub(crate) fn outcome_of(edges: u64) -> Outcome
    ensures { result ≡ marking edges }
{
    if edges == 0 {
        Outcome::Done
    } else {
        Outcome::Marked { edges }
    }
}

// The text of the segments of a coverage that are marked at the gap width, at the scale, and how many there are.
fn validation(alloc: Global, c: &Coverage, gap: u32, scale: Option<u8>) -> Result<Made, NoMemory>
    requires in_range { AllInRange c.now }
    requires gap { gap ≤ 2 ^ 30 }
    requires scale { IsScale scale }
    ensures { IfOk result (λ made. IsValidation gap scale c.now made.outcome made.text.items) }
{
    let uses = uses(alloc, c)?;
    let marks = marks(alloc, c, gap)?;
    let marked = uses_at_marks(alloc, &uses, &marks)?;
    let lists = lists_by_member(alloc, &marked, c.members.len())?;
    let text = lines_of(alloc, &lists, scale)?;
    let outcome = outcome_of(marks.len() as u64);
    Ok(Made { outcome, text })
}

/// Validates the coverage that the input of this name is read as, at the gap width, in grid units; text is read and the
/// segments are written at the scale.
pub fn make(
    alloc: Global,
    gap: u32,
    scale: Option<u8>,
    from: &str,
    input: Vec<u8>,
) -> Result<Made, Outcome>
    requires length { length input.items ≤ LONGEST_INPUT }
    requires gap { gap ≤ 2 ^ 30 }
    requires scale { IsScale scale }
    ensures made { IfOk result (λ made.
        IsReadAnd from.now scale input.items (λ r. IsValidation gap scale r.members made.outcome made.text.items)) }
    ensures refused { IfErr result (IsRefusedFor (RefusesInput from.now scale input.items)) }
{
    let features = features_of(alloc, from, scale, input)?;
    Ok(validation(alloc, &features.coverage, gap, scale)?)
}
