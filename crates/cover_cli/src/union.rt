ghost use Rattle.std.specs.Prelude.{◌≡◌, ◌≤◌, length, IfOk, IfErr};
ghost use Rattle.cov_types.specs.Uses.{uses_of};
ghost use Rattle.plane.specs.Validity.{IsValid};
ghost use Rattle.geo_text.specs.Decimal.{IsScale};
ghost use Rattle.geo_text.specs.declared.reader.TheConstants.{LONGEST_INPUT};
ghost use Rattle.cover_cli.specs.Refusal.{IsRefusedFor};
ghost use Rattle.cover_cli.specs.Text.{IsReadAnd};
ghost use Rattle.cover_cli.specs.Invalid.{RefusesInvalid};
ghost use Rattle.cover_cli.specs.Union.{IsUniting};

use crate::making::Made;
use crate::outcome::Outcome;
use crate::valid::valid_features_of;
use cov_admit::ValidCoverage;
use cov_types::{Coverage, NoMemory};
use cov_union::union_of;
use feature_files::{bare_features, text_for};
use std::alloc::Global;

// The text of the union of a valid coverage, for an output of this name, at the scale.
fn uniting(alloc: Global, v: &ValidCoverage, scale: Option<u8>, to: &str) -> Result<Made, NoMemory>
    requires valid { IsValid (uses_of v.now) }
    requires scale { IsScale scale }
    ensures { IfOk result (λ made. IsUniting scale to.now v.now made.outcome made.text.items) }
{
    let union = union_of(alloc, v)?;
    let mut members = Vec::new(alloc);
    members.push(union)?;
    let features = bare_features(alloc, Coverage { members })?;
    let text = text_for(alloc, to, scale, &features)?;
    Ok(Made {
        outcome: Outcome::Done,
        text,
    })
}

/// Unites the coverage that the input is read as, where it is valid. The names of the input and of the output say which of
/// the two is GeoJSON; the numbers of text are read and written at the scale.
pub fn make(
    alloc: Global,
    scale: Option<u8>,
    from: &str,
    to: &str,
    input: Vec<u8>,
) -> Result<Made, Outcome>
    requires scale { IsScale scale }
    requires length { length input.items ≤ LONGEST_INPUT }
    ensures made { IfOk result (λ made.
        IsReadAnd from.now scale input.items (λ r. IsUniting scale to.now r.members made.outcome made.text.items)) }
    ensures refused { IfErr result (IsRefusedFor (RefusesInvalid from.now scale input.items)) }
{
    let valid = valid_features_of(alloc, from, scale, input)?;
    Ok(uniting(alloc, &valid.coverage, scale, to)?)
}
