ghost use Rattle.std.specs.Prelude.{◌≡◌, ◌≤◌, ◌^◌, length, IfOk, IfErr};
ghost use Rattle.cov_types.specs.Uses.{uses_of};
ghost use Rattle.plane.specs.Validity.{IsValid};
ghost use Rattle.geo_text.specs.Decimal.{IsScale};
ghost use Rattle.geo_text.specs.declared.reader.TheConstants.{LONGEST_INPUT};
ghost use Rattle.cover_cli.specs.Invalid.{RefusesInvalid};
ghost use Rattle.cover_cli.specs.Refusal.{IsRefusedFor};
ghost use Rattle.cover_cli.specs.Simplify.{IsSimplifying};
ghost use Rattle.cover_cli.specs.Text.{IsReadAnd};
ghost use Rattle.cover_cli.specs.ValidFeatures.{held_valid};

use crate::making::Made;
use crate::outcome::Outcome;
use crate::valid::valid_features_of;
use crate::valid_features::ValidFeatures;
use cov_simplify::simplify;
use cov_types::NoMemory;
use feature_files::text_for;
use geo_json::Features;
use std::alloc::Global;

// The text of features of a valid coverage, simplified, for an output of this name, at the scale.
fn simplifying(
    alloc: Global,
    v: ValidFeatures,
    tolerance: u32,
    inner: bool,
    scale: Option<u8>,
    to: &str,
) -> Result<Made, NoMemory>
    requires valid { IsValid (uses_of v.coverage) }
    requires tolerance { tolerance ≤ 2 ^ 30 }
    requires scale { IsScale scale }
    ensures { IfOk result (λ made. IsSimplifying tolerance inner scale to.now (held_valid v) made.outcome made.text.items) }
{
    let simplified = simplify(alloc, v.coverage, tolerance, inner)?;
    let features = Features {
        coverage: simplified.into_coverage(),
        properties: v.properties,
        ids: v.ids,
    };
    let text = text_for(alloc, to, scale, &features)?;
    Ok(Made {
        outcome: Outcome::Done,
        text,
    })
}

/// Simplifies the features that the input is read as, where their coverage is valid, at the tolerance, in grid units. The
/// names of the input and of the output say which of the two is GeoJSON; the numbers of text are read and written at the scale.
pub fn make(
    alloc: Global,
    tolerance: u32,
    inner: bool,
    scale: Option<u8>,
    from: &str,
    to: &str,
    input: Vec<u8>,
) -> Result<Made, Outcome>
    requires length { length input.items ≤ LONGEST_INPUT }
    requires tolerance { tolerance ≤ 2 ^ 30 }
    requires scale { IsScale scale }
    ensures made { IfOk result (λ made.
        IsReadAnd from.now scale input.items (λ r. IsSimplifying tolerance inner scale to.now r made.outcome made.text.items)) }
    ensures refused { IfErr result (IsRefusedFor (RefusesInvalid from.now scale input.items)) }
{
    let valid = valid_features_of(alloc, from, scale, input)?;
    Ok(simplifying(alloc, valid, tolerance, inner, scale, to)?)
}
