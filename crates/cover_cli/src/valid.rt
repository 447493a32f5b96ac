ghost use Rattle.std.specs.Prelude.{◌≤◌, length, IfOk, IfErr};
ghost use Rattle.cov_types.specs.Coverage.{IsFormed};
ghost use Rattle.cov_types.specs.Uses.{uses_of};
ghost use Rattle.plane.specs.Validity.{IsValid};
ghost use Rattle.feature_files.specs.Reading.{IsRead};
ghost use Rattle.geo_text.specs.Decimal.{IsScale};
ghost use Rattle.geo_text.specs.declared.reader.TheConstants.{LONGEST_INPUT};
ghost use Rattle.cover_cli.specs.Invalid.{RefusesInvalid};
ghost use Rattle.cover_cli.specs.Refusal.{IsRefusedFor};
ghost use Rattle.cover_cli.specs.ValidFeatures.{held_valid};

use crate::outcome::Outcome;
use crate::text::features_of;
use crate::valid_features::ValidFeatures;
use cov_admit::admit;
use std::alloc::Global;

/// Reads an input of this name as features, at the scale, and admits their coverage where it is valid. An error is the outcome that refuses it.
pub fn valid_features_of(
    alloc: Global,
    name: &str,
    scale: Option<u8>,
    input: Vec<u8>,
) -> Result<ValidFeatures, Outcome>
    requires scale { IsScale scale }
    requires length { length input.items ≤ LONGEST_INPUT }
    ensures read { IfOk result (λ v. IsRead name.now scale input.items (held_valid v)) }
    ensures formed { IfOk result (λ v. IsFormed v.coverage) }
    ensures valid { IfOk result (λ v. IsValid (uses_of v.coverage)) }
    ensures refused { IfErr result (IsRefusedFor (RefusesInvalid name.now scale input.items)) }
{
    let features = features_of(alloc, name, scale, input)?;
    let coverage = admit(alloc, features.coverage)?;
    Ok(ValidFeatures {
        coverage,
        properties: features.properties,
        ids: features.ids,
    })
}
