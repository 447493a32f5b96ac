ghost use Rattle.std.specs.Prelude.{◌≤◌, length, IfOk, IfErr};
ghost use Rattle.cov_types.specs.Coverage.{IsFormed};
ghost use Rattle.feature_files.specs.Reading.{IsRead};
ghost use Rattle.geo_json.specs.Reading.{held};
ghost use Rattle.geo_text.specs.Decimal.{IsScale};
ghost use Rattle.geo_text.specs.declared.reader.TheConstants.{LONGEST_INPUT};
ghost use Rattle.cover_cli.specs.Refusal.{IsRefusedFor};
ghost use Rattle.cover_cli.specs.Text.{RefusesInput};

use crate::outcome::Outcome;
use feature_files::read_features;
use geo_json::Features;
use std::alloc::Global;

/// Reads an input of this name as features, at the scale, and lets its bytes go. An error is the outcome that refuses it.
pub fn features_of(
    alloc: Global,
    name: &str,
    scale: Option<u8>,
    input: Vec<u8>,
) -> Result<Features, Outcome>
    requires scale { IsScale scale }
    requires length { length input.items ≤ LONGEST_INPUT }
    ensures read { IfOk result (λ f. IsRead name.now scale input.items (held f)) }
    ensures formed { IfOk result (λ f. IsFormed f.coverage) }
    ensures refused { IfErr result (IsRefusedFor (RefusesInput name.now scale input.items)) }
{
    Ok(read_features(alloc, name, scale, &input)?)
}
