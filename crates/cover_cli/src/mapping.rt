ghost use Rattle.std.specs.Prelude.{◌≡◌, ◌≤◌, ◌^◌, length, IfOk, IfErr};
ghost use Rattle.cov_types.specs.Coverage.{AllInRange};
ghost use Rattle.geo_text.specs.Decimal.{IsScale};
ghost use Rattle.geo_text.specs.declared.reader.TheConstants.{LONGEST_INPUT};
ghost use Rattle.cover_cli.specs.Mapping.{IsMapping};
ghost use Rattle.cover_cli.specs.Refusal.{IsRefusedFor};
ghost use Rattle.cover_cli.specs.Text.{IsReadAnd, RefusesInput};

use crate::making::Made;
use crate::outcome::Outcome;
use crate::text::features_of;
use crate::validate::outcome_of;
use cov_types::{Coverage, NoMemory};
use fault_map::fault_map;
use fault_text::map_text;
use std::alloc::Global;

// The map of the faults of a coverage at the gap width, at the scale, and how many segments are marked.
fn mapping(alloc: Global, c: &Coverage, gap: u32, scale: Option<u8>) -> Result<Made, NoMemory>
    requires in_range { AllInRange c.now }
    requires gap { gap ≤ 2 ^ 30 }
    requires scale { IsScale scale }
    ensures { IfOk result (λ made. IsMapping gap scale c.now made.outcome made.text.items) }
{
    let map = fault_map(alloc, c, gap)?;
    let text = map_text(alloc, &map.features, scale)?;
    let outcome = outcome_of(map.marked as u64);
    Ok(Made { outcome, text })
}

/// Maps the faults of the coverage that the input of this name is read as, at the gap width, in grid units; text is read and the
/// positions are written at the scale.
pub fn make(
    alloc: Global,
    gap: u32,
    scale: Option<u8>,
    from: &str,
    input: Vec<u8>,
) -> Result<Made, Outcome>
    requires length { length input.items ≤ LONGEST_INPUT }
    requires gap { gap ≤ 2 ^ 30 }
    requires scale { IsScale scale }
    ensures made { IfOk result (λ made.
        IsReadAnd from.now scale input.items (λ r. IsMapping gap scale r.members made.outcome made.text.items)) }
    ensures refused { IfErr result (IsRefusedFor (RefusesInput from.now scale input.items)) }
{
    let features = features_of(alloc, from, scale, input)?;
    Ok(mapping(alloc, &features.coverage, gap, scale)?)
}
