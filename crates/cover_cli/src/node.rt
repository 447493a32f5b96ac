ghost use Rattle.std.specs.Prelude.{◌≡◌, ◌≤◌, length, IfOk, IfErr};
ghost use Rattle.cov_types.specs.Coverage.{AllInRange};
ghost use Rattle.geo_text.specs.Decimal.{IsScale};
ghost use Rattle.geo_text.specs.declared.reader.TheConstants.{LONGEST_INPUT};
ghost use Rattle.cover_cli.specs.Node.{IsNoding};
ghost use Rattle.cover_cli.specs.Refusal.{IsRefusedFor};
ghost use Rattle.cover_cli.specs.Text.{IsReadAnd, RefusesInput};

use crate::lines::lists_by_member;
use crate::making::Made;
use crate::outcome::Outcome;
use crate::text::features_of;
use cov_types::{Coverage, NoMemory, uses};
use cov_write::lines_of;
use snap_noder::{node, uses_of_odd};
use std::alloc::Global;

// The text of the noded edges, and then for each member of its odd edges, at the scale.
fn noding(alloc: Global, c: &Coverage, scale: Option<u8>) -> Result<Made, NoMemory>
    requires in_range { AllInRange c.now }
    requires scale { IsScale scale }
    ensures { IfOk result (λ made. IsNoding scale c.now made.outcome made.text.items) }
{
    let uses = uses(alloc, c)?;
    let noded = node(alloc, &uses)?;
    let odd = uses_of_odd(alloc, &noded)?;
    let mut lists = lists_by_member(alloc, &odd, c.members.len())?;
    lists.insert(0, noded.edges)?;
    let text = lines_of(alloc, &lists, scale)?;
    Ok(Made {
        outcome: Outcome::Done,
        text,
    })
}

/// Nodes the coverage that the input of this name is read as; text is read and the edges are written at the scale.
pub fn make(alloc: Global, scale: Option<u8>, from: &str, input: Vec<u8>) -> Result<Made, Outcome>
    requires scale { IsScale scale }
    requires length { length input.items ≤ LONGEST_INPUT }
    ensures made { IfOk result (λ made.
        IsReadAnd from.now scale input.items (λ r. IsNoding scale r.members made.outcome made.text.items)) }
    ensures refused { IfErr result (IsRefusedFor (RefusesInput from.now scale input.items)) }
{
    let features = features_of(alloc, from, scale, input)?;
    Ok(noding(alloc, &features.coverage, scale)?)
}
