ghost use Rattle.std.specs.Prelude.{◌≡◌, ◌≤◌, ◌++◌, All, flat_map, length, None, IfOk, IfErr, OnOk};
ghost use Rattle.cov_types.specs.Coverage.{AllInRange};
ghost use Rattle.cov_types.specs.Range.{IsInRange};
ghost use Rattle.cov_types.specs.Uses.{uses_of};
ghost use Rattle.geo_text.specs.declared.reader.TheConstants.{LONGEST_INPUT};
ghost use Rattle.cover_cli.specs.Locate.{place_row, ArePlaceRows, IsLocating, RefusesPoints};
ghost use Rattle.cover_cli.specs.Refusal.{IsRefusedFor};
ghost use Rattle.cover_cli.specs.Text.{IsReadAnd};

use crate::making::Made;
use crate::outcome::Outcome;
use crate::text::features_of;
use cov_locate::{Locator, Where, read_points};
use cov_types::{Coord, Coverage, NoMemory};
use cov_write::{append_edge_row, append_member_row, append_none_row};
use std::alloc::Global;

// Appends the row that tells where a point lies.
fn append_place(text: &mut Vec<u8>, place: Where) -> Result<(), NoMemory>
    ensures { OnOk result (text.new.items ≡ text.old.items ++ place_row place) }
{
    match place {
        Where::Edge => append_edge_row(text),
        Where::Member(member) => append_member_row(text, member),
        Where::Nowhere => append_none_row(text),
    }
}

// The rows of the points, in their order.
fn rows_of(alloc: Global, locator: &Locator, points: &[Coord]) -> Result<Vec<u8>, NoMemory>
    requires { All IsInRange points.now }
    ensures { IfOk result (λ text. ArePlaceRows locator.now points.now text.items) }
{
    let places = locator.places(alloc, points)?;
    let text = rows_of_places(alloc, &places)?;
    Ok(text)
}

// A row for each of the places.
fn rows_of_places(alloc: Global, places: &[Where]) -> Result<Vec<u8>, NoMemory>
    ensures { IfOk result (λ text. text.items ≡ flat_map place_row places.now) }
{
    let mut text = Vec::new(alloc);
    for place in places {
        append_place(&mut text, *place)?;
    }
    Ok(text)
}

// The text that tells where the points lie in the coverage.
fn locating(alloc: Global, c: &Coverage, points: &[Coord]) -> Result<Vec<u8>, NoMemory>
    requires in_range { AllInRange c.now }
    requires points { All IsInRange points.now }
    ensures { IfOk result (λ text. ArePlaceRows (uses_of c.now) points.now text.items) }
{
    let locator = Locator::build(alloc, c)?;
    rows_of(alloc, &locator, points)
}

/// Tells where the points of a points file lie in the coverage that the input of this name is read as. The faults of the input come
/// before those of the points.
pub fn make(alloc: Global, from: &str, input: Vec<u8>, file: Vec<u8>) -> Result<Made, Outcome>
    requires input { length input.items ≤ LONGEST_INPUT }
    requires file { length file.items ≤ LONGEST_INPUT }
    ensures made { IfOk result (λ made.
        IsReadAnd from.now None input.items (λ r. IsLocating r.members file.items made.outcome made.text.items)) }
    ensures refused { IfErr result (IsRefusedFor (RefusesPoints from.now input.items file.items)) }
{
    let features = features_of(alloc, from, None, input)?;
    let points = read_points(alloc, &file)?;
    Ok(Made {
        outcome: Outcome::Done,
        text: locating(alloc, &features.coverage, &points)?,
    })
}
