ghost use Rattle.std.specs.Prelude.{◌≡◌, ◌≤◌, ◌++◌, ℕ, List, length, IfOk, IfErr, OnOk};
ghost use Rattle.arrangement.specs.Overlay.{Overlay, region_numbers, IsRegion, label_of};
ghost use Rattle.cov_types.specs.Coverage.{AllInRange};
ghost use Rattle.geo_text.specs.Decimal.{IsScale};
ghost use Rattle.geo_text.specs.declared.reader.TheConstants.{LONGEST_INPUT};
ghost use Rattle.cover_cli.specs.Refusal.{IsRefusedFor};
ghost use Rattle.cover_cli.specs.Regions.{IsClearanceTold, IsRow, AreRows, IsRegionList};
ghost use Rattle.cover_cli.specs.Text.{IsReadAnd, RefusesInput};
ghost use Rattle.owner_label.specs.Labelled.{IsOverlay};
ghost use Rattle.plane.specs.Region.{IsOuterRegion};

use crate::making::Made;
use crate::outcome::Outcome;
use crate::text::features_of;
use cov_types::{Coverage, NoMemory, uses};
use cov_write::{append_inner_row, append_outer_row};
use face_walk::Regions;
use gap_width::GapSearch;
use half_edge::Arena;
use owner_label::Labels;
use snap_noder::{live, node};
use std::alloc::Global;

// The rows of all regions between the edges of the arena, by ascending number.
fn rows_of(
    alloc: Global,
    arena: &Arena,
    regions: &Regions,
    labels: &Labels,
    gaps: &GapSearch,
) -> Result<Vec<u8>, NoMemory>
    requires regions { regions.now ≡ arena.now }
    requires labels { labels.now.edges ≡ arena.now }
    requires gaps { gaps.now ≡ arena.now }
    ensures { IfOk result (λ text. (o : Overlay) → IsOverlay labels.now o → AreRows o (region_numbers o) text.items) }
{
    let mut text = Vec::new(alloc);
    for side in 0..arena.len() {
        if regions.region_of(side) == side {
            append_row(&mut text, regions, labels, gaps, side)?;
        }
    }
    Ok(text)
}

// Appends the row of a region.
fn append_row(
    text: &mut Vec<u8>,
    regions: &Regions,
    labels: &Labels,
    gaps: &GapSearch,
    region: usize,
) -> Result<(), NoMemory>
    requires labels { labels.now.edges ≡ regions.now }
    requires gaps { gaps.now ≡ regions.now }
    requires region { IsRegion regions.now region }
    ensures { OnOk result ((o : Overlay) → IsOverlay labels.now o
        → (line : List ℕ) × (IsRow o region line × (text.new.items ≡ text.old.items ++ line))) }
{
    if regions.outer() == Some(region) {
        append_outer_row(text, region)
    } else {
        let label = labels.label(region);
        let clearance = clearance_told(gaps, label, region)?;
        append_inner_row(text, region, label, labels.region_area2(region), clearance)
    }
}

// The clearance of a region that no member holds, by its label.
fn clearance_told(gaps: &GapSearch, label: &[u32], region: usize) -> Result<Option<u32>, NoMemory>
    requires region { IsRegion gaps.now region }
    requires inner { ¬ IsOuterRegion gaps.now region }
    ensures { IfOk result (λ clearance. (o : Overlay) → o.edges ≡ gaps.now → label.now ≡ label_of o region → IsClearanceTold o region clearance) }
{
    if label.is_empty() {
        Ok(Some(gaps.clearance(region)?))
    } else {
        Ok(None)
    }
}

// The text of the regions of the snapped members.
fn region_list(alloc: Global, c: &Coverage) -> Result<Made, NoMemory>
    requires { AllInRange c.now }
    ensures { IfOk result (λ made. IsRegionList c.now made.outcome made.text.items) }
{
    let uses = uses(alloc, c)?;
    let noded = node(alloc, &uses)?;
    let live = live(alloc, &noded)?;
    let arena = Arena::build(alloc, live.edges.to_vec(alloc)?)?;
    let regions = Regions::build(alloc, &arena)?;
    let labels = Labels::build(alloc, &arena, &regions, &live)?;
    let gaps = GapSearch::build(alloc, &arena, &regions)?;
    let text = rows_of(alloc, &arena, &regions, &labels, &gaps)?;
    Ok(Made {
        outcome: Outcome::Done,
        text,
    })
}

/// Lists the regions of the coverage that the input of this name is read as, text at the scale; areas and clearances are in
/// grid units.
pub fn make(alloc: Global, scale: Option<u8>, from: &str, input: Vec<u8>) -> Result<Made, Outcome>
    requires scale { IsScale scale }
    requires length { length input.items ≤ LONGEST_INPUT }
    ensures made { IfOk result (λ made.
        IsReadAnd from.now scale input.items (λ r. IsRegionList r.members made.outcome made.text.items)) }
    ensures refused { IfErr result (IsRefusedFor (RefusesInput from.now scale input.items)) }
{
    let features = features_of(alloc, from, scale, input)?;
    Ok(region_list(alloc, &features.coverage)?)
}
