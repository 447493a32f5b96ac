ghost use Rattle.std.specs.Prelude.{◌≡◌, ◌<◌, All, IfOk, OnOk, length};
ghost use Rattle.arrangement.specs.Overlay.{Overlay, IsRegion};
ghost use Rattle.owner_label.specs.Labelled.{IsOverlay};
ghost use Rattle.region_owners.specs.Gap.{IsGap};
ghost use Rattle.fault_map.specs.Beyond.{AreSidesByRegion};
ghost use Rattle.fault_map.specs.FaultMap.{AreBordering, IsMarkFeature, IsShared, IsOverlapFeature, IsGapFeature, AreAppended, AreFeaturesAppended};
ghost use Rattle.fault_map.specs.Polygon.{ArePolygonsOfEach, IsInner, IsRegionPolygon};

use crate::bordering::bordering_members;
use crate::listed::{gaps, shared_regions};
use crate::polygons::region_polygons;
use counting_sort::Grouped;
use cov_types::{EdgeUse, NoMemory, Poly};
use cov_valid::Mark;
use face_walk::Regions;
use fault_text::MapFeature;
use gap_width::GapSearch;
use half_edge::Arena;
use owner_label::Labels;
use std::alloc::Global;

/// Appends a feature for each of the marks, which are of these uses. Takes time and memory in proportion to the marks.
pub(crate) fn append_marks(
    features: &mut Vec<MapFeature>,
    uses: &[EdgeUse],
    marks: &[Mark],
) -> Result<(), NoMemory>
    requires places { All (λ m. m.place < length uses.now) marks.now }
    ensures { OnOk result (AreAppended (IsMarkFeature uses.now) marks.now features.old.items features.new.items) }
{
    for mark in marks {
        features.push(mark_feature(uses, *mark))?;
    }
    Ok(())
}

// The feature of the mark.
fn mark_feature(uses: &[EdgeUse], mark: Mark) -> MapFeature
    requires place { mark.place < length uses.now }
    ensures { IsMarkFeature uses.now mark result }
{
    MapFeature::Marked {
        kind: mark.kind,
        member: mark.member,
        place: mark.place,
        segment: uses[mark.place as usize].seg,
    }
}

/// Appends a feature for each region that several members hold, by ascending number.
pub(crate) fn append_overlaps(
    alloc: Global,
    features: &mut Vec<MapFeature>,
    a: &Arena,
    r: &Regions,
    labels: &Labels,
) -> Result<(), NoMemory>
    requires regions { r.now ≡ a.now }
    requires labels { labels.now.edges ≡ a.now }
    ensures { OnOk result ((o : Overlay) → IsOverlay labels.now o → AreFeaturesAppended (IsShared o) (IsOverlapFeature o) features.old.items features.new.items) }
{
    let listed = shared_regions(alloc, r, labels)?;
    let polygons = region_polygons(alloc, a, r, &listed)?;
    append_each_overlap(alloc, features, labels, &listed, polygons)
}

// Appends the feature of each of the regions, which have these polygons.
fn append_each_overlap(
    alloc: Global,
    features: &mut Vec<MapFeature>,
    labels: &Labels,
    listed: &[usize],
    polygons: Vec<Poly>,
) -> Result<(), NoMemory>
    requires inner { All (IsInner labels.now.edges) listed.now }
    requires polygons { ArePolygonsOfEach labels.now.edges listed.now polygons.items }
    ensures { OnOk result ((o : Overlay) → IsOverlay labels.now o → AreAppended (IsOverlapFeature o) listed.now features.old.items features.new.items) }
{
    let mut place = 0;
    for polygon in polygons {
        features.push(overlap_feature(alloc, labels, listed[place], polygon)?)?;
        place += 1;
    }
    Ok(())
}

// The feature of a region that several members hold, which has this polygon.
fn overlap_feature(
    alloc: Global,
    labels: &Labels,
    region: usize,
    polygon: Poly,
) -> Result<MapFeature, NoMemory>
    requires region { IsRegion labels.now.edges region }
    ensures { IfOk result (λ f. (o : Overlay) → IsOverlay labels.now o → IsRegionPolygon o region polygon → IsOverlapFeature o region f) }
{
    Ok(MapFeature::Overlap {
        members: labels.label(region).to_vec(alloc)?,
        area2: labels.region_area2(region),
        region,
        polygon,
    })
}

/// Appends a feature for each gap, by ascending number.
pub(crate) fn append_gaps(
    alloc: Global,
    features: &mut Vec<MapFeature>,
    a: &Arena,
    r: &Regions,
    labels: &Labels,
) -> Result<(), NoMemory>
    requires regions { r.now ≡ a.now }
    requires labels { labels.now.edges ≡ a.now }
    ensures { OnOk result ((o : Overlay) → IsOverlay labels.now o → AreFeaturesAppended (IsGap o) (IsGapFeature o) features.old.items features.new.items) }
{
    let listed = gaps(alloc, r, labels)?;
    let polygons = region_polygons(alloc, a, r, &listed)?;
    append_each_gap(alloc, features, a, r, labels, &listed, polygons)
}

// Appends the feature of each of the gaps, which have these polygons.
fn append_each_gap(
    alloc: Global,
    features: &mut Vec<MapFeature>,
    a: &Arena,
    r: &Regions,
    labels: &Labels,
    listed: &[usize],
    polygons: Vec<Poly>,
) -> Result<(), NoMemory>
    requires regions { r.now ≡ a.now }
    requires labels { labels.now.edges ≡ a.now }
    requires inner { All (IsInner a.now) listed.now }
    requires polygons { ArePolygonsOfEach a.now listed.now polygons.items }
    ensures { OnOk result ((o : Overlay) → IsOverlay labels.now o → AreAppended (IsGapFeature o) listed.now features.old.items features.new.items) }
{
    let search = GapSearch::build(alloc, a, r)?;
    let sides = sides_by_region(alloc, r)?;
    let mut place = 0;
    for polygon in polygons {
        let region = listed[place];
        let members = bordering_members(alloc, r, labels, sides.group(region))?;
        features.push(gap_feature(labels, &search, region, members, polygon)?)?;
        place += 1;
    }
    Ok(())
}

// The sides of each region, by its number.
fn sides_by_region(alloc: Global, r: &Regions) -> Result<Grouped, NoMemory>
    ensures { IfOk result (λ g. AreSidesByRegion r.now g) }
{
    let numbers = r.numbers();
    Ok(Grouped::build(alloc, numbers, numbers.len())?)
}

// The feature of a gap that these members border on and that has this polygon.
fn gap_feature(
    labels: &Labels,
    search: &GapSearch,
    region: usize,
    members: Vec<u32>,
    polygon: Poly,
) -> Result<MapFeature, NoMemory>
    requires search { search.now ≡ labels.now.edges }
    requires inner { IsInner labels.now.edges region }
    ensures { IfOk result (λ f. (o : Overlay) → IsOverlay labels.now o → AreBordering o region members.items → IsRegionPolygon o region polygon → IsGapFeature o region f) }
{
    Ok(MapFeature::Gap {
        area2: labels.region_area2(region),
        clearance: search.clearance(region)?,
        region,
        members,
        polygon,
    })
}
