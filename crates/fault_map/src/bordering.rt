ghost use Rattle.std.specs.Prelude.{◌≡◌, ℕ, ◌*◌, ◌<◌, All, IfOk, Some, length, slice_get};
ghost use Rattle.arrangement.specs.Overlay.{Overlay, IsRegion, label_of, region_at};
ghost use Rattle.half_edge.specs.Side.{across};
ghost use Rattle.owner_label.specs.Labelled.{IsOverlay};
ghost use Rattle.fault_map.specs.Beyond.{AreHeldBeyond, AreSidesOf};
ghost use Rattle.fault_map.specs.FaultMap.{AreBordering};

use cov_types::NoMemory;
use face_walk::Regions;
use half_edge::Side;
use owner_label::Labels;
use std::alloc::Global;

/// The members that border on the region with these sides, ascending: those that hold a region across one of them. Takes n log n time
/// for the n members in the labels there.
pub(crate) fn bordering_members(
    alloc: Global,
    r: &Regions,
    labels: &Labels,
    sides: &[usize],
) -> Result<Vec<u32>, NoMemory>
    requires labels { labels.now.edges ≡ r.now }
    requires within { All (λ side. side < 2 * length r.now) sides.now }
    ensures { IfOk result (λ v. (o : Overlay) (region : ℕ) → IsOverlay labels.now o → AreSidesOf o region sides.now → AreBordering o region v.items) }
{
    let mut members = members_beyond(alloc, r, labels, sides)?;
    members.sort_unstable();
    members.dedup();
    Ok(members)
}

// The members that hold a region across one of the sides, as often as they do.
fn members_beyond(
    alloc: Global,
    r: &Regions,
    labels: &Labels,
    sides: &[usize],
) -> Result<Vec<u32>, NoMemory>
    requires labels { labels.now.edges ≡ r.now }
    requires within { All (λ side. side < 2 * length r.now) sides.now }
    ensures { IfOk result (λ v. (o : Overlay) → IsOverlay labels.now o → AreHeldBeyond o sides.now v.items) }
{
    let mut members = Vec::new(alloc);
    for side in sides {
        members.extend_from_slice(label_beyond(r, labels, *side))?;
    }
    Ok(members)
}

// The label of the region across the side.
fn label_beyond<'a>(r: &Regions, labels: &'a Labels, side: usize) -> &'a [u32]
    requires labels { labels.now.edges ≡ r.now }
    requires within { side < 2 * length r.now }
    ensures { (o : Overlay) → IsOverlay labels.now o → result.now ≡ label_of o (region_at o (across side)) }
{
    let beyond = Side::of_number(side).twin();
    labels.label(r.region_of(beyond.number()))
}
