ghost use Rattle.std.specs.Prelude.{◌≡◌, ◌*◌, ◌<◌, ◌↔◌, All, AllPairs, IfOk, IsTrue, length};
ghost use Rattle.arrangement.specs.Overlay.{Overlay};
ghost use Rattle.owner_label.specs.Labelled.{IsOverlay};
ghost use Rattle.region_owners.specs.Gap.{IsGap};
ghost use Rattle.fault_map.specs.FaultMap.{AreListed, IsShared};
ghost use Rattle.fault_map.specs.Polygon.{IsInner};

use cov_types::NoMemory;
use face_walk::Regions;
use owner_label::Labels;
use std::alloc::Global;

/// The regions that several members hold, ascending. Takes time in proportion to the edges.
pub(crate) fn shared_regions(
    alloc: Global,
    r: &Regions,
    labels: &Labels,
) -> Result<Vec<usize>, NoMemory>
    requires labels { labels.now.edges ≡ r.now }
    ensures inner { IfOk result (λ v. All (IsInner r.now) v.items) }
    ensures ascending { IfOk result (λ v. AllPairs (λ m n. m < n) v.items) }
    ensures exact { IfOk result (λ v. (o : Overlay) → IsOverlay labels.now o → AreListed (IsShared o) v.items) }
{
    let mut listed = Vec::new(alloc);
    for side in 0..r.numbers().len() {
        if is_shared(r, labels, side) {
            listed.push(side)?;
        }
    }
    Ok(listed)
}

// Whether the side has the number of a region that several members hold.
fn is_shared(r: &Regions, labels: &Labels, side: usize) -> bool
    requires labels { labels.now.edges ≡ r.now }
    requires within { side < 2 * length r.now }
    ensures inner { IsTrue result → IsInner r.now side }
    ensures exact { (o : Overlay) → IsOverlay labels.now o → IsTrue result ↔ IsShared o side }
{
    if r.region_of(side) != side {
        return false;
    }
    labels.label(side).len() >= 2
}

/// The gaps, ascending. Takes time in proportion to the edges.
pub(crate) fn gaps(alloc: Global, r: &Regions, labels: &Labels) -> Result<Vec<usize>, NoMemory>
    requires labels { labels.now.edges ≡ r.now }
    ensures inner { IfOk result (λ v. All (IsInner r.now) v.items) }
    ensures ascending { IfOk result (λ v. AllPairs (λ m n. m < n) v.items) }
    ensures exact { IfOk result (λ v. (o : Overlay) → IsOverlay labels.now o → AreListed (IsGap o) v.items) }
{
    let mut listed = Vec::new(alloc);
    for side in 0..r.numbers().len() {
        if is_gap(r, labels, side) {
            listed.push(side)?;
        }
    }
    Ok(listed)
}

// Whether the side has the number of a gap.
fn is_gap(r: &Regions, labels: &Labels, side: usize) -> bool
    requires labels { labels.now.edges ≡ r.now }
    requires within { side < 2 * length r.now }
    ensures inner { IsTrue result → IsInner r.now side }
    ensures exact { (o : Overlay) → IsOverlay labels.now o → IsTrue result ↔ IsGap o side }
{
    if r.region_of(side) != side {
        return false;
    }
    if r.outer() == Some(side) {
        return false;
    }
    labels.label(side).is_empty()
}
