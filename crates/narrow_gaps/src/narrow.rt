ghost use Rattle.std.specs.Prelude.{◌≡◌, ℕ, ◌*◌, ◌<◌, ◌≤◌, ◌^◌, ◌↔◌, AllPairs, Contains, IsTrue, IfOk, length};
ghost use Rattle.plane.specs.Region.{IsOuterRegion};
ghost use Rattle.arrangement.specs.Overlay.{Overlay, IsRegion};
ghost use Rattle.owner_label.specs.Labelled.{IsOverlay};
ghost use Rattle.region_owners.specs.Gap.{IsGap};
ghost use Rattle.region_owners.specs.Owner.{IsNarrowGap};

use cov_types::NoMemory;
use face_walk::Regions;
use gap_width::GapSearch;
use half_edge::Arena;
use owner_label::Labels;
use std::alloc::Global;

/// The gaps that are narrow at the width, in grid units, ascending. At the width 0 there is none, and nothing is looked at. Otherwise it
/// takes time and memory in proportion to the edges, beside the search for room in each gap.
pub fn narrow_gaps<'a>(
    alloc: Global,
    a: &'a Arena,
    r: &Regions<'a>,
    labels: &Labels,
    width: u32,
) -> Result<Vec<usize>, NoMemory>
    requires regions { r.now ≡ a.now }
    requires labels { labels.now.edges ≡ a.now }
    requires width { width ≤ 2 ^ 30 }
    ensures ascending { IfOk result (λ v. AllPairs (λ m n. m < n) v.items) }
    ensures exact { IfOk result (λ v. (o : Overlay) → IsOverlay labels.now o → (n : ℕ) → Contains v.items n ↔ IsNarrowGap o n width) }
{
    let mut gaps = Vec::new(alloc);
    if width == 0 {
        return Ok(gaps);
    }
    let search = GapSearch::build(alloc, a, r)?;
    for side in 0..a.len() {
        if is_gap(r, labels, side) && search.narrow(side, width)? {
            gaps.push(side)?;
        }
    }
    Ok(gaps)
}

// Whether the side has the number of a gap.
fn is_gap(r: &Regions, labels: &Labels, side: usize) -> bool
    requires regions { labels.now.edges ≡ r.now }
    requires within { side < 2 * length r.now }
    ensures region { IsTrue result → IsRegion r.now side }
    ensures inner { IsTrue result → ¬ IsOuterRegion r.now side }
    ensures gap { (o : Overlay) → IsOverlay labels.now o → IsTrue result ↔ IsGap o side }
{
    if r.region_of(side) != side {
        return false;
    }
    if r.outer() == Some(side) {
        return false;
    }
    labels.label(side).is_empty()
}
