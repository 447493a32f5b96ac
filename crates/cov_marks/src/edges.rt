ghost use Rattle.std.specs.Prelude.{◌≡◌, ◌⊎◌, ℕ, ◌+◌, ◌*◌, ◌<◌, ◌^◌, ◌↔◌, List, AllPairs, Contains, IfOk, IsTrue, length, slice_index};
ghost use Rattle.cov_types.specs.declared.seg.Seg.{Seg};
ghost use Rattle.plane.specs.Region.{AreRegions};
ghost use Rattle.arrangement.specs.Noding.{IsAscending};
ghost use Rattle.cov_marks.specs.Beside.{IsBesideAny};

use cov_types::{NoMemory, Seg};
use face_walk::Regions;
use half_edge::Side;
use std::alloc::Global;

/// The edges one side of which is in one of the regions, in their order. Takes time in proportion to the edges and the logarithm of the
/// regions.
pub fn edges_beside(
    alloc: Global,
    edges: &[Seg],
    r: &Regions,
    regions: &[usize],
) -> Result<Vec<Seg>, NoMemory>
    requires walked { r.now ≡ edges.now }
    requires edges { IsAscending edges.now }
    requires regions { AllPairs (λ m n. m < n) regions.now }
    ensures ascending { IfOk result (λ v. IsAscending v.items) }
    ensures exact { IfOk result (λ v. (numbers : List ℕ) → AreRegions edges.now numbers → (s : Seg) → Contains v.items s ↔ IsBesideAny edges.now numbers regions.now s) }
{
    let mut beside = Vec::new(alloc);
    for (k, edge) in edges.iter().enumerate() {
        if is_beside(r, regions, k) {
            beside.push(*edge)?;
        }
    }
    Ok(beside)
}

// Whether a side of edge k is in one of the regions.
fn is_beside(r: &Regions, regions: &[usize], k: usize) -> bool
    requires within { k < length r.now }
    requires small { k < 2 ^ 63 }
    requires regions { AllPairs (λ m n. m < n) regions.now }
    ensures { (numbers : List ℕ) → AreRegions r.now numbers → IsTrue result ↔ (Contains regions.now (slice_index numbers (2 * k)) ⊎ Contains regions.now (slice_index numbers (2 * k + 1))) }
{
    let above = r.region_of(Side::upper(k).number());
    let below = r.region_of(Side::lower(k).number());
    if has_number(regions, above) {
        return true;
    }
    has_number(regions, below)
}

// Whether the ascending list has the number.
fn has_number(list: &[usize], n: usize) -> bool
    requires { AllPairs (λ m n. m < n) list.now }
    ensures { IsTrue result ↔ Contains list.now n }
{
    list.binary_search(&n).is_ok()
}

/// Whether the ascending list has the segment. Takes time in proportion to the logarithm of the list.
pub fn has_segment(list: &[Seg], s: Seg) -> bool
    requires { IsAscending list.now }
    ensures { IsTrue result ↔ Contains list.now s }
{
    list.binary_search(&s).is_ok()
}
