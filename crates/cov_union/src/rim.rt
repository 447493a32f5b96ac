ghost use Rattle.std.specs.Prelude.{◌≡◌, ◌%◌, Contains, IfOk, IsPermutation, IsSorted, IsTrue, ◌↔◌};
ghost use Rattle.arrangement.specs.Noding.{AreLiveEdges, IsAscending, odd_uses, segments};
ghost use Rattle.cov_types.specs.Coverage.{AllInRange};
ghost use Rattle.cov_types.specs.Seg.{seg_cmp};
ghost use Rattle.cov_types.specs.Uses.{uses_of, HasEvenEnds};
ghost use Rattle.crossing_laws.specs.Across.{times};
ghost use Rattle.plane.specs.Validity.{IsValid};
ghost use Rattle.sector_laws.specs.Sector.{AreDistinct, IsPlanar};
ghost use Rattle.snap_noder.specs.Places.{EndsWith};
ghost use Rattle.cov_union.specs.Rim.{merged, AreFirstPairs};

use cov_types::{Coverage, NoMemory, Seg, uses};
use snap_noder::{LiveEdges, OddUse};
use std::alloc::Global;

/// The segments that one member of a valid coverage has, and no other, as the edges of member 0: those that two have are within the
/// union. Takes n log n time in the number of segments, and memory in proportion to it.
pub fn rim_of(alloc: Global, c: &Coverage) -> Result<LiveEdges, NoMemory>
    requires in_range { AllInRange c.now }
    requires valid { IsValid (uses_of c.now) }
    ensures exact { IfOk result (λ l. AreLiveEdges (merged (uses_of c.now)) l.edges.items l.odd.items) }
    ensures planar { IfOk result (λ l. IsPlanar l.edges.items) }
    ensures distinct { IfOk result (λ l. AreDistinct l.edges.items) }
    ensures even { IfOk result (λ l. HasEvenEnds (odd_uses l.edges.items l.odd.items)) }
{
    let sorted = sorted_segments(alloc, c)?;
    let edges = odd_segments(alloc, sorted.as_slice())?;
    let odd = first_pairs(alloc, edges.len())?;
    Ok(LiveEdges { edges, odd })
}

// The segments of all uses, ascending: one that two members have stands there twice.
fn sorted_segments(alloc: Global, c: &Coverage) -> Result<Vec<Seg>, NoMemory>
    requires { AllInRange c.now }
    ensures same { IfOk result (λ v. IsPermutation (segments (uses_of c.now)) v.items) }
    ensures sorted { IfOk result (λ v. IsSorted seg_cmp v.items) }
{
    let mut list = segments_of(alloc, c)?;
    list.sort_unstable();
    Ok(list)
}

fn segments_of(alloc: Global, c: &Coverage) -> Result<Vec<Seg>, NoMemory>
    requires { AllInRange c.now }
    ensures { IfOk result (λ v. v.items ≡ segments (uses_of c.now)) }
{
    let uses = uses(alloc, c)?;
    let list = uses.iter().map(|u| u.seg).collect(alloc)?;
    Ok(list)
}

// Of sorted segments, those that stand there an odd number of times, each once: two that are equal cancel.
fn odd_segments(alloc: Global, sorted: &[Seg]) -> Result<Vec<Seg>, NoMemory>
    requires { IsSorted seg_cmp sorted.now }
    ensures exact { IfOk result (λ odd. (e : Seg) → Contains odd.items e ↔ (times e sorted.now % 2 ≡ 1)) }
    ensures ascending { IfOk result (λ odd. IsAscending odd.items) }
{
    let mut odd = Vec::new(alloc);
    for s in sorted {
        if is_last(odd.as_slice(), *s) {
            odd.pop();
        } else {
            odd.push(*s)?;
        }
    }
    Ok(odd)
}

fn is_last(segments: &[Seg], s: Seg) -> bool
    ensures { IsTrue result ↔ EndsWith segments.now s }
{
    match segments.last() {
        Some(last) => *last == s,
        None => false,
    }
}

// Member 0 with each of so many edges.
fn first_pairs(alloc: Global, edges: usize) -> Result<Vec<OddUse>, NoMemory>
    ensures { IfOk result (λ odd. AreFirstPairs edges odd.items) }
{
    let mut odd = Vec::with_capacity(alloc, edges)?;
    for edge in 0..edges {
        odd.push(OddUse { member: 0, edge })?;
    }
    Ok(odd)
}
