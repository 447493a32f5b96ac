ghost use Rattle.std.specs.Prelude.{IsTrue, All, IfOk, ◌↔◌};
ghost use Rattle.cov_types.specs.Range.{IsSegInRange};
ghost use Rattle.half_edge.specs.Arranged.{IsArranged, AreAscending};
ghost use Rattle.sector_laws.specs.Sector.{IsPlanar, AreDistinct};

use crate::noded::are_noded;
use cov_types::{NoMemory, Seg};
use std::alloc::Global;

/// Whether the edges are in range, ascend strictly, and meet in ends alone, so that an arena can be built of them.
///
/// Takes n log n time in the number of edges, and besides the pairs of edges whose boxes touch; linear memory.
pub fn are_arranged(alloc: Global, edges: &[Seg]) -> Result<bool, NoMemory>
    ensures exact { IfOk result (λ answer. IsTrue answer ↔ IsArranged edges.now) }
    ensures planar { IfOk result (λ answer. IsTrue answer → IsPlanar edges.now) }
    ensures distinct { IfOk result (λ answer. IsTrue answer → AreDistinct edges.now) }
{
    if !are_in_range(edges) || !are_ascending(edges) {
        return Ok(false);
    }
    let noded = are_noded(alloc, edges)?;
    Ok(noded)
}

fn are_in_range(edges: &[Seg]) -> bool
    ensures { IsTrue result ↔ All IsSegInRange edges.now }
{
    for e in edges {
        if !e.lo.is_in_range() || !e.hi.is_in_range() {
            return false;
        }
    }
    true
}

fn are_ascending(edges: &[Seg]) -> bool
    ensures { IsTrue result ↔ AreAscending edges.now }
{
    for i in 1..edges.len() {
        if edges[i - 1] >= edges[i] {
            return false;
        }
    }
    true
}
