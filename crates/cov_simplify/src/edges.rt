ghost use Rattle.std.specs.Prelude.{◌≡◌, Contains, IfOk, Some, slice_get};
ghost use Rattle.arrangement.specs.Noding.{AreEdges, IsAscending, odd_uses};
ghost use Rattle.cov_types.specs.Coverage.{AllInRange};
ghost use Rattle.cov_types.specs.Uses.{uses_of, HasEvenEnds};
ghost use Rattle.plane.specs.Validity.{IsValid};
ghost use Rattle.sector_laws.specs.Sector.{AreDistinct, IsPlanar};

use cov_types::{Coverage, NoMemory, Seg, uses};
use snap_noder::{LiveEdges, Noded, plain};
use std::alloc::Global;

/// The segments of a valid coverage, each once, and the members that have them: as no member has a segment twice, each is odd for the
/// members that have it. Takes n log n time in the number of segments, and memory in proportion to it.
pub fn edges_of_valid(alloc: Global, c: &Coverage) -> Result<LiveEdges, NoMemory>
    requires in_range { AllInRange c.now }
    requires valid { IsValid (uses_of c.now) }
    ensures exact { IfOk result (λ l. AreEdges (uses_of c.now) l.edges.items l.odd.items) }
    ensures planar { IfOk result (λ l. IsPlanar l.edges.items) }
    ensures distinct { IfOk result (λ l. AreDistinct l.edges.items) }
    ensures even { IfOk result (λ l. HasEvenEnds (odd_uses l.edges.items l.odd.items)) }
{
    let uses = uses(alloc, c)?;
    let Noded { edges, odd } = plain(alloc, &uses)?;
    Ok(LiveEdges { edges, odd })
}

/// The place of an edge of the list. Takes time in proportion to the logarithm of the edges.
pub fn place_of(edges: &[Seg], edge: Seg) -> usize
    requires ascending { IsAscending edges.now }
    requires among { Contains edges.now edge }
    ensures { slice_get edges.now result ≡ Some edge }
{
    edges.partition_point(|other| other.cmp(&edge).is_lt())
}
