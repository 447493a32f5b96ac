ghost use Rattle.std.specs.Prelude.{◌≡◌, ◌*◌, ◌<◌, false, length, slice_index, IfOk, vec_len};
ghost use Rattle.sector_laws.specs.Sector.{IsPlanar, AreDistinct};
ghost use Rattle.cov_build.specs.Rings.{IsClosedFrom, IsLeastEnd, IsRingBack};
ghost use Rattle.cov_build.specs.Walks.{AreVisitFlags, IsRound, IsWalkFrom, is_visited, target_of};

use cov_types::{Coord, NoMemory, Ring};
use half_edge::Arena;
use std::alloc::Global;

/// The half-edges from the start on along `next`, up to the first that was seen, and marks them as seen. Takes time and memory in
/// proportion to them.
pub fn walk(
    alloc: Global,
    a: &Arena,
    start: usize,
    seen: &mut [bool],
) -> Result<Vec<usize>, NoMemory>
    requires flags { AreVisitFlags a.now seen.old }
    requires within { start < 2 * length a.now }
    requires free { is_visited seen.old start ≡ false }
    requires planar { IsPlanar a.now }
    requires distinct { AreDistinct a.now }
    ensures { IfOk result (λ way. IsWalkFrom a.now start seen.old way.items seen.new) }
{
    let mut way = Vec::new(alloc);
    let mut h = start;
    'round: while !seen[h] {
        seen[h] = true;
        way.push(h)?;
        h = a.next(h);
    }
    Ok(way)
}

/// The ring of a closed walk, backwards, so that it has on its left what the walk has on its right. It begins at its least point.
pub fn ring_of(alloc: Global, a: &Arena, mut way: Vec<usize>, last: usize) -> Result<Ring, NoMemory>
    requires round { IsRound a.now way.items }
    requires last { last < vec_len way }
    requires least { IsLeastEnd a.now way.items last }
    ensures back { IfOk result (λ ring. IsRingBack a.now way.items ring) }
    ensures closed { IfOk result (λ ring. IsClosedFrom a.now (slice_index way.items last) ring) }
{
    way.rotate_left(last + 1);
    way.reverse();
    let mut points = Vec::new(alloc);
    for h in &way {
        points.push(target(a, *h))?;
    }
    Ok(Ring { points })
}

/// The place of a half-edge of the walk that ends at the least vertex of all.
pub fn least_end(a: &Arena, way: &[usize]) -> usize
    requires round { IsRound a.now way.now }
    ensures within { result < length way.now }
    ensures least { IsLeastEnd a.now way.now result }
{
    let mut least = 0;
    for i in 0..way.len() {
        if target(a, way[i]) < target(a, way[least]) {
            least = i;
        }
    }
    least
}

// The vertex where the half-edge ends.
fn target(a: &Arena, h: usize) -> Coord
    requires { h < 2 * length a.now }
    ensures { result ≡ target_of a.now h }
{
    a.origin(a.twin(h))
}
