ghost use Rattle.std.specs.Prelude.{◌≡◌, Contains, IfOk, ◌↔◌, map};

use box_tree::curve;
use cov_types::{Coord, NoMemory, Seg};
use std::alloc::Global;

/// The same segments, each once, in an order that keeps near ones near in the list. Takes n log n time.
pub(crate) fn segments_along_curve(alloc: Global, segs: &[Seg]) -> Result<Vec<Seg>, NoMemory>
    ensures { IfOk result (λ along. (s : Seg) → Contains along.items s ↔ Contains segs.now s) }
{
    let mut keyed = Vec::with_capacity(alloc, segs.len())?;
    for s in segs {
        keyed.push((curve(s.lo), *s))?;
    }
    keyed.sort_unstable();
    let mut along = without_keys(alloc, keyed.as_slice())?;
    along.dedup();
    Ok(along)
}

/// The same points, each once, in such an order.
pub(crate) fn points_along_curve(alloc: Global, points: &[Coord]) -> Result<Vec<Coord>, NoMemory>
    ensures { IfOk result (λ along. (p : Coord) → Contains along.items p ↔ Contains points.now p) }
{
    let mut keyed = Vec::with_capacity(alloc, points.len())?;
    for p in points {
        keyed.push((curve(*p), *p))?;
    }
    keyed.sort_unstable();
    let mut along = without_keys(alloc, keyed.as_slice())?;
    along.dedup();
    Ok(along)
}

fn without_keys<T: Copy>(alloc: Global, keyed: &[(u64, T)]) -> Result<Vec<T>, NoMemory>
    ensures { IfOk result (λ items. items.items ≡ map (λ p. p.1) keyed.now) }
{
    let items = keyed.iter().map(|(_, item)| *item).collect(alloc)?;
    Ok(items)
}
