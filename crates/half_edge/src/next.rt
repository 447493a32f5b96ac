ghost use Rattle.std.specs.Prelude.{◌≡◌, ◌<◌, length, All, IfOk};
ghost use Rattle.half_edge.specs.Arena.{IsNextTable};
ghost use Rattle.half_edge.specs.Departures.{AreDepartures, AreInOrder, AreLast};
ghost use Rattle.sector_laws.specs.Sector.{IsPlanar, AreDistinct};

use crate::departure::Departures;
use crate::side::Side;
use cov_types::{NoMemory, Seg};
use std::alloc::Global;

/// For each half-edge the one that follows it.
///
/// A half-edge follows the twin of the one after it round their vertex, and the last one follows the twin of the first.
pub fn next_table(
    alloc: Global,
    edges: &[Seg],
    departures: &Departures,
) -> Result<Vec<Side>, NoMemory>
    requires planar { IsPlanar edges.now }
    requires distinct { AreDistinct edges.now }
    requires departures { AreDepartures edges.now departures.now.list.items }
    requires numbered { All (λ d. d.vertex.number < departures.now.vertex_count) departures.now.list.items }
    requires in_order { AreInOrder departures.now.list.items }
    ensures { IfOk result (λ v. IsNextTable edges.now v.items) }
{
    // For each vertex the half-edge before the one that comes next round it.
    let mut before = last_departures(alloc, departures)?;
    let mut table = vec![in alloc; Side::of_number(0); 2 * edges.len()]?;
    for d in &departures.list {
        table[d.id.twin().number()] = before[d.vertex.number];
        before[d.vertex.number] = d.id;
    }
    Ok(table)
}

// For each vertex the last half-edge that leaves it.
fn last_departures(alloc: Global, departures: &Departures) -> Result<Vec<Side>, NoMemory>
    requires numbered { All (λ d. d.vertex.number < departures.now.vertex_count) departures.now.list.items }
    ensures count { IfOk result (λ v. length v.items ≡ departures.now.vertex_count) }
    ensures last { IfOk result (λ v. AreLast departures.now.list.items v.items) }
{
    let mut last = vec![in alloc; Side::of_number(0); departures.vertex_count]?;
    for d in &departures.list {
        last[d.vertex.number] = d.id;
    }
    Ok(last)
}
