ghost use Rattle.std.specs.Prelude.{◌≡◌, ◌<◌, All, IfOk, IsPermutation, length};
ghost use Rattle.arrangement.specs.Noding.{IsAscending};
ghost use Rattle.greedy_run.specs.Lines.{AreLines};
ghost use Rattle.line_walk.specs.Line.{AreLinesUnsorted, IsMarkedBy, plain_lists};
ghost use Rattle.line_walk.specs.Partners.{ArePartners};

use crate::line::line_from;
use crate::partners::{Partners, partners_of};
use cov_types::{Coord, NoMemory, Seg};
use std::alloc::Global;

/// The lines of the edges, which ascend strictly, in the order of their numbers. Takes n log n time, and memory in proportion to the
/// edges.
pub fn lines_of(alloc: Global, edges: &[Seg]) -> Result<Vec<Vec<Coord>>, NoMemory>
    requires { IsAscending edges.now }
    ensures { IfOk result (λ lines. AreLines edges.now (plain_lists lines.items)) }
{
    let partners = partners_of(alloc, edges)?;
    let mut lines = unsorted_lines(alloc, edges, &partners)?;
    lines.sort_by(|a, b| a.cmp(b))?;
    Ok(lines)
}

// The lines, by their first edges.
fn unsorted_lines(
    alloc: Global,
    edges: &[Seg],
    partners: &[Partners],
) -> Result<Vec<Vec<Coord>>, NoMemory>
    requires ascending { IsAscending edges.now }
    requires partners { ArePartners edges.now partners.now }
    ensures { IfOk result (λ lines. AreLinesUnsorted edges.now (plain_lists lines.items)) }
{
    let mut seen = vec![in alloc; false; edges.len()]?;
    let mut lines = Vec::new(alloc);
    for first in 0..edges.len() {
        if !seen[first] {
            let line = line_from(alloc, edges, partners, first)?;
            mark(&mut seen, &line.edges);
            lines.push(line.points)?;
        }
    }
    Ok(lines)
}

// Marks the places.
fn mark(seen: &mut [bool], places: &[usize])
    requires { All (λ k. k < length seen.old) places.now }
    ensures { IsMarkedBy places.now seen.old seen.new }
{
    for k in places {
        seen[*k] = true;
    }
}
