ghost use Rattle.std.specs.Prelude.{◌≡◌, true, IfOk, IsTrue, ◌↔◌, List, length};
ghost use Rattle.arrangement.specs.declared.odd_use.OddUse.{OddUse as OddPair};
ghost use Rattle.arrangement.specs.Noding.{AreEdges, IsAscending};
ghost use Rattle.cov_simplify.specs.Inner.{AreCountedUses, AreMemberCounts, AreOpen};
ghost use Rattle.cov_types.specs.declared.edge_use.EdgeUse.{EdgeUse};
ghost use Rattle.cov_types.specs.Uses.{HasEvenEnds};
ghost use Rattle.greedy_run.specs.Lines.{AreLines, IsLine};
ghost use Rattle.greedy_run.specs.Run.{IsInner};
ghost use Rattle.line_walk.specs.Line.{plain_lists};
ghost use Rattle.plane.specs.Validity.{IsValid};

use crate::edges::place_of;
use cov_types::{Coord, NoMemory, Seg};
use snap_noder::LiveEdges;
use std::alloc::Global;

/// For each line of a valid coverage whether it may lose points: each may, or where only inner lines may, those whose segments two
/// members have. Takes n log n time in the number of segments, and memory in proportion to it.
pub fn open_lines(
    alloc: Global,
    live: &LiveEdges,
    lines: &[Vec<Coord>],
    inner_only: bool,
) -> Result<Vec<bool>, NoMemory>
    requires lines { AreLines live.now.edges.items (plain_lists lines.now) }
    ensures { IfOk result (λ marks. (uses : List EdgeUse) → IsValid uses → HasEvenEnds uses → AreEdges uses live.now.edges.items live.now.odd.items → AreOpen uses inner_only (plain_lists lines.now) marks.items) }
{
    let counts = member_counts(alloc, live)?;
    let mut marks = Vec::new(alloc);
    for i in 0..lines.len() {
        marks.push(is_open(&live.edges, &counts, &lines[i], inner_only))?;
    }
    Ok(marks)
}

// For each edge how many members have it.
fn member_counts(alloc: Global, live: &LiveEdges) -> Result<Vec<usize>, NoMemory>
    ensures long { IfOk result (λ counts. length counts.items ≡ length live.now.edges.items) }
    ensures counts { IfOk result (λ counts. AreMemberCounts live.now.odd.items counts.items) }
{
    let mut counts = vec![in alloc; 0; live.edges.len()]?;
    for o in &live.odd {
        counts[o.edge] += 1;
    }
    Ok(counts)
}

// Whether the line may lose points.
fn is_open(edges: &[Seg], counts: &[usize], points: &[Coord], inner_only: bool) -> bool
    requires ascending { IsAscending edges.now }
    requires long { length counts.now ≡ length edges.now }
    requires line { IsLine edges.now points.now }
    ensures { (uses : List EdgeUse) (odd : List OddPair) → AreCountedUses uses edges.now odd counts.now → IsTrue result ↔ (inner_only ≡ true → IsInner uses points.now) }
{
    !inner_only || is_inner(edges, counts, points)
}

// Whether two members have each segment of the line. Who has one of its segments has all, so the first tells.
fn is_inner(edges: &[Seg], counts: &[usize], points: &[Coord]) -> bool
    requires ascending { IsAscending edges.now }
    requires long { length counts.now ≡ length edges.now }
    requires line { IsLine edges.now points.now }
    ensures { (uses : List EdgeUse) (odd : List OddPair) → AreCountedUses uses edges.now odd counts.now → IsTrue result ↔ IsInner uses points.now }
{
    match Seg::between(points[0], points[1]) {
        Some(edge) => counts[place_of(edges, edge)] >= 2,
        None => false,
    }
}
