ghost use Rattle.std.specs.Prelude.{◌≡◌, ◌<◌, All, Contains, IfOk, ◌↔◌, length, map, slice_index};
ghost use Rattle.cov_types.specs.Uses.{HasEvenEnds};
ghost use Rattle.arrangement.specs.Noding.{AreLiveEdges, odd_uses};
ghost use Rattle.sector_laws.specs.Sector.{AreDistinct, IsPlanar};
ghost use Rattle.snap_noder.specs.Marked.{AreUseMarks, ArePrefixCounts, marked};

use crate::live_edges::LiveEdges;
use crate::noded::Noded;
use arrangement::OddUse;
use cov_types::{EdgeUse, NoMemory, Seg};
use std::alloc::Global;

/// The edges that are odd for some member, renumbered in their order, with the odd pairs. Takes time and memory in proportion to the
/// edges and the odd pairs.
pub fn live(alloc: Global, n: &Noded) -> Result<LiveEdges, NoMemory>
    ensures exact { IfOk result (λ l. AreLiveEdges (odd_uses n.now.edges.items n.now.odd.items) l.edges.items l.odd.items) }
    ensures odd { IfOk result (λ l. (u : EdgeUse) → Contains (odd_uses l.edges.items l.odd.items) u ↔ Contains (odd_uses n.now.edges.items n.now.odd.items) u) }

    // Each live edge is one of the edges, and so the live edges meet in ends alone where the edges do.
    ensures fewer { IfOk result (λ l. (e : Seg) → Contains l.edges.items e → Contains n.now.edges.items e) }
    ensures planar { IfOk result (λ l. IsPlanar n.now.edges.items → IsPlanar l.edges.items) }
    ensures distinct { IfOk result (λ l. AreDistinct l.edges.items) }
    ensures even { IfOk result (λ l. HasEvenEnds (odd_uses n.now.edges.items n.now.odd.items) → HasEvenEnds (odd_uses l.edges.items l.odd.items)) }
{
    let marks = marks_of(alloc, n)?;
    let edges = marked_edges(alloc, n.edges.as_slice(), marks.as_slice())?;
    let numbers = prefix_counts(alloc, marks.as_slice())?;
    let odd = renumbered(alloc, n.odd.as_slice(), numbers.as_slice())?;
    Ok(LiveEdges { edges, odd })
}

// Of each edge whether some odd pair has it.
fn marks_of(alloc: Global, n: &Noded) -> Result<Vec<bool>, NoMemory>
    ensures { IfOk result (λ marks. AreUseMarks n.now.edges.items n.now.odd.items marks.items) }
{
    let mut marks = vec![in alloc; false; n.edges.len()]?;
    for o in &n.odd {
        marks[o.edge] = true;
    }
    Ok(marks)
}

fn marked_edges(alloc: Global, edges: &[Seg], marks: &[bool]) -> Result<Vec<Seg>, NoMemory>
    ensures { IfOk result (λ kept. kept.items ≡ marked edges.now marks.now) }
{
    let kept = edges
        .iter()
        .zip(marks.iter())
        .filter(|(_, mark)| **mark)
        .map(|(edge, _)| *edge)
        .collect(alloc)?;
    Ok(kept)
}

// Of each place how many are marked before it.
fn prefix_counts(alloc: Global, marks: &[bool]) -> Result<Vec<usize>, NoMemory>
    ensures { IfOk result (λ counts. ArePrefixCounts marks.now counts.items) }
{
    let mut counts = Vec::new(alloc);
    let mut so_far = 0usize;
    for mark in marks {
        counts.push(so_far)?;
        so_far += usize::from(*mark);
    }
    Ok(counts)
}

// The pairs with a new number for each edge.
fn renumbered(alloc: Global, odd: &[OddUse], numbers: &[usize]) -> Result<Vec<OddUse>, NoMemory>
    requires { All (λ o. o.edge < length numbers.now) odd.now }
    ensures { IfOk result (λ new. new.items ≡ map (λ o. record { member = o.member; edge = slice_index numbers.now o.edge }) odd.now) }
{
    let mut new = Vec::new(alloc);
    for pair in odd {
        new.push(OddUse {
            member: pair.member,
            edge: numbers[pair.edge],
        })?;
    }
    Ok(new)
}

/// The uses that the odd pairs stand for: each member with each edge that it has an odd number of times. Takes time and memory in
/// proportion to the odd pairs.
pub fn uses_of_odd(alloc: Global, n: &Noded) -> Result<Vec<EdgeUse>, NoMemory>
    ensures { IfOk result (λ uses. uses.items ≡ odd_uses n.now.edges.items n.now.odd.items) }
{
    let mut uses = Vec::new(alloc);
    for o in &n.odd {
        uses.push(EdgeUse {
            member: o.member,
            seg: n.edges[o.edge],
        })?;
    }
    Ok(uses)
}
