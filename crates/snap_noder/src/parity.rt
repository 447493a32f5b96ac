ghost use Rattle.std.specs.Prelude.{◌≡◌, ◌%◌, Contains, IfOk, IsPermutation, IsSorted, IsTrue, ◌↔◌};
ghost use Rattle.arrangement.specs.Noding.{AreEdges};
ghost use Rattle.snap_noder.specs.Order.{AreBySegment, AreOddAscending, odd_cmp};
ghost use Rattle.snap_noder.specs.Places.{HaveEdgeNumbers, EndsWith, odd_times};

use crate::noded::Noded;
use arrangement::OddUse;
use cov_types::{EdgeUse, NoMemory, Seg};
use std::alloc::Global;

/// The edges of a list of uses, and for each member those that it uses an odd number of times. Takes n log n time in the number of
/// uses, and memory in proportion to it.
pub(crate) fn edges_of(alloc: Global, uses: Vec<EdgeUse>) -> Result<Noded, NoMemory>
    ensures { IfOk result (λ n. AreEdges uses.items n.edges.items n.odd.items) }
{
    let sorted = by_segment(uses);
    let Numbered { edges, mut pairs } = number_edges(alloc, sorted.as_slice())?;
    pairs.sort_unstable();
    let odd = odd_ones(alloc, pairs.as_slice())?;
    Ok(Noded { edges, odd })
}

/// The uses in the order of their segments.
pub(crate) fn by_segment(mut uses: Vec<EdgeUse>) -> Vec<EdgeUse>
    ensures permutation { IsPermutation uses.items result.items }
    ensures sorted { AreBySegment result.items }
{
    uses.sort_unstable_by_key(|u| (u.seg, u.member));
    uses
}

// Distinct edges, ascending, and the pair of each use: its member with the number of its edge.
struct Numbered {
    edges: Vec<Seg>,
    pairs: Vec<OddUse>,
}

// Numbers the edges of uses that are in the order of their segments: each new segment is the next edge.
fn number_edges(alloc: Global, uses: &[EdgeUse]) -> Result<Numbered, NoMemory>
    requires { AreBySegment uses.now }
    ensures { IfOk result (λ n. HaveEdgeNumbers uses.now n.edges.items n.pairs.items) }
{
    let mut edges = Vec::new(alloc);
    let mut pairs = Vec::new(alloc);
    for u in uses {
        if !is_last_edge(edges.as_slice(), u.seg) {
            edges.push(u.seg)?;
        }
        pairs.push(OddUse {
            member: u.member,
            edge: edges.len() - 1,
        })?;
    }
    Ok(Numbered { edges, pairs })
}

fn is_last_edge(edges: &[Seg], s: Seg) -> bool
    ensures { IsTrue result ↔ EndsWith edges.now s }
{
    match edges.last() {
        Some(last) => *last == s,
        None => false,
    }
}

// Of sorted pairs, those that stand there an odd number of times, each once: two that are equal cancel.
fn odd_ones(alloc: Global, sorted: &[OddUse]) -> Result<Vec<OddUse>, NoMemory>
    requires { IsSorted odd_cmp sorted.now }
    ensures exact { IfOk result (λ odd. (o : OddUse) → Contains odd.items o ↔ (odd_times o sorted.now % 2 ≡ 1)) }
    ensures ascending { IfOk result (λ odd. AreOddAscending odd.items) }
{
    let mut odd = Vec::new(alloc);
    for o in sorted {
        if is_last_pair(odd.as_slice(), *o) {
            odd.pop();
        } else {
            odd.push(*o)?;
        }
    }
    Ok(odd)
}

fn is_last_pair(pairs: &[OddUse], o: OddUse) -> bool
    ensures { IsTrue result ↔ EndsWith pairs.now o }
{
    match pairs.last() {
        Some(last) => *last == o,
        None => false,
    }
}
