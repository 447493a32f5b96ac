ghost use Rattle.std.specs.Prelude.{◌≡◌, ◌<◌, IfOk, IsPermutation, length};
ghost use Rattle.line_walk.specs.Ends.{AreEndsGrouped, IsOtherOfTwo, IsPairAt, ends_from, is_end_at, is_end_before};

use cov_types::{Coord, NoMemory, Seg};
use std::alloc::Global;

/// An end of an edge: the vertex there, and the place of the edge.
#[derive(Clone, Copy)]
pub struct EdgeEnd {
    pub vertex: Coord,
    pub edge: usize,
}

/// The ends of all edges, those at one vertex side by side. Takes n log n time, and memory in proportion to the edges.
pub fn ends_by_vertex(alloc: Global, edges: &[Seg]) -> Result<Vec<EdgeEnd>, NoMemory>
    ensures all { IfOk result (λ ends. IsPermutation (ends_from 0 edges.now) ends.items) }
    ensures together { IfOk result (λ ends. AreEndsGrouped ends.items) }
{
    let mut ends = ends_of(alloc, edges)?;
    ends.sort_unstable_by_key(|end| end.vertex);
    Ok(ends)
}

fn ends_of(alloc: Global, edges: &[Seg]) -> Result<Vec<EdgeEnd>, NoMemory>
    ensures { IfOk result (λ ends. ends.items ≡ ends_from 0 edges.now) }
{
    let mut ends = Vec::new(alloc);
    for (k, edge) in edges.iter().enumerate() {
        ends.push(EdgeEnd {
            vertex: edge.lo,
            edge: k,
        })?;
        ends.push(EdgeEnd {
            vertex: edge.hi,
            edge: k,
        })?;
    }
    Ok(ends)
}

/// The edge of the other end at the vertex of this one, where just the two are there.
pub fn other_of_two(ends: &[EdgeEnd], i: usize) -> Option<usize>
    requires together { AreEndsGrouped ends.now }
    requires within { i < length ends.now }
    ensures { IsOtherOfTwo ends.now i result }
{
    if is_pair(ends, i) {
        Some(ends[i + 1].edge)
    } else if 0 < i && is_pair(ends, i - 1) {
        Some(ends[i - 1].edge)
    } else {
        None
    }
}

// Whether the end at the place and the next are at one vertex, and those around them at others.
fn is_pair(ends: &[EdgeEnd], first: usize) -> bool
    requires { first < length ends.now }
    ensures { IsPairAt ends.now first result }
{
    let vertex = ends[first].vertex;
    is_at(ends, first + 1, vertex)
        && !is_at(ends, first + 2, vertex)
        && !is_at_before(ends, first, vertex)
}

// Whether there is an end at the place and its vertex is the given one.
fn is_at(ends: &[EdgeEnd], place: usize, vertex: Coord) -> bool
    ensures { result ≡ is_end_at ends.now vertex place }
{
    match ends.get(place) {
        Some(end) => end.vertex == vertex,
        None => false,
    }
}

// Whether there is an end before the place and its vertex is the given one.
fn is_at_before(ends: &[EdgeEnd], place: usize, vertex: Coord) -> bool
    ensures { result ≡ is_end_before ends.now vertex place }
{
    0 < place && is_at(ends, place - 1, vertex)
}
