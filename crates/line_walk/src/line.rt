ghost use Rattle.std.specs.Prelude.{◌≡◌, ◌<◌, IfOk, length};
ghost use Rattle.arrangement.specs.Noding.{IsAscending};
ghost use Rattle.line_walk.specs.Line.{IsFirstOfLine, IsLesserWay, IsLineWith, IsWholeWalk};
ghost use Rattle.line_walk.specs.Partners.{ArePartners};

use crate::partners::Partners;
use crate::walk::{Walk, walk_from};
use cov_types::{Coord, NoMemory, Seg};
use std::alloc::Global;

/// A line, and the places of its edges.
#[derive(Drop)]
pub struct PlacedLine {
    pub points: Vec<Coord>,
    pub edges: Vec<usize>,
}

/// The line of an edge that is the first of its line. Takes time and memory in proportion to the edges of the line.
pub fn line_from(
    alloc: Global,
    edges: &[Seg],
    partners: &[Partners],
    first: usize,
) -> Result<PlacedLine, NoMemory>
    requires ascending { IsAscending edges.now }
    requires partners { ArePartners edges.now partners.now }
    requires within { first < length edges.now }
    requires first { IsFirstOfLine edges.now first }
    ensures { IfOk result (λ line. IsLineWith edges.now first line.points.items line.edges.items) }
{
    let whole = whole_walk(alloc, edges, partners, first)?;
    let Walk {
        points,
        edges: passed,
        to: _,
        last: _,
    } = whole;
    Ok(PlacedLine {
        points: lesser_way(alloc, points)?,
        edges: passed,
    })
}

// A walk along the whole line of the edge: it is back where it began, or is walked back from its end to its other end.
fn whole_walk(
    alloc: Global,
    edges: &[Seg],
    partners: &[Partners],
    first: usize,
) -> Result<Walk, NoMemory>
    requires ascending { IsAscending edges.now }
    requires partners { ArePartners edges.now partners.now }
    requires within { first < length edges.now }
    requires first { IsFirstOfLine edges.now first }
    ensures { IfOk result (λ w. IsWholeWalk edges.now first w.points.items w.edges.items) }
{
    let from = edges[first].lo;
    let there = walk_from(alloc, edges, partners, from, first)?;
    if there.to == from {
        Ok(there)
    } else {
        walk_from(alloc, edges, partners, there.to, there.last)
    }
}

// The lesser of the points and the same points from the end to the beginning.
fn lesser_way(alloc: Global, points: Vec<Coord>) -> Result<Vec<Coord>, NoMemory>
    ensures { IfOk result (λ lesser. IsLesserWay points.items lesser.items) }
{
    let mut turned = Vec::from_slice(alloc, &points)?;
    turned.reverse();
    if points.cmp(&turned).is_le() {
        Ok(points)
    } else {
        Ok(turned)
    }
}
