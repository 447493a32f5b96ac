ghost use Rattle.std.specs.Prelude.{◌≡◌, IfOk};
ghost use Rattle.arrangement.specs.Noding.{IsAscending};
ghost use Rattle.cov_types.specs.Seg.{IsSegBetween};
ghost use Rattle.line_walk.specs.Partners.{ArePartners, IsAtVertex, HasEndAt};
ghost use Rattle.line_walk.specs.Walk.{IsOnwardFrom, IsEdgeWalk};

use crate::partners::Partners;
use cov_types::{Coord, NoMemory, Seg};
use std::alloc::Global;

/// A walk along edges: its points, the places of its edges, and where it ends and along which edge.
#[derive(Drop)]
pub struct Walk {
    pub points: Vec<Coord>,
    pub edges: Vec<usize>,
    pub to: Coord,
    pub last: usize,
}

/// Walks from the vertex along the edge, and on until other than two edges meet or the vertex is met again. Takes time and memory in
/// proportion to the edges of the walk.
pub fn walk_from(
    alloc: Global,
    edges: &[Seg],
    partners: &[Partners],
    from: Coord,
    first: usize,
) -> Result<Walk, NoMemory>
    requires ascending { IsAscending edges.now }
    requires partners { ArePartners edges.now partners.now }
    requires begins { HasEndAt edges.now first from }
    ensures { IfOk result (λ w. IsEdgeWalk edges.now from first w) }
{
    let mut to = other_end(edges[first], from);
    let mut last = first;
    let mut points = Vec::new(alloc);
    points.push(from)?;
    points.push(to)?;
    let mut passed = Vec::new(alloc);
    passed.push(first)?;
    'walk: while let Some(next) = onward(edges, partners, from, to, last) {
        to = other_end(edges[next], to);
        last = next;
        points.push(to)?;
        passed.push(next)?;
    }
    Ok(Walk {
        points,
        edges: passed,
        to,
        last,
    })
}

// The edge along which a walk that came to the vertex along the last edge goes on.
fn onward(
    edges: &[Seg],
    partners: &[Partners],
    from: Coord,
    to: Coord,
    last: usize,
) -> Option<usize>
    requires partners { ArePartners edges.now partners.now }
    requires end { HasEndAt edges.now last to }
    ensures { IsOnwardFrom edges.now from to last result }
{
    if to == from {
        None
    } else {
        partners[last].at(edges[last], to)
    }
}

fn other_end(edge: Seg, vertex: Coord) -> Coord
    requires { IsAtVertex edge vertex }
    ensures { IsSegBetween vertex result edge }
{
    if edge.lo == vertex { edge.hi } else { edge.lo }
}
