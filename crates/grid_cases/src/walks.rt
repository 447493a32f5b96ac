ghost use Rattle.std.specs.Prelude.{IsTrue};
ghost use Rattle.arrangement.specs.Noding.{IsAscending};

use cov_types::{Coord, Seg};
use line_walk::lines_of;
use std::alloc::{AllocError, Global};
use std::process::Abort;
use std::test::Fail;

/// Points of a line, x and y of each.
type Points<'a> = &'a [(i32, i32)];

#[test]
fn no_edges_have_no_lines(rt: HostRuntime) -> Result<(), Fail> {
    expect_lines(&rt, rt.alloc(), &[], &[])
}

#[test]
fn a_ring_alone_begins_at_its_least_point(rt: HostRuntime) -> Result<(), Fail> {
    let edges = [(0, 0, 0, 4), (0, 0, 4, 0), (0, 4, 4, 0)];
    let round: Points = &[(0, 0), (0, 4), (4, 0), (0, 0)];
    expect_lines(&rt, rt.alloc(), &edges, &[round])
}

#[test]
fn neighbours_have_three_lines(rt: HostRuntime) -> Result<(), Fail> {
    let edges = [
        (0, 0, 0, 10),
        (0, 0, 10, 0),
        (0, 10, 10, 10),
        (10, 0, 11, 5),
        (10, 0, 20, 0),
        (10, 10, 11, 5),
        (10, 10, 20, 10),
        (20, 0, 20, 10),
    ];
    let left: Points = &[(10, 0), (0, 0), (0, 10), (10, 10)];
    let inner: Points = &[(10, 0), (11, 5), (10, 10)];
    let right: Points = &[(10, 0), (20, 0), (20, 10), (10, 10)];
    expect_lines(&rt, rt.alloc(), &edges, &[left, inner, right])
}

#[test]
fn a_ring_through_one_node_leads_back_to_it(rt: HostRuntime) -> Result<(), Fail> {
    // Two triangles meet in (4, 4), at which four edges end, and an edge hangs at (0, 0), at which three do.
    let edges = [
        (-2, -2, 0, 0),
        (0, 0, 0, 4),
        (0, 0, 4, 4),
        (0, 4, 4, 4),
        (4, 4, 8, 4),
        (4, 4, 8, 8),
        (8, 4, 8, 8),
    ];
    let hanging: Points = &[(-2, -2), (0, 0)];
    let long: Points = &[(0, 0), (0, 4), (4, 4)];
    let short: Points = &[(0, 0), (4, 4)];
    let ring: Points = &[(4, 4), (8, 4), (8, 8), (4, 4)];
    expect_lines(&rt, rt.alloc(), &edges, &[hanging, long, short, ring])
}

fn expect_lines(
    rt: &impl Abort,
    alloc: Global,
    edges: &[(i32, i32, i32, i32)],
    expected: &[Points],
) -> Result<(), Fail> {
    let edges = edges_of(alloc, edges)?;
    assert!(rt; are_ascending(edges.as_slice()));
    let lines = lines_of(alloc, edges.as_slice())?;
    assert_eq!(rt; lines.len(), expected.len());
    for (line, points) in lines.iter().zip(expected) {
        let same = line.iter().map(|p| (p.x, p.y)).eq(points.iter().copied());
        assert!(rt; same);
    }
    Ok(())
}

// Whether the edges ascend strictly.
fn are_ascending(edges: &[Seg]) -> bool
    ensures { IsTrue result → IsAscending edges.now }
{
    for i in 1..edges.len() {
        if edges[i - 1].cmp(&edges[i]).is_ge() {
            return false;
        }
    }
    true
}

fn edges_of(alloc: Global, ends: &[(i32, i32, i32, i32)]) -> Result<Vec<Seg>, AllocError> {
    let mut edges = Vec::new(alloc);
    for (a, b, c, d) in ends {
        if let Some(edge) = Seg::between(Coord { x: *a, y: *b }, Coord { x: *c, y: *d }) {
            edges.push(edge)?;
        }
    }
    Ok(edges)
}
