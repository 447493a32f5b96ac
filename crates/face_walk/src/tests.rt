use crate::Regions;
use crate::below::nearest_by_scan;
use crate::edge_tree::EdgeTree;
use cov_types::{Coord, NoMemory, Seg};
use half_edge::{Arena, are_arranged};
use std::alloc::Global;
use std::process::Abort;
use std::test::Fail;

fn edge(rt: &impl Abort, a: i32, b: i32, c: i32, d: i32) -> Seg {
    Seg::between(Coord { x: a, y: b }, Coord { x: c, y: d }).expect(rt, "two points")
}

/// The edges between these points, as given.
fn edges_between(
    alloc: Global,
    rt: &impl Abort,
    numbers: &[(i32, i32, i32, i32)],
) -> Result<Vec<Seg>, NoMemory> {
    let mut edges = Vec::new(alloc);
    for (a, b, c, d) in numbers {
        edges.push(edge(rt, *a, *b, *c, *d))?;
    }
    Ok(edges)
}

/// The sides of these edges have these regions, so many in all, and this outer region.
fn expect_regions(
    alloc: Global,
    rt: &impl Abort,
    numbers: &[(i32, i32, i32, i32)],
    want: &[usize],
    count: usize,
    outer: Option<usize>,
) -> Result<(), Fail> {
    let edges = edges_between(alloc, rt, numbers)?;
    assert!(rt; are_arranged(alloc, &edges)?);
    let arena = Arena::build(alloc, edges)?;
    let regions = Regions::build(alloc, &arena)?;
    assert_eq!(rt; arena.len(), want.len());
    for side in 0..arena.len() {
        assert_eq!(rt; regions.region_of(side), want[side], "side {side}");
    }
    assert_eq!(rt; regions.count(), count);
    assert_eq!(rt; regions.outer(), outer);
    Ok(())
}

/// Two members round a gap, and a third one in the gap.
const GAP: [(i32, i32, i32, i32); 18] = [
    (0, 0, 0, 30),
    (0, 0, 15, 0),
    (0, 30, 15, 30),
    (10, 10, 10, 20),
    (10, 10, 15, 10),
    (10, 20, 15, 20),
    (11, 11, 11, 19),
    (11, 11, 19, 11),
    (11, 19, 19, 19),
    (15, 0, 15, 10),
    (15, 0, 30, 0),
    (15, 10, 20, 10),
    (15, 20, 15, 30),
    (15, 20, 20, 20),
    (15, 30, 30, 30),
    (19, 11, 19, 19),
    (20, 10, 20, 20),
    (30, 0, 30, 30),
];

#[test]
fn the_outside_of_an_island_is_the_gap_round_it(rt: HostRuntime) -> Result<(), Fail> {
    let want = [
        0, 1, 1, 0, 0, 1, 1, 7, 7, 1, 1, 7, 7, 13, 13, 7, 7, 13, 1, 19, 19, 0, 7, 19, 1, 19, 19, 7,
        0, 19, 13, 7, 7, 19, 19, 0,
    ];
    expect_regions(rt.alloc(), &rt, &GAP, &want, 5, Some(0))
}

#[test]
fn without_edges_there_is_no_region(rt: HostRuntime) -> Result<(), Fail> {
    expect_regions(rt.alloc(), &rt, &[], &[], 0, None)
}

/// Five squares, each in the one before: a hole, an island in it, its hole, and an island in that.
const NESTED: [(i32, i32, i32, i32); 20] = [
    (0, 0, 0, 50),
    (0, 0, 50, 0),
    (0, 50, 50, 50),
    (10, 10, 10, 40),
    (10, 10, 40, 10),
    (10, 40, 40, 40),
    (14, 14, 14, 36),
    (14, 14, 36, 14),
    (14, 36, 36, 36),
    (18, 18, 18, 32),
    (18, 18, 32, 18),
    (18, 32, 32, 32),
    (22, 22, 22, 28),
    (22, 22, 28, 22),
    (22, 28, 28, 28),
    (28, 22, 28, 28),
    (32, 18, 32, 32),
    (36, 14, 36, 36),
    (40, 10, 40, 40),
    (50, 0, 50, 50),
];

#[test]
fn nested_squares_bound_a_region_each(rt: HostRuntime) -> Result<(), Fail> {
    let want = [
        0, 1, 1, 0, 0, 1, 1, 7, 7, 1, 1, 7, 7, 13, 13, 7, 7, 13, 13, 19, 19, 13, 13, 19, 19, 25,
        25, 19, 19, 25, 25, 19, 19, 13, 13, 7, 7, 1, 1, 0,
    ];
    expect_regions(rt.alloc(), &rt, &NESTED, &want, 6, Some(0))
}

/// A square with two smaller ones in it, which have the vertex (10, 10) in common.
const TOUCHING: [(i32, i32, i32, i32); 12] = [
    (0, 0, 0, 20),
    (0, 0, 20, 0),
    (0, 20, 20, 20),
    (5, 5, 5, 10),
    (5, 5, 10, 5),
    (5, 10, 10, 10),
    (10, 5, 10, 10),
    (10, 10, 10, 15),
    (10, 10, 15, 10),
    (10, 15, 15, 15),
    (15, 10, 15, 15),
    (20, 0, 20, 20),
];

#[test]
fn islands_that_touch_in_a_vertex_stay_apart(rt: HostRuntime) -> Result<(), Fail> {
    let want = [
        0, 1, 1, 0, 0, 1, 1, 7, 7, 1, 1, 7, 7, 1, 1, 15, 15, 1, 1, 15, 15, 1, 1, 0,
    ];
    expect_regions(rt.alloc(), &rt, &TOUCHING, &want, 4, Some(0))
}

/// A comb whose three teeth hang from its bar, over a line below it.
const COMB: [(i32, i32, i32, i32); 13] = [
    (-10, -10, 60, -10),
    (0, 0, 0, 20),
    (0, 0, 10, 0),
    (0, 20, 50, 20),
    (10, 0, 10, 10),
    (10, 10, 20, 10),
    (20, 0, 20, 10),
    (20, 0, 30, 0),
    (30, 0, 30, 10),
    (30, 10, 40, 10),
    (40, 0, 40, 10),
    (40, 0, 50, 0),
    (50, 0, 50, 20),
];

#[test]
fn between_the_teeth_of_a_comb_is_the_outer_region(rt: HostRuntime) -> Result<(), Fail> {
    let want = [
        0, 0, 0, 3, 3, 0, 0, 3, 3, 0, 3, 0, 0, 3, 3, 0, 3, 0, 3, 0, 0, 3, 3, 0, 3, 0,
    ];
    expect_regions(rt.alloc(), &rt, &COMB, &want, 2, Some(0))
}

#[test]
fn separate_parts_have_one_outer_region(rt: HostRuntime) -> Result<(), Fail> {
    let squares = [
        (0, 0, 0, 10),
        (0, 0, 10, 0),
        (0, 10, 10, 10),
        (10, 0, 10, 10),
        (20, 0, 20, 10),
        (20, 0, 30, 0),
        (20, 10, 30, 10),
        (30, 0, 30, 10),
    ];
    let want = [0, 1, 1, 0, 0, 1, 1, 0, 0, 9, 9, 0, 0, 9, 9, 0];
    expect_regions(rt.alloc(), &rt, &squares, &want, 3, Some(0))
}

#[test]
fn both_sides_of_a_dead_end_have_one_region(rt: HostRuntime) -> Result<(), Fail> {
    let edges = [
        (0, 0, 0, 10),
        (0, 0, 5, 5),
        (0, 0, 10, 0),
        (0, 10, 10, 10),
        (6, 7, 8, 7),
        (10, 0, 10, 10),
    ];
    let want = [0, 1, 1, 1, 1, 0, 0, 1, 1, 1, 1, 0];
    expect_regions(rt.alloc(), &rt, &edges, &want, 2, Some(0))
}

/// Adds the edges of twenty squares of size 2 in a column, four units from one to the next, ascending.
fn add_column(rt: &impl Abort, edges: &mut Vec<Seg>, column: u8) -> Result<(), NoMemory> {
    let x = 4 * i32::from(column);
    for row in 0..20u8 {
        let y = 4 * i32::from(row);
        edges.push(edge(rt, x, y, x, y + 2))?;
        edges.push(edge(rt, x, y, x + 2, y))?;
        edges.push(edge(rt, x, y + 2, x + 2, y + 2))?;
    }
    for row in 0..20u8 {
        let y = 4 * i32::from(row);
        edges.push(edge(rt, x + 2, y, x + 2, y + 2))?;
    }
    Ok(())
}

#[test]
fn five_hundred_separate_squares_have_a_region_each(rt: HostRuntime) -> Result<(), Fail> {
    let alloc = rt.alloc();
    let mut edges = Vec::new(alloc);
    for column in 0..25u8 {
        add_column(&rt, &mut edges, column)?;
    }
    assert_eq!(rt; edges.len(), 2000);
    assert!(rt; are_arranged(alloc, &edges)?);
    let arena = Arena::build(alloc, edges)?;
    let regions = Regions::build(alloc, &arena)?;
    assert_eq!(rt; regions.count(), 501);
    assert_eq!(rt; regions.outer(), Some(0));
    Ok(())
}

/// Adds those edges of a grid of unit squares that begin at x, ascending; the grid has so many squares each way.
fn add_grid_column(
    rt: &impl Abort,
    edges: &mut Vec<Seg>,
    x: i32,
    size: i32,
) -> Result<(), NoMemory> {
    for y in 0..size {
        edges.push(edge(rt, x, y, x, y + 1))?;
        if x < size {
            edges.push(edge(rt, x, y, x + 1, y))?;
        }
    }
    if x < size {
        edges.push(edge(rt, x, size, x + 1, size))?;
    }
    Ok(())
}

#[test]
fn ten_thousand_squares_of_a_grid_have_a_region_each(rt: HostRuntime) -> Result<(), Fail> {
    let alloc = rt.alloc();
    let mut edges = Vec::new(alloc);
    for x in 0..101 {
        add_grid_column(&rt, &mut edges, x, 100)?;
    }
    assert_eq!(rt; edges.len(), 20_200);
    assert!(rt; are_arranged(alloc, &edges)?);
    let arena = Arena::build(alloc, edges)?;
    let regions = Regions::build(alloc, &arena)?;
    assert_eq!(rt; regions.count(), 10_001);
    assert_eq!(rt; regions.outer(), Some(0));
    Ok(())
}

/// A search finds the edge that a scan finds, below each end of the edges and below points among them.
fn expect_same(alloc: Global, rt: &impl Abort, mut edges: Vec<Seg>) -> Result<(), Fail> {
    edges.sort_unstable();
    assert!(rt; are_arranged(alloc, &edges)?);
    let mut points = Vec::new(alloc);
    let mut state = 1u32;
    for e in &edges {
        state = state.wrapping_mul(1_664_525).wrapping_add(1_013_904_223);
        points.push(e.lo)?;
        points.push(e.hi)?;
        points.push(Coord {
            x: (state >> 24) as i32 % 130,
            y: (state >> 16) as i32 % 130,
        })?;
    }
    let tree = EdgeTree::build(alloc, &edges)?;
    for p in &points {
        assert!(rt; p.is_in_range());
        assert_eq!(rt;
            tree.nearest_below(*p),
            nearest_by_scan(&edges, *p),
            "{p:?}"
        );
    }
    Ok(())
}

/// Adds the edges of a triangle.
fn add_triangle(
    rt: &impl Abort,
    edges: &mut Vec<Seg>,
    a: (i32, i32),
    b: (i32, i32),
    c: (i32, i32),
) -> Result<(), NoMemory> {
    edges.push(edge(rt, a.0, a.1, b.0, b.1))?;
    edges.push(edge(rt, b.0, b.1, c.0, c.1))?;
    edges.push(edge(rt, c.0, c.1, a.0, a.1))?;
    Ok(())
}

/// Adds the edges of a square with these lower left and upper right corners.
fn add_square(
    rt: &impl Abort,
    edges: &mut Vec<Seg>,
    lo: (i32, i32),
    hi: (i32, i32),
) -> Result<(), NoMemory> {
    edges.push(edge(rt, lo.0, lo.1, hi.0, lo.1))?;
    edges.push(edge(rt, hi.0, lo.1, hi.0, hi.1))?;
    edges.push(edge(rt, lo.0, hi.1, hi.0, hi.1))?;
    edges.push(edge(rt, lo.0, lo.1, lo.0, hi.1))?;
    Ok(())
}

#[test]
fn a_search_among_scattered_pieces_finds_what_a_scan_finds(rt: HostRuntime) -> Result<(), Fail> {
    let alloc = rt.alloc();
    let mut edges = Vec::new(alloc);
    let mut state = 7u32;
    for cell in 0..144u8 {
        state = state.wrapping_mul(1_664_525).wrapping_add(1_013_904_223);
        let x = 10 * i32::from(cell % 12);
        let y = 10 * i32::from(cell / 12);
        let size = 2 + (state >> 24) as i32 % 7;
        if state >> 31 == 0 {
            add_square(&rt, &mut edges, (x, y), (x + size, y + size))?;
        } else {
            add_triangle(
                &rt,
                &mut edges,
                (x, y + 1),
                (x + size, y),
                (x + 1, y + size),
            )?;
        }
    }
    expect_same(alloc, &rt, edges)
}

#[test]
fn a_search_among_nested_squares_finds_what_a_scan_finds(rt: HostRuntime) -> Result<(), Fail> {
    let alloc = rt.alloc();
    let mut edges = Vec::new(alloc);
    for ring in 0..20u8 {
        let near = 3 * i32::from(ring);
        add_square(&rt, &mut edges, (near, near), (130 - near, 130 - near))?;
    }
    expect_same(alloc, &rt, edges)
}

#[test]
fn a_search_among_long_lines_finds_what_a_scan_finds(rt: HostRuntime) -> Result<(), Fail> {
    let alloc = rt.alloc();
    let mut edges = Vec::new(alloc);
    for row in 0..20u8 {
        let x = 40 * i32::from(row);
        let y = 20 * i32::from(row);
        edges.push(edge(&rt, 0, y, 1000, y + 7))?;
        add_triangle(
            &rt,
            &mut edges,
            (x + 3, y + 9),
            (x + 9, y + 10),
            (x + 5, y + 14),
        )?;
    }
    expect_same(alloc, &rt, edges)
}
