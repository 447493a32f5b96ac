ghost use Rattle.std.specs.Prelude.{◌≡◌};
ghost use Rattle.plane.specs.Region.{IsOuterRegion};
ghost use Rattle.arrangement.specs.Overlay.{IsRegion};

use cov_types::{Coord, NoMemory, Seg};
use face_walk::Regions;
use gap_width::{GapSearch, clearance, narrow};
use half_edge::{Arena, are_arranged};
use std::alloc::Global;
use std::process::Abort;
use std::test::Fail;

/// The edges between these points, as given.
fn edges_between(
    alloc: Global,
    rt: &impl Abort,
    numbers: &[(i32, i32, i32, i32)],
) -> Result<Vec<Seg>, NoMemory> {
    let mut edges = Vec::new(alloc);
    for (a, b, c, d) in numbers {
        let edge = Seg::between(Coord { x: *a, y: *b }, Coord { x: *c, y: *d });
        edges.push(edge.expect(rt, "two points"))?;
    }
    Ok(edges)
}

/// The region of the side, which is not the outer one.
fn inner_region(rt: &impl Abort, arena: &Arena, regions: &Regions, side: usize) -> usize
    requires { regions.now ≡ arena.now }
    ensures region { IsRegion arena.now result }
    ensures not_outer { ¬ IsOuterRegion arena.now result }
{
    assert!(rt; side < arena.len());
    let region = regions.region_of(side);
    let outer = regions.outer().expect(rt, "there is an edge");
    assert!(rt; region != outer);
    region
}

/// The regions of these sides have these clearances.
fn expect_clearances(
    alloc: Global,
    rt: &impl Abort,
    numbers: &[(i32, i32, i32, i32)],
    want: &[(usize, u32)],
) -> Result<(), Fail> {
    let edges = edges_between(alloc, rt, numbers)?;
    assert!(rt; are_arranged(alloc, &edges)?);
    let arena = Arena::build(alloc, edges)?;
    let regions = Regions::build(alloc, &arena)?;
    let search = GapSearch::build(alloc, &arena, &regions)?;
    for (side, wide) in want {
        let region = inner_region(rt, &arena, &regions, *side);
        let width = *wide;
        assert!(rt; width < 1073741824);
        assert_eq!(rt; search.clearance(region)?, width);
        assert_eq!(rt; clearance(alloc, &arena, &regions, region)?, width);
        assert!(rt; !search.narrow(region, width)?);
        assert!(rt; search.narrow(region, width + 1)?);
        assert!(rt; narrow(alloc, &arena, &regions, region, width + 1)?);
    }
    Ok(())
}

#[test]
fn a_hole_is_as_wide_as_its_middle_is_from_its_edges(rt: HostRuntime) -> Result<(), Fail> {
    let frame = [
        (0, 0, 0, 20),
        (0, 0, 20, 0),
        (0, 20, 20, 20),
        (9, 9, 9, 11),
        (9, 9, 11, 9),
        (9, 11, 11, 11),
        (11, 9, 11, 11),
        (20, 0, 20, 20),
    ];
    expect_clearances(rt.alloc(), &rt, &frame, &[(7, 2), (1, 10)])
}

#[test]
fn a_triangle_without_a_grid_point_has_no_width(rt: HostRuntime) -> Result<(), Fail> {
    let triangle = [(5, 5, 5, 6), (5, 5, 6, 5), (5, 6, 6, 5)];
    expect_clearances(rt.alloc(), &rt, &triangle, &[(1, 0)])
}

#[test]
fn a_sliver_between_grid_points_has_no_width(rt: HostRuntime) -> Result<(), Fail> {
    let sliver = [
        (0, 0, 1000, 999),
        (0, 0, 1000, 1000),
        (1000, 999, 1000, 1000),
    ];
    expect_clearances(rt.alloc(), &rt, &sliver, &[(0, 0)])
}

#[test]
fn a_wide_square_has_half_its_side_all_round(rt: HostRuntime) -> Result<(), Fail> {
    let square = [
        (-16777000, -16777000, -16777000, 16777000),
        (-16777000, -16777000, 16777000, -16777000),
        (-16777000, 16777000, 16777000, 16777000),
        (16777000, -16777000, 16777000, 16777000),
    ];
    expect_clearances(rt.alloc(), &rt, &square, &[(1, 33554000)])
}

#[test]
fn a_gap_as_wide_as_w_is_not_narrow_and_one_unit_narrower_is(rt: HostRuntime) -> Result<(), Fail> {
    let squares = [
        (0, 0, 0, 8),
        (0, 0, 8, 0),
        (0, 8, 8, 8),
        (8, 0, 8, 8),
        (20, 0, 20, 7),
        (20, 0, 27, 0),
        (20, 7, 27, 7),
        (27, 0, 27, 7),
    ];
    let alloc = rt.alloc();
    let edges = edges_between(alloc, &rt, &squares)?;
    assert!(&rt; are_arranged(alloc, &edges)?);
    let arena = Arena::build(alloc, edges)?;
    let regions = Regions::build(alloc, &arena)?;
    let search = GapSearch::build(alloc, &arena, &regions)?;
    let wide = inner_region(&rt, &arena, &regions, 1);
    let less = inner_region(&rt, &arena, &regions, 9);
    assert!(&rt; !search.narrow(wide, 8)?);
    assert!(&rt; search.narrow(less, 8)?);
    assert!(&rt; !search.narrow(less, 0)?);
    Ok(())
}

/// The edge from a point over so many units.
fn edge_from(x: i32, y: i32, across: i32, upwards: i32) -> (i32, i32, i32, i32) {
    (x, y, x.wrapping_add(across), y.wrapping_add(upwards))
}

/// The square of a hundred edges of 4 units round the middle (50, 50), in order.
fn square_of_a_hundred(alloc: Global) -> Result<Vec<(i32, i32, i32, i32)>, NoMemory> {
    let mut numbers = Vec::new(alloc);
    numbers.push(edge_from(0, 0, 0, 4))?;
    numbers.push(edge_from(0, 0, 4, 0))?;
    for place in 1i32..25 {
        numbers.push(edge_from(0, place.wrapping_mul(4), 0, 4))?;
    }
    numbers.push(edge_from(0, 100, 4, 0))?;
    for place in 1i32..25 {
        numbers.push(edge_from(place.wrapping_mul(4), 0, 4, 0))?;
        numbers.push(edge_from(place.wrapping_mul(4), 100, 4, 0))?;
    }
    for place in 0i32..25 {
        numbers.push(edge_from(100, place.wrapping_mul(4), 0, 4))?;
    }
    Ok(numbers)
}

#[test]
fn a_square_of_a_hundred_edges_is_as_wide_as_it_is_long(rt: HostRuntime) -> Result<(), Fail> {
    let numbers = square_of_a_hundred(rt.alloc())?;
    expect_clearances(rt.alloc(), &rt, &numbers, &[(1, 100)])
}

/// A sliver of slope 2 between two chains of so many edges, 8 units apart straight up, in order.
fn sliver(alloc: Global, count: i32) -> Result<Vec<(i32, i32, i32, i32)>, NoMemory> {
    let mut numbers = Vec::new(alloc);
    numbers.push(edge_from(0, 0, 0, 8))?;
    for x in 0..count {
        let y = x.wrapping_mul(2);
        numbers.push(edge_from(x, y, 1, 2))?;
        numbers.push(edge_from(x, y.wrapping_add(8), 1, 2))?;
    }
    numbers.push(edge_from(count, count.wrapping_mul(2), 0, 8))?;
    Ok(numbers)
}

// The points on its middle line are 4/root(5) from both chains, and twice that is 3.58.
#[test]
fn a_long_sloping_sliver_is_as_wide_as_its_middle_line_tells(rt: HostRuntime) -> Result<(), Fail> {
    let alloc = rt.alloc();
    let edges = edges_between(alloc, &rt, &sliver(alloc, 5000)?)?;
    assert!(&rt; are_arranged(alloc, &edges)?);
    let arena = Arena::build(alloc, edges)?;
    let regions = Regions::build(alloc, &arena)?;
    let search = GapSearch::build(alloc, &arena, &regions)?;
    let region = inner_region(&rt, &arena, &regions, 1);
    assert_eq!(&rt; search.clearance(region)?, 3);
    Ok(())
}

// In each a point at the middle of its height, or half a unit beside it, is the best: of 8 units up a slope of a half it is 4 units
// below the upper side, so 8/root(5) from both, and twice that is 7.16; of 9 units it is 4 from one side and 5 from the other.
#[test]
fn corridors_of_sixteen_million_units_are_as_wide_as_their_middle_is(
    rt: HostRuntime,
) -> Result<(), Fail> {
    let sloping = [
        (0, 0, 0, 8),
        (0, 0, 16777216, 8388608),
        (0, 8, 16777216, 8388616),
        (16777216, 8388608, 16777216, 8388616),
    ];
    expect_clearances(rt.alloc(), &rt, &sloping, &[(1, 7)])?;
    let straight = [
        (0, 0, 0, 9),
        (0, 0, 16777216, 0),
        (0, 9, 16777216, 9),
        (16777216, 0, 16777216, 9),
    ];
    expect_clearances(rt.alloc(), &rt, &straight, &[(1, 8)])
}
