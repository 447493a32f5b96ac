use cov_admit::{ValidCoverage, admit};
use cov_overlay::{Overlaid, Pair, overlay};
use cov_types::{Coord, Coverage, Member, Poly, Ring, formed};
use std::alloc::{AllocError, Global};
use std::process::Abort;
use std::test::Fail;

const SQUARE: [(i32, i32); 4] = [(0, 0), (10, 0), (10, 10), (0, 10)];

/// A member of one polygon with one ring.
fn member(alloc: Global, numbers: &[(i32, i32)]) -> Result<Member, AllocError> {
    let mut points = Vec::new(alloc);
    for (x, y) in numbers {
        points.push(Coord { x: *x, y: *y })?;
    }
    let mut rings = Vec::new(alloc);
    rings.push(Ring { points })?;
    let mut polys = Vec::new(alloc);
    polys.push(Poly { rings })?;
    Ok(Member { polys })
}

/// The valid coverage of members that have one ring each.
fn coverage(
    alloc: Global,
    rt: &impl Abort,
    rings: &[&[(i32, i32)]],
) -> Result<ValidCoverage, Fail> {
    let mut members = Vec::new(alloc);
    for numbers in rings {
        members.push(member(alloc, numbers)?)?;
    }
    let c = Coverage { members };
    assert!(rt; formed(&c));
    match admit(alloc, c) {
        Ok(valid) => Ok(valid),
        Err(error) => Err(Fail::from(error)),
    }
}

/// Member `place` is one polygon with this ring alone.
fn expect_ring(rt: &impl Abort, out: &Overlaid, place: usize, wanted: &[(i32, i32)]) {
    let members = &out.coverage.members;
    assert!(rt; place < members.len());
    let polys = &members[place].polys;
    assert_eq!(rt; polys.len(), 1);
    assert_eq!(rt; polys[0].rings.len(), 1);
    let points = &polys[0].rings[0].points;
    assert_eq!(rt; points.len(), wanted.len());
    for (c, p) in points.iter().zip(wanted) {
        assert!(rt; c.x == p.0 && c.y == p.1);
    }
}

#[test]
fn two_squares_overlap_in_a_square(rt: HostRuntime) -> Result<(), Fail> {
    let alloc = rt.alloc();
    let a = coverage(alloc, &rt, &[&SQUARE])?;
    let b = coverage(alloc, &rt, &[&[(5, 5), (15, 5), (15, 15), (5, 15)]])?;
    let out = overlay(alloc, &a, &b)?;
    assert_eq!(rt; out.pairs.as_slice(), [Pair { a: 0, b: 0 }].as_slice());
    assert_eq!(rt; out.coverage.members.len(), 1);
    expect_ring(&rt, &out, 0, &[(5, 5), (10, 5), (10, 10), (5, 10)]);
    Ok(())
}

#[test]
fn a_square_across_two_neighbours_meets_both(rt: HostRuntime) -> Result<(), Fail> {
    let alloc = rt.alloc();
    let left = [(0, 0), (5, 0), (5, 10), (0, 10)];
    let right = [(5, 0), (10, 0), (10, 10), (5, 10)];
    let a = coverage(alloc, &rt, &[&left, &right])?;
    let b = coverage(alloc, &rt, &[&[(2, 2), (8, 2), (8, 8), (2, 8)]])?;
    let out = overlay(alloc, &a, &b)?;
    assert_eq!(rt;
        out.pairs.as_slice(),
        [Pair { a: 0, b: 0 }, Pair { a: 1, b: 0 }].as_slice()
    );
    assert_eq!(rt; out.coverage.members.len(), 2);
    expect_ring(&rt, &out, 0, &[(2, 2), (5, 2), (5, 8), (2, 8)]);
    expect_ring(&rt, &out, 1, &[(5, 2), (8, 2), (8, 8), (5, 8)]);
    Ok(())
}

#[test]
fn squares_apart_have_no_pair(rt: HostRuntime) -> Result<(), Fail> {
    let alloc = rt.alloc();
    let a = coverage(alloc, &rt, &[&[(0, 0), (1, 0), (1, 1), (0, 1)]])?;
    let b = coverage(alloc, &rt, &[&[(5, 5), (6, 5), (6, 6), (5, 6)]])?;
    let out = overlay(alloc, &a, &b)?;
    assert_eq!(rt; out.pairs.len(), 0);
    assert_eq!(rt; out.coverage.members.len(), 0);
    Ok(())
}

#[test]
fn squares_that_touch_in_a_side_have_no_pair(rt: HostRuntime) -> Result<(), Fail> {
    let alloc = rt.alloc();
    let a = coverage(alloc, &rt, &[&SQUARE])?;
    let b = coverage(alloc, &rt, &[&[(10, 0), (20, 0), (20, 10), (10, 10)]])?;
    let out = overlay(alloc, &a, &b)?;
    assert_eq!(rt; out.pairs.len(), 0);
    assert_eq!(rt; out.coverage.members.len(), 0);
    Ok(())
}

#[test]
fn a_coverage_with_itself_is_each_member_with_itself(rt: HostRuntime) -> Result<(), Fail> {
    let alloc = rt.alloc();
    let right = [(10, 0), (20, 0), (20, 10), (10, 10)];
    let a = coverage(alloc, &rt, &[&right, &SQUARE])?;
    let out = overlay(alloc, &a, &a)?;
    assert_eq!(rt;
        out.pairs.as_slice(),
        [Pair { a: 0, b: 0 }, Pair { a: 1, b: 1 }].as_slice()
    );
    assert_eq!(rt; out.coverage.members.len(), 2);
    expect_ring(&rt, &out, 0, &right);
    expect_ring(&rt, &out, 1, &SQUARE);
    Ok(())
}
