ghost use Rattle.std.specs.Prelude.{◌≤◌, ◌^◌};

use cov_admit::{ValidCoverage, admit};
use cov_simplify::{lines, simplify};
use cov_types::{Coord, Coverage, Member, Poly, Ring, formed, same_coverage};
use std::alloc::{AllocError, Global};
use std::process::Abort;
use std::test::Fail;

/// A member of one polygon with one ring.
fn member(alloc: Global, numbers: &[(i32, i32)]) -> Result<Member, AllocError> {
    let mut points = Vec::new(alloc);
    for (x, y) in numbers {
        points.push(Coord { x: *x, y: *y })?;
    }
    let mut rings = Vec::new(alloc);
    rings.push(Ring { points })?;
    let mut polys = Vec::new(alloc);
    polys.push(Poly { rings })?;
    Ok(Member { polys })
}

/// Members of one polygon with one ring each.
fn coverage(alloc: Global, rings: &[&[(i32, i32)]]) -> Result<Coverage, AllocError> {
    let mut members = Vec::new(alloc);
    for ring in rings {
        members.push(member(alloc, ring)?)?;
    }
    Ok(Coverage { members })
}

/// Two squares with a common side that is bent at (11, 5).
const NEIGHBOURS: [&[(i32, i32)]; 2] = [
    &[(0, 0), (10, 0), (11, 5), (10, 10), (0, 10)],
    &[(10, 0), (20, 0), (20, 10), (10, 10), (11, 5)],
];

/// The coverage, which is valid.
fn admitted(alloc: Global, rt: &impl Abort, c: Coverage) -> Result<ValidCoverage, Fail> {
    assert!(rt; formed(&c));
    match admit(alloc, c) {
        Ok(valid) => Ok(valid),
        Err(error) => Err(Fail::from(error)),
    }
}

#[test]
fn neighbours_have_three_lines(rt: HostRuntime) -> Result<(), Fail> {
    let alloc = rt.alloc();
    let lines = lines(alloc, &admitted(alloc, &rt, coverage(alloc, &NEIGHBOURS)?)?)?;
    assert_eq!(rt; lines.len(), 3);
    let expected = [
        (4, None, Some(0)),
        (3, Some(0), Some(1)),
        (4, Some(1), None),
    ];
    for (line, (size, left, right)) in lines.iter().zip(expected.iter()) {
        assert_eq!(rt; line.points.len(), *size);
        assert_eq!(rt; line.left, *left);
        assert_eq!(rt; line.right, *right);
    }
    Ok(())
}

/// Simplifies a coverage, which is valid, and expects these rings.
fn expect_simplified(
    alloc: Global,
    rt: &impl Abort,
    rings: &[&[(i32, i32)]],
    tolerance: u32,
    inner: bool,
    expected: &[&[(i32, i32)]],
) -> Result<(), Fail>
    requires { tolerance ≤ 2 ^ 30 }
{
    let valid = admitted(alloc, rt, coverage(alloc, rings)?)?;
    let simplified = simplify(alloc, valid, tolerance, inner)?;
    assert!(rt; same_coverage(simplified.coverage(), &coverage(alloc, expected)?));
    Ok(())
}

#[test]
fn a_point_in_the_middle_of_a_side_goes_at_tolerance_0(rt: HostRuntime) -> Result<(), Fail> {
    let bent: [&[(i32, i32)]; 1] = [&[(0, 0), (5, 0), (10, 0), (10, 10), (0, 10)]];
    let plain: [&[(i32, i32)]; 1] = [&[(0, 0), (10, 0), (10, 10), (0, 10)]];
    expect_simplified(rt.alloc(), &rt, &bent, 0, false, &plain)
}

#[test]
fn a_bent_common_side_becomes_straight_in_both(rt: HostRuntime) -> Result<(), Fail> {
    let alloc = rt.alloc();
    let right: &[(i32, i32)] = &[(10, 0), (20, 0), (20, 10), (10, 10)];
    let bent: [&[(i32, i32)]; 2] = [
        &[(0, 0), (10, 0), (11, 5), (10, 10), (0, 10), (-1, 5)],
        &[(10, 0), (20, 0), (20, 10), (10, 10), (11, 5)],
    ];
    let all: [&[(i32, i32)]; 2] = [&[(0, 0), (10, 0), (10, 10), (0, 10)], right];
    let inner: [&[(i32, i32)]; 2] = [&[(0, 0), (10, 0), (10, 10), (0, 10), (-1, 5)], right];
    expect_simplified(alloc, &rt, &bent, 3, false, &all)?;
    expect_simplified(alloc, &rt, &bent, 3, true, &inner)
}
