use cov_admit::{AdmitError, admit};
use cov_types::{Coord, Coverage, Member, Poly, Ring, formed, same_coverage};
use cov_valid::Kind;
use std::alloc::{AllocError, Global};
use std::process::Abort;
use std::test::Fail;

const SQUARE: [(i32, i32); 4] = [(0, 0), (10, 0), (10, 10), (0, 10)];

/// A member of one polygon with one ring.
fn member(alloc: Global, numbers: &[(i32, i32)]) -> Result<Member, AllocError> {
    let mut points = Vec::new(alloc);
    for (x, y) in numbers {
        points.push(Coord { x: *x, y: *y })?;
    }
    let mut rings = Vec::new(alloc);
    rings.push(Ring { points })?;
    let mut polys = Vec::new(alloc);
    polys.push(Poly { rings })?;
    Ok(Member { polys })
}

/// The square and another member.
fn square_and(alloc: Global, other: &[(i32, i32)]) -> Result<Coverage, AllocError> {
    let mut members = Vec::new(alloc);
    members.push(member(alloc, &SQUARE)?)?;
    members.push(member(alloc, other)?)?;
    Ok(Coverage { members })
}

/// The mark with which a coverage is refused, if it is.
fn refusal(alloc: Global, rt: &impl Abort, c: Coverage) -> Result<Option<(u32, u64, Kind)>, Fail> {
    assert!(rt; formed(&c));
    let copy = c.clone()?;
    match admit(alloc, c) {
        Ok(valid) => {
            assert!(rt; same_coverage(valid.coverage(), &copy));
            assert!(rt; same_coverage(&valid.into_coverage(), &copy));
            Ok(None)
        }
        Err(AdmitError::NotValid { coverage, mark }) => {
            assert!(rt; same_coverage(&coverage, &copy));
            Ok(Some((mark.member, mark.place, mark.kind)))
        }
        Err(AdmitError::NoMemory { .. }) => Err(Fail::from(AllocError)),
    }
}

#[test]
fn neighbours_are_admitted(rt: HostRuntime) -> Result<(), Fail> {
    let alloc = rt.alloc();
    let c = square_and(alloc, &[(10, 0), (20, 0), (20, 10), (10, 10)])?;
    assert_eq!(rt; refusal(alloc, &rt, c)?, None);
    Ok(())
}

#[test]
fn a_tip_that_touches_a_side_is_refused_at_the_side(rt: HostRuntime) -> Result<(), Fail> {
    let alloc = rt.alloc();
    let c = square_and(alloc, &[(10, 5), (20, 0), (20, 10)])?;
    assert_eq!(rt; refusal(alloc, &rt, c)?, Some((0, 1, Kind::Meets)));
    Ok(())
}

#[test]
fn a_square_within_a_square_is_refused_at_its_first_side(rt: HostRuntime) -> Result<(), Fail> {
    let alloc = rt.alloc();
    let c = square_and(alloc, &[(2, 2), (4, 2), (4, 4), (2, 4)])?;
    assert_eq!(rt; refusal(alloc, &rt, c)?, Some((1, 4, Kind::Inside)));
    Ok(())
}

#[test]
fn the_empty_coverage_is_admitted(rt: HostRuntime) -> Result<(), Fail> {
    let alloc = rt.alloc();
    let c = Coverage {
        members: Vec::new(alloc),
    };
    assert_eq!(rt; refusal(alloc, &rt, c)?, None);
    Ok(())
}
