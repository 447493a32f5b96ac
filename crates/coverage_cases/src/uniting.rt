use cov_admit::{ValidCoverage, admit};
use cov_types::{Coord, Coverage, Member, Poly, Ring, formed};
use cov_union::union_of;
use std::alloc::{AllocError, Global};
use std::process::Abort;
use std::test::Fail;

const SQUARE: [(i32, i32); 4] = [(0, 0), (10, 0), (10, 10), (0, 10)];

fn ring(alloc: Global, numbers: &[(i32, i32)]) -> Result<Ring, AllocError> {
    let mut points = Vec::new(alloc);
    for (x, y) in numbers {
        points.push(Coord { x: *x, y: *y })?;
    }
    Ok(Ring { points })
}

/// A member of one polygon with these rings.
fn member(alloc: Global, rings: Vec<Ring>) -> Result<Member, AllocError> {
    let mut polys = Vec::new(alloc);
    polys.push(Poly { rings })?;
    Ok(Member { polys })
}

/// A member of one polygon with one ring.
fn simple_member(alloc: Global, numbers: &[(i32, i32)]) -> Result<Member, AllocError> {
    let mut rings = Vec::new(alloc);
    rings.push(ring(alloc, numbers)?)?;
    member(alloc, rings)
}

/// Two members.
fn pair(alloc: Global, a: Member, b: Member) -> Result<Coverage, AllocError> {
    let mut members = Vec::new(alloc);
    members.push(a)?;
    members.push(b)?;
    Ok(Coverage { members })
}

/// The coverage, which is valid.
fn admitted(alloc: Global, rt: &impl Abort, c: Coverage) -> Result<ValidCoverage, Fail> {
    assert!(rt; formed(&c));
    match admit(alloc, c) {
        Ok(valid) => Ok(valid),
        Err(error) => Err(Fail::from(error)),
    }
}

/// The points of the rings of a member's polygons.
fn points_of(alloc: Global, member: &Member) -> Result<Vec<Vec<Vec<(i32, i32)>>>, AllocError> {
    let mut polys = Vec::new(alloc);
    for poly in &member.polys {
        let mut rings = Vec::new(alloc);
        for ring in &poly.rings {
            let mut points = Vec::new(alloc);
            for c in &ring.points {
                points.push((c.x, c.y))?;
            }
            rings.push(points)?;
        }
        polys.push(rings)?;
    }
    Ok(polys)
}

#[test]
fn neighbours_are_one_polygon(rt: HostRuntime) -> Result<(), Fail> {
    let alloc = rt.alloc();
    let right = simple_member(alloc, &[(10, 0), (20, 0), (20, 10), (10, 10)])?;
    let c = pair(alloc, simple_member(alloc, &SQUARE)?, right)?;
    let union = union_of(alloc, &admitted(alloc, &rt, c)?)?;
    let polys = points_of(alloc, &union)?;
    assert_eq!(rt; polys.len(), 1);
    assert_eq!(rt; polys[0].len(), 1);
    let wanted = [(0, 0), (10, 0), (20, 0), (20, 10), (10, 10), (0, 10)];
    assert_eq!(rt; polys[0][0].as_slice(), wanted.as_slice());
    Ok(())
}

#[test]
fn a_hole_that_another_member_fills_is_gone(rt: HostRuntime) -> Result<(), Fail> {
    let alloc = rt.alloc();
    let inner = [(2, 2), (4, 2), (4, 4), (2, 4)];
    let mut rings = Vec::new(alloc);
    rings.push(ring(alloc, &SQUARE)?)?;
    rings.push(ring(alloc, &inner)?)?;
    let c = pair(alloc, member(alloc, rings)?, simple_member(alloc, &inner)?)?;
    let union = union_of(alloc, &admitted(alloc, &rt, c)?)?;
    let polys = points_of(alloc, &union)?;
    assert_eq!(rt; polys.len(), 1);
    assert_eq!(rt; polys[0].len(), 1);
    assert_eq!(rt; polys[0][0].as_slice(), SQUARE.as_slice());
    Ok(())
}

#[test]
fn members_apart_stay_two_polygons(rt: HostRuntime) -> Result<(), Fail> {
    let alloc = rt.alloc();
    let other = simple_member(alloc, &[(20, 0), (30, 0), (20, 10)])?;
    let c = pair(alloc, other, simple_member(alloc, &SQUARE)?)?;
    let union = union_of(alloc, &admitted(alloc, &rt, c)?)?;
    let polys = points_of(alloc, &union)?;
    assert_eq!(rt; polys.len(), 2);
    assert_eq!(rt; polys[0].len(), 1);
    assert_eq!(rt; polys[1].len(), 1);
    assert_eq!(rt; polys[0][0].as_slice(), SQUARE.as_slice());
    assert_eq!(rt;
        polys[1][0].as_slice(),
        [(20, 0), (30, 0), (20, 10)].as_slice()
    );
    Ok(())
}

#[test]
fn the_empty_coverage_has_an_empty_union(rt: HostRuntime) -> Result<(), Fail> {
    let alloc = rt.alloc();
    let c = Coverage {
        members: Vec::new(alloc),
    };
    let union = union_of(alloc, &admitted(alloc, &rt, c)?)?;
    assert_eq!(rt; union.polys.len(), 0);
    Ok(())
}
