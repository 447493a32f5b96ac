ghost use Rattle.std.specs.Prelude.{All};
ghost use Rattle.cov_types.specs.Range.{IsInRange};

use cov_locate::{Locator, PointsError, PointsFault, Where, read_points};
use cov_types::{Coord, Coverage, LIMIT, Member, NoMemory, Poly, Ring, in_range};
use std::alloc::Global;
use std::process::Abort;
use std::test::Fail;

#[test]
fn two_squares_that_overlap(rt: HostRuntime) -> Result<(), Fail> {
    let alloc = rt.alloc();
    let mut members = Vec::new(alloc);
    members.push(member(alloc, &[(0, 0, 10, 10)])?)?;
    members.push(member(alloc, &[(5, 0, 15, 10)])?)?;
    let locator = locator_of(&rt, Coverage { members })?;
    for (x, y) in [(1, 1), (7, 5), (1, 9), (9, 1)] {
        assert_eq!(rt; at(&rt, &locator, x, y), Where::Member(0));
    }
    for (x, y) in [(10, 5), (0, 0), (5, 0), (5, 5), (7, 10), (15, 10), (12, 0)] {
        assert_eq!(rt; at(&rt, &locator, x, y), Where::Edge);
    }
    assert_eq!(rt; at(&rt, &locator, 12, 5), Where::Member(1));
    for (x, y) in [(20, 5), (-1, 0), (7, 11), (7, -1), (5, -3), (15, 11)] {
        assert_eq!(rt; at(&rt, &locator, x, y), Where::Nowhere);
    }
    Ok(())
}

#[test]
fn points_located_together(rt: HostRuntime) -> Result<(), Fail> {
    let alloc = rt.alloc();
    let mut members = Vec::new(alloc);
    members.push(member(alloc, &[(0, 0, 10, 10), (3, 3, 6, 6)])?)?;
    members.push(member(alloc, &[(2, 2, 8, 8)])?)?;
    let locator = locator_of(&rt, Coverage { members })?;
    let points = points_of(&rt, alloc, b"20 5\n1 1\n6 5\n4 4\n7 7\n1 1\n5 -3\n");
    let places = locator.places(alloc, &points)?;
    let wanted = [
        Where::Nowhere,
        Where::Member(0),
        Where::Edge,
        Where::Member(1),
        Where::Member(0),
        Where::Member(0),
        Where::Nowhere,
    ];
    assert_eq!(rt; places.len(), wanted.len());
    for (place, expected) in places.iter().zip(wanted.iter()) {
        assert_eq!(rt; *place, *expected);
    }
    Ok(())
}

#[test]
fn the_border_of_the_range(rt: HostRuntime) -> Result<(), Fail> {
    let alloc = rt.alloc();
    let mut members = Vec::new(alloc);
    members.push(member(alloc, &[(0, 0, LIMIT, LIMIT)])?)?;
    let locator = locator_of(&rt, Coverage { members })?;
    assert_eq!(rt; at(&rt, &locator, LIMIT, LIMIT), Where::Edge);
    assert_eq!(rt; at(&rt, &locator, LIMIT - 1, LIMIT - 1), Where::Member(0));
    assert_eq!(rt; at(&rt, &locator, LIMIT, -LIMIT), Where::Nowhere);
    assert_eq!(rt; at(&rt, &locator, -LIMIT, -LIMIT), Where::Nowhere);
    Ok(())
}

#[test]
fn a_polygon_in_another_is_a_hole(rt: HostRuntime) -> Result<(), Fail> {
    let alloc = rt.alloc();
    let mut members = Vec::new(alloc);
    members.push(member(alloc, &[(0, 0, 10, 10), (3, 3, 6, 6)])?)?;
    members.push(member(alloc, &[(2, 2, 8, 8)])?)?;
    let locator = locator_of(&rt, Coverage { members })?;
    assert_eq!(rt; at(&rt, &locator, 1, 1), Where::Member(0));
    assert_eq!(rt; at(&rt, &locator, 7, 7), Where::Member(0));
    assert_eq!(rt; at(&rt, &locator, 4, 4), Where::Member(1));
    assert_eq!(rt; at(&rt, &locator, 6, 5), Where::Edge);
    Ok(())
}

#[test]
fn a_hundred_members_over_a_point(rt: HostRuntime) -> Result<(), Fail> {
    let alloc = rt.alloc();
    let mut members = Vec::new(alloc);
    for k in 0..100u8 {
        let half = 2 * i32::from(k) + 1;
        members.push(member(alloc, &[(-half, -half, half, half)])?)?;
    }
    let locator = locator_of(&rt, Coverage { members })?;
    assert_eq!(rt; at(&rt, &locator, 0, 0), Where::Member(0));
    assert_eq!(rt; at(&rt, &locator, 50, -20), Where::Member(25));
    assert_eq!(rt; at(&rt, &locator, 0, 200), Where::Nowhere);
    Ok(())
}

#[test]
fn lines_of_points(rt: HostRuntime) -> Result<(), Fail> {
    let alloc = rt.alloc();
    let points = points_of(&rt, alloc, b"1 1\r\n\t+2\t -3 \n\n \r\n-0 007");
    let wanted = [(1, 1), (2, -3), (0, 7)];
    assert_eq!(rt; points.len(), wanted.len());
    for (p, (x, y)) in points.iter().zip(wanted.iter()) {
        assert_eq!(rt; (p.x, p.y), (*x, *y));
    }
    assert_eq!(rt; points_of(&rt, alloc, b"").len(), 0);
    assert_eq!(rt; points_of(&rt, alloc, b"268435456 -268435456\n").len(), 1);
    Ok(())
}

#[test]
fn the_first_faulty_line(rt: HostRuntime) {
    let alloc = rt.alloc();
    let syntax = |line| PointsFault::Syntax { line };
    assert_eq!(rt; fault_of(&rt, alloc, b"1 1\n\n1 x"), syntax(2));
    for text in ["1", "1 2 3", "1 -", "+ 1", "1 2-", "1 2.0"] {
        assert_eq!(rt; fault_of(&rt, alloc, text.as_bytes()), syntax(0));
    }
    let far = PointsFault::OutOfRange { line: 0 };
    assert_eq!(rt; fault_of(&rt, alloc, b"3 268435457"), far);
    assert_eq!(rt; fault_of(&rt, alloc, b"-99999999999999999999 3\n1 x"), far);
}

// A member of squares, by their lower left and upper right corners.
fn member(alloc: Global, squares: &[(i32, i32, i32, i32)]) -> Result<Member, NoMemory> {
    let mut polys = Vec::new(alloc);
    for square in squares {
        let mut rings = Vec::new(alloc);
        rings.push(ring(alloc, *square)?)?;
        polys.push(Poly { rings })?;
    }
    Ok(Member { polys })
}

fn ring(alloc: Global, square: (i32, i32, i32, i32)) -> Result<Ring, NoMemory> {
    let (left, bottom, right, top) = square;
    let corners = [(left, bottom), (right, bottom), (right, top), (left, top)];
    let points = corners
        .iter()
        .map(|(x, y)| Coord { x: *x, y: *y })
        .collect(alloc)?;
    Ok(Ring { points })
}

fn locator_of(rt: &(impl Abort + AllocGlobal), c: Coverage) -> Result<Locator, NoMemory> {
    assert!(rt; in_range(&c));
    Locator::build(rt.alloc(), &c)
}

fn at(rt: &impl Abort, locator: &Locator, x: i32, y: i32) -> Where {
    let p = Coord { x, y };
    assert!(rt; p.is_in_range());
    locator.at(p)
}

fn points_of(rt: &impl Abort, alloc: Global, bytes: &[u8]) -> Vec<Coord>
    ensures { All IsInRange result.items }
{
    assert!(rt; bytes.len() < 100);
    match read_points(alloc, bytes) {
        Ok(points) => points,
        Err(_) => panic!(rt; "no points"),
    }
}

fn fault_of(rt: &impl Abort, alloc: Global, bytes: &[u8]) -> PointsFault {
    assert!(rt; bytes.len() < 100);
    match read_points(alloc, bytes).expect_err(rt, "a fault") {
        PointsError::Fault(fault) => fault,
        PointsError::NoMemory => panic!(rt; "no memory"),
    }
}
