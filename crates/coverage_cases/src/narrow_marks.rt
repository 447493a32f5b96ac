ghost use Rattle.std.specs.Prelude.{◌≤◌, ◌^◌};

use cov_marks::marks;
use cov_types::{Coord, Coverage, Member, NoMemory, Poly, Ring, in_range};
use cov_valid::Kind;
use std::alloc::Global;
use std::process::Abort;
use std::test::Fail;

/// A ring by its points, without the closing repeat.
type Points = &'static [(i32, i32)];

const OUTER: Points = &[(0, 0), (20, 0), (20, 20), (0, 20)];

const HOLE: Points = &[(9, 9), (9, 11), (11, 11), (11, 9)];

/// Members of one polygon each, by its rings.
type Members = &'static [&'static [Points]];

fn coverage(alloc: Global, members: Members) -> Result<Coverage, NoMemory> {
    let mut list = Vec::new(alloc);
    for rings in members {
        let mut polys = Vec::new(alloc);
        polys.push(poly(alloc, *rings)?)?;
        list.push(Member { polys })?;
    }
    Ok(Coverage { members: list })
}

fn poly(alloc: Global, rings: &'static [Points]) -> Result<Poly, NoMemory> {
    let mut list = Vec::new(alloc);
    for points in rings {
        list.push(ring(alloc, *points)?)?;
    }
    Ok(Poly { rings: list })
}

fn ring(alloc: Global, points: Points) -> Result<Ring, NoMemory> {
    let mut list = Vec::new(alloc);
    for (x, y) in points {
        list.push(Coord { x: *x, y: *y })?;
    }
    Ok(Ring { points: list })
}

/// At the width the segments at these places are marked, each with the kind.
fn expect_marked(
    alloc: Global,
    rt: &impl Abort,
    members: Members,
    gap: u32,
    places: &[u64],
    kind: Kind,
) -> Result<(), Fail>
    requires { gap ≤ 2 ^ 30 }
{
    let given = coverage(alloc, members)?;
    assert!(rt; in_range(&given));
    let found = marks(alloc, &given, gap)?;
    assert_eq!(rt; found.len(), places.len());
    for (mark, place) in found.iter().zip(places) {
        assert_eq!(rt; (mark.place, mark.kind), (*place, kind));
    }
    Ok(())
}

#[test]
fn segments_beside_a_narrow_gap_are_marked(rt: HostRuntime) -> Result<(), Fail> {
    const FRAME: Members = &[&[OUTER, HOLE]];
    let alloc = rt.alloc();
    expect_marked(alloc, &rt, FRAME, 3, &[4, 5, 6, 7], Kind::NarrowGap)?;
    expect_marked(alloc, &rt, FRAME, 2, &[], Kind::NarrowGap)?;
    expect_marked(alloc, &rt, FRAME, 0, &[], Kind::NarrowGap)
}

#[test]
fn beside_a_fault_no_gap_is_marked(rt: HostRuntime) -> Result<(), Fail> {
    const TWICE: Members = &[&[OUTER, HOLE], &[OUTER, HOLE]];
    let all = [0, 1, 2, 3, 4, 5, 6, 7, 8, 9, 10, 11, 12, 13, 14, 15];
    expect_marked(rt.alloc(), &rt, TWICE, 3, &all, Kind::SameSide)
}
