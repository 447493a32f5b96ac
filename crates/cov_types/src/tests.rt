use crate::{
    Coord, Coverage, EdgeUse, LIMIT, Member, Outline, Poly, Ring, formed, in_range, same_coverage,
    uses,
};
use std::alloc::{AllocError, Global};
use std::test::Fail;

/// A member of one polygon with one ring.
fn member(alloc: Global, numbers: &[(i32, i32)]) -> Result<Member, AllocError> {
    let mut points = Vec::new(alloc);
    for (x, y) in numbers {
        points.push(Coord { x: *x, y: *y })?;
    }
    let mut rings = Vec::new(alloc);
    rings.push(Ring { points })?;
    let mut polys = Vec::new(alloc);
    polys.push(Poly { rings })?;
    Ok(Member { polys })
}

/// A coverage of one member, of one polygon with one ring.
fn coverage(alloc: Global, numbers: &[(i32, i32)]) -> Result<Coverage, AllocError> {
    let mut members = Vec::new(alloc);
    members.push(member(alloc, numbers)?)?;
    Ok(Coverage { members })
}

fn numbers_of(edge_use: &EdgeUse) -> (u32, i32, i32, i32, i32) {
    let seg = edge_use.seg;
    (edge_use.member, seg.lo.x, seg.lo.y, seg.hi.x, seg.hi.y)
}

#[test]
fn uses_come_in_the_order_of_members_and_points(rt: HostRuntime) -> Result<(), Fail> {
    let alloc = rt.alloc();
    let mut members = Vec::new(alloc);
    members.push(member(alloc, &[(0, 0), (10, 0), (10, 10), (0, 10)])?)?;
    members.push(member(alloc, &[])?)?;
    // The repeated point gives no segment.
    members.push(member(alloc, &[(0, 0), (4, 0), (4, 0), (0, 3)])?)?;
    let both = Coverage { members };
    assert!(rt; in_range(&both));

    let list: Vec<(u32, i32, i32, i32, i32)> = uses(alloc, &both)?
        .iter()
        .map(numbers_of)
        .collect(alloc)?;
    let wanted = [
        (0, 0, 0, 10, 0),
        (0, 10, 0, 10, 10),
        (0, 0, 10, 10, 10),
        (0, 0, 0, 0, 10),
        (2, 0, 0, 4, 0),
        (2, 0, 3, 4, 0),
        (2, 0, 0, 0, 3),
    ];
    assert_eq!(rt; list.as_slice(), wanted.as_slice());
    Ok(())
}

#[test]
fn an_outline_has_the_rings_that_have_a_use(rt: HostRuntime) -> Result<(), Fail> {
    let alloc = rt.alloc();
    let mut members = Vec::new(alloc);
    members.push(member(alloc, &[(0, 0), (10, 0), (10, 10), (0, 10)])?)?;
    // All points are one: the ring has no use.
    members.push(member(alloc, &[(5, 5), (5, 5), (5, 5)])?)?;
    members.push(member(alloc, &[(4, 0), (0, 0), (0, 0), (0, 3)])?)?;
    let c = Coverage { members };
    assert!(rt; in_range(&c));

    let outline = Outline::build(alloc, &c)?;
    assert_eq!(rt; outline.uses.len(), 7);
    let starts: Vec<(i32, i32)> = outline.starts.iter().map(|p| (p.x, p.y)).collect(alloc)?;
    let wanted = [(0, 0), (10, 0), (10, 10), (0, 10), (4, 0), (0, 0), (0, 3)];
    assert_eq!(rt; starts.as_slice(), wanted.as_slice());
    let rings: Vec<(u32, usize, usize)> = outline
        .rings
        .iter()
        .map(|r| (r.member, r.from, r.to))
        .collect(alloc)?;
    assert_eq!(rt; rings.as_slice(), [(0, 0, 4), (2, 4, 7)].as_slice());
    Ok(())
}

#[test]
fn a_formed_coverage_has_three_points_in_each_ring(rt: HostRuntime) -> Result<(), Fail> {
    let alloc = rt.alloc();
    assert!(rt; !formed(&coverage(alloc, &[(0, 0), (4, 0)])?));
    assert!(rt; formed(&coverage(alloc, &[(0, 0), (4, 0), (0, 3)])?));
    Ok(())
}

#[test]
fn the_range_ends_at_the_limit(rt: HostRuntime) -> Result<(), Fail> {
    let alloc = rt.alloc();
    assert_eq!(rt; LIMIT, 268435456);
    assert!(rt; in_range(&coverage(alloc, &[(268435456, -268435456)])?));
    assert!(rt; !in_range(&coverage(alloc, &[(268435457, 0)])?));
    assert!(rt; !in_range(&coverage(alloc, &[(0, -268435457)])?));
    Ok(())
}

#[test]
fn a_clone_is_the_same_coverage(rt: HostRuntime) -> Result<(), Fail> {
    let alloc = rt.alloc();
    let triangle = coverage(alloc, &[(0, 0), (4, 0), (0, 3)])?;
    assert!(rt; same_coverage(&triangle, &triangle.clone()?));
    assert!(rt; !same_coverage(&triangle, &coverage(alloc, &[(0, 0), (4, 0), (0, 4)])?));
    Ok(())
}
