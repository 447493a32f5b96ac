ghost use Rattle.std.specs.Prelude.{◌≡◌, ℕ, ◌<◌, All, None, IfSome, IsTrue};
ghost use Rattle.plane.specs.Region.{IsOuterRegion};
ghost use Rattle.cov_build.specs.Owners.{owner_in};

use cov_build::polygons;
use cov_types::{Coord, Coverage, Member, NoMemory, Poly, Ring, Seg, same_coverage};
use face_walk::Regions;
use half_edge::{Arena, are_arranged};
use std::alloc::Global;
use std::process::Abort;
use std::test::Fail;

/// An edge by the coordinates of its ends.
type Ends = (i32, i32, i32, i32);

/// A ring by its points, without the closing repeat.
type Points<'a> = &'a [(i32, i32)];

fn edges_between(alloc: Global, rt: &impl Abort, ends: &[Ends]) -> Result<Vec<Seg>, NoMemory> {
    let mut edges = Vec::new(alloc);
    for (a, b, c, d) in ends {
        let edge = Seg::between(Coord { x: *a, y: *b }, Coord { x: *c, y: *d });
        edges.push(edge.expect(rt, "two points"))?;
    }
    Ok(edges)
}

fn ring(alloc: Global, points: Points) -> Result<Ring, NoMemory> {
    let mut list = Vec::new(alloc);
    for (x, y) in points {
        list.push(Coord { x: *x, y: *y })?;
    }
    Ok(Ring { points: list })
}

fn poly(alloc: Global, rings: &[Points]) -> Result<Poly, NoMemory> {
    let mut list = Vec::new(alloc);
    for points in rings {
        list.push(ring(alloc, *points)?)?;
    }
    Ok(Poly { rings: list })
}

/// A member with the one polygon.
fn member(alloc: Global, poly: Poly) -> Result<Member, NoMemory> {
    Ok(Member {
        polys: vec![in alloc; poly]?,
    })
}

/// The owner for each of so many sides: those that are listed, by the numbers of regions.
fn owners_of(
    alloc: Global,
    rt: &impl Abort,
    sides: usize,
    owned: &[(usize, u32)],
) -> Result<Vec<Option<u32>>, NoMemory> {
    let mut owners = vec![in alloc; None; sides]?;
    for (region, owner) in owned {
        assert!(rt; *region < owners.len());
        owners[*region] = Some(*owner);
    }
    Ok(owners)
}

// Whether each owner is one of so many members.
fn are_below(owners: &[Option<u32>], members: u32) -> bool
    ensures { IsTrue result → All (λ o. IfSome o (λ i. i < members)) owners.now }
{
    for owner in owners {
        if !is_below(*owner, members) {
            return false;
        }
    }
    true
}

fn is_below(owner: Option<u32>, members: u32) -> bool
    ensures { IsTrue result → IfSome owner (λ i. i < members) }
{
    match owner {
        Some(owner) => owner < members,
        None => true,
    }
}

// Whether nobody owns the outer region.
fn is_outer_free(r: &Regions, owners: &[Option<u32>]) -> bool
    ensures { IsTrue result → (n : ℕ) → IsOuterRegion r.now n → owner_in owners.now n ≡ None }
{
    match r.outer() {
        Some(outer) => outer < owners.len() && is_free(owners[outer]),
        None => true,
    }
}

fn is_free(owner: Option<u32>) -> bool
    ensures { IsTrue result → owner ≡ None }
{
    match owner {
        Some(_) => false,
        None => true,
    }
}

/// Between these edges, whose regions have these owners, the members have these polygons.
fn expect_polygons(
    alloc: Global,
    rt: &impl Abort,
    ends: &[Ends],
    owned: &[(usize, u32)],
    want: Coverage,
) -> Result<(), Fail> {
    let edges = edges_between(alloc, rt, ends)?;
    assert!(rt; are_arranged(alloc, &edges)?);
    let arena = Arena::build(alloc, edges)?;
    let regions = Regions::build(alloc, &arena)?;
    let owners = owners_of(alloc, rt, arena.len(), owned)?;
    assert!(rt; owners.len() == arena.len());
    assert!(rt; want.members.len() < 10);
    let members = want.members.len() as u32;
    assert!(rt; are_below(&owners, members));
    assert!(rt; is_outer_free(&regions, &owners));
    let answer = polygons(alloc, &arena, &regions, &owners, members)?;
    assert!(rt; same_coverage(&answer, &want), "{answer:?}");
    Ok(())
}

/// Two squares of size 10, one of them moved by 5.
const OVERLAP: [Ends; 10] = [
    (0, 0, 0, 10),
    (0, 0, 5, 0),
    (0, 10, 5, 10),
    (5, 0, 5, 10),
    (5, 0, 10, 0),
    (5, 10, 10, 10),
    (10, 0, 10, 10),
    (10, 0, 15, 0),
    (10, 10, 15, 10),
    (15, 0, 15, 10),
];

#[test]
fn regions_of_one_owner_beside_an_edge_are_one_polygon(rt: HostRuntime) -> Result<(), Fail> {
    let alloc = rt.alloc();
    let west = poly(
        alloc,
        &[&[(0, 0), (5, 0), (10, 0), (10, 10), (5, 10), (0, 10)]],
    )?;
    let east = poly(alloc, &[&[(10, 0), (15, 0), (15, 10), (10, 10)]])?;
    let want = Coverage {
        members: vec![in alloc; member(alloc, west)?, member(alloc, east)?]?,
    };
    let owned = [(1, 0), (7, 0), (13, 1)];
    expect_polygons(alloc, &rt, &OVERLAP, &owned, want)
}

/// A square of size 10 with a triangle at its corner cut out.
const NOTCHED: [Ends; 7] = [
    (0, 0, 0, 10),
    (0, 0, 3, 6),
    (0, 0, 6, 3),
    (0, 0, 10, 0),
    (0, 10, 10, 10),
    (3, 6, 6, 3),
    (10, 0, 10, 10),
];

#[test]
fn a_hole_that_touches_its_shell_is_a_ring_of_its_own(rt: HostRuntime) -> Result<(), Fail> {
    let alloc = rt.alloc();
    let shell: Points = &[(0, 0), (10, 0), (10, 10), (0, 10)];
    let hole: Points = &[(0, 0), (3, 6), (6, 3)];
    let around = poly(alloc, &[shell, hole])?;
    let notch = poly(alloc, &[&[(0, 0), (6, 3), (3, 6)]])?;
    let want = Coverage {
        members: vec![in alloc; member(alloc, around)?, member(alloc, notch)?]?,
    };
    expect_polygons(alloc, &rt, &NOTCHED, &[(1, 0), (3, 1)], want)
}

/// A square of size 20 with two triangles in it.
const TRIANGLES: [Ends; 10] = [
    (0, 0, 0, 20),
    (0, 0, 20, 0),
    (0, 20, 20, 20),
    (4, 4, 4, 6),
    (4, 4, 6, 4),
    (4, 6, 6, 4),
    (4, 12, 4, 14),
    (4, 12, 6, 12),
    (4, 14, 6, 12),
    (20, 0, 20, 20),
];

#[test]
fn holes_ascend_by_their_points_behind_the_shell(rt: HostRuntime) -> Result<(), Fail> {
    let alloc = rt.alloc();
    let shell: Points = &[(0, 0), (20, 0), (20, 20), (0, 20)];
    let low: Points = &[(4, 4), (4, 6), (6, 4)];
    let high: Points = &[(4, 12), (4, 14), (6, 12)];
    let around = poly(alloc, &[shell, low, high])?;
    let want = Coverage {
        members: vec![in alloc; member(alloc, around)?]?,
    };
    expect_polygons(alloc, &rt, &TRIANGLES, &[(1, 0)], want)
}

/// Two triangles that touch in a vertex.
const BOW_TIE: [Ends; 6] = [
    (0, 0, 0, 10),
    (0, 0, 5, 5),
    (0, 10, 5, 5),
    (5, 5, 10, 0),
    (5, 5, 10, 10),
    (10, 0, 10, 10),
];

#[test]
fn parts_that_touch_in_a_vertex_are_two_polygons(rt: HostRuntime) -> Result<(), Fail> {
    let alloc = rt.alloc();
    let left = poly(alloc, &[&[(0, 0), (5, 5), (0, 10)]])?;
    let right = poly(alloc, &[&[(5, 5), (10, 0), (10, 10)]])?;
    let both = Member {
        polys: vec![in alloc; left, right]?,
    };
    let want = Coverage {
        members: vec![in alloc; both]?,
    };
    expect_polygons(alloc, &rt, &BOW_TIE, &[(6, 0), (1, 0)], want)
}
