ghost use Rattle.std.specs.Prelude.{◌≡◌, ◌*◌, length, IfOk};
ghost use Rattle.cov_types.specs.Coverage.{AllInRange};
ghost use Rattle.cov_types.specs.Uses.{HasEvenEnds};
ghost use Rattle.arrangement.specs.Noding.{odd_uses};
ghost use Rattle.arrangement.specs.Overlay.{IsRegion};
ghost use Rattle.sector_laws.specs.Sector.{IsPlanar, AreDistinct};

use cov_types::{Coord, Coverage, Member, NoMemory, Poly, Ring, in_range, uses};
use face_walk::Regions;
use half_edge::Arena;
use owner_label::{Labels, OwnedSide};
use snap_noder::{LiveEdges, live, node};
use std::alloc::Global;
use std::process::Abort;
use std::test::Fail;

/// A ring by its points, without the closing repeat.
type Points<'a> = &'a [(i32, i32)];

/// A region by its number: its label, and its doubled area if it is not outer.
type Row<'a> = (usize, &'a [u32], Option<i128>);

/// What the labels of some members are to be.
#[derive(Clone, Copy)]
struct Expected<'a> {
    /// All regions.
    rows: &'a [Row<'a>],
    /// Members with their doubled areas.
    areas: &'a [(u32, i128)],
    /// Regions with members and their borders.
    borders: &'a [(usize, u32, u128)],
    /// The regions that have an owner.
    owners: &'a [(usize, u32)],
    /// Regions with members and their owned borders.
    owned: &'a [(usize, u32, u128)],
}

const SQUARE: [(i32, i32); 4] = [(0, 0), (10, 0), (10, 10), (0, 10)];

#[test]
fn two_squares_share_a_region(rt: HostRuntime) -> Result<(), Fail> {
    let moved = [(5, 0), (15, 0), (15, 10), (5, 10)];
    let expected = Expected {
        rows: &[
            (0, [].as_slice(), None),
            (1, [0].as_slice(), Some(100)),
            (7, [0, 1].as_slice(), Some(100)),
            (13, [1].as_slice(), Some(100)),
        ],
        areas: &[(0, 200), (1, 200)],
        borders: &[(7, 0, 2560), (7, 1, 2560), (1, 0, 0), (1, 1, 0)],
        owners: &[],
        owned: &[(7, 0, 0)],
    };
    expect_labels(rt.alloc(), &rt, &[&[&SQUARE], &[&moved]], &expected)
}

// Two parcels round a gap, which meet above and below it.
const WEST: [(i32, i32); 8] = [
    (0, 0),
    (15, 0),
    (15, 10),
    (10, 10),
    (10, 20),
    (15, 20),
    (15, 30),
    (0, 30),
];

const EAST: [(i32, i32); 8] = [
    (15, 0),
    (30, 0),
    (30, 30),
    (15, 30),
    (15, 20),
    (20, 20),
    (20, 10),
    (15, 10),
];

#[test]
fn a_gap_borders_on_the_members_round_it_and_on_the_island_in_it(
    rt: HostRuntime,
) -> Result<(), Fail> {
    let island = [(11, 11), (19, 11), (19, 19), (11, 19)];
    let expected = Expected {
        rows: &[
            (0, [].as_slice(), None),
            (1, [0].as_slice(), Some(800)),
            (7, [].as_slice(), Some(72)),
            (13, [2].as_slice(), Some(128)),
            (19, [1].as_slice(), Some(800)),
        ],
        areas: &[(0, 800), (1, 800), (2, 128)],
        borders: &[(7, 0, 5120), (7, 1, 5120), (7, 2, 8192)],
        // One owner round the gap, and an owner of the gap itself, which has no label.
        owners: &[(1, 0), (19, 0), (13, 2), (7, 5)],
        owned: &[
            (7, 0, 10240),
            (7, 1, 0),
            (7, 2, 8192),
            (13, 0, 0),
            (13, 2, 0),
            (13, 5, 0),
        ],
    };
    expect_labels(
        rt.alloc(),
        &rt,
        &[&[&WEST], &[&EAST], &[&island]],
        &expected,
    )
}

#[test]
fn three_squares_overlap_in_one_region(rt: HostRuntime) -> Result<(), Fail> {
    let first = [(0, 0), (30, 0), (30, 10), (0, 10)];
    let second = [(10, 0), (40, 0), (40, 10), (10, 10)];
    let third = [(20, 0), (50, 0), (50, 10), (20, 10)];
    let expected = Expected {
        rows: &[
            (0, [].as_slice(), None),
            (1, [0].as_slice(), Some(200)),
            (7, [0, 1].as_slice(), Some(200)),
            (13, [0, 1, 2].as_slice(), Some(200)),
            (19, [1, 2].as_slice(), Some(200)),
            (25, [2].as_slice(), Some(200)),
        ],
        areas: &[(0, 600), (1, 600), (2, 600)],
        borders: &[
            (13, 0, 0),
            (13, 1, 0),
            (7, 0, 2560),
            (7, 2, 0),
            (19, 0, 0),
            (19, 2, 2560),
        ],
        owners: &[(7, 1), (19, 1)],
        owned: &[(13, 0, 0), (13, 1, 5120), (13, 2, 0)],
    };
    expect_labels(
        rt.alloc(),
        &rt,
        &[&[&first], &[&second], &[&third]],
        &expected,
    )
}

#[test]
fn a_member_has_an_island_in_its_hole(rt: HostRuntime) -> Result<(), Fail> {
    let shell = [(0, 0), (50, 0), (50, 50), (0, 50)];
    let hole = [(10, 10), (40, 10), (40, 40), (10, 40)];
    let island = [(20, 20), (30, 20), (30, 30), (20, 30)];
    let expected = Expected {
        rows: &[
            (0, [].as_slice(), None),
            (1, [0].as_slice(), Some(3200)),
            (7, [].as_slice(), Some(1600)),
            (13, [0].as_slice(), Some(200)),
        ],
        areas: &[(0, 3400)],
        borders: &[(7, 0, 40960)],
        owners: &[(1, 0)],
        owned: &[(7, 0, 30720)],
    };
    expect_labels(rt.alloc(), &rt, &[&[&shell, &hole, &island]], &expected)
}

#[test]
fn a_member_that_collapses_to_a_line_has_no_region(rt: HostRuntime) -> Result<(), Fail> {
    let line = [(0, 0), (5, 0), (10, 1)];
    let expected = Expected {
        rows: &[],
        areas: &[(0, 0), (1, 0)],
        borders: &[],
        owners: &[],
        owned: &[],
    };
    expect_labels(rt.alloc(), &rt, &[&[&line]], &expected)
}

#[test]
fn a_slanting_border_is_rounded_down(rt: HostRuntime) -> Result<(), Fail> {
    // From (0, 0) to (50, 1) it is 50.00999.. units.
    let below = [(0, 0), (0, -10), (50, -10), (50, 1)];
    let above = [(0, 0), (50, 1), (0, 10)];
    let expected = Expected {
        rows: &[
            (0, [].as_slice(), None),
            (1, [0].as_slice(), Some(1050)),
            (5, [1].as_slice(), Some(500)),
        ],
        areas: &[(0, 1050), (1, 500)],
        borders: &[(1, 0, 0), (1, 1, 12802), (5, 0, 12802), (5, 1, 0)],
        owners: &[(0, 1)],
        owned: &[(5, 1, 0)],
    };
    expect_labels(rt.alloc(), &rt, &[&[&below], &[&above]], &expected)
}

/// The labels of the members with these rings are as expected.
fn expect_labels(
    alloc: Global,
    rt: &impl Abort,
    members: &[&[Points]],
    expected: &Expected,
) -> Result<(), Fail> {
    let coverage = coverage(alloc, members)?;
    assert!(rt; in_range(&coverage));
    let live = live_edges(alloc, &coverage)?;
    let arena = Arena::build(alloc, live.edges.to_vec(alloc)?)?;
    let regions = Regions::build(alloc, &arena)?;
    let labels = Labels::build(alloc, &arena, &regions, &live)?;
    expect_regions(rt, &regions, &labels, arena.len(), expected.rows);
    for (member, area2) in expected.areas {
        assert_eq!(rt; labels.area2(*member), *area2, "member {member}");
    }
    expect_borders(rt, &regions, &labels, arena.len(), expected.borders);
    let owners = owners_by_region(alloc, rt, arena.len(), expected.owners)?;
    expect_owned(alloc, rt, &regions, &labels, &owners, expected.owned)
}

/// The rows have all regions, with their labels and areas.
fn expect_regions(rt: &impl Abort, regions: &Regions, labels: &Labels, sides: usize, rows: &[Row])
    requires walked { regions.now ≡ labels.now.edges }
    requires sides { sides ≡ 2 * length labels.now.edges }
{
    assert_eq!(rt; regions.count(), rows.len());
    for (number, label, area2) in rows {
        let region = region_of(rt, regions, labels, sides, *number);
        assert_eq!(rt; region, *number);
        assert_eq!(rt; labels.label(region), *label, "region {region}");
        if let Some(area2) = area2 {
            assert_eq!(rt; labels.region_area2(region), *area2, "region {region}");
        }
    }
}

/// The regions have these borders with members.
fn expect_borders(
    rt: &impl Abort,
    regions: &Regions,
    labels: &Labels,
    sides: usize,
    borders: &[(usize, u32, u128)],
)
    requires walked { regions.now ≡ labels.now.edges }
    requires sides { sides ≡ 2 * length labels.now.edges }
{
    for (number, member, border) in borders {
        let region = region_of(rt, regions, labels, sides, *number);
        assert_eq!(rt; labels.border(region, *member), *border, "region {region}");
    }
}

/// The regions have these borders with what members own.
fn expect_owned(
    alloc: Global,
    rt: &impl Abort,
    regions: &Regions,
    labels: &Labels,
    owners: &[Option<u32>],
    borders: &[(usize, u32, u128)],
) -> Result<(), Fail>
    requires walked { regions.now ≡ labels.now.edges }
    requires owners { length owners.now ≡ 2 * length labels.now.edges }
{
    for (number, member, border) in borders {
        let region = region_of(rt, regions, labels, owners.len(), *number);
        let sides = labels.owned_sides(alloc, region, owners)?;
        assert_eq!(rt; length_by(&sides, *member), *border, "region {region}");
        assert_eq!(rt;
            labels.border_by(region, owners, *member),
            *border,
            "region {region}"
        );
    }
    Ok(())
}

/// The length of the sides of the member.
fn length_by(sides: &[OwnedSide], member: u32) -> u128 {
    let mut length: u128 = 0;
    for side in sides {
        if side.member == member {
            length = length.wrapping_add(side.length);
        }
    }
    length
}

/// The owner of each region by its number.
fn owners_by_region(
    alloc: Global,
    rt: &impl Abort,
    sides: usize,
    owners: &[(usize, u32)],
) -> Result<Vec<Option<u32>>, Fail>
    ensures { IfOk result (λ v. length v.items ≡ sides) }
{
    let mut by_region = vec![in alloc; None; sides]?;
    for (region, owner) in owners {
        assert!(rt; *region < by_region.len());
        by_region[*region] = Some(*owner);
    }
    Ok(by_region)
}

/// The region of the side.
fn region_of(
    rt: &impl Abort,
    regions: &Regions,
    labels: &Labels,
    sides: usize,
    side: usize,
) -> usize
    requires walked { regions.now ≡ labels.now.edges }
    requires sides { sides ≡ 2 * length labels.now.edges }
    ensures { IsRegion labels.now.edges result }
{
    assert!(rt; side < sides);
    regions.region_of(side)
}

fn live_edges(alloc: Global, c: &Coverage) -> Result<LiveEdges, NoMemory>
    requires { AllInRange c.now }
    ensures planar { IfOk result (λ l. IsPlanar l.edges.items) }
    ensures distinct { IfOk result (λ l. AreDistinct l.edges.items) }
    ensures even { IfOk result (λ l. HasEvenEnds (odd_uses l.edges.items l.odd.items)) }
{
    let uses = uses(alloc, c)?;
    let noded = node(alloc, &uses)?;
    live(alloc, &noded)
}

fn coverage(alloc: Global, members: &[&[Points]]) -> Result<Coverage, Fail> {
    let mut list = Vec::new(alloc);
    for rings in members {
        let mut polys = Vec::new(alloc);
        polys.push(poly(alloc, rings)?)?;
        list.push(Member { polys })?;
    }
    Ok(Coverage { members: list })
}

fn poly(alloc: Global, rings: &[Points]) -> Result<Poly, Fail> {
    let mut list = Vec::new(alloc);
    for points in rings {
        list.push(ring(alloc, points)?)?;
    }
    Ok(Poly { rings: list })
}

fn ring(alloc: Global, points: Points) -> Result<Ring, Fail> {
    let mut list = Vec::new(alloc);
    for (x, y) in points {
        list.push(Coord { x: *x, y: *y })?;
    }
    Ok(Ring { points: list })
}
