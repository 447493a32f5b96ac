ghost use Rattle.std.specs.Prelude.{◌<◌, All, IfOk};
ghost use Rattle.arrangement.specs.Noding.{odd_uses};
ghost use Rattle.cov_types.specs.Coverage.{AllInRange};
ghost use Rattle.cov_types.specs.Range.{IsSegInRange};
ghost use Rattle.cov_types.specs.Uses.{HasEvenEnds};
ghost use Rattle.sector_laws.specs.Sector.{AreDistinct, IsPlanar};

use cov_types::{Coord, Coverage, EdgeUse, Member, NoMemory, Poly, Ring, Seg, in_range, uses};
use hot_pixel::HotSet;
use snap_noder::{LiveEdges, live, node, plain, uses_of_odd};
use std::alloc::Global;
use std::process::Abort;
use std::test::Fail;

/// The ends of a segment: x and y of each.
type Ends = (i32, i32, i32, i32);

#[test]
fn a_bow_tie_bends_to_the_pixel_of_its_crossing(rt: HostRuntime) -> Result<(), Fail> {
    let uses = [
        (0, (0, 0, 1, 1)),
        (0, (0, 1, 1, 1)),
        (0, (0, 1, 1, 0)),
        (0, (0, 0, 1, 0)),
    ];
    let edges = [(0, 0, 1, 0), (0, 0, 1, 1), (0, 1, 1, 1), (1, 0, 1, 1)];
    expect_noded(&rt, rt.alloc(), &uses, &edges, &[(0, 0), (0, 1), (0, 3)], 3)
}

#[test]
fn a_segment_bends_to_the_pixel_of_a_vertex_that_it_passes(rt: HostRuntime) -> Result<(), Fail> {
    let uses = [
        (0, (0, 0, 10, 1)),
        (0, (0, 10, 10, 1)),
        (0, (0, 0, 0, 10)),
        (1, (5, 0, 10, -10)),
        (1, (0, -10, 10, -10)),
        (1, (0, -10, 5, 0)),
    ];
    let edges = [
        (0, -10, 5, 0),
        (0, -10, 10, -10),
        (0, 0, 0, 10),
        (0, 0, 5, 0),
        (0, 10, 10, 1),
        (5, 0, 10, -10),
        (5, 0, 10, 1),
    ];
    let odd = [(0, 2), (0, 3), (0, 4), (0, 6), (1, 0), (1, 1), (1, 5)];
    expect_noded(&rt, rt.alloc(), &uses, &edges, &odd, 7)
}

#[test]
fn a_thin_triangle_vanishes(rt: HostRuntime) -> Result<(), Fail> {
    let uses = [(0, (0, 0, 5, 0)), (0, (5, 0, 10, 1)), (0, (0, 0, 10, 1))];
    expect_noded(
        &rt,
        rt.alloc(),
        &uses,
        &[(0, 0, 5, 0), (5, 0, 10, 1)],
        &[],
        0,
    )
}

#[test]
fn a_segment_through_a_corner_meets_both_pixels_above_and_below(
    rt: HostRuntime,
) -> Result<(), Fail> {
    let uses = [
        (0, (0, 0, 2, 1)),
        (0, (0, 2, 2, 1)),
        (0, (0, 0, 0, 2)),
        (1, (1, 0, 5, 0)),
        (1, (1, 1, 5, 0)),
        (1, (1, 0, 1, 1)),
    ];
    let edges = [
        (0, 0, 0, 2),
        (0, 0, 1, 0),
        (0, 2, 1, 1),
        (1, 0, 1, 1),
        (1, 0, 5, 0),
        (1, 1, 2, 1),
        (2, 1, 5, 0),
    ];
    let odd = [
        (0, 0),
        (0, 1),
        (0, 2),
        (0, 3),
        (1, 3),
        (1, 4),
        (1, 5),
        (1, 6),
    ];
    expect_noded(&rt, rt.alloc(), &uses, &edges, &odd, 7)
}

#[test]
fn nothing_is_noded_to_nothing(rt: HostRuntime) -> Result<(), Fail> {
    expect_noded(&rt, rt.alloc(), &[], &[], &[], 0)
}

#[test]
fn edges_that_are_noded_already_keep_those_used_an_odd_number_of_times(
    rt: HostRuntime,
) -> Result<(), Fail> {
    let seg = segment(&rt, (0, 0, 10, 1));
    let uses = [0, 0, 1].map(|member| EdgeUse { member, seg });
    let noded = plain(rt.alloc(), &uses)?;
    assert_eq!(rt; noded.edges.len(), 1);
    assert!(rt; noded.edges.iter().all(|edge| *edge == seg));
    assert_eq!(rt; noded.odd.len(), 1);
    assert!(rt;
        noded
            .odd
            .iter()
            .all(|pair| pair.member == 1 && pair.edge == 0)
    );
    Ok(())
}

#[test]
fn two_squares_have_live_edges_with_all_that_a_topology_requires(
    rt: HostRuntime,
) -> Result<(), Fail> {
    let alloc = rt.alloc();
    let mut members = Vec::new(alloc);
    members.push(square(alloc, 0, 10)?)?;
    members.push(square(alloc, 5, 15)?)?;
    let coverage = Coverage { members };
    assert!(rt; in_range(&coverage));
    assert_eq!(rt; noded_edges(alloc, &coverage)?.len(), 10);
    assert_eq!(rt; live_edges(alloc, &coverage)?.edges.len(), 10);
    Ok(())
}

#[test]
fn random_lists_are_noded_as_one_use_after_another(rt: HostRuntime) -> Result<(), Fail> {
    let cases = [(6, 0), (6, 1), (3, 30), (6, 40), (30, 40)];
    let mut random = Random { state: 1 };
    for (extent, count) in cases {
        let list = random_list(rt.alloc(), extent, count, &mut random)?;
        let list = edge_uses(&rt, rt.alloc(), &list)?;
        expect_as_counted(&rt, rt.alloc(), &list)?;
    }
    Ok(())
}

#[test]
fn a_row_of_many_squares_is_noded_in_time(rt: HostRuntime) -> Result<(), Fail> {
    let list = row_list(rt.alloc(), 100_000)?;
    let noded = node(rt.alloc(), &edge_uses(&rt, rt.alloc(), &list)?)?;
    assert_eq!(rt; noded.edges.len(), 300_001);
    assert_eq!(rt; noded.odd.len(), 400_000);
    Ok(())
}

// ---- callers of their own, which no file proves

// Edges of which an arena can be built.
fn noded_edges(alloc: Global, c: &Coverage) -> Result<Vec<Seg>, NoMemory>
    requires { AllInRange c.now }
    ensures planar { IfOk result (λ edges. IsPlanar edges.items) }
    ensures distinct { IfOk result (λ edges. AreDistinct edges.items) }
{
    let uses = uses(alloc, c)?;
    let noded = node(alloc, &uses)?;
    Ok(noded.edges)
}

// Edges of which an arena can be built, and labels by the odd pairs.
fn live_edges(alloc: Global, c: &Coverage) -> Result<LiveEdges, NoMemory>
    requires { AllInRange c.now }
    ensures planar { IfOk result (λ l. IsPlanar l.edges.items) }
    ensures distinct { IfOk result (λ l. AreDistinct l.edges.items) }
    ensures even { IfOk result (λ l. HasEvenEnds (odd_uses l.edges.items l.odd.items)) }
{
    let uses = uses(alloc, c)?;
    let noded = node(alloc, &uses)?;
    let live = live(alloc, &noded)?;
    Ok(live)
}

// ---- the plain form: each use has a chain of its own, and each pair is counted

fn expect_as_counted(rt: &impl Abort, alloc: Global, list: &[EdgeUse]) -> Result<(), Fail>
    requires { All (λ u. IsSegInRange u.seg) list.now }
{
    let noded = node(alloc, list)?;
    let snapped = snapped_one_by_one(alloc, list)?;
    let edges = distinct_segments(alloc, &snapped)?;
    assert_eq!(rt; noded.edges.as_slice(), edges.as_slice());
    let odd = odd_by_count(alloc, &snapped, &edges)?;
    assert_eq!(rt; uses_of_odd(alloc, &noded)?.as_slice(), odd.as_slice());
    let live = live(alloc, &noded)?;
    assert_eq!(rt;
        live.edges.as_slice(),
        distinct_segments(alloc, &odd)?.as_slice()
    );
    assert_eq!(rt; live.odd.len(), odd.len());
    for (pair, want) in live.odd.iter().zip(&odd) {
        assert_eq!(rt; pair.member, want.member);
        assert!(rt; live.edges.get(pair.edge) == Some(&want.seg));
    }
    Ok(())
}

fn snapped_one_by_one(alloc: Global, list: &[EdgeUse]) -> Result<Vec<EdgeUse>, NoMemory>
    requires { All (λ u. IsSegInRange u.seg) list.now }
{
    let hot = HotSet::build(alloc, list)?;
    let mut snapped = Vec::new(alloc);
    for u in list {
        let chain = hot.chain(u.seg)?;
        add_edges(&mut snapped, u.member, &chain)?;
    }
    Ok(snapped)
}

fn add_edges(uses: &mut Vec<EdgeUse>, member: u32, chain: &[Coord]) -> Result<(), NoMemory> {
    for i in 1..chain.len() {
        if let Some(seg) = Seg::between(chain[i - 1], chain[i]) {
            uses.push(EdgeUse { member, seg })?;
        }
    }
    Ok(())
}

fn distinct_segments(alloc: Global, list: &[EdgeUse]) -> Result<Vec<Seg>, NoMemory> {
    let mut segs: Vec<Seg> = list.iter().map(|u| u.seg).collect(alloc)?;
    segs.sort_unstable();
    segs.dedup();
    Ok(segs)
}

// Of the three members in turn, the edges that the list has an odd number of times.
fn odd_by_count(alloc: Global, list: &[EdgeUse], edges: &[Seg]) -> Result<Vec<EdgeUse>, NoMemory> {
    let mut odd = Vec::new(alloc);
    for member in 0..3 {
        add_odd(&mut odd, member, list, edges)?;
    }
    Ok(odd)
}

fn add_odd(
    odd: &mut Vec<EdgeUse>,
    member: u32,
    list: &[EdgeUse],
    edges: &[Seg],
) -> Result<(), NoMemory> {
    for edge in edges {
        let use_of = EdgeUse { member, seg: *edge };
        if list.iter().filter(|u| **u == use_of).count() % 2 == 1 {
            odd.push(use_of)?;
        }
    }
    Ok(())
}

// ---- lists

/// Numbers in an order that is always the same.
#[derive(Drop)]
struct Random {
    state: u32,
}

impl Random {
    fn below(&mut self, bound: u32) -> u32
        requires { 0 < bound }
        ensures { result < bound }
    {
        self.state = self.state % 65_537 * 75 % 65_537;
        self.state % bound
    }
}

// So many segments by their ends in a square of this extent, used by three members in turn.
fn random_list(
    alloc: Global,
    extent: u32,
    count: u32,
    random: &mut Random,
) -> Result<Vec<(u32, Ends)>, NoMemory>
    requires some { 0 < extent }
    requires small { extent < 1000 }
{
    let mut list = Vec::new(alloc);
    for i in 0..count {
        let x = random.below(extent) as i32;
        let y = random.below(extent) as i32;
        let u = random.below(extent) as i32;
        let v = random.below(extent) as i32;
        // Never a point.
        let u = if x == u && y == v { u + 1 } else { u };
        list.push((i % 3, (x, y, u, v)))?;
    }
    Ok(list)
}

// The sides of so many unit squares in a row, each of a member of its own.
fn row_list(alloc: Global, count: u32) -> Result<Vec<(u32, Ends)>, NoMemory>
    requires { count < 1000000 }
{
    let mut list = Vec::new(alloc);
    for member in 0..count {
        let x = member as i32;
        list.push((member, (x, 0, x + 1, 0)))?;
        list.push((member, (x + 1, 0, x + 1, 1)))?;
        list.push((member, (x, 1, x + 1, 1)))?;
        list.push((member, (x, 0, x, 1)))?;
    }
    Ok(list)
}

// A square of one member, from one x to another and as high as ten.
fn square(alloc: Global, from: i32, to: i32) -> Result<Member, NoMemory> {
    let corners = [(from, 0), (to, 0), (to, 10), (from, 10)].map(|(x, y)| Coord { x, y });
    let ring = Ring {
        points: Vec::from_slice(alloc, &corners)?,
    };
    let mut rings = Vec::new(alloc);
    rings.push(ring)?;
    let mut polys = Vec::new(alloc);
    polys.push(Poly { rings })?;
    Ok(Member { polys })
}

// The uses have these noded edges and odd pairs, and so many live edges.
fn expect_noded(
    rt: &impl Abort,
    alloc: Global,
    uses: &[(u32, Ends)],
    edges: &[Ends],
    odd: &[(u32, usize)],
    live_count: usize,
) -> Result<(), Fail> {
    let uses = edge_uses(rt, alloc, uses)?;
    let noded = node(alloc, uses.as_slice())?;
    assert_eq!(rt; noded.edges.len(), edges.len());
    for (edge, ends) in noded.edges.iter().zip(edges) {
        assert_eq!(rt; (edge.lo.x, edge.lo.y, edge.hi.x, edge.hi.y), *ends);
    }
    assert_eq!(rt; noded.odd.len(), odd.len());
    for (pair, want) in noded.odd.iter().zip(odd) {
        assert_eq!(rt; (pair.member, pair.edge), *want);
    }
    assert_eq!(rt; live(alloc, &noded)?.edges.len(), live_count);
    Ok(())
}

fn edge_uses(rt: &impl Abort, alloc: Global, uses: &[(u32, Ends)]) -> Result<Vec<EdgeUse>, Fail>
    ensures { IfOk result (λ uses. All (λ u. IsSegInRange u.seg) uses.items) }
{
    let mut list = Vec::new(alloc);
    for (member, ends) in uses {
        list.push(EdgeUse {
            member: *member,
            seg: segment(rt, *ends),
        })?;
    }
    Ok(list)
}

fn segment(rt: &impl Abort, ends: Ends) -> Seg
    ensures { IsSegInRange result }
{
    let (lo_x, lo_y, hi_x, hi_y) = ends;
    let lo = Coord { x: lo_x, y: lo_y };
    let hi = Coord { x: hi_x, y: hi_y };
    let segment = Seg::between(lo, hi).expect(rt, "two different ends");
    assert!(rt; segment.lo.is_in_range() && segment.hi.is_in_range());
    segment
}
