ghost use Rattle.std.specs.Prelude.{◌<◌, All, IfOk};
ghost use Rattle.cov_types.specs.Range.{IsSegInRange};

use cov_types::{Coord, EdgeUse, LIMIT, NoMemory, Seg};
use grid_pred::crossing;
use hot_pixel::{Columns, HotSet, meets, pixel_of};
use std::alloc::Global;
use std::process::Abort;
use std::test::Fail;

/// The ends of a segment: x and y of each.
type Ends = (i32, i32, i32, i32);

#[test]
fn a_crossing_is_in_the_pixel_that_its_corner_belongs_to(rt: HostRuntime) {
    let cases = [
        ((0, 0, 1, 1), (0, 1, 1, 0), (1, 1)),
        ((-1, -1, 0, 0), (-1, 0, 0, -1), (0, 0)),
        ((0, 0, 3, 0), (1, -1, 1, 2), (1, 0)),
        (
            (-LIMIT, -LIMIT, LIMIT, LIMIT),
            (-LIMIT, LIMIT, LIMIT, -LIMIT),
            (0, 0),
        ),
    ];
    for (s, t, (x, y)) in cases {
        let point = crossing(segment(&rt, s), segment(&rt, t)).expect(&rt, "they cross");
        assert_eq!(rt; pixel_of(&point), Coord { x, y });
    }
}

#[test]
fn a_pixel_is_closed_at_its_left_and_bottom_alone(rt: HostRuntime) {
    let cases = [
        ((0, 0, 10, 1), (5, 0), true),
        ((0, 0, 1, 1), (1, 0), false),
        ((0, 0, 1, 1), (0, 1), false),
        ((0, 1, 1, 0), (1, 1), true),
        ((0, 1, 1, 0), (0, 0), false),
        ((0, 0, 2, 1), (1, 0), true),
        ((0, 0, 2, 1), (1, 1), true),
        ((0, 0, 3, 0), (2, 1), false),
        ((0, 0, 0, 3), (0, 2), true),
        ((0, 0, 0, 3), (1, 2), false),
    ];
    for (s, (x, y), want) in cases {
        assert_eq!(rt; meets(segment(&rt, s), Coord { x, y }), want);
    }
}

#[test]
fn a_shallow_segment_through_a_corner_meets_the_pixels_that_it_has_points_of(rt: HostRuntime) {
    let cases = [
        ((0, 0, 3, 1), (1, 0), true),
        ((0, 0, 3, 1), (2, 1), true),
        ((0, 0, 3, 1), (2, 0), false),
        ((0, 0, 3, 1), (1, 1), false),
        ((0, 1, 3, 0), (1, 1), true),
        ((0, 1, 3, 0), (2, 0), true),
        ((0, 1, 3, 0), (2, 1), true),
        ((0, 1, 3, 0), (1, 0), false),
    ];
    for (s, (x, y), want) in cases {
        assert_eq!(rt; meets(segment(&rt, s), Coord { x, y }), want);
    }
}

#[test]
fn a_steep_segment_through_a_corner_meets_the_pixels_that_it_has_points_of(rt: HostRuntime) {
    let cases = [
        ((0, 0, 1, 3), (0, 1), true),
        ((0, 0, 1, 3), (1, 2), true),
        ((0, 0, 1, 3), (1, 1), false),
        ((0, 0, 1, 3), (0, 2), false),
        ((0, 3, 1, 0), (0, 2), true),
        ((0, 3, 1, 0), (1, 1), true),
        ((0, 3, 1, 0), (1, 2), true),
        ((0, 3, 1, 0), (0, 1), false),
    ];
    for (s, (x, y), want) in cases {
        assert_eq!(rt; meets(segment(&rt, s), Coord { x, y }), want);
    }
}

#[test]
fn a_chain_bends_to_the_pixel_of_a_crossing(rt: HostRuntime) -> Result<(), Fail> {
    let rising = segment(&rt, (0, 0, 1, 1));
    let falling = segment(&rt, (0, 1, 1, 0));
    let uses = [rising, falling].map(|seg| EdgeUse { member: 0, seg });
    let hot = HotSet::build(rt.alloc(), &uses)?;
    let [low_left, top_left, top_right, low_right] = [(0, 0), (0, 1), (1, 1), (1, 0)].map(|(
        x,
        y,
    )| Coord { x, y });
    assert_eq!(rt;
        hot.chain(rising)?.as_slice(),
        [low_left, top_right].as_slice()
    );
    assert_eq!(rt;
        hot.chain(falling)?.as_slice(),
        [top_left, top_right, low_right].as_slice()
    );
    Ok(())
}

#[test]
fn the_columns_of_two_squares_reach_one_unit_further(rt: HostRuntime) -> Result<(), Fail> {
    let squares = [
        (0, 0, 10, 0),
        (10, 0, 10, 10),
        (0, 10, 10, 10),
        (0, 0, 0, 10),
        (5, 0, 15, 0),
        (15, 0, 15, 10),
        (5, 10, 15, 10),
        (5, 0, 5, 10),
    ];
    let columns = Columns::build(rt.alloc(), &edge_uses(&rt, rt.alloc(), &squares)?)?;
    let near = columns.near(segment(&rt, (12, 0, 14, 0)))?;
    assert_eq!(rt; near.as_slice(), [4, 5, 6].as_slice());
    Ok(())
}

#[test]
fn random_lists_are_answered_as_plain_scans_answer(rt: HostRuntime) -> Result<(), Fail> {
    let cases = [
        (Layout::Dense, 0),
        (Layout::Dense, 1),
        (Layout::Dense, 20),
        (Layout::Dense, 60),
        (Layout::Clusters, 60),
        (Layout::Comb, 60),
        (Layout::OneBox, 20),
    ];
    let mut random = Random { state: 1 };
    for (layout, count) in cases {
        let list = random_list(rt.alloc(), layout, count, &mut random)?;
        let uses = edge_uses(&rt, rt.alloc(), &list)?;
        expect_near(&rt, rt.alloc(), &uses)?;
        expect_chains(&rt, rt.alloc(), &uses)?;
    }
    Ok(())
}

// ---- the plain forms

// Of each use, what is near its segment is what a scan of the list finds.
fn expect_near(rt: &impl Abort, alloc: Global, uses: &[EdgeUse]) -> Result<(), Fail>
    requires { All (λ u. IsSegInRange u.seg) uses.now }
{
    let columns = Columns::build(alloc, uses)?;
    for u in uses {
        let near = columns.near(u.seg)?;
        assert_eq!(rt;
            near.as_slice(),
            near_by_scan(alloc, uses, u.seg)?.as_slice()
        );
    }
    Ok(())
}

fn near_by_scan(alloc: Global, uses: &[EdgeUse], s: Seg) -> Result<Vec<usize>, NoMemory> {
    let mut places = Vec::new(alloc);
    for (place, u) in uses.iter().enumerate() {
        let starts = i64::from(u.seg.lo.x) - 1 <= i64::from(s.hi.x);
        let ends = i64::from(s.lo.x) - 1 <= i64::from(u.seg.hi.x);
        if starts && ends {
            places.push(place)?;
        }
    }
    Ok(places)
}

// Of each use, the chain is of the centres that a scan over all of them finds.
fn expect_chains(rt: &impl Abort, alloc: Global, uses: &[EdgeUse]) -> Result<(), Fail>
    requires { All (λ u. IsSegInRange u.seg) uses.now }
{
    let mut hot = HotSet::build(alloc, uses)?;
    let centres = hot_by_pairs(alloc, uses)?;
    for (i, u) in uses.iter().enumerate() {
        // Of each eight, the centres near the first four.
        if i % 8 == 0 {
            hot.gather(&uses[i..uses.len().min(i + 4)])?;
        }
        let mut chain = hot.chain(u.seg)?;
        expect_order(rt, u.seg, &chain);
        chain.sort_unstable();
        assert_eq!(rt;
            chain.as_slice(),
            met_by_scan(alloc, u.seg, &centres)?.as_slice()
        );
    }
    Ok(())
}

// From column to column, and in one column upwards or downwards as the segment goes.
fn expect_order(rt: &impl Abort, s: Seg, chain: &[Coord]) {
    for i in 1..chain.len() {
        let (a, b) = (chain[i - 1], chain[i]);
        let onwards = if s.lo.y <= s.hi.y {
            a.y < b.y
        } else {
            b.y < a.y
        };
        assert!(rt; a.x < b.x || a.x == b.x && onwards);
    }
}

// All ends, and the pixels of the crossings of all pairs.
fn hot_by_pairs(alloc: Global, uses: &[EdgeUse]) -> Result<Vec<Coord>, NoMemory>
    requires { All (λ u. IsSegInRange u.seg) uses.now }
{
    let mut centres = Vec::new(alloc);
    for u in uses {
        centres.push(u.seg.lo)?;
        centres.push(u.seg.hi)?;
        add_crossed(&mut centres, u.seg, uses)?;
    }
    Ok(centres)
}

fn add_crossed(centres: &mut Vec<Coord>, s: Seg, uses: &[EdgeUse]) -> Result<(), NoMemory>
    requires in_range { IsSegInRange s }
    requires uses_in_range { All (λ u. IsSegInRange u.seg) uses.now }
{
    for u in uses {
        if let Some(point) = crossing(s, u.seg) {
            centres.push(pixel_of(&point))?;
        }
    }
    Ok(())
}

// The centres whose pixels the segment meets, each once, ascending.
fn met_by_scan(alloc: Global, s: Seg, centres: &[Coord]) -> Result<Vec<Coord>, NoMemory> {
    let mut met = Vec::new(alloc);
    for r in centres {
        if meets(s, *r) {
            met.push(*r)?;
        }
    }
    met.sort_unstable();
    met.dedup();
    Ok(met)
}

// ---- lists

/// How the segments of a random list lie.
#[derive(Clone, Copy)]
enum Layout {
    /// In a few units, so that many meet.
    Dense,
    /// In three places far from one another.
    Clusters,
    /// Short ones on a long one.
    Comb,
    /// Diagonals of one box.
    OneBox,
}

/// Numbers in an order that is always the same.
#[derive(Drop)]
struct Random {
    state: u32,
}

impl Random {
    fn below(&mut self, bound: u32) -> u32
        requires { 0 < bound }
        ensures { result < bound }
    {
        self.state = self.state % 65_537 * 75 % 65_537;
        self.state % bound
    }
}

// So many segments by their ends.
fn random_list(
    alloc: Global,
    layout: Layout,
    count: u32,
    random: &mut Random,
) -> Result<Vec<Ends>, NoMemory> {
    let mut list = Vec::new(alloc);
    for i in 0..count {
        list.push(random_ends(layout, i, random))?;
    }
    Ok(list)
}

fn random_ends(layout: Layout, i: u32, random: &mut Random) -> Ends {
    let x = random.below(8) as i32;
    let y = random.below(8) as i32;
    let u = random.below(8) as i32;
    let v = random.below(8) as i32;
    // Never a point.
    let u = if x == u && y == v { u + 1 } else { u };
    match layout {
        Layout::Dense => (x, y, u, v),
        Layout::Clusters => {
            let far = (i % 3) as i32 * 5_000_000;
            (far + x, y - far, far + u, v - far)
        },
        Layout::Comb if i == 0 => (0, 3, 500, 6),
        Layout::Comb => {
            let tooth = (i % 100) as i32 * 8;
            (tooth + x, y, tooth + u, v)
        },
        Layout::OneBox if x < 4 => (0, 0, 7, 5),
        Layout::OneBox => (0, 5, 7, 0),
    }
}

fn edge_uses(rt: &impl Abort, alloc: Global, list: &[Ends]) -> Result<Vec<EdgeUse>, Fail>
    ensures { IfOk result (λ uses. All (λ u. IsSegInRange u.seg) uses.items) }
{
    let mut uses = Vec::new(alloc);
    for ends in list {
        uses.push(EdgeUse {
            member: 0,
            seg: segment(rt, *ends),
        })?;
    }
    Ok(uses)
}

fn segment(rt: &impl Abort, ends: Ends) -> Seg
    ensures { IsSegInRange result }
{
    let (lo_x, lo_y, hi_x, hi_y) = ends;
    let lo = Coord { x: lo_x, y: lo_y };
    let hi = Coord { x: hi_x, y: hi_y };
    let segment = Seg::between(lo, hi).expect(rt, "two different ends");
    assert!(rt; segment.lo.is_in_range() && segment.hi.is_in_range());
    segment
}
