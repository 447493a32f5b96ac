use cov_types::{Coord, NoMemory, Seg};
use grid_pred::meets_badly;
use half_edge::{Arena, Side, are_arranged};
use std::alloc::Global;
use std::process::Abort;
use std::test::Fail;

/// The edges between these points, as given.
fn edges_between(
    alloc: Global,
    rt: &impl Abort,
    numbers: &[(i32, i32, i32, i32)],
) -> Result<Vec<Seg>, NoMemory> {
    let mut edges = Vec::new(alloc);
    for (a, b, c, d) in numbers {
        let edge = Seg::between(Coord { x: *a, y: *b }, Coord { x: *c, y: *d });
        edges.push(edge.expect(rt, "two points"))?;
    }
    Ok(edges)
}

/// The live edges of the squares (0..10) x (0..10) and (5..15) x (0..10).
const TWO_SQUARES: [(i32, i32, i32, i32); 10] = [
    (0, 0, 0, 10),
    (0, 0, 5, 0),
    (0, 10, 5, 10),
    (5, 0, 5, 10),
    (5, 0, 10, 0),
    (5, 10, 10, 10),
    (10, 0, 10, 10),
    (10, 0, 15, 0),
    (10, 10, 15, 10),
    (15, 0, 15, 10),
];

#[test]
fn two_squares_that_overlap_have_twenty_half_edges(rt: HostRuntime) -> Result<(), Fail> {
    let alloc = rt.alloc();
    let edges = edges_between(alloc, &rt, &TWO_SQUARES)?;
    assert!(rt; are_arranged(alloc, &edges)?);
    let arena = Arena::build(alloc, edges)?;
    assert_eq!(rt; arena.len(), 20);
    assert_eq!(rt; arena.next(1), 2);
    assert_eq!(rt; arena.next(2), 6);
    assert_eq!(rt; arena.next(6), 5);
    assert_eq!(rt; arena.next(5), 1);
    assert_eq!(rt; arena.twin(6), 7);
    assert_eq!(rt; arena.origin(6), Coord { x: 5, y: 0 });
    assert_eq!(rt; arena.origin(7), Coord { x: 5, y: 10 });
    assert_eq!(rt; arena.edges().len(), 10);
    let edge = arena.edge(6);
    assert_eq!(rt; edge.lo, Coord { x: 5, y: 0 });
    assert_eq!(rt; edge.hi, Coord { x: 5, y: 10 });
    Ok(())
}

#[test]
fn the_sides_of_edge_3_are_6_and_7(rt: HostRuntime) {
    assert_eq!(rt; Side::upper(3).number(), 6);
    assert_eq!(rt; Side::lower(3), Side::of_number(7));
    assert_eq!(rt; Side::of_number(7).edge(), 3);
    assert_eq!(rt; Side::of_number(7).twin(), Side::upper(3));
    assert!(rt; Side::of_number(6).is_upper() && !Side::of_number(7).is_upper());
}

#[test]
fn a_dead_end_turns_back(rt: HostRuntime) -> Result<(), Fail> {
    let alloc = rt.alloc();
    let edges = edges_between(alloc, &rt, &[(0, 0, 3, 1), (3, 1, 5, 5)])?;
    assert!(rt; are_arranged(alloc, &edges)?);
    let arena = Arena::build(alloc, edges)?;
    assert_eq!(rt; arena.len(), 4);
    assert_eq!(rt; arena.next(0), 2);
    assert_eq!(rt; arena.next(2), 3);
    assert_eq!(rt; arena.next(3), 1);
    assert_eq!(rt; arena.next(1), 0);
    assert!(rt; arena.opens_down(2));
    assert!(rt; arena.opens_down(1));
    Ok(())
}

/// Edges from (1, 1) to the eight points round it, ascending.
const FAN: [(i32, i32, i32, i32); 8] = [
    (0, 0, 1, 1),
    (0, 1, 1, 1),
    (0, 2, 1, 1),
    (1, 0, 1, 1),
    (1, 1, 1, 2),
    (1, 1, 2, 0),
    (1, 1, 2, 1),
    (1, 1, 2, 2),
];

#[test]
fn round_a_fan_of_eight_directions_each_half_edge_goes_on_clockwise(
    rt: HostRuntime,
) -> Result<(), Fail> {
    let alloc = rt.alloc();
    let edges = edges_between(alloc, &rt, &FAN)?;
    assert!(rt; are_arranged(alloc, &edges)?);
    let arena = Arena::build(alloc, edges)?;
    assert_eq!(rt; arena.len(), 16);
    // From the south-west, counter-clockwise by number: 1 south-west, 7 south, 10 south-east, 12 east,
    // 14 north-east, 8 north, 5 north-west, 3 west. Coming in, one goes out by the one clockwise of it.
    let fan: [usize; 8] = [1, 7, 10, 12, 14, 8, 5, 3];
    let ways_in: [usize; 8] = [0, 6, 11, 13, 15, 9, 4, 2];
    let mut before = fan[7];
    for i in 0..8 {
        assert!(rt; ways_in[i] < arena.len());
        assert_eq!(rt; arena.next(ways_in[i]), before);
        before = fan[i];
    }
    Ok(())
}

/// The edges of two unit squares that share the point (1, 1).
const TOUCHING_SQUARES: [(i32, i32, i32, i32); 8] = [
    (0, 0, 0, 1),
    (0, 0, 1, 0),
    (0, 1, 1, 1),
    (1, 0, 1, 1),
    (1, 1, 1, 2),
    (1, 1, 2, 1),
    (1, 2, 2, 2),
    (2, 1, 2, 2),
];

#[test]
fn two_squares_that_touch_have_one_boundary_on_the_outside(rt: HostRuntime) -> Result<(), Fail> {
    let alloc = rt.alloc();
    let edges = edges_between(alloc, &rt, &TOUCHING_SQUARES)?;
    assert!(rt; are_arranged(alloc, &edges)?);
    let arena = Arena::build(alloc, edges)?;
    // Inside 2 6 5 1 and 10 14 13 9, outside 0 4 8 12 15 11 7 3.
    let next: [usize; 16] = [4, 2, 6, 0, 8, 1, 5, 3, 12, 10, 14, 7, 15, 9, 13, 11];
    assert_eq!(rt; arena.len(), 16);
    for h in 0..arena.len() {
        assert!(rt; h < 16);
        assert_eq!(rt; arena.next(h), next[h], "after {h}");
    }
    // Down from (1, 0) is outside, and not between the bottom and the right side.
    assert!(rt; arena.opens_down(7));
    assert!(rt; !arena.opens_down(2));
    Ok(())
}

/// The edges of the squares (0..9) x (0..9) and (3..6) x (3..6).
const RING_AND_ISLAND: [(i32, i32, i32, i32); 8] = [
    (0, 0, 0, 9),
    (0, 0, 9, 0),
    (0, 9, 9, 9),
    (3, 3, 3, 6),
    (3, 3, 6, 3),
    (3, 6, 6, 6),
    (6, 3, 6, 6),
    (9, 0, 9, 9),
];

#[test]
fn a_ring_round_an_island_has_a_boundary_on_each_side(rt: HostRuntime) -> Result<(), Fail> {
    let alloc = rt.alloc();
    let edges = edges_between(alloc, &rt, &RING_AND_ISLAND)?;
    assert!(rt; are_arranged(alloc, &edges)?);
    let arena = Arena::build(alloc, edges)?;
    // The island 8 12 11 7 and round it 6 10 13 9, the ring 2 14 5 1 and round it 0 4 15 3.
    let next: [usize; 16] = [4, 2, 14, 0, 15, 1, 10, 8, 12, 6, 13, 7, 11, 9, 5, 3];
    assert_eq!(rt; arena.len(), 16);
    for h in 0..arena.len() {
        assert!(rt; h < 16);
        assert_eq!(rt; arena.next(h), next[h], "after {h}");
    }
    Ok(())
}

#[test]
fn edges_that_cross_or_descend_or_lie_out_of_range_are_not_arranged(
    rt: HostRuntime,
) -> Result<(), Fail> {
    let alloc = rt.alloc();
    let crossing = edges_between(alloc, &rt, &[(0, 0, 4, 4), (0, 4, 4, 0)])?;
    let touching = edges_between(alloc, &rt, &[(0, 0, 4, 0), (1, 5, 3, 5), (2, 0, 2, 3)])?;
    let descending = edges_between(alloc, &rt, &[(1, 0, 2, 0), (0, 0, 0, 1)])?;
    let repeated = edges_between(alloc, &rt, &[(0, 0, 0, 1), (0, 0, 0, 1)])?;
    let far = edges_between(alloc, &rt, &[(0, 0, 268_435_457, 1)])?;
    assert!(rt; !are_arranged(alloc, &crossing)?);
    assert!(rt; !are_arranged(alloc, &touching)?);
    assert!(rt; !are_arranged(alloc, &descending)?);
    assert!(rt; !are_arranged(alloc, &repeated)?);
    assert!(rt; !are_arranged(alloc, &far)?);
    Ok(())
}

#[test]
fn scattered_edges_are_told_as_all_pairs_tell(rt: HostRuntime) -> Result<(), Fail> {
    let alloc = rt.alloc();
    let mut some_are = false;
    let mut some_are_not = false;
    for count in 0..40 {
        let edges = scattered(alloc, &rt, count)?;
        let answer = are_arranged(alloc, &edges)?;
        assert_eq!(rt; answer, are_arranged_by_pairs(&rt, &edges), "{count} edges");
        some_are = some_are || answer;
        some_are_not = some_are_not || !answer;
    }
    assert!(rt; some_are && some_are_not);
    Ok(())
}

/// So many short edges at places that a linear congruential generator gives, ascending.
fn scattered(alloc: Global, rt: &impl Abort, count: u32) -> Result<Vec<Seg>, NoMemory> {
    let mut edges = Vec::new(alloc);
    let mut state = count;
    for _ in 0..count {
        state = state.wrapping_mul(1_664_525).wrapping_add(1_013_904_223);
        let x = (state >> 24) as i32 % 64;
        let y = (state >> 18) as i32 % 64;
        let lo = Coord { x, y };
        let hi = Coord {
            x: x + (state >> 12) as i32 % 8 + 1,
            y: y + (state >> 8) as i32 % 8,
        };
        edges.push(Seg::between(lo, hi).expect(rt, "two points"))?;
    }
    edges.sort_unstable();
    Ok(edges)
}

// The plain form: each edge is compared with all later ones.
fn are_arranged_by_pairs(rt: &impl Abort, edges: &[Seg]) -> bool {
    for (i, e) in edges.iter().enumerate() {
        if !comes_well_before(rt, *e, &edges[i + 1..]) {
            return false;
        }
    }
    true
}

fn comes_well_before(rt: &impl Abort, e: Seg, later: &[Seg]) -> bool {
    assert!(rt; e.lo.is_in_range() && e.hi.is_in_range());
    for f in later {
        assert!(rt; f.lo.is_in_range() && f.hi.is_in_range());
        if *f <= e || meets_badly(e, *f) {
            return false;
        }
    }
    true
}

/// The edges of 50,000 unit squares side by side, with a gap of one between any two.
fn separate_squares(alloc: Global, rt: &impl Abort) -> Result<Vec<Seg>, NoMemory> {
    let mut edges = Vec::new(alloc);
    for k in 0..50_000_u16 {
        let x = 2 * i32::from(k);
        let corners = [
            (x, 0, x, 1),
            (x, 0, x + 1, 0),
            (x, 1, x + 1, 1),
            (x + 1, 0, x + 1, 1),
        ];
        for (a, b, c, d) in corners {
            let edge = Seg::between(Coord { x: a, y: b }, Coord { x: c, y: d });
            edges.push(edge.expect(rt, "two points"))?;
        }
    }
    Ok(edges)
}

#[test]
fn an_arena_of_two_hundred_thousand_edges_is_built(rt: HostRuntime) -> Result<(), Fail> {
    let alloc = rt.alloc();
    let edges = separate_squares(alloc, &rt)?;
    assert!(rt; are_arranged(alloc, &edges)?);
    let arena = Arena::build(alloc, edges)?;
    assert_eq!(rt; arena.len(), 400_000);
    let next: [usize; 8] = [4, 2, 6, 0, 7, 1, 5, 3];
    for first in [0, 200_000, 399_992] {
        for h in 0..8 {
            assert!(rt; first + h < arena.len());
            assert_eq!(rt;
                arena.next(first + h),
                first + next[h],
                "after {h} from {first}"
            );
        }
    }
    Ok(())
}

/// The edges from (0, 0) to a thousand points of the line x = 1, upwards.
fn star(alloc: Global, rt: &impl Abort) -> Result<Vec<Seg>, NoMemory> {
    let centre = Coord { x: 0, y: 0 };
    let mut edges = Vec::new(alloc);
    for k in 0..1000_u16 {
        let tip = Coord {
            x: 1,
            y: i32::from(k),
        };
        edges.push(Seg::between(centre, tip).expect(rt, "two points"))?;
    }
    Ok(edges)
}

#[test]
fn round_a_star_each_edge_goes_on_to_the_one_below_it(rt: HostRuntime) -> Result<(), Fail> {
    let alloc = rt.alloc();
    let edges = star(alloc, &rt)?;
    assert!(rt; are_arranged(alloc, &edges)?);
    let arena = Arena::build(alloc, edges)?;
    assert_eq!(rt; arena.len(), 2000);
    assert_eq!(rt; arena.next(1), 1998);
    for k in 1..1000 {
        assert!(rt; 2 * k + 1 < arena.len());
        assert_eq!(rt; arena.next(2 * k), 2 * k + 1, "at the tip of {k}");
        assert_eq!(rt;
            arena.next(2 * k + 1),
            2 * k - 2,
            "back from the tip of {k}"
        );
    }
    Ok(())
}
