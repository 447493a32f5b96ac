ghost use Rattle.cov_types.specs.Range.{IsSegInRange};

use cov_types::{Coord, LIMIT, Seg};
use grid_pred::exact::{difference, product, sum, wide_product};
use grid_pred::{
    Badness, Contact, at_least, below, crossing, edge_len, is_nearer, is_under, over, over_half,
    over_mid, over_upper, reach, relation, rise, root, turn, turn_in_range, turn_to,
};
use std::cmp::Ordering;
use std::process::Abort;

#[test]
fn turns_by_twice_the_area(rt: HostRuntime) {
    let origin = Coord { x: 0, y: 0 };
    let right = Coord { x: 1, y: 0 };
    let above = Coord { x: 0, y: 1 };
    assert_eq!(rt; turn(origin, right, above), 1);
    assert_eq!(rt;
        turn(Coord { x: 20, y: 0 }, Coord { x: 10, y: -4 }, origin),
        -80
    );
}

#[test]
fn tells_how_segments_meet(rt: HostRuntime) {
    let cases = [
        ((0, 0, 4, 0), (0, 0, 4, 0), Contact::SameSegment),
        ((0, 0, 4, 0), (4, 0, 8, 1), Contact::CommonEnd),
        ((0, 0, 4, 0), (2, 0, 2, 5), Contact::Bad(Badness::Touch)),
        ((0, 0, 4, 0), (2, 0, 6, 0), Contact::Bad(Badness::Overlap)),
        ((0, 0, 4, 0), (4, 0, 6, 0), Contact::CommonEnd),
        ((0, 0, 1, 1), (0, 1, 1, 0), Contact::Bad(Badness::Cross)),
        ((0, 0, 4, 0), (5, 0, 6, 0), Contact::Apart),
        ((0, 0, 4, 0), (5, -1, 5, 1), Contact::Apart),
    ];
    for (s, t, want) in cases {
        let s = segment(&rt, s);
        let t = segment(&rt, t);
        assert_eq!(rt; relation(s, t), want);
        assert_eq!(rt; relation(t, s), want);
    }
}

#[test]
fn segments_cross_in_one_point(rt: HostRuntime) {
    let rising = segment(&rt, (0, 0, 1, 1));
    let falling = segment(&rt, (0, 1, 1, 0));
    for (s, t) in [(rising, falling), (falling, rising)] {
        let point = crossing(s, t).expect(&rt, "they cross");
        assert_eq!(rt; (point.num_x, point.num_y, point.den), (1, 1, 2));
    }
    assert!(rt; crossing(rising, segment(&rt, (1, 1, 2, 0))).is_none());
    assert!(rt; crossing(rising, rising).is_none());
}

#[test]
fn the_ray_leans_to_the_left_and_leaves_out_the_greater_end(rt: HostRuntime) {
    let far_above = segment(&rt, (0, 10, 10, 10));
    assert!(rt; over(far_above, Coord { x: 3, y: 2 }));
    let through = segment(&rt, (0, 0, 10, 0));
    assert!(rt; !over(through, Coord { x: 0, y: 0 }));
    let met_by_leaning = segment(&rt, (0, 5, 3, 5));
    assert!(rt; over(met_by_leaning, Coord { x: 3, y: 0 }));
    assert!(rt; !over(met_by_leaning, Coord { x: 3, y: 5 }));
}

#[test]
fn the_top_of_a_square_is_over_the_inner_side_points(rt: HostRuntime) {
    let bottom = segment(&rt, (0, 0, 10, 0));
    let top = segment(&rt, (0, 10, 10, 10));
    let left = segment(&rt, (0, 0, 0, 10));
    let right = segment(&rt, (10, 0, 10, 10));
    assert!(rt; over_mid(top, bottom));
    assert!(rt; !over_mid(top, top));
    assert!(rt; over_upper(top, bottom));
    assert!(rt; over_upper(top, right));
    assert!(rt; !over_upper(top, top));
    assert!(rt; !over_upper(top, left));
    assert!(rt; !over_upper(bottom, bottom));
}

#[test]
fn a_point_is_below_on_or_above_a_segment(rt: HostRuntime) {
    let level = (0, 0, 10, 0);
    let upright = (10, 0, 10, 10);
    let rising = (3, 0, 10, 7);
    let falling = (0, 10, 10, 0);
    let cases = [
        ((5, 5), level, Ordering::Greater),
        ((5, 0), level, Ordering::Equal),
        ((5, -1), level, Ordering::Less),
        ((0, 0), level, Ordering::Equal),
        ((0, 1), level, Ordering::Greater),
        ((10, -1), level, Ordering::Less),
        ((10, 3), upright, Ordering::Equal),
        ((3, 4), rising, Ordering::Greater),
        ((5, 2), rising, Ordering::Equal),
        ((6, 2), rising, Ordering::Less),
        ((5, 4), falling, Ordering::Less),
        ((5, 6), falling, Ordering::Greater),
    ];
    for (point, ends, want) in cases {
        let (x, y) = point;
        assert_eq!(rt; height(Coord { x, y }, segment(&rt, ends)), Some(want));
    }
}

/// How the point lies to the segment, where it is within the segment's sweep range.
#[tactic(auto, using(grid_pred::proofs::Order::le_from))]
fn height(p: Coord, s: Seg) -> Option<Ordering>
    requires { IsSegInRange s }
{
    if p.is_in_range() && s.lo <= p && p <= s.hi {
        Some(below(p, s))
    } else {
        None
    }
}

#[test]
fn roots_and_lengths_are_rounded_down(rt: HostRuntime) {
    assert_eq!(rt; root(0), 0);
    assert_eq!(rt; root(164102144), 12810);
    assert_eq!(rt; root(u128::MAX), u64::MAX as u128);
    let cases = [
        ((0, 0, 50, 1), 12802),
        ((0, 0, 50, 2), 12810),
        ((0, 0, 50, 3), 12823),
        ((0, 0, 0, 10), 2560),
        ((0, 0, 3, 4), 1280),
        ((-LIMIT, -LIMIT, LIMIT, -LIMIT), 137438953472),
        ((-LIMIT, -LIMIT, LIMIT, LIMIT), 194368031998),
    ];
    for (ends, want) in cases {
        assert_eq!(rt; edge_len(segment(&rt, ends)), want);
    }
}

#[test]
fn room_is_twice_the_distance_to_the_nearest_point(rt: HostRuntime) {
    let cases = [
        ((0, 0), (3, 4, 3, 10), 10),
        ((0, 0), (-6, -8, -3, -4), 10),
        ((0, 0), (3, -9, 3, 9), 6),
        ((10, 10), (9, 9, 9, 11), 2),
        // 1.414.. times 2
        ((0, 0), (0, 2, 2, 0), 2),
        ((101, 50), (100, 0, 102, 50), 1),
        ((5, 5), (0, 0, 9, 9), 0),
    ];
    for (point, ends, room) in cases {
        let (x, y) = point;
        let q = Coord { x, y };
        assert!(rt; q.is_in_range() && room < 1073741824);
        let s = segment(&rt, ends);
        assert!(rt; at_least(q, s, room));
        assert!(rt; !at_least(q, s, room + 1));
    }
    let right = segment(&rt, (LIMIT, -LIMIT, LIMIT, LIMIT));
    assert!(rt; at_least(LEFT_BOTTOM, right, 1073741824));
}

#[test]
fn reach_is_four_times_the_squared_distance(rt: HostRuntime) {
    let s = segment(&rt, (3, 4, 3, 10));
    // The points (0, 0), (1/2, 9/2), (7/2, 21/2).
    assert_eq!(rt; reach(Coord { x: 0, y: 0 }, s), 100);
    assert_eq!(rt; reach(Coord { x: 1, y: 9 }, s), 25);
    assert_eq!(rt; reach(Coord { x: 7, y: 21 }, s), 2);
    // 0.8, rounded down
    let flat = segment(&rt, (0, 0, 2, 1));
    assert_eq!(rt; reach(Coord { x: 2, y: 2 }, flat), 0);
    let top = segment(&rt, (-LIMIT, LIMIT, LIMIT, LIMIT));
    assert_eq!(rt;
        reach(
            Coord {
                x: 0,
                y: -536870912
            },
            top
        ),
        1152921504606846976
    );
}

#[test]
fn an_edge_is_over_a_point_of_the_half_grid(rt: HostRuntime) {
    let rising = segment(&rt, (0, 0, 3, 1));
    assert!(rt; over_half(rising, Coord { x: 3, y: 0 }));
    assert!(rt; !over_half(rising, Coord { x: 3, y: 1 }));
    assert!(rt; !over_half(rising, Coord { x: 3, y: 2 }));
    assert!(rt; !over_half(rising, Coord { x: 7, y: 0 }));
}

#[test]
fn the_way_straight_down_leaves_out_the_greater_end(rt: HostRuntime) {
    let level = segment(&rt, (0, 0, 10, 0));
    assert!(rt; is_under(level, Coord { x: 5, y: 1 }));
    assert!(rt; is_under(level, Coord { x: 0, y: 1 }));
    assert!(rt; !is_under(level, Coord { x: 5, y: 0 }));
    assert!(rt; !is_under(level, Coord { x: 5, y: -1 }));
    assert!(rt; !is_under(level, Coord { x: 10, y: 1 }));
    assert!(rt; !is_under(level, Coord { x: 10, y: 0 }));
}

#[test]
fn the_nearer_of_two_edges_is_less_far_below(rt: HostRuntime) {
    let v = Coord { x: 4, y: 9 };
    let near = segment(&rt, (0, 0, 8, 8));
    let far = segment(&rt, (0, 0, 8, 0));
    assert!(rt; is_nearer(v, near, far));
    assert!(rt; !is_nearer(v, far, near));
    assert!(rt; !is_nearer(v, near, near));
}

#[test]
fn steps_are_exact(rt: HostRuntime) {
    assert_eq!(rt; difference(-2147483648, 2147483647), -4294967295);
    assert_eq!(rt; sum(-2147483648, -2147483648), -4294967296);
    assert_eq!(rt; product(-1073741824, 1073741824), -1152921504606846976);
    assert_eq!(rt;
        wide_product(i64::MIN, i64::MIN),
        85070591730234615865843651857942052864
    );
}

// The corners of the range: its least and greatest numbers are -LIMIT and LIMIT.
const LEFT_BOTTOM: Coord = Coord {
    x: -268435456,
    y: -268435456,
};

const LEFT_TOP: Coord = Coord {
    x: -268435456,
    y: 268435456,
};

const RIGHT_BOTTOM: Coord = Coord {
    x: 268435456,
    y: -268435456,
};

const RIGHT_TOP: Coord = Coord {
    x: 268435456,
    y: 268435456,
};

#[test]
fn turns_at_the_largest_numbers(rt: HostRuntime) {
    // 2^58, four times the square of LIMIT
    let whole = 288230376151711744;
    assert_eq!(rt; turn(LEFT_BOTTOM, RIGHT_BOTTOM, LEFT_TOP), whole);
    assert_eq!(rt; turn(LEFT_BOTTOM, RIGHT_TOP, RIGHT_BOTTOM), -whole);
    assert_eq!(rt;
        turn_in_range(LEFT_BOTTOM, RIGHT_BOTTOM, LEFT_TOP) as i128,
        whole
    );
    assert_eq!(rt;
        turn_in_range(LEFT_BOTTOM, RIGHT_TOP, RIGHT_BOTTOM) as i128,
        -whole
    );
    assert_eq!(rt;
        turn_in_range(LEFT_BOTTOM, RIGHT_TOP, Coord { x: 0, y: 0 }),
        0
    );
    let rising = segment(&rt, (-LIMIT, -LIMIT, LIMIT, LIMIT));
    assert_eq!(rt; turn_to(rising, Coord { x: 0, y: 1 }), 536870912);
    assert_eq!(rt;
        turn_to(
            rising,
            Coord {
                x: 268435456,
                y: 268435455
            }
        ),
        -536870912
    );
    // 2^59 + 2^29, 2^59 - 2^29 and 2^29
    assert_eq!(rt; rise(rising), 576460752840294400);
    assert_eq!(rt;
        rise(segment(&rt, (-LIMIT, LIMIT, LIMIT, -LIMIT))),
        576460751766552576
    );
    assert_eq!(rt; rise(segment(&rt, (0, -LIMIT, 0, LIMIT))), 536870912);
}

#[test]
fn segments_meet_at_the_largest_numbers(rt: HostRuntime) {
    let rising = (-LIMIT, -LIMIT, LIMIT, LIMIT);
    let falling = (-LIMIT, LIMIT, LIMIT, -LIMIT);
    let flatter = (-LIMIT, -268435455, LIMIT, 268435455);
    let beside = (-LIMIT, -LIMIT, LIMIT, 268435455);
    let cases = [
        (rising, falling, Contact::Bad(Badness::Cross)),
        (rising, flatter, Contact::Bad(Badness::Cross)),
        (rising, beside, Contact::CommonEnd),
        (rising, (0, -LIMIT, 0, 0), Contact::Bad(Badness::Touch)),
        (
            rising,
            (-1, -1, LIMIT, LIMIT),
            Contact::Bad(Badness::Overlap),
        ),
        (beside, (-LIMIT, -268435455, LIMIT, LIMIT), Contact::Apart),
    ];
    for (s, t, want) in cases {
        let s = segment(&rt, s);
        let t = segment(&rt, t);
        assert_eq!(rt; relation(s, t), want);
        assert_eq!(rt; relation(t, s), want);
    }
    let rising = segment(&rt, rising);
    // The distances are 2^58 each, and 2^29 each.
    let point = crossing(rising, segment(&rt, falling)).expect(&rt, "they cross");
    assert_eq!(rt;
        (point.num_x, point.num_y, point.den),
        (0, 0, 576460752303423488)
    );
    let point = crossing(rising, segment(&rt, flatter)).expect(&rt, "they cross");
    assert_eq!(rt; (point.num_x, point.num_y, point.den), (0, 0, 1073741824));
}

#[test]
fn points_lie_at_the_largest_numbers(rt: HostRuntime) {
    let rising = (-LIMIT, -LIMIT, LIMIT, LIMIT);
    let top = (-LIMIT, LIMIT, LIMIT, LIMIT);
    let cases = [
        (RIGHT_BOTTOM, rising, Ordering::Less),
        (LEFT_TOP, rising, Ordering::Greater),
        (RIGHT_TOP, rising, Ordering::Equal),
        (
            Coord {
                x: 268435455,
                y: 268435455,
            },
            rising,
            Ordering::Equal,
        ),
        (
            Coord {
                x: 268435455,
                y: 268435454,
            },
            rising,
            Ordering::Less,
        ),
        (RIGHT_BOTTOM, top, Ordering::Less),
    ];
    for (point, ends, want) in cases {
        assert_eq!(rt; height(point, segment(&rt, ends)), Some(want));
    }
}

#[test]
fn edges_are_over_points_at_the_largest_numbers(rt: HostRuntime) {
    let top = segment(&rt, (-LIMIT, LIMIT, LIMIT, LIMIT));
    let bottom = segment(&rt, (-LIMIT, -LIMIT, LIMIT, -LIMIT));
    assert!(rt;
        over(
            top,
            Coord {
                x: 0,
                y: -268435456
            }
        )
    );
    assert!(rt; over(top, RIGHT_BOTTOM));
    assert!(rt; !over(top, LEFT_BOTTOM));
    assert!(rt; !over(top, RIGHT_TOP));
    assert!(rt; over_mid(top, bottom));
    assert!(rt; !over_mid(bottom, top));
    assert!(rt; over_upper(top, bottom));
    assert!(rt; is_under(bottom, LEFT_TOP));
    assert!(rt;
        is_under(
            bottom,
            Coord {
                x: 0,
                y: -268435455
            }
        )
    );
    assert!(rt; !is_under(bottom, RIGHT_TOP));
    let rising = segment(&rt, (-LIMIT, -LIMIT, LIMIT, LIMIT));
    let v = Coord { x: 0, y: 268435456 };
    assert!(rt; is_nearer(v, rising, bottom));
    assert!(rt; !is_nearer(v, bottom, rising));
}

// The midpoint of a side on one border of the range has the sweep value of a corner on the other: of the edges that end there just
// those count whose lesser end it is.
#[test]
fn a_vertex_on_the_other_border_counts_once(rt: HostRuntime) {
    let lower = segment(&rt, (0, -LIMIT, 1, -LIMIT));
    let upper = segment(&rt, (0, LIMIT, 1, LIMIT));
    let left = segment(&rt, (0, -LIMIT, 0, LIMIT));
    let right = segment(&rt, (1, -LIMIT, 1, LIMIT));
    assert!(rt; over_mid(upper, lower));
    for e in [lower, left, right] {
        assert!(rt; !over_mid(e, lower));
    }
    // The member on the left of the square, which has its left side too.
    let neighbour = [
        segment(&rt, (-1, -LIMIT, -1, LIMIT)),
        segment(&rt, (-1, LIMIT, 0, LIMIT)),
        segment(&rt, (-1, -LIMIT, 0, -LIMIT)),
        left,
    ];
    for e in neighbour {
        assert!(rt; !over_mid(e, lower));
        assert!(rt; !over_upper(e, lower));
    }
    for e in [upper, lower, left, right] {
        assert!(rt; !over_mid(e, upper));
    }
}

fn segment(rt: &impl Abort, ends: (i32, i32, i32, i32)) -> Seg
    ensures { IsSegInRange result }
{
    let (lo_x, lo_y, hi_x, hi_y) = ends;
    let lo = Coord { x: lo_x, y: lo_y };
    let hi = Coord { x: hi_x, y: hi_y };
    let segment = Seg::between(lo, hi).expect(rt, "two different ends");
    assert!(rt; segment.lo.is_in_range() && segment.hi.is_in_range());
    segment
}
