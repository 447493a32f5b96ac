ghost use Rattle.std.specs.Prelude.{◌≤◌, ◌^◌};
ghost use Rattle.merge_rule.specs.InTurn.{calls_of, counted, in_turn};

use cov_clean::{clean, clean_with_gaps};
use cov_types::{Coord, Coverage, Member, NoMemory, Poly, Ring, in_range, same_coverage};
use merge_rule::{Facts, GreatestArea, LeastArea, LeastIndex, LongestBorder, MergeRule};
use std::alloc::Global;
use std::process::Abort;
use std::test::Fail;

/// A ring by its points, without the closing repeat.
type Points = &'static [(i32, i32)];

/// A polygon by its rings.
type Rings = &'static [Points];

/// Members by their polygons.
type Members = &'static [&'static [Rings]];

/// Takes the candidates in turn, by the count of its calls.
#[derive(Clone, Copy)]
struct InTurn {
    calls: usize,
}

impl MergeRule for InTurn {
    ghost use Rattle.std.proofs.Math.Nat.{mod-lt};

    ghost state = { λ r. counted r.calls };

    ghost rule = { in_turn };

    fn choose(&mut self, facts: &Facts) -> usize {
        let place = self.calls % facts.candidates.len();
        self.calls = self.calls.wrapping_add(1);
        place
    }

    ghost lawful = { λ state _ some. mod-lt (calls_of state) some };
}

fn ring(alloc: Global, points: Points) -> Result<Ring, NoMemory> {
    let mut list = Vec::new(alloc);
    for (x, y) in points {
        list.push(Coord { x: *x, y: *y })?;
    }
    Ok(Ring { points: list })
}

fn poly(alloc: Global, rings: Rings) -> Result<Poly, NoMemory> {
    let mut list = Vec::new(alloc);
    for points in rings {
        list.push(ring(alloc, *points)?)?;
    }
    Ok(Poly { rings: list })
}

fn member(alloc: Global, polys: &'static [Rings]) -> Result<Member, NoMemory> {
    let mut list = Vec::new(alloc);
    for rings in polys {
        list.push(poly(alloc, *rings)?)?;
    }
    Ok(Member { polys: list })
}

fn coverage(alloc: Global, members: Members) -> Result<Coverage, NoMemory> {
    let mut list = Vec::new(alloc);
    for polys in members {
        list.push(member(alloc, *polys)?)?;
    }
    Ok(Coverage { members: list })
}

/// The rule makes these members of those, and no gap is filled.
fn expect_cleaned<R: MergeRule>(
    alloc: Global,
    rt: &impl Abort,
    rule: &mut R,
    members: Members,
    want: Members,
) -> Result<(), Fail> {
    expect_filled(alloc, rt, rule, 0, members, want)
}

/// The rule makes these members of those at this gap width.
fn expect_filled<R: MergeRule>(
    alloc: Global,
    rt: &impl Abort,
    rule: &mut R,
    gap: u32,
    members: Members,
    want: Members,
) -> Result<(), Fail>
    requires { gap ≤ 2 ^ 30 }
{
    let given = coverage(alloc, members)?;
    assert!(rt; in_range(&given));
    let cleaned = clean(alloc, &given, rule, gap)?;
    assert!(rt;
        same_coverage(&cleaned, &coverage(alloc, want)?),
        "{cleaned:?}"
    );
    Ok(())
}

/// The rule, asked for the gaps too, makes these members of those at this gap width.
fn expect_asked<R: MergeRule>(
    alloc: Global,
    rt: &impl Abort,
    rule: &mut R,
    gap: u32,
    members: Members,
    want: Members,
) -> Result<(), Fail>
    requires { gap ≤ 2 ^ 30 }
{
    let given = coverage(alloc, members)?;
    assert!(rt; in_range(&given));
    let cleaned = clean_with_gaps(alloc, &given, rule, gap)?;
    assert!(rt;
        same_coverage(&cleaned, &coverage(alloc, want)?),
        "{cleaned:?}"
    );
    Ok(())
}

/// Two squares, the second larger, that overlap in a square of size 5.
const UNEQUAL: Members = &[
    &[&[&[(0, 0), (10, 0), (10, 10), (0, 10)]]],
    &[&[&[(5, 5), (25, 5), (25, 25), (5, 25)]]],
];

/// The first has the corners of the overlap on its sides, and the second goes without it.
const SMALL_WHOLE: Members = &[
    &[&[&[(0, 0), (10, 0), (10, 5), (10, 10), (5, 10), (0, 10)]]],
    &[&[&[(5, 10), (10, 10), (10, 5), (25, 5), (25, 25), (5, 25)]]],
];

/// The other way round.
const LARGE_WHOLE: Members = &[
    &[&[&[(0, 0), (10, 0), (10, 5), (5, 5), (5, 10), (0, 10)]]],
    &[&[&[(5, 5), (10, 5), (25, 5), (25, 25), (5, 25), (5, 10)]]],
];

#[test]
fn a_shared_region_goes_to_the_member_that_the_rule_picks(rt: HostRuntime) -> Result<(), Fail> {
    let alloc = rt.alloc();
    expect_cleaned(alloc, &rt, &mut LeastIndex, UNEQUAL, SMALL_WHOLE)?;
    expect_cleaned(alloc, &rt, &mut LeastArea, UNEQUAL, SMALL_WHOLE)?;
    expect_cleaned(alloc, &rt, &mut GreatestArea, UNEQUAL, LARGE_WHOLE)
}

/// The first and the second overlap, and so do the second and the third.
const ROW: Members = &[
    &[&[&[(0, 0), (10, 0), (10, 10), (0, 10)]]],
    &[&[&[(5, 0), (15, 0), (15, 10), (5, 10)]]],
    &[&[&[(12, 0), (20, 0), (20, 10), (12, 10)]]],
];

/// The first overlap went to the first candidate, and the second to the second.
const ROW_IN_TURN: Members = &[
    &[&[&[(0, 0), (5, 0), (10, 0), (10, 10), (5, 10), (0, 10)]]],
    &[&[&[(10, 0), (12, 0), (12, 10), (10, 10)]]],
    &[&[&[(12, 0), (15, 0), (20, 0), (20, 10), (15, 10), (12, 10)]]],
];

#[test]
fn a_rule_with_a_state_is_asked_for_one_shared_region_after_the_other(
    rt: HostRuntime,
) -> Result<(), Fail> {
    let mut rule = InTurn { calls: 0 };
    expect_cleaned(rt.alloc(), &rt, &mut rule, ROW, ROW_IN_TURN)?;
    assert_eq!(rt; rule.calls, 2);
    Ok(())
}

const OUTER: Points = &[(0, 0), (20, 0), (20, 20), (0, 20)];

const INNER: Points = &[(5, 5), (15, 5), (15, 15), (5, 15)];

const HOLE: Points = &[(5, 5), (5, 15), (15, 15), (15, 5)];

#[test]
fn a_member_within_another_is_cut_out_or_gone(rt: HostRuntime) -> Result<(), Fail> {
    const GIVEN: Members = &[&[&[OUTER]], &[&[INNER]]];
    const CUT_OUT: Members = &[&[&[OUTER, HOLE]], &[&[INNER]]];
    const GONE: Members = &[&[&[OUTER]], &[]];
    let alloc = rt.alloc();
    expect_cleaned(alloc, &rt, &mut LeastArea, GIVEN, CUT_OUT)?;
    expect_cleaned(alloc, &rt, &mut GreatestArea, GIVEN, GONE)
}

/// Three rectangles, each moved by 10 from the one before.
const MOVED: Members = &[
    &[&[&[(0, 0), (30, 0), (30, 10), (0, 10)]]],
    &[&[&[(10, 0), (40, 0), (40, 10), (10, 10)]]],
    &[&[&[(20, 0), (50, 0), (50, 10), (20, 10)]]],
];

/// From 10 to 20 only the first has a border with what it has alone, from 20 to 30 none of the three, and from 30 to 40 only the third.
const MOVED_BY_BORDER: Members = &[
    &[&[&[
        (0, 0),
        (10, 0),
        (20, 0),
        (30, 0),
        (30, 10),
        (20, 10),
        (10, 10),
        (0, 10),
    ]]],
    &[],
    &[&[&[(30, 0), (40, 0), (50, 0), (50, 10), (40, 10), (30, 10)]]],
];

#[test]
fn the_border_of_a_candidate_is_that_with_what_it_has_alone(rt: HostRuntime) -> Result<(), Fail> {
    expect_cleaned(rt.alloc(), &rt, &mut LongestBorder, MOVED, MOVED_BY_BORDER)
}

/// A square with a hole of size 2, at whose middle there is room 2.
const FRAME: Members = &[&[&[OUTER, &[(9, 9), (9, 11), (11, 11), (11, 9)]]]];

/// The square with a hole in which there is no grid point.
const PRICKED: Members = &[&[&[OUTER, &[(5, 5), (5, 6), (6, 5)]]]];

const SQUARE: Members = &[&[&[OUTER]]];

#[test]
fn a_gap_is_filled_where_it_is_narrow(rt: HostRuntime) -> Result<(), Fail> {
    let alloc = rt.alloc();
    expect_filled(alloc, &rt, &mut LeastIndex, 3, FRAME, SQUARE)?;
    expect_filled(alloc, &rt, &mut LeastIndex, 2, FRAME, FRAME)?;
    expect_filled(alloc, &rt, &mut LeastIndex, 0, FRAME, FRAME)?;
    expect_filled(alloc, &rt, &mut LeastIndex, 1, PRICKED, SQUARE)
}

const WEST: Points = &[
    (0, 0),
    (15, 0),
    (15, 10),
    (10, 10),
    (10, 20),
    (15, 20),
    (15, 30),
    (0, 30),
];

const EAST: Points = &[
    (15, 0),
    (30, 0),
    (30, 30),
    (15, 30),
    (15, 20),
    (20, 20),
    (20, 10),
    (15, 10),
];

const ISLAND: Points = &[(11, 11), (19, 11), (19, 19), (11, 19)];

/// A gap round an island, which has the longest border with it.
const MOAT: Members = &[&[&[WEST]], &[&[EAST]], &[&[ISLAND]]];

/// The island has the gap.
const ISLAND_GROWN: Members = &[
    &[&[WEST]],
    &[&[EAST]],
    &[&[&[(10, 10), (15, 10), (20, 10), (20, 20), (15, 20), (10, 20)]]],
];

/// The west has the gap, in which the island is a hole.
const WEST_GROWN: Members = &[
    &[&[
        &[
            (0, 0),
            (15, 0),
            (15, 10),
            (20, 10),
            (20, 20),
            (15, 20),
            (15, 30),
            (0, 30),
        ],
        &[(11, 11), (11, 19), (19, 19), (19, 11)],
    ]],
    &[&[EAST]],
    &[&[ISLAND]],
];

#[test]
fn a_gap_goes_to_the_member_with_the_longest_border(rt: HostRuntime) -> Result<(), Fail> {
    expect_filled(rt.alloc(), &rt, &mut LeastIndex, 1, MOAT, ISLAND_GROWN)
}

#[test]
fn a_rule_that_is_asked_for_gaps_too_picks_who_gets_them(rt: HostRuntime) -> Result<(), Fail> {
    let alloc = rt.alloc();
    expect_asked(alloc, &rt, &mut LeastIndex, 1, MOAT, WEST_GROWN)?;
    expect_asked(alloc, &rt, &mut LongestBorder, 1, MOAT, ISLAND_GROWN)
}

/// The first overlaps the second below the gap that the two leave.
const OVERLAP_AND_GAP: Members = &[
    &[&[&[
        (0, 0),
        (17, 0),
        (17, 5),
        (15, 5),
        (15, 10),
        (10, 10),
        (10, 20),
        (15, 20),
        (15, 30),
        (0, 30),
    ]]],
    &[&[EAST]],
];

/// The overlap went to the first, and then the gap to the second.
const OVERLAP_THEN_GAP: Members = &[
    &[&[&[
        (0, 0),
        (15, 0),
        (17, 0),
        (17, 5),
        (15, 5),
        (15, 10),
        (10, 10),
        (10, 20),
        (15, 20),
        (15, 30),
        (0, 30),
    ]]],
    &[&[&[
        (10, 10),
        (15, 10),
        (15, 5),
        (17, 5),
        (17, 0),
        (30, 0),
        (30, 30),
        (15, 30),
        (15, 20),
        (10, 20),
    ]]],
];

#[test]
fn a_rule_with_a_state_is_asked_for_gaps_after_all_shared_regions(
    rt: HostRuntime,
) -> Result<(), Fail> {
    let mut rule = InTurn { calls: 0 };
    expect_asked(
        rt.alloc(),
        &rt,
        &mut rule,
        11,
        OVERLAP_AND_GAP,
        OVERLAP_THEN_GAP,
    )?;
    assert_eq!(rt; rule.calls, 2);
    Ok(())
}

/// Two members with two gaps of height 2 between them.
const TWO_GAPS: Members = &[
    &[&[&[
        (0, 0),
        (10, 0),
        (10, 2),
        (8, 2),
        (8, 4),
        (10, 4),
        (10, 6),
        (8, 6),
        (8, 8),
        (10, 8),
        (10, 10),
        (0, 10),
    ]]],
    &[&[&[
        (10, 0),
        (20, 0),
        (20, 10),
        (10, 10),
        (10, 8),
        (12, 8),
        (12, 6),
        (10, 6),
        (10, 4),
        (12, 4),
        (12, 2),
        (10, 2),
    ]]],
];

/// The lower gap went to the first, and then the upper one to the second.
const LOWER_THEN_UPPER: Members = &[
    &[&[&[
        (0, 0),
        (10, 0),
        (10, 2),
        (12, 2),
        (12, 4),
        (10, 4),
        (10, 6),
        (8, 6),
        (8, 8),
        (10, 8),
        (10, 10),
        (0, 10),
    ]]],
    &[&[&[
        (8, 6),
        (10, 6),
        (10, 4),
        (12, 4),
        (12, 2),
        (10, 2),
        (10, 0),
        (20, 0),
        (20, 10),
        (10, 10),
        (10, 8),
        (8, 8),
    ]]],
];

#[test]
fn gaps_are_asked_for_in_ascending_order(rt: HostRuntime) -> Result<(), Fail> {
    let alloc = rt.alloc();
    let mut rule = InTurn { calls: 0 };
    expect_asked(alloc, &rt, &mut rule, 3, TWO_GAPS, LOWER_THEN_UPPER)?;
    assert_eq!(rt; rule.calls, 2);
    expect_asked(alloc, &rt, &mut rule, 2, TWO_GAPS, TWO_GAPS)?;
    assert_eq!(rt; rule.calls, 2);
    Ok(())
}

#[test]
fn without_members_there_is_nothing_to_clean(rt: HostRuntime) -> Result<(), Fail> {
    expect_cleaned(rt.alloc(), &rt, &mut LeastIndex, &[], &[])
}
