use crate::tests::expect_answers;
use cover_cli::Outcome;
use std::test;

// Three triangles side by side, between the top and the bottom of the range. The midpoint of the first one's top side
// has the sweep value of a vertex at the bottom.
const UNDER_THE_TOP: &str = "POLYGON ((0 268435456, 1 -268435456, 1 268435456, 0 268435456))\n\
     POLYGON ((0 -268435456, 1 -268435456, 0 268435456, 0 -268435456))\n\
     POLYGON ((1 -268435456, 2 268435456, 1 268435456, 1 -268435456))\n";

// Three triangles side by side, between the bottom and the top of the range. The midpoint of the first one's bottom
// side has the sweep value of a vertex at the top, which the ray from the midpoint meets.
const OVER_THE_BOTTOM: &str = "POLYGON ((0 -268435456, 1 -268435456, 0 268435456, 0 -268435456))\n\
     POLYGON ((-1 -268435456, 0 -268435456, 0 268435456, -1 -268435456))\n\
     POLYGON ((0 268435456, 1 -268435456, 1 268435456, 0 268435456))\n";

// A square with a side on each of the four border lines.
const ALL_FOUR: &str =
    "POLYGON ((-268435456 -268435456, 268435456 -268435456, 268435456 268435456, -268435456 268435456, -268435456 -268435456))\n";

const NONE_OF_THREE: &str = "MULTILINESTRING EMPTY\nMULTILINESTRING EMPTY\nMULTILINESTRING EMPTY\n";

#[test]
fn members_at_the_borders_of_the_range_are_validated(rt: HostRuntime) -> Result<(), test::Fail> {
    let cases = [
        (
            "a square on all four borders",
            ALL_FOUR,
            Outcome::Done,
            "MULTILINESTRING EMPTY\n",
        ),
        (
            "neighbours under the top border",
            UNDER_THE_TOP,
            Outcome::Done,
            NONE_OF_THREE,
        ),
        (
            "neighbours over the bottom border",
            OVER_THE_BOTTOM,
            Outcome::Done,
            NONE_OF_THREE,
        ),
        (
            "a triangle that is drawn twice under the top border",
            "POLYGON ((0 268435456, 1 -268435456, 1 268435456, 0 268435456))\n\
             POLYGON ((0 268435456, 1 -268435456, 1 268435456, 0 268435456))\n",
            Outcome::Marked { edges: 6 },
            "MULTILINESTRING ((0 268435456, 1 -268435456), (1 -268435456, 1 268435456), (0 268435456, 1 268435456))\n\
             MULTILINESTRING ((0 268435456, 1 -268435456), (1 -268435456, 1 268435456), (0 268435456, 1 268435456))\n",
        ),
        (
            "a triangle that is drawn twice over the bottom border",
            "POLYGON ((0 -268435456, 1 -268435456, 0 268435456, 0 -268435456))\n\
             POLYGON ((0 -268435456, 1 -268435456, 0 268435456, 0 -268435456))\n",
            Outcome::Marked { edges: 6 },
            "MULTILINESTRING ((0 -268435456, 1 -268435456), (0 268435456, 1 -268435456), (0 -268435456, 0 268435456))\n\
             MULTILINESTRING ((0 -268435456, 1 -268435456), (0 268435456, 1 -268435456), (0 -268435456, 0 268435456))\n",
        ),
    ];
    expect_answers(&rt, rt.alloc(), "validate in out", &cases)
}

#[test]
fn members_at_the_borders_of_the_range_are_noded(rt: HostRuntime) -> Result<(), test::Fail> {
    let cases = [
        (
            "a square on all four borders",
            ALL_FOUR,
            Outcome::Done,
            "MULTILINESTRING ((-268435456 -268435456, -268435456 268435456), (-268435456 -268435456, 268435456 -268435456), (-268435456 268435456, 268435456 268435456), (268435456 -268435456, 268435456 268435456))\n\
             MULTILINESTRING ((-268435456 -268435456, -268435456 268435456), (-268435456 -268435456, 268435456 -268435456), (-268435456 268435456, 268435456 268435456), (268435456 -268435456, 268435456 268435456))\n",
        ),
        (
            "a bow-tie from one end of the range to the other crosses in the middle",
            "POLYGON ((-268435456 -268435456, 268435456 268435456, 268435456 -268435456, -268435456 268435456, -268435456 -268435456))\n",
            Outcome::Done,
            "MULTILINESTRING ((-268435456 -268435456, -268435456 268435456), (-268435456 -268435456, 0 0), (-268435456 268435456, 0 0), (0 0, 268435456 -268435456), (0 0, 268435456 268435456), (268435456 -268435456, 268435456 268435456))\n\
             MULTILINESTRING ((-268435456 -268435456, -268435456 268435456), (-268435456 -268435456, 0 0), (-268435456 268435456, 0 0), (0 0, 268435456 -268435456), (0 0, 268435456 268435456), (268435456 -268435456, 268435456 268435456))\n",
        ),
        (
            "neighbours under the top border",
            UNDER_THE_TOP,
            Outcome::Done,
            "MULTILINESTRING ((0 -268435456, 0 268435456), (0 -268435456, 1 -268435456), (0 268435456, 1 -268435456), (0 268435456, 1 268435456), (1 -268435456, 1 268435456), (1 -268435456, 2 268435456), (1 268435456, 2 268435456))\n\
             MULTILINESTRING ((0 268435456, 1 -268435456), (0 268435456, 1 268435456), (1 -268435456, 1 268435456))\n\
             MULTILINESTRING ((0 -268435456, 0 268435456), (0 -268435456, 1 -268435456), (0 268435456, 1 -268435456))\n\
             MULTILINESTRING ((1 -268435456, 1 268435456), (1 -268435456, 2 268435456), (1 268435456, 2 268435456))\n",
        ),
        (
            "neighbours over the bottom border",
            OVER_THE_BOTTOM,
            Outcome::Done,
            "MULTILINESTRING ((-1 -268435456, 0 -268435456), (-1 -268435456, 0 268435456), (0 -268435456, 0 268435456), (0 -268435456, 1 -268435456), (0 268435456, 1 -268435456), (0 268435456, 1 268435456), (1 -268435456, 1 268435456))\n\
             MULTILINESTRING ((0 -268435456, 0 268435456), (0 -268435456, 1 -268435456), (0 268435456, 1 -268435456))\n\
             MULTILINESTRING ((-1 -268435456, 0 -268435456), (-1 -268435456, 0 268435456), (0 -268435456, 0 268435456))\n\
             MULTILINESTRING ((0 268435456, 1 -268435456), (0 268435456, 1 268435456), (1 -268435456, 1 268435456))\n",
        ),
    ];
    expect_answers(&rt, rt.alloc(), "node in out", &cases)
}

#[test]
fn regions_at_the_borders_of_the_range_are_listed(rt: HostRuntime) -> Result<(), test::Fail> {
    let cases = [
        (
            "a square on all four borders",
            ALL_FOUR,
            Outcome::Done,
            "0 outer - - -\n1 single 0 576460752303423488 -\n",
        ),
        (
            "a bow-tie from one end of the range to the other has two regions",
            "POLYGON ((-268435456 -268435456, 268435456 268435456, 268435456 -268435456, -268435456 268435456, -268435456 -268435456))\n",
            Outcome::Done,
            "0 outer - - -\n1 single 0 144115188075855872 -\n6 single 0 144115188075855872 -\n",
        ),
        (
            "neighbours under the top border",
            UNDER_THE_TOP,
            Outcome::Done,
            "0 outer - - -\n1 single 1 536870912 -\n4 single 0 536870912 -\n9 single 2 536870912 -\n",
        ),
        (
            "neighbours over the bottom border",
            OVER_THE_BOTTOM,
            Outcome::Done,
            "0 single 1 536870912 -\n1 outer - - -\n5 single 0 536870912 -\n8 single 2 536870912 -\n",
        ),
    ];
    expect_answers(&rt, rt.alloc(), "regions in out", &cases)
}
