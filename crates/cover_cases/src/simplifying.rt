use crate::BEFORE;
use crate::tests::expect_answers;
use cov_valid::{Kind, Mark};
use cover_cli::Outcome;
use std::test;

// Two parcels whose points block one another: the tip of the second lies in the triangle at the dent of the first.
const TIP_AND_DENT: &str = "POLYGON ((0 -20, 20 -20, 20 0, 10 -4, 0 0, 0 -20))\n\
     POLYGON ((5 10, 10 -1, 15 10, 15 200, 5 200, 5 10))\n";

// Neighbours with a bent border, one of which has a bend outside.
const BENT: &str = "POLYGON ((0 0, 10 0, 11 5, 10 10, 0 10, -1 5, 0 0))\n\
     POLYGON ((10 0, 20 0, 20 10, 10 10, 11 5, 10 0))\n";

const SQUARE: &str = "POLYGON ((0 0, 4 0, 4 4, 0 4, 0 0))\n";

const TRIANGLE: &str = "POLYGON ((0 0, 4 0, 0 4, 0 0))\n";

// A strip of width 10 that turns inwards.
const SPIRAL: &str =
    "POLYGON ((0 0, 50 0, 50 50, 10 50, 10 20, 30 20, 30 30, 20 30, 20 40, 40 40, 40 10, 0 10, 0 0))\n";

// Three teeth, and two prongs that hang into the gaps between them.
const COMB: &str = "POLYGON ((0 0, 60 0, 50 30, 40 10, 30 30, 20 10, 10 30, 0 0))\n\
     POLYGON ((10 50, 20 20, 30 50, 40 20, 50 50, 50 200, 10 200, 10 50))\n";

// An island in a lake of an island in a lake, all of which meet in one point.
const NESTED: &str = "POLYGON ((0 0, 40 -40, 80 0, 40 40, 0 0), (0 0, 30 20, 50 0, 30 -20, 0 0))\n\
     POLYGON ((0 0, 30 -20, 50 0, 30 20, 0 0), (0 0, 20 5, 25 0, 20 -5, 0 0))\n\
     POLYGON ((0 0, 20 -5, 25 0, 20 5, 0 0))\n";

// A lake with an island in one of its corners.
const LAKE: &str =
    "POLYGON ((0 0, 100 0, 100 100, 0 100, 0 0), (20 20, 20 80, 80 80, 80 20, 20 20))\n\
     POLYGON ((24 70, 28 70, 24 74, 24 70))\n";

#[test]
fn small_triangles_go_first(rt: HostRuntime) -> Result<(), test::Fail> {
    for (line, case) in [
        (
            "simplify in out --tolerance 0",
            (
                "a point on a straight side, and a ring of equal points",
                "POLYGON ((0 0, 5 0, 10 0, 10 10, 0 10, 0 0), (5 0, 5 0, 5 0, 5 0))\n",
                Outcome::Done,
                "POLYGON ((0 0, 10 0, 10 10, 0 10, 0 0), (5 0, 5 0, 5 0, 5 0))\n",
            ),
        ),
        (
            "simplify in out --tolerance 8",
            (
                "the tip goes first, and then the dent",
                TIP_AND_DENT,
                Outcome::Done,
                "POLYGON ((0 -20, 20 -20, 20 0, 0 0, 0 -20))\n\
                 POLYGON ((5 10, 15 10, 15 200, 5 200, 5 10))\n",
            ),
        ),
        (
            "simplify in out --tolerance 7",
            (
                "the tip is too large, and blocks the dent",
                TIP_AND_DENT,
                Outcome::Done,
                TIP_AND_DENT,
            ),
        ),
    ] {
        expect_answers(&rt, rt.alloc(), line, &[case])?;
    }
    Ok(())
}

#[test]
fn common_borders_go_in_both(rt: HostRuntime) -> Result<(), test::Fail> {
    for (line, case) in [
        (
            "simplify in out --tolerance 3",
            (
                "a common border",
                BENT,
                Outcome::Done,
                "POLYGON ((0 0, 10 0, 10 10, 0 10, 0 0))\nPOLYGON ((10 0, 20 0, 20 10, 10 10, 10 0))\n",
            ),
        ),
        (
            "simplify --inner --tolerance 3 in out",
            (
                "the common border alone",
                BENT,
                Outcome::Done,
                "POLYGON ((0 0, 10 0, 10 10, 0 10, -1 5, 0 0))\nPOLYGON ((10 0, 20 0, 20 10, 10 10, 10 0))\n",
            ),
        ),
        (
            "simplify in out --tolerance 1",
            ("no members", "", Outcome::Done, ""),
        ),
    ] {
        expect_answers(&rt, rt.alloc(), line, &[case])?;
    }
    Ok(())
}

#[test]
fn rings_shrink_to_triangles(rt: HostRuntime) -> Result<(), test::Fail> {
    for (line, case) in [
        (
            "simplify in out --tolerance 2",
            ("no triangle is small enough", SQUARE, Outcome::Done, SQUARE),
        ),
        (
            "simplify in out --tolerance 3",
            (
                "of equals the first in the line",
                SQUARE,
                Outcome::Done,
                "POLYGON ((0 0, 4 0, 4 4, 0 0))\n",
            ),
        ),
        (
            "simplify in out --tolerance 1000",
            ("a triangle stays", TRIANGLE, Outcome::Done, TRIANGLE),
        ),
        (
            "simplify in out --tolerance 1073741824",
            (
                "at the greatest tolerance too",
                SQUARE,
                Outcome::Done,
                "POLYGON ((0 0, 4 0, 4 4, 0 0))\n",
            ),
        ),
    ] {
        expect_answers(&rt, rt.alloc(), line, &[case])?;
    }
    Ok(())
}

// At tolerance 10 the two corners at the inner end go, of 100 each: first (20, 30), which is before (30, 30) in the line. With no limit the
// strip goes on opening from its inner end.
#[test]
fn a_spiral_opens_from_its_inner_end(rt: HostRuntime) -> Result<(), test::Fail> {
    for (line, case) in [
        (
            "simplify in out --tolerance 10",
            (
                "the inner end of a spiral",
                SPIRAL,
                Outcome::Done,
                "POLYGON ((0 0, 50 0, 50 50, 10 50, 10 20, 30 20, 20 40, 40 40, 40 10, 0 10, 0 0))\n",
            ),
        ),
        (
            "simplify in out --tolerance 1073741824",
            (
                "all of it",
                SPIRAL,
                Outcome::Done,
                "POLYGON ((0 0, 50 0, 50 50, 0 0))\n",
            ),
        ),
    ] {
        expect_answers(&rt, rt.alloc(), line, &[case])?;
    }
    Ok(())
}

// A prong lies in the triangle at the foot of each gap of the comb, which has 400 as the tooth between them has; those at the prongs have
// 600, past the limit of 450. Of the rings that are tied to one point each keeps the two corners that a triangle needs; the outermost
// could lose (40, -40) only with the others in its triangle. So could the lake lose its corner (20, 80), where the island is.
#[test]
fn what_lies_in_a_triangle_blocks_it(rt: HostRuntime) -> Result<(), test::Fail> {
    for (line, case) in [
        (
            "simplify in out --tolerance 15",
            (
                "a comb",
                COMB,
                Outcome::Done,
                "POLYGON ((0 0, 60 0, 50 30, 40 10, 20 10, 10 30, 0 0))\n\
                 POLYGON ((10 50, 20 20, 30 50, 40 20, 50 50, 50 200, 10 200, 10 50))\n",
            ),
        ),
        (
            "simplify in out --tolerance 1073741824",
            (
                "nested islands tied to one node",
                NESTED,
                Outcome::Done,
                "POLYGON ((0 0, 40 -40, 40 40, 0 0), (0 0, 30 20, 30 -20, 0 0))\n\
                 POLYGON ((0 0, 30 -20, 30 20, 0 0), (0 0, 20 5, 20 -5, 0 0))\n\
                 POLYGON ((0 0, 20 -5, 20 5, 0 0))\n",
            ),
        ),
        (
            "simplify in out --tolerance 1073741824",
            (
                "a lake whose island would be cut off",
                LAKE,
                Outcome::Done,
                "POLYGON ((0 0, 100 0, 100 100, 0 100, 0 0), (20 20, 20 80, 80 20, 20 20))\n\
                 POLYGON ((24 70, 28 70, 24 74, 24 70))\n",
            ),
        ),
    ] {
        expect_answers(&rt, rt.alloc(), line, &[case])?;
    }
    Ok(())
}

#[test]
fn simplify_refuses_what_is_not_valid(rt: HostRuntime) -> Result<(), test::Fail> {
    let first = Mark {
        member: 0,
        place: 1,
        kind: Kind::Meets,
    };
    expect_answers(
        &rt,
        rt.alloc(),
        "simplify in out --tolerance 1",
        &[(
            "a tip that touches a side",
            "POLYGON ((0 0, 10 0, 10 10, 0 10, 0 0))\nPOLYGON ((10 5, 20 0, 20 10, 10 5))\n",
            Outcome::NotValid { mark: first },
            BEFORE,
        )],
    )
}
