use crate::tests::{Case, expect_answers};
use cov_types::NoMemory;
use cover_cli::Outcome;
use std::alloc::Global;
use std::test;

// Two squares that overlap along their sides.
const OVERLAP: &str =
    "POLYGON ((0 0, 10 0, 10 10, 0 10, 0 0))\nPOLYGON ((5 0, 15 0, 15 10, 5 10, 5 0))\n";

// The same, where the first square has the common part.
const OVERLAP_BY_THE_FIRST: &str = "POLYGON ((0 0, 5 0, 10 0, 10 10, 5 10, 0 10, 0 0))\n\
     POLYGON ((10 0, 15 0, 15 10, 10 10, 10 0))\n";

// A square, and a longer rectangle that overlaps it.
const UNEQUAL: &str =
    "POLYGON ((0 0, 10 0, 10 10, 0 10, 0 0))\nPOLYGON ((5 0, 30 0, 30 10, 5 10, 5 0))\n";

// A square within another one.
const WITHIN: &str =
    "POLYGON ((0 0, 10 0, 10 10, 0 10, 0 0))\nPOLYGON ((2 2, 4 2, 4 4, 2 4, 2 2))\n";

#[test]
fn a_region_of_several_members_goes_to_the_one_that_the_rule_names(
    rt: HostRuntime,
) -> Result<(), test::Fail> {
    for (line, case) in [
        (
            "clean in out --rule least-index",
            ("least index", OVERLAP, Outcome::Done, OVERLAP_BY_THE_FIRST),
        ),
        (
            "clean in out --rule longest-border",
            (
                "both borders are of one length",
                OVERLAP,
                Outcome::Done,
                OVERLAP_BY_THE_FIRST,
            ),
        ),
        (
            "clean in out --rule greatest-area",
            (
                "greatest area",
                UNEQUAL,
                Outcome::Done,
                "POLYGON ((0 0, 5 0, 5 10, 0 10, 0 0))\n\
                 POLYGON ((5 0, 10 0, 30 0, 30 10, 10 10, 5 10, 5 0))\n",
            ),
        ),
        (
            "clean in out --rule least-area",
            (
                "least area",
                UNEQUAL,
                Outcome::Done,
                "POLYGON ((0 0, 5 0, 10 0, 10 10, 5 10, 0 10, 0 0))\n\
                 POLYGON ((10 0, 30 0, 30 10, 10 10, 10 0))\n",
            ),
        ),
    ] {
        expect_answers(&rt, rt.alloc(), line, &[case])?;
    }
    Ok(())
}

#[test]
fn a_member_within_another_is_lost_or_cut_out(rt: HostRuntime) -> Result<(), test::Fail> {
    for (line, case) in [
        (
            "clean in out --rule least-index",
            (
                "the outer one has all",
                WITHIN,
                Outcome::Done,
                "POLYGON ((0 0, 10 0, 10 10, 0 10, 0 0))\nPOLYGON EMPTY\n",
            ),
        ),
        (
            "clean in out --rule least-area",
            (
                "the outer one has a hole",
                WITHIN,
                Outcome::Done,
                "POLYGON ((0 0, 10 0, 10 10, 0 10, 0 0), (2 2, 2 4, 4 4, 4 2, 2 2))\n\
                 POLYGON ((2 2, 4 2, 4 4, 2 4, 2 2))\n",
            ),
        ),
    ] {
        expect_answers(&rt, rt.alloc(), line, &[case])?;
    }
    Ok(())
}

#[test]
fn clean_answers_the_snapped_members(rt: HostRuntime) -> Result<(), test::Fail> {
    let cases: [Case; 5] = [
        ("an empty file has no members", "", Outcome::Done, ""),
        (
            "a segment bends through the pixel of a crossing",
            "POLYGON ((0 0, 1 1, 0 1, 1 0, 0 0))",
            Outcome::Done,
            "POLYGON ((0 0, 1 0, 1 1, 0 0))\n",
        ),
        (
            "a segment bends through the pixel of a vertex that it doesn't touch",
            "POLYGON ((0 0, 10 1, 0 10, 0 0))\nPOLYGON ((5 0, 10 -10, 0 -10, 5 0))\n",
            Outcome::Done,
            "POLYGON ((0 0, 5 0, 10 1, 0 10, 0 0))\nPOLYGON ((0 -10, 10 -10, 5 0, 0 -10))\n",
        ),
        (
            "a thin triangle snaps to a line, and is gone",
            "POLYGON ((0 0, 5 0, 10 1, 0 0))",
            Outcome::Done,
            "POLYGON EMPTY\n",
        ),
        (
            "a fraction of zeros is read",
            "POLYGON ((0 0, 1.0 0, 0 5, 0 0))",
            Outcome::Done,
            "POLYGON ((0 0, 1 0, 0 5, 0 0))\n",
        ),
    ];
    expect_answers(&rt, rt.alloc(), "clean in out --rule least-index", &cases)
}

#[test]
fn each_part_of_a_member_has_a_polygon_with_one_shell(rt: HostRuntime) -> Result<(), test::Fail> {
    let cases: [Case; 5] = [
        (
            "a bow-tie has two parts",
            "POLYGON ((0 0, 10 10, 10 0, 0 10, 0 0))",
            Outcome::Done,
            "MULTIPOLYGON (((0 0, 5 5, 0 10, 0 0)), ((5 5, 10 0, 10 10, 5 5)))\n",
        ),
        (
            "a bow-tie from corner to corner of the range",
            "POLYGON ((-268435456 -268435456, 268435456 268435456, 268435456 -268435456, -268435456 268435456, -268435456 -268435456))",
            Outcome::Done,
            "MULTIPOLYGON (((-268435456 -268435456, 0 0, -268435456 268435456, -268435456 -268435456)), ((0 0, 268435456 -268435456, 268435456 268435456, 0 0)))\n",
        ),
        (
            "a hole touches its shell",
            "POLYGON ((0 0, 10 0, 10 10, 0 10, 0 0), (0 0, 3 6, 6 3, 0 0))",
            Outcome::Done,
            "POLYGON ((0 0, 10 0, 10 10, 0 10, 0 0), (0 0, 3 6, 6 3, 0 0))\n",
        ),
        (
            "a hole stays open, and an island in it is its own",
            "POLYGON ((0 0, 20 0, 20 20, 0 20, 0 0), (5 5, 5 15, 15 15, 15 5, 5 5))\n\
             POLYGON ((7 7, 9 7, 9 9, 7 9, 7 7))\n",
            Outcome::Done,
            "POLYGON ((0 0, 20 0, 20 20, 0 20, 0 0), (5 5, 5 15, 15 15, 15 5, 5 5))\n\
             POLYGON ((7 7, 9 7, 9 9, 7 9, 7 7))\n",
        ),
        (
            "three squares lie over each other in one",
            "POLYGON ((0 0, 10 0, 10 10, 0 10, 0 0))\nPOLYGON ((5 0, 15 0, 15 10, 5 10, 5 0))\n\
             POLYGON ((0 5, 10 5, 10 15, 0 15, 0 5))\n",
            Outcome::Done,
            "POLYGON ((0 0, 5 0, 10 0, 10 5, 10 10, 5 10, 0 10, 0 5, 0 0))\n\
             POLYGON ((10 0, 15 0, 15 10, 10 10, 10 5, 10 0))\n\
             POLYGON ((0 10, 5 10, 10 10, 10 15, 0 15, 0 10))\n",
        ),
    ];
    expect_answers(&rt, rt.alloc(), "clean in out --rule least-index", &cases)
}

// The square as often as this.
fn copies(alloc: Global, first: &str, others: &str, count: u32) -> Result<String, NoMemory> {
    let mut text = String::from_str(alloc, first)?;
    for _ in 1..count {
        text.push_str(others)?;
    }
    Ok(text)
}

#[test]
fn of_a_hundred_copies_one_is_left(rt: HostRuntime) -> Result<(), test::Fail> {
    let square = "POLYGON ((0 0, 10 0, 10 10, 0 10, 0 0))\n";
    let input = copies(rt.alloc(), square, square, 100)?;
    let output = copies(rt.alloc(), square, "POLYGON EMPTY\n", 100)?;
    let case = (
        "a hundred copies",
        input.as_str(),
        Outcome::Done,
        output.as_str(),
    );
    expect_answers(
        &rt,
        rt.alloc(),
        "clean in out --rule longest-border",
        &[case],
    )
}

#[test]
fn rings_that_meet_in_a_vertex_stay_apart(rt: HostRuntime) -> Result<(), test::Fail> {
    let cases: [Case; 4] = [
        (
            "a shell comes to the vertex of its hole from outside",
            "POLYGON ((0 0, 30 0, 30 30, 20 30, 15 20, 10 30, 0 30, 0 0), (10 10, 10 20, 15 20, 20 20, 20 10, 10 10))",
            Outcome::Done,
            "POLYGON ((0 0, 30 0, 30 30, 20 30, 15 20, 10 30, 0 30, 0 0), (10 10, 10 20, 15 20, 20 20, 20 10, 10 10))\n",
        ),
        (
            "a hole touches a hole",
            "POLYGON ((0 0, 30 0, 30 30, 0 30, 0 0), (10 10, 15 10, 15 15, 10 15, 10 10), (5 5, 10 5, 10 10, 5 10, 5 5))",
            Outcome::Done,
            "POLYGON ((0 0, 30 0, 30 30, 0 30, 0 0), (5 5, 5 10, 10 10, 10 5, 5 5), (10 10, 10 15, 15 15, 15 10, 10 10))\n",
        ),
        (
            "four holes are drawn as one chain through a vertex",
            "POLYGON ((0 0, 40 0, 40 40, 0 40, 0 0), (20 20, 30 15, 30 25, 20 20, 25 30, 15 30, 20 20, 10 25, 10 15, 20 20, 15 10, 25 10, 20 20))",
            Outcome::Done,
            "POLYGON ((0 0, 40 0, 40 40, 0 40, 0 0), (10 15, 10 25, 20 20, 10 15), (15 10, 20 20, 25 10, 15 10), (15 30, 25 30, 20 20, 15 30), (20 20, 30 25, 30 15, 20 20))\n",
        ),
        (
            "the black squares of a board are polygons of their own",
            "MULTIPOLYGON (((20 20, 30 20, 30 30, 20 30, 20 20)), ((0 0, 10 0, 10 10, 0 10, 0 0)), ((10 10, 20 10, 20 20, 10 20, 10 10)), ((20 0, 30 0, 30 10, 20 10, 20 0)), ((0 20, 10 20, 10 30, 0 30, 0 20)))",
            Outcome::Done,
            "MULTIPOLYGON (((0 0, 10 0, 10 10, 0 10, 0 0)), ((0 20, 10 20, 10 30, 0 30, 0 20)), ((10 10, 20 10, 20 20, 10 20, 10 10)), ((20 0, 30 0, 30 10, 20 10, 20 0)), ((20 20, 30 20, 30 30, 20 30, 20 20)))\n",
        ),
    ];
    expect_answers(&rt, rt.alloc(), "clean in out --rule least-index", &cases)
}

#[test]
fn a_ring_in_a_ring_in_a_ring_is_a_polygon_of_its_own(rt: HostRuntime) -> Result<(), test::Fail> {
    let text =
        "MULTIPOLYGON (((0 0, 50 0, 50 50, 0 50, 0 0), (10 10, 10 40, 40 40, 40 10, 10 10)), ((20 20, 30 20, 30 30, 20 30, 20 20)))\n";
    let case = ("rings in rings", text, Outcome::Done, text);
    expect_answers(&rt, rt.alloc(), "clean in out --rule least-index", &[case])?;
    expect_answers(&rt, rt.alloc(), "union in out", &[case])
}
