use crate::BEFORE;
use crate::tests::{Case, expect_answers};
use cover_cli::Outcome;
use geo_text::TextFault;
use std::test;

// A triangle with a number that is not whole.
const TRIANGLE: &str = "POLYGON ((0 0, 1.5 0, 0 5, 0 0))";

#[test]
fn text_is_cleaned_at_a_scale(rt: HostRuntime) -> Result<(), test::Fail> {
    let cases: [(&str, Case); 6] = [
        (
            "clean in out --rule least-index --scale 2",
            (
                "numbers are rounded, halves upwards",
                "POLYGON ((0 0, 1.005 0, 1 1.994, 0 0))",
                Outcome::Done,
                "POLYGON ((0 0, 1.01 0, 1 1.99, 0 0))\n",
            ),
        ),
        (
            "clean in out --rule least-index --scale 7",
            (
                "the greatest number of the grid",
                "POLYGON ((0 0, 26.84354564 0, 0 1, 0 0))",
                Outcome::Done,
                "POLYGON ((0 0, 26.8435456 0, 0 1, 0 0))\n",
            ),
        ),
        (
            "clean in out --rule least-index --scale 7",
            (
                "a number that is rounded past it",
                "POLYGON ((0 0, 26.84354565 0, 0 1, 0 0))",
                Outcome::BadText(TextFault::OutOfRange { at: 15 }),
                BEFORE,
            ),
        ),
        (
            "clean in out --rule least-index",
            (
                "without a scale numbers are whole",
                TRIANGLE,
                Outcome::BadText(TextFault::NotWhole { at: 15 }),
                BEFORE,
            ),
        ),
        (
            "clean in out --rule least-index --scale 0",
            (
                "at scale 0 they are rounded to whole ones",
                TRIANGLE,
                Outcome::Done,
                "POLYGON ((0 0, 2 0, 0 5, 0 0))\n",
            ),
        ),
        (
            "clean in.json out --rule least-index --scale 2",
            ("GeoJSON has no scale", TRIANGLE, Outcome::Usage, BEFORE),
        ),
    ];
    for (line, case) in &cases {
        expect_answers(&rt, rt.alloc(), line, &[*case])?;
    }
    Ok(())
}

#[test]
fn each_operation_has_a_scale(rt: HostRuntime) -> Result<(), test::Fail> {
    let cases: [(&str, Case); 5] = [
        (
            "validate in out --scale 1",
            (
                "a tip that touches a side",
                "POLYGON ((0 0, 1 0, 1 1, 0 1, 0 0))\nPOLYGON ((1 0.5, 2 0, 2 1, 1 0.5))\n",
                Outcome::Marked { edges: 3 },
                "MULTILINESTRING ((1 0, 1 1))\nMULTILINESTRING ((1 0.5, 2 0), (1 0.5, 2 1))\n",
            ),
        ),
        (
            "simplify in out --tolerance 3 --scale 1",
            (
                "the tolerance is in grid units",
                "POLYGON ((0 0, 0.5 0.1, 1 0, 1 1, 0 1, 0 0))\n",
                Outcome::Done,
                "POLYGON ((0 0, 1 0, 1 1, 0 1, 0 0))\n",
            ),
        ),
        (
            "union in out --scale 1",
            (
                "two rectangles side by side",
                "POLYGON ((0 0, 1 0, 1 1, 0 1, 0 0))\nPOLYGON ((1 0, 2.5 0, 2.5 1, 1 1, 1 0))\n",
                Outcome::Done,
                "POLYGON ((0 0, 1 0, 2.5 0, 2.5 1, 1 1, 0 1, 0 0))\n",
            ),
        ),
        (
            "node in out --scale 1",
            (
                "sides that cross at a point of the grid",
                "POLYGON ((0 0, 1 1, 1 0, 0 1, 0 0))\n",
                Outcome::Done,
                "MULTILINESTRING ((0 0, 0 1), (0 0, 0.5 0.5), (0 1, 0.5 0.5), (0.5 0.5, 1 0), (0.5 0.5, 1 1), (1 0, 1 1))\n\
                 MULTILINESTRING ((0 0, 0 1), (0 0, 0.5 0.5), (0 1, 0.5 0.5), (0.5 0.5, 1 0), (0.5 0.5, 1 1), (1 0, 1 1))\n",
            ),
        ),
        (
            "regions in out --scale 1",
            (
                "areas are in grid units",
                "POLYGON ((0 0, 1.5 0, 1.5 1, 0 1, 0 0))\n",
                Outcome::Done,
                "0 outer - - -\n1 single 0 300 -\n",
            ),
        ),
    ];
    for (line, case) in &cases {
        expect_answers(&rt, rt.alloc(), line, &[*case])?;
    }
    Ok(())
}
