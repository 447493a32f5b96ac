use crate::BEFORE;
use crate::tests::expect_answers;
use cov_types::NoMemory;
use cover_cli::Outcome;
use std::alloc::Global;
use std::test;

// A frame round a hole of two units.
const FRAME: &str = "POLYGON ((0 0, 20 0, 20 20, 0 20, 0 0), (9 9, 9 11, 11 11, 11 9, 9 9))\n";

const FRAME_FILLED: &str = "POLYGON ((0 0, 20 0, 20 20, 0 20, 0 0))\n";

// A square with a hole that has no grid point.
const NICK: &str = "POLYGON ((0 0, 10 0, 10 10, 0 10, 0 0), (5 5, 5 6, 6 5, 5 5))\n";

// Two frames with an island in the gap between them.
const ISLAND: &str = "POLYGON ((0 0, 15 0, 15 10, 10 10, 10 20, 15 20, 15 30, 0 30, 0 0))\n\
     POLYGON ((15 0, 30 0, 30 30, 15 30, 15 20, 20 20, 20 10, 15 10, 15 0))\n\
     POLYGON ((11 11, 19 11, 19 19, 11 19, 11 11))\n";

// Six parcels with an overlap and two slivers, in mixed case and several lines.
const PARCELS: &str = "Polygon((0 0, 100 0, 100 100, 0 100, 0 0))\n\
     POLYGON ((100 0, 200 0, 200 100,\n          100 100, 102 50, 100 0))\n\
     polygon ((200 0, 300 0, 300 100, 250 103, 200 100, 200 0))\n\
     POLYGON ((0 100, 100 100, 100 200, 0 200, 0 100))\n\
     MultiPolygon (((100 100, 200 100, 200 200, 100 200, 100 100)))\n\
     POLYGON ((200 100, 300 100, 300 200, 200 200, 201 150, 200 100))\n";

const PARCELS_CLEANED: &str = "POLYGON ((0 0, 100 0, 100 100, 0 100, 0 0))\n\
     POLYGON ((100 0, 200 0, 200 100, 100 100, 100 0))\n\
     POLYGON ((200 0, 300 0, 300 100, 200 100, 200 0))\n\
     POLYGON ((0 100, 100 100, 100 200, 0 200, 0 100))\n\
     POLYGON ((100 100, 200 100, 200 200, 100 200, 100 100))\n\
     POLYGON ((200 100, 300 100, 300 200, 200 200, 200 100))\n";

#[test]
fn narrow_gaps_go_to_the_neighbour_of_longest_border(rt: HostRuntime) -> Result<(), test::Fail> {
    for (line, case) in [
        (
            "clean in out --rule least-index --gap 3",
            ("a hole of two units", FRAME, Outcome::Done, FRAME_FILLED),
        ),
        (
            "clean --gap=3 --rule least-index in out",
            ("options first", FRAME, Outcome::Done, FRAME_FILLED),
        ),
        (
            "clean in out --rule least-index --gap 2",
            ("as wide as the gap width", FRAME, Outcome::Done, FRAME),
        ),
        (
            "clean in out --rule least-index --gap 1",
            (
                "no grid point",
                NICK,
                Outcome::Done,
                "POLYGON ((0 0, 10 0, 10 10, 0 10, 0 0))\n",
            ),
        ),
        (
            "clean in out --rule least-index --gap 1",
            (
                "borders of 5120, 5120 and 8192",
                ISLAND,
                Outcome::Done,
                "POLYGON ((0 0, 15 0, 15 10, 10 10, 10 20, 15 20, 15 30, 0 30, 0 0))\n\
                 POLYGON ((15 0, 30 0, 30 30, 15 30, 15 20, 20 20, 20 10, 15 10, 15 0))\n\
                 POLYGON ((10 10, 15 10, 20 10, 20 20, 15 20, 10 20, 10 10))\n",
            ),
        ),
        (
            "clean in out --rule longest-border --gap 5",
            ("six parcels", PARCELS, Outcome::Done, PARCELS_CLEANED),
        ),
        (
            "clean in out --rule least-index --gap 1073741825",
            ("past the limit", FRAME, Outcome::Usage, BEFORE),
        ),
    ] {
        expect_answers(&rt, rt.alloc(), line, &[case])?;
    }
    Ok(())
}

#[test]
fn validate_marks_the_sides_of_narrow_gaps(rt: HostRuntime) -> Result<(), test::Fail> {
    for (line, case) in [
        (
            "validate in out --gap 3",
            (
                "a hole of two units",
                FRAME,
                Outcome::Marked { edges: 4 },
                "MULTILINESTRING ((9 9, 9 11), (9 11, 11 11), (11 9, 11 11), (9 9, 11 9))\n",
            ),
        ),
        (
            "validate in out --gap 2",
            (
                "as wide as the gap width",
                FRAME,
                Outcome::Done,
                "MULTILINESTRING EMPTY\n",
            ),
        ),
        (
            "validate in out --gap 5",
            (
                "with an overlap no gap is marked",
                PARCELS,
                Outcome::Marked { edges: 3 },
                "MULTILINESTRING EMPTY\nMULTILINESTRING EMPTY\n\
                 MULTILINESTRING ((250 103, 300 100), (200 100, 250 103))\n\
                 MULTILINESTRING EMPTY\nMULTILINESTRING EMPTY\n\
                 MULTILINESTRING ((200 100, 300 100))\n",
            ),
        ),
    ] {
        expect_answers(&rt, rt.alloc(), line, &[case])?;
    }
    Ok(())
}

// A square with sides of 4 and this least corner.
fn four_by_four(alloc: Global, x: i32, y: i32) -> Result<String, NoMemory> {
    let east = x.wrapping_add(4);
    let north = y.wrapping_add(4);
    Ok(format!(in alloc;
        "POLYGON (({x} {y}, {east} {y}, {east} {north}, {x} {north}, {x} {y}))\n"
    )?)
}

// A hundred squares round the square from (0, 0) to (100, 100), 25 at each side: the first lies below its least corner.
fn squares_round(alloc: Global, first: &str) -> Result<String, NoMemory> {
    let mut text = String::from_str(alloc, first)?;
    for place in 1i32..25 {
        text.push_str(&four_by_four(alloc, place.wrapping_mul(4), -4)?)?;
    }
    for place in 0i32..25 {
        let at = place.wrapping_mul(4);
        text.push_str(&four_by_four(alloc, 100, at)?)?;
        text.push_str(&four_by_four(alloc, at, 100)?)?;
        text.push_str(&four_by_four(alloc, -4, at)?)?;
    }
    Ok(text)
}

// The first of them with the square: below it, up its eastern side, back over its northern one and down its western one.
fn first_with_square(alloc: Global) -> Result<String, NoMemory> {
    let mut text = String::from_str(alloc, "POLYGON ((0 -4, 4 -4")?;
    for place in 1i32..25 {
        text.push_str(&format!(in alloc; ", {} 0", place.wrapping_mul(4))?)?;
    }
    for place in 0i32..25 {
        text.push_str(&format!(in alloc; ", 100 {}", place.wrapping_mul(4))?)?;
    }
    for place in 0i32..25 {
        text.push_str(&format!(in alloc; ", {} 100", 100i32.wrapping_sub(place.wrapping_mul(4)))?)?;
    }
    for place in 0i32..26 {
        text.push_str(&format!(in alloc; ", 0 {}", 100i32.wrapping_sub(place.wrapping_mul(4)))?)?;
    }
    text.push_str(", 0 -4))\n")?;
    Ok(text)
}

#[test]
fn a_gap_with_a_hundred_neighbours_goes_to_the_least_of_them(
    rt: HostRuntime,
) -> Result<(), test::Fail> {
    let alloc = rt.alloc();
    let apart = squares_round(alloc, &four_by_four(alloc, 0, -4)?)?;
    let filled = squares_round(alloc, &first_with_square(alloc)?)?;
    let gap = [(
        "a hundred borders of 4",
        apart.as_str(),
        Outcome::Done,
        filled.as_str(),
    )];
    expect_answers(
        &rt,
        alloc,
        "clean in out --rule least-index --gap 101",
        &gap,
    )?;
    let wide = [(
        "as wide as the gap width",
        apart.as_str(),
        Outcome::Done,
        apart.as_str(),
    )];
    expect_answers(
        &rt,
        alloc,
        "clean in out --rule least-index --gap 100",
        &wide,
    )
}
