use crate::BEFORE;
use crate::files::file;
use cov_io::Shelf;
use cov_types::NoMemory;
use cov_valid::{Kind, Mark};
use cover_cli::{Outcome, cover, message, status};
use geo_text::{LONGEST_INPUT, TextFault};
use std::alloc::{AllocError, Global};
use std::process::Abort;
use std::test;

const SQUARE: &str = "POLYGON ((0 0, 10 0, 10 10, 0 10, 0 0))\n";

// The square in two halves.
const HALVES: &str =
    "POLYGON ((0 0, 5 0, 5 10, 0 10, 0 0))\nPOLYGON ((5 0, 10 0, 10 10, 5 10, 5 0))\n";

// A tip touches a side of the square, so the two are not valid.
const TOUCHED: &str =
    "POLYGON ((0 0, 10 0, 10 10, 0 10, 0 0))\nPOLYGON ((10 5, 20 0, 20 10, 10 5))\n";

// A case: its name, the two coverages, the answer and the output.
type Case<'a> = (&'a str, &'a str, &'a str, Outcome, &'a str);

// A shelf with the coverages `a` and `b`, and the outputs `out` and `out.json`.
fn shelf_with(alloc: Global, a: &str, b: &str) -> Result<Shelf, NoMemory> {
    let mut files = Vec::new(alloc);
    files.push(file(alloc, "a", a.as_bytes())?)?;
    files.push(file(alloc, "b", b.as_bytes())?)?;
    files.push(file(alloc, "out", BEFORE.as_bytes())?)?;
    files.push(file(alloc, "out.json", BEFORE.as_bytes())?)?;
    Ok(Shelf::new(alloc, files, Vec::new(alloc), 64, LONGEST_INPUT)?)
}

// Runs the program on the words of a line.
fn answer(alloc: Global, line: &str, files: &mut Shelf) -> Result<Outcome, AllocError> {
    let mut words = Vec::new(alloc);
    for word in line.split_whitespace() {
        words.push(String::from_str(alloc, word)?)?;
    }
    Ok(cover(alloc, &words, files))
}

// `overlay a b` answers so in each case, leaves the output so, and the coverages as they were.
fn expect_overlays(
    rt: &impl Abort,
    alloc: Global,
    out: &str,
    cases: &[Case],
) -> Result<(), test::Fail> {
    for (case, a, b, expected, output) in cases {
        let mut files = shelf_with(alloc, a, b)?;
        let line = format!(in alloc; "overlay a b {out}")?;
        let came = answer(alloc, &line, &mut files)?;
        assert_eq!(rt; came, *expected, "{case}");
        assert!(rt; files.held("a") == Some(a.as_bytes()), "a: {case}");
        assert!(rt; files.held("b") == Some(b.as_bytes()), "b: {case}");
        assert!(rt; files.held(out) == Some(output.as_bytes()), "out: {case}");
    }
    Ok(())
}

#[test]
fn members_that_meet_are_paired(rt: HostRuntime) -> Result<(), test::Fail> {
    let cases: [Case; 4] = [
        (
            "squares that overlap",
            SQUARE,
            "POLYGON ((5 5, 15 5, 15 15, 5 15, 5 5))\n",
            Outcome::Done,
            "POLYGON ((5 5, 10 5, 10 10, 5 10, 5 5))\n",
        ),
        (
            "two halves and a square over both",
            HALVES,
            "POLYGON ((2 2, 8 2, 8 8, 2 8, 2 2))\n",
            Outcome::Done,
            "POLYGON ((2 2, 5 2, 5 8, 2 8, 2 2))\nPOLYGON ((5 2, 8 2, 8 8, 5 8, 5 2))\n",
        ),
        (
            "a bar over a frame is two polygons",
            "POLYGON ((0 0, 10 0, 10 10, 0 10, 0 0), (3 3, 3 7, 7 7, 7 3, 3 3))\n",
            "POLYGON ((1 4, 9 4, 9 6, 1 6, 1 4))\n",
            Outcome::Done,
            "MULTIPOLYGON (((1 4, 3 4, 3 6, 1 6, 1 4)), ((7 4, 9 4, 9 6, 7 6, 7 4)))\n",
        ),
        (
            "the pairs ascend by the first coverage's members",
            "POLYGON ((5 0, 10 0, 10 10, 5 10, 5 0))\nPOLYGON ((0 0, 5 0, 5 10, 0 10, 0 0))\n",
            "POLYGON EMPTY\nPOLYGON ((2 2, 8 2, 8 8, 2 8, 2 2))\n",
            Outcome::Done,
            "POLYGON ((5 2, 8 2, 8 8, 5 8, 5 2))\nPOLYGON ((2 2, 5 2, 5 8, 2 8, 2 2))\n",
        ),
    ];
    expect_overlays(&rt, rt.alloc(), "out", &cases)
}

#[test]
fn members_that_do_not_meet_have_no_pair(rt: HostRuntime) -> Result<(), test::Fail> {
    let cases: [Case; 4] = [
        (
            "squares apart",
            "POLYGON ((0 0, 1 0, 1 1, 0 1, 0 0))\n",
            "POLYGON ((5 5, 6 5, 6 6, 5 6, 5 5))\n",
            Outcome::Done,
            "",
        ),
        (
            "squares that touch in a side",
            SQUARE,
            "POLYGON ((10 0, 20 0, 20 10, 10 10, 10 0))\n",
            Outcome::Done,
            "",
        ),
        (
            "squares that touch in a vertex",
            SQUARE,
            "POLYGON ((10 10, 20 10, 20 20, 10 20, 10 10))\n",
            Outcome::Done,
            "",
        ),
        ("no members", "", SQUARE, Outcome::Done, ""),
    ];
    expect_overlays(&rt, rt.alloc(), "out", &cases)
}

#[test]
fn a_coverage_with_itself_and_with_its_union(rt: HostRuntime) -> Result<(), test::Fail> {
    let union = "POLYGON ((0 0, 5 0, 10 0, 10 10, 5 10, 0 10, 0 0))\n";
    let cases: [Case; 3] = [
        ("with itself", HALVES, HALVES, Outcome::Done, HALVES),
        ("with its union", HALVES, union, Outcome::Done, HALVES),
        ("the union with it", union, HALVES, Outcome::Done, HALVES),
    ];
    expect_overlays(&rt, rt.alloc(), "out", &cases)?;

    let mut files = shelf_with(rt.alloc(), HALVES, "")?;
    let came = answer(rt.alloc(), "overlay a a a", &mut files)?;
    assert_eq!(rt; came, Outcome::Done);
    assert!(rt; files.held("a") == Some(HALVES.as_bytes()));
    Ok(())
}

#[test]
fn both_coverages_are_snapped_together(rt: HostRuntime) -> Result<(), test::Fail> {
    let cases: [Case; 2] = [
        (
            "a border bends at a vertex and at crossings of the other coverage",
            "POLYGON ((0 0, 0 -10, 10 -10, 10 1, 0 0))\nPOLYGON ((0 0, 10 1, 10 10, 0 10, 0 0))\n",
            "POLYGON ((5 0, 8 -4, 8 4, 5 0))\n",
            Outcome::Done,
            "POLYGON ((5 0, 8 -4, 8 1, 5 1, 5 0))\nPOLYGON ((5 1, 8 1, 8 4, 5 1))\n",
        ),
        (
            "a tip that crosses a side is snapped back to it",
            "POLYGON ((0 0, 10 1, 0 10, 0 0))\n",
            "POLYGON ((0 -10, 10 -10, 5 1, 0 -10))\n",
            Outcome::Done,
            "",
        ),
    ];
    expect_overlays(&rt, rt.alloc(), "out", &cases)
}

#[test]
fn the_features_of_pairs_name_their_members(rt: HostRuntime) -> Result<(), test::Fail> {
    let cases: [Case; 2] = [
        (
            "one pair",
            SQUARE,
            "POLYGON ((5 5, 15 5, 15 15, 5 15, 5 5))\n",
            Outcome::Done,
            "{\"features\":[{\"geometry\":{\"coordinates\":[[[5,5],[10,5],[10,10],[5,10],[5,5]]],\"type\":\"Polygon\"},\"properties\":{\"a\":0,\"b\":0},\"type\":\"Feature\"}],\"type\":\"FeatureCollection\"}\n",
        ),
        (
            "the second of one and the third of the other",
            "POLYGON EMPTY\nPOLYGON ((0 0, 10 0, 10 10, 0 10, 0 0))\n",
            "POLYGON EMPTY\nPOLYGON EMPTY\nPOLYGON ((0 0, 5 0, 5 10, 0 10, 0 0))\n",
            Outcome::Done,
            "{\"features\":[{\"geometry\":{\"coordinates\":[[[0,0],[5,0],[5,10],[0,10],[0,0]]],\"type\":\"Polygon\"},\"properties\":{\"a\":1,\"b\":2},\"type\":\"Feature\"}],\"type\":\"FeatureCollection\"}\n",
        ),
    ];
    expect_overlays(&rt, rt.alloc(), "out.json", &cases)
}

#[test]
fn both_are_parsed_before_either_is_admitted(rt: HostRuntime) -> Result<(), test::Fail> {
    let syntax = |at| Outcome::BadText(TextFault::Syntax { at });
    let not_valid = |member, place, kind| Outcome::NotValid {
        mark: Mark {
            member,
            place,
            kind,
        },
    };
    let twice = "POLYGON ((0 0, 1 0, 1 1, 0 1, 0 0))\nPOLYGON ((0 0, 1 0, 1 1, 0 1, 0 0))\n";
    let cases: [Case; 6] = [
        (
            "a first input with a fault beside a second that is not valid",
            "POLYGON",
            TOUCHED,
            syntax(7),
            BEFORE,
        ),
        ("two inputs with a fault", "POLYGON", "x", syntax(7), BEFORE),
        (
            "a second input with a fault",
            SQUARE,
            "x",
            syntax(0),
            BEFORE,
        ),
        (
            "a first input that is not valid beside a second with a fault",
            TOUCHED,
            "x",
            syntax(0),
            BEFORE,
        ),
        (
            "a second input that is not valid",
            SQUARE,
            TOUCHED,
            not_valid(0, 1, Kind::Meets),
            BEFORE,
        ),
        (
            "two inputs that are not valid",
            twice,
            TOUCHED,
            not_valid(0, 0, Kind::SameSide),
            BEFORE,
        ),
    ];
    expect_overlays(&rt, rt.alloc(), "out", &cases)
}

#[test]
fn both_inputs_are_read_before_either_is_parsed(rt: HostRuntime) -> Result<(), test::Fail> {
    for (line, expected) in [
        ("overlay a none out", Outcome::ReadFault),
        ("overlay none a out", Outcome::ReadFault),
        ("overlay b none out", Outcome::ReadFault),
        ("overlay a a none", Outcome::WriteFault),
        ("overlay a a", Outcome::Usage),
        ("overlay a a out --scale 0", Outcome::Usage),
    ] {
        let mut files = shelf_with(rt.alloc(), SQUARE, "x")?;
        let came = answer(rt.alloc(), line, &mut files)?;
        assert_eq!(rt; came, expected, "{line}");
        assert!(rt; files.held("out") == Some(BEFORE.as_bytes()), "{line}");
    }
    Ok(())
}

#[test]
fn too_many_has_its_status_and_its_message(rt: HostRuntime) -> Result<(), test::Fail> {
    let outcome = Outcome::TooMany {
        count: 4_294_967_296,
    };
    assert_eq!(rt; status(&outcome), 11);
    let line = message(rt.alloc(), &outcome)?;
    assert!(rt; line.as_str() == "too many: 4294967296");
    Ok(())
}
