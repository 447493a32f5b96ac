use crate::{BEFORE, shelf_of};
use cov_io::{Call, Fail, Shelf};
use cov_valid::{Kind, Mark};
use cover_cli::{Outcome, cover, message, status};
use geo_text::{LONGEST_INPUT, TextFault};
use std::alloc::{AllocError, Global};
use std::process::Abort;
use std::test;

// The room of a file, and the most bytes that one call reads or writes.
pub(crate) const ROOM: usize = LONGEST_INPUT;

// A square, and a triangle whose tip touches the middle of the square's side.
const TOUCH: &str =
    "POLYGON ((0 0, 10 0, 10 10, 0 10, 0 0))\nPOLYGON ((10 5, 20 0, 20 10, 10 5))\n";

const TOUCH_MARKS: &str =
    "MULTILINESTRING ((10 0, 10 10))\nMULTILINESTRING ((10 5, 20 0), (10 5, 20 10))\n";

// A case: its name, the input, the answer and the output.
pub(crate) type Case<'a> = (&'a str, &'a str, Outcome, &'a str);

// The bytes of the output before the program ran are no text of polygons.
pub(crate) const NO_TEXT: Outcome = Outcome::BadText(TextFault::Syntax { at: 0 });

// The words of a line.
pub(crate) fn words_of(alloc: Global, line: &str) -> Result<Vec<String>, AllocError> {
    let mut words = Vec::new(alloc);
    for word in line.split_whitespace() {
        words.push(String::from_str(alloc, word)?)?;
    }
    Ok(words)
}

// Runs the program on the words of a line.
pub(crate) fn answer(alloc: Global, line: &str, files: &mut Shelf) -> Result<Outcome, AllocError> {
    let words = words_of(alloc, line)?;
    Ok(cover(alloc, &words, files))
}

pub(crate) fn holds(files: &Shelf, name: &str, text: &str) -> bool {
    match files.held(name) {
        Some(bytes) => bytes == text.as_bytes(),
        None => false,
    }
}

// The two files hold these texts.
pub(crate) fn expect_files(rt: &impl Abort, files: &Shelf, input: &str, output: &str, case: &str) {
    assert!(rt; holds(files, "in", input), "in: {case}");
    assert!(rt; holds(files, "out", output), "out: {case}");
}

// The program answers the words so on each input, which it leaves as it was.
pub(crate) fn expect_answers(
    rt: &impl Abort,
    alloc: Global,
    line: &str,
    cases: &[Case],
) -> Result<(), test::Fail> {
    for (case, input, expected, output) in cases {
        let mut files = shelf_of(alloc, input.as_bytes(), &[], ROOM, ROOM)?;
        let came = answer(alloc, line, &mut files)?;
        assert_eq!(rt; came, *expected, "{case}");
        expect_files(rt, &files, input, output, case);
    }
    Ok(())
}

// Each operation refuses the input so, and leaves both files as they were.
pub(crate) fn expect_refusal(
    rt: &impl Abort,
    alloc: Global,
    input: &[u8],
    expected: Outcome,
) -> Result<(), test::Fail> {
    for line in [
        "validate in out",
        "clean in out --rule least-index",
        "union in out",
        "node in out",
        "regions in out",
    ] {
        let mut files = shelf_of(alloc, input, &[], ROOM, ROOM)?;
        let came = answer(alloc, line, &mut files)?;
        assert_eq!(rt; came, expected, "{line}");
        assert!(rt; files.held("in") == Some(input), "in: {line}");
        assert!(rt; holds(&files, "out", BEFORE), "out: {line}");
    }
    Ok(())
}

#[test]
fn segments_that_meet_are_marked(rt: HostRuntime) -> Result<(), test::Fail> {
    let cases = [
        (
            "a tip that touches a side marks both sides of the tip and the side",
            TOUCH,
            Outcome::Marked { edges: 3 },
            TOUCH_MARKS,
        ),
        (
            "of rings wound the other way the same segments are marked, in the order of the points",
            "POLYGON ((0 0, 0 10, 10 10, 10 0, 0 0))\nPOLYGON ((10 5, 20 10, 20 0, 10 5))\n",
            Outcome::Marked { edges: 3 },
            "MULTILINESTRING ((10 0, 10 10))\nMULTILINESTRING ((10 5, 20 10), (10 5, 20 0))\n",
        ),
        (
            "sides that cross are marked",
            "POLYGON ((0 0, 10 10, 10 0, 0 10, 0 0))",
            Outcome::Marked { edges: 2 },
            "MULTILINESTRING ((0 0, 10 10), (0 10, 10 0))\n",
        ),
        (
            "of two squares that overlap along their sides the two sides that meet nothing stay",
            "POLYGON ((0 0, 10 0, 10 10, 0 10, 0 0))\nPOLYGON ((5 0, 15 0, 15 10, 5 10, 5 0))\n",
            Outcome::Marked { edges: 6 },
            "MULTILINESTRING ((0 0, 10 0), (10 0, 10 10), (0 10, 10 10))\n\
             MULTILINESTRING ((5 0, 15 0), (5 10, 15 10), (5 0, 5 10))\n",
        ),
        (
            "a side that is walked there and back is marked twice",
            "POLYGON ((0 0, 10 0, 0 0, 0 0))",
            Outcome::Marked { edges: 2 },
            "MULTILINESTRING ((0 0, 10 0), (0 0, 10 0))\n",
        ),
    ];
    expect_answers(&rt, rt.alloc(), "validate in out", &cases)
}

#[test]
fn sides_that_stand_twice_or_lie_within_are_marked(rt: HostRuntime) -> Result<(), test::Fail> {
    let cases = [
        (
            "each side of a square that is drawn twice is marked in both",
            "POLYGON ((0 0, 10 0, 10 10, 0 10, 0 0))\nPOLYGON ((0 0, 10 0, 10 10, 0 10, 0 0))\n",
            Outcome::Marked { edges: 8 },
            "MULTILINESTRING ((0 0, 10 0), (10 0, 10 10), (0 10, 10 10), (0 0, 0 10))\n\
             MULTILINESTRING ((0 0, 10 0), (10 0, 10 10), (0 10, 10 10), (0 0, 0 10))\n",
        ),
        (
            "a square within another is marked, and the outer one isn't",
            "POLYGON ((0 0, 10 0, 10 10, 0 10, 0 0))\nPOLYGON ((2 2, 4 2, 4 4, 2 4, 2 2))\n",
            Outcome::Marked { edges: 4 },
            "MULTILINESTRING EMPTY\nMULTILINESTRING ((2 2, 4 2), (4 2, 4 4), (2 4, 4 4), (2 2, 2 4))\n",
        ),
        (
            "a triangle in one of two neighbours, on their common side, is marked and that side in the one",
            "POLYGON ((0 0, 10 0, 10 10, 0 10, 0 0))\nPOLYGON ((10 0, 20 0, 20 10, 10 10, 10 0))\n\
             POLYGON ((10 0, 15 5, 10 10, 10 0))\n",
            Outcome::Marked { edges: 4 },
            "MULTILINESTRING EMPTY\nMULTILINESTRING ((10 0, 10 10))\n\
             MULTILINESTRING ((10 0, 15 5), (10 10, 15 5), (10 0, 10 10))\n",
        ),
        (
            "of six parcels, in several lines and in mixed case, two overlap",
            "Polygon((0 0, 100 0, 100 100, 0 100, 0 0))\n\
             POLYGON ((100 0, 200 0, 200 100,\n          100 100, 102 50, 100 0))\n\
             polygon ((200 0, 300 0, 300 100, 250 103, 200 100, 200 0))\n\
             POLYGON ((0 100, 100 100, 100 200, 0 200, 0 100))\n\
             MultiPolygon (((100 100, 200 100, 200 200, 100 200, 100 100)))\n\
             POLYGON ((200 100, 300 100, 300 200, 200 200, 201 150, 200 100))\n",
            Outcome::Marked { edges: 3 },
            "MULTILINESTRING EMPTY\nMULTILINESTRING EMPTY\n\
             MULTILINESTRING ((250 103, 300 100), (200 100, 250 103))\n\
             MULTILINESTRING EMPTY\nMULTILINESTRING EMPTY\nMULTILINESTRING ((200 100, 300 100))\n",
        ),
    ];
    expect_answers(&rt, rt.alloc(), "validate in out", &cases)
}

#[test]
fn coverages_without_faults_are_done(rt: HostRuntime) -> Result<(), test::Fail> {
    let cases = [
        ("an empty file has no members", "", Outcome::Done, ""),
        (
            "a square in the hole of another is in neither's way",
            "POLYGON ((0 0, 20 0, 20 20, 0 20, 0 0), (5 5, 5 15, 15 15, 15 5, 5 5))\n\
             POLYGON ((7 7, 9 7, 9 9, 7 9, 7 7))\n",
            Outcome::Done,
            "MULTILINESTRING EMPTY\nMULTILINESTRING EMPTY\n",
        ),
        (
            "a square that fills the hole of another shares its sides from the other side",
            "POLYGON ((0 0, 20 0, 20 20, 0 20, 0 0), (5 5, 5 15, 15 15, 15 5, 5 5))\n\
             POLYGON ((5 5, 15 5, 15 15, 5 15, 5 5))\n",
            Outcome::Done,
            "MULTILINESTRING EMPTY\nMULTILINESTRING EMPTY\n",
        ),
        (
            "a ring may be wound either way",
            "POLYGON ((0 0, 0 10, 10 10, 10 0, 0 0))",
            Outcome::Done,
            "MULTILINESTRING EMPTY\n",
        ),
        (
            "a vertex beside a side, in the same pixel, isn't on it",
            "POLYGON ((0 0, 10 1, 0 10, 0 0))\nPOLYGON ((5 0, 10 -10, 0 -10, 5 0))\n",
            Outcome::Done,
            "MULTILINESTRING EMPTY\nMULTILINESTRING EMPTY\n",
        ),
    ];
    expect_answers(&rt, rt.alloc(), "validate in out", &cases)
}

#[test]
fn members_of_few_points_are_done(rt: HostRuntime) -> Result<(), test::Fail> {
    let cases = [
        (
            "a polygon without rings is a member without segments",
            "POLYGON EMPTY",
            Outcome::Done,
            "MULTILINESTRING EMPTY\n",
        ),
        (
            "a number past 2^24 is in range",
            "POLYGON ((0 0, 16777217 0, 0 5, 0 0))",
            Outcome::Done,
            "MULTILINESTRING EMPTY\n",
        ),
        (
            "a fraction of zeros is read",
            "POLYGON ((0 0, 1.0 0, 0 5, 0 0))",
            Outcome::Done,
            "MULTILINESTRING EMPTY\n",
        ),
    ];
    expect_answers(&rt, rt.alloc(), "validate in out", &cases)
}

#[test]
fn node_lists_the_noded_edges_and_the_odd_ones_of_each_member(
    rt: HostRuntime,
) -> Result<(), test::Fail> {
    let cases = [
        (
            "of no members there are no edges",
            "",
            Outcome::Done,
            "MULTILINESTRING EMPTY\n",
        ),
        (
            "a segment bends through the pixel of a crossing at its corner",
            "POLYGON ((0 0, 1 1, 0 1, 1 0, 0 0))",
            Outcome::Done,
            "MULTILINESTRING ((0 0, 1 0), (0 0, 1 1), (0 1, 1 1), (1 0, 1 1))\nMULTILINESTRING ((0 0, 1 0), (0 0, 1 1), (1 0, 1 1))\n",
        ),
        (
            "a segment bends through the pixel of a vertex that it doesn't touch",
            "POLYGON ((0 0, 10 1, 0 10, 0 0))\nPOLYGON ((5 0, 10 -10, 0 -10, 5 0))\n",
            Outcome::Done,
            "MULTILINESTRING ((0 -10, 5 0), (0 -10, 10 -10), (0 0, 0 10), (0 0, 5 0), (0 10, 10 1), (5 0, 10 -10), (5 0, 10 1))\nMULTILINESTRING ((0 0, 0 10), (0 0, 5 0), (0 10, 10 1), (5 0, 10 1))\nMULTILINESTRING ((0 -10, 5 0), (0 -10, 10 -10), (5 0, 10 -10))\n",
        ),
        (
            "a thin triangle snaps to a line, and has no odd edge",
            "POLYGON ((0 0, 5 0, 10 1, 0 0))",
            Outcome::Done,
            "MULTILINESTRING ((0 0, 5 0), (5 0, 10 1))\nMULTILINESTRING EMPTY\n",
        ),
        (
            "a segment through the common side of two pixels meets both",
            "POLYGON ((0 0, 2 1, 0 2, 0 0))\nPOLYGON ((1 0, 5 0, 1 1, 1 0))\n",
            Outcome::Done,
            "MULTILINESTRING ((0 0, 0 2), (0 0, 1 0), (0 2, 1 1), (1 0, 1 1), (1 0, 5 0), (1 1, 2 1), (2 1, 5 0))\nMULTILINESTRING ((0 0, 0 2), (0 0, 1 0), (0 2, 1 1), (1 0, 1 1))\nMULTILINESTRING ((1 0, 1 1), (1 0, 5 0), (1 1, 2 1), (2 1, 5 0))\n",
        ),
    ];
    expect_answers(&rt, rt.alloc(), "node in out", &cases)
}

#[test]
fn node_splits_segments_that_overlap(rt: HostRuntime) -> Result<(), test::Fail> {
    let cases = [(
        "segments that overlap along a line are split where each ends",
        "POLYGON ((0 0, 10 0, 10 10, 0 10, 0 0))\nPOLYGON ((5 0, 15 0, 15 10, 5 10, 5 0))\n",
        Outcome::Done,
        "MULTILINESTRING ((0 0, 0 10), (0 0, 5 0), (0 10, 5 10), (5 0, 5 10), (5 0, 10 0), (5 10, 10 10), (10 0, 10 10), (10 0, 15 0), (10 10, 15 10), (15 0, 15 10))\nMULTILINESTRING ((0 0, 0 10), (0 0, 5 0), (0 10, 5 10), (5 0, 10 0), (5 10, 10 10), (10 0, 10 10))\nMULTILINESTRING ((5 0, 5 10), (5 0, 10 0), (5 10, 10 10), (10 0, 15 0), (10 10, 15 10), (15 0, 15 10))\n",
    )];
    expect_answers(&rt, rt.alloc(), "node in out", &cases)
}

#[test]
fn regions_lists_each_region_with_its_label_and_doubled_area(
    rt: HostRuntime,
) -> Result<(), test::Fail> {
    let cases = [
        ("of no members there are no regions", "", Outcome::Done, ""),
        (
            "a thin triangle snaps to a line, and has no region",
            "POLYGON ((0 0, 5 0, 10 1, 0 0))",
            Outcome::Done,
            "",
        ),
        (
            "two squares overlap in a region of both",
            "POLYGON ((0 0, 10 0, 10 10, 0 10, 0 0))\nPOLYGON ((5 0, 15 0, 15 10, 5 10, 5 0))\n",
            Outcome::Done,
            "0 outer - - -\n1 single 0 100 -\n7 shared 0,1 100 -\n13 single 1 100 -\n",
        ),
        (
            "an island lies in the gap between two parcels",
            "POLYGON ((0 0, 15 0, 15 10, 10 10, 10 20, 15 20, 15 30, 0 30, 0 0))\n\
             POLYGON ((15 0, 30 0, 30 30, 15 30, 15 20, 20 20, 20 10, 15 10, 15 0))\n\
             POLYGON ((11 11, 19 11, 19 19, 11 19, 11 11))\n",
            Outcome::Done,
            "0 outer - - -\n1 single 0 800 -\n7 gap - 72 0\n13 single 2 128 -\n19 single 1 800 -\n",
        ),
    ];
    expect_answers(&rt, rt.alloc(), "regions in out", &cases)
}

#[test]
fn regions_tells_gaps_from_members(rt: HostRuntime) -> Result<(), test::Fail> {
    let cases = [
        (
            "a frame of 216 units round a gap that fills the middle of the plane",
            "POLYGON ((-16777216 -16777216, 16777216 -16777216, 16777216 16777216, -16777216 16777216, -16777216 -16777216), \
             (-16777000 -16777000, -16777000 16777000, 16777000 16777000, 16777000 -16777000, -16777000 -16777000))",
            Outcome::Done,
            "0 outer - - -\n1 single 0 57981685248 -\n7 gap - 2251741832000000 33554000\n",
        ),
        (
            "a hole of one member alone is a gap",
            "POLYGON ((0 0, 20 0, 20 20, 0 20, 0 0), (9 9, 9 11, 11 11, 11 9, 9 9))",
            Outcome::Done,
            "0 outer - - -\n1 single 0 792 -\n7 gap - 8 2\n",
        ),
        (
            "three members have one square",
            "POLYGON ((0 0, 10 0, 10 10, 0 10, 0 0))\nPOLYGON ((0 0, 10 0, 10 10, 0 10, 0 0))\n\
             POLYGON ((0 0, 0 10, 10 10, 10 0, 0 0))\n",
            Outcome::Done,
            "0 outer - - -\n1 shared 0,1,2 200 -\n",
        ),
    ];
    expect_answers(&rt, rt.alloc(), "regions in out", &cases)
}

#[test]
fn regions_are_those_of_the_bent_and_odd_edges(rt: HostRuntime) -> Result<(), test::Fail> {
    let cases = [
        (
            "the inside of a triangle comes before the outer region",
            "POLYGON ((0 0, 1 1, 0 1, 1 0, 0 0))",
            Outcome::Done,
            "0 single 0 1 -\n1 outer - - -\n",
        ),
        (
            "a bend through the pixel of a vertex gives a member area",
            "POLYGON ((0 0, 10 1, 0 10, 0 0))\nPOLYGON ((5 0, 10 -10, 0 -10, 5 0))\n",
            Outcome::Done,
            "0 outer - - -\n1 single 1 100 -\n5 single 0 105 -\n",
        ),
        (
            "a hole touches its shell in a vertex",
            "POLYGON ((0 0, 10 0, 10 10, 0 10, 0 0), (0 0, 3 6, 6 3, 0 0))",
            Outcome::Done,
            "0 outer - - -\n1 single 0 173 -\n3 gap - 27 2\n",
        ),
        (
            "two squares of one member that share a side have one region",
            "MULTIPOLYGON (((0 0, 10 0, 10 10, 0 10, 0 0)), ((10 0, 20 0, 20 10, 10 10, 10 0)))",
            Outcome::Done,
            "0 outer - - -\n1 single 0 400 -\n",
        ),
    ];
    expect_answers(&rt, rt.alloc(), "regions in out", &cases)
}

#[test]
fn each_fault_of_a_text_is_answered_at_its_place(rt: HostRuntime) -> Result<(), test::Fail> {
    for (input, fault) in [
        ("POLYGON ((0 0, 1", TextFault::Syntax { at: 16 }),
        (
            "POLYGON ((0 0, 268435457 0, 0 5, 0 0))",
            TextFault::OutOfRange { at: 15 },
        ),
        (
            "POLYGON ((0 0, 5 0, 268435456 -268435457, 0 0))",
            TextFault::OutOfRange { at: 30 },
        ),
        (
            "POLYGON ((0 0, 1.5 0, 0 5, 0 0))",
            TextFault::NotWhole { at: 15 },
        ),
        (
            "POLYGON Z ((0 0 1, 4 0 1, 0 4 1, 0 0 1))",
            TextFault::NotPlanar { at: 8 },
        ),
        (
            "POLYGON ((0 0 1, 4 0 1, 0 4 1, 0 0 1))",
            TextFault::NotPlanar { at: 14 },
        ),
        (
            "POLYGON ((0 0, 10 0, 0 0))",
            TextFault::RingShort { ring: 0 },
        ),
        (
            "POLYGON ((0 0, 10 0, 10 10, 0 10))",
            TextFault::RingOpen { ring: 0 },
        ),
    ] {
        expect_refusal(&rt, rt.alloc(), input.as_bytes(), Outcome::BadText(fault))?;
    }
    Ok(())
}

#[test]
fn words_name_the_operation_and_its_files(rt: HostRuntime) -> Result<(), test::Fail> {
    let marked = Outcome::Marked { edges: 3 };
    for (line, expected, input, output) in [
        ("", Outcome::Usage, TOUCH, BEFORE),
        ("validate", Outcome::Usage, TOUCH, BEFORE),
        ("validate in", Outcome::Usage, TOUCH, BEFORE),
        ("Validate in out", Outcome::Usage, TOUCH, BEFORE),
        ("scrub in out", Outcome::Usage, TOUCH, BEFORE),
        ("node in", Outcome::Usage, TOUCH, BEFORE),
        ("regions in", Outcome::Usage, TOUCH, BEFORE),
        ("validate -in out", Outcome::Usage, TOUCH, BEFORE),
        ("validate in -out", Outcome::Usage, TOUCH, BEFORE),
        ("validate in out more", Outcome::Usage, TOUCH, BEFORE),
        ("validate none out", Outcome::ReadFault, TOUCH, BEFORE),
        ("validate in none", Outcome::WriteFault, TOUCH, BEFORE),
        ("validate out in", NO_TEXT, TOUCH, BEFORE),
        ("validate in in", marked, TOUCH_MARKS, BEFORE),
        ("validate in out", marked, TOUCH, TOUCH_MARKS),
    ] {
        let mut files = shelf_of(rt.alloc(), TOUCH.as_bytes(), &[], ROOM, ROOM)?;
        let came = answer(rt.alloc(), line, &mut files)?;
        assert_eq!(rt; came, expected, "{line}");
        expect_files(&rt, &files, input, output, line);
    }
    Ok(())
}

#[test]
fn options_are_taken_as_the_operation_has_them(rt: HostRuntime) -> Result<(), test::Fail> {
    for line in [
        "clean in out",
        "clean in out --rule",
        "clean in out --rule largest",
        "clean in out --rule Least-index",
        "clean in out --gap least-index",
        "clean in out --rule least-index --rule least-area",
        "simplify in out",
        "simplify in out --tolerance -1",
        "clean in -out --rule least-index",
        "validate in out --rule least-index",
    ] {
        let mut files = shelf_of(rt.alloc(), TOUCH.as_bytes(), &[], ROOM, ROOM)?;
        let came = answer(rt.alloc(), line, &mut files)?;
        assert_eq!(rt; came, Outcome::Usage, "{line}");
        expect_files(&rt, &files, TOUCH, BEFORE, line);
    }
    Ok(())
}

#[test]
fn a_call_that_fails_is_answered_and_leaves_the_bytes_before_it(
    rt: HostRuntime,
) -> Result<(), test::Fail> {
    let marked = Outcome::Marked { edges: 3 };
    for (call, nth, expected, output) in [
        (Call::OpenInput, 0, Outcome::ReadFault, BEFORE),
        (Call::Read, 0, Outcome::ReadFault, BEFORE),
        (Call::Read, 1, Outcome::ReadFault, BEFORE),
        (Call::Read, 3, Outcome::ReadFault, BEFORE),
        // The read that finds the end.
        (Call::Read, 5, Outcome::ReadFault, BEFORE),
        (Call::Read, 6, marked, TOUCH_MARKS),
        (Call::Create, 0, Outcome::WriteFault, BEFORE),
        (Call::Write, 0, Outcome::WriteFault, ""),
        (Call::Write, 1, Outcome::WriteFault, "MULTILINESTRING "),
        (
            Call::Write,
            4,
            Outcome::WriteFault,
            "MULTILINESTRING ((10 0, 10 10))\nMULTILINESTRING ((10 5, 20 0), (",
        ),
        (Call::Write, 5, marked, TOUCH_MARKS),
        (Call::Close, 0, Outcome::WriteFault, TOUCH_MARKS),
    ] {
        let fails = [Fail { call, nth }];
        let mut files = shelf_of(rt.alloc(), TOUCH.as_bytes(), &fails, 16, ROOM)?;
        let came = answer(rt.alloc(), "validate in out", &mut files)?;
        assert_eq!(rt; came, expected, "{call:?} {nth}");
        expect_files(&rt, &files, TOUCH, output, "validate in out");
    }
    Ok(())
}

#[test]
fn a_full_file_holds_the_first_bytes(rt: HostRuntime) -> Result<(), test::Fail> {
    for (case, room, expected, output) in [
        ("no room", 0, Outcome::WriteFault, ""),
        (
            "room for the first line and eight bytes",
            40,
            Outcome::WriteFault,
            "MULTILINESTRING ((10 0, 10 10))\nMULTILIN",
        ),
        (
            "room for all but the last line end",
            77,
            Outcome::WriteFault,
            "MULTILINESTRING ((10 0, 10 10))\nMULTILINESTRING ((10 5, 20 0), (10 5, 20 10))",
        ),
        (
            "room for all",
            78,
            Outcome::Marked { edges: 3 },
            TOUCH_MARKS,
        ),
    ] {
        let mut files = shelf_of(rt.alloc(), TOUCH.as_bytes(), &[], 16, room)?;
        let came = answer(rt.alloc(), "validate in out", &mut files)?;
        assert_eq!(rt; came, expected, "{case}");
        expect_files(&rt, &files, TOUCH, output, case);
    }
    Ok(())
}

#[test]
fn each_success_has_its_status_and_its_message(rt: HostRuntime) -> Result<(), test::Fail> {
    for (outcome, number, text) in [
        (Outcome::Done, 0, "done"),
        (Outcome::Marked { edges: 3 }, 1, "marked 3"),
        (
            Outcome::Marked {
                edges: 18_446_744_073_709_551_615,
            },
            1,
            "marked 18446744073709551615",
        ),
        (
            Outcome::Sampled {
                members: 3,
                polygons: 2,
                points: 10,
            },
            0,
            "sampled: members 3, polygons 2, points 10",
        ),
    ] {
        assert_eq!(rt; status(&outcome), number, "{text}");
        let line = message(rt.alloc(), &outcome)?;
        assert!(rt; line.as_str() == text, "{text}");
    }
    Ok(())
}

#[test]
fn each_refusal_has_its_status_and_its_message(rt: HostRuntime) -> Result<(), test::Fail> {
    for (outcome, number, text) in [
        (
            Outcome::Usage,
            2,
            "usage: cover validate|clean|simplify|union|node|regions|sample|locate|overlay",
        ),
        (
            Outcome::NotValid {
                mark: Mark {
                    member: 0,
                    place: 1,
                    kind: Kind::Meets,
                },
            },
            3,
            "not valid: member 0 place 1 meets",
        ),
        (NO_TEXT, 4, "text: syntax at 0"),
        (Outcome::TooLong, 6, "input is longer than 67108864 bytes"),
        (Outcome::ReadFault, 7, "cannot read"),
        (Outcome::WriteFault, 8, "cannot write"),
        (Outcome::NoMemory, 9, "no memory"),
    ] {
        assert_eq!(rt; status(&outcome), number, "{text}");
        let line = message(rt.alloc(), &outcome)?;
        assert!(rt; line.as_str() == text, "{text}");
    }
    Ok(())
}

#[test]
fn each_fault_has_its_message(rt: HostRuntime) -> Result<(), test::Fail> {
    for (fault, text) in [
        (TextFault::Syntax { at: 16 }, "text: syntax at 16"),
        (TextFault::NotPlanar { at: 14 }, "text: not planar at 14"),
        (TextFault::NotWhole { at: 15 }, "text: not whole at 15"),
        (
            TextFault::OutOfRange {
                at: 18_446_744_073_709_551_615,
            },
            "text: out of range at 18446744073709551615",
        ),
        (TextFault::RingShort { ring: 0 }, "text: ring 0 is short"),
        (
            TextFault::RingOpen {
                ring: 4_294_967_295,
            },
            "text: ring 4294967295 is open",
        ),
    ] {
        let line = message(rt.alloc(), &Outcome::BadText(fault))?;
        assert!(rt; line.as_str() == text, "{text}");
    }
    Ok(())
}
