use crate::BEFORE;
use crate::files::file;
use cov_io::{Call, Fail, Shelf};
use cov_locate::PointsFault;
use cov_types::NoMemory;
use cover_cli::{Outcome, cover, message, status};
use geo_text::{LONGEST_INPUT, TextFault};
use std::alloc::{AllocError, Global};
use std::process::Abort;
use std::test;

// Two squares that overlap.
const SQUARES: &str =
    "POLYGON ((0 0, 10 0, 10 10, 0 10, 0 0))\nPOLYGON ((5 0, 15 0, 15 10, 5 10, 5 0))\n";

const SQUARE: &str = "POLYGON ((0 0, 10 0, 10 10, 0 10, 0 0))\n";

// A case: its name, the input, the points, the answer and the output.
type Case<'a> = (&'a str, &'a str, &'a str, Outcome, &'a str);

// A shelf with the input `in`, the points `points` and `points.json`, and the output `out`.
fn shelf_with(
    alloc: Global,
    input: &[u8],
    points: &[u8],
    fails: &[Fail],
) -> Result<Shelf, NoMemory> {
    let mut files = Vec::new(alloc);
    files.push(file(alloc, "in", input)?)?;
    files.push(file(alloc, "points", points)?)?;
    files.push(file(alloc, "points.json", points)?)?;
    files.push(file(alloc, "out", BEFORE.as_bytes())?)?;
    let fails = fails.to_vec(alloc)?;
    Ok(Shelf::new(alloc, files, fails, 64, LONGEST_INPUT)?)
}

// Runs the program on the words of a line.
fn answer(alloc: Global, line: &str, files: &mut Shelf) -> Result<Outcome, AllocError> {
    let mut words = Vec::new(alloc);
    for word in line.split_whitespace() {
        words.push(String::from_str(alloc, word)?)?;
    }
    Ok(cover(alloc, &words, files))
}

// `locate in points out` answers so in each case, and leaves the input and the points as they were.
fn expect_places(rt: &impl Abort, alloc: Global, cases: &[Case]) -> Result<(), test::Fail> {
    for (case, input, points, expected, output) in cases {
        let mut files = shelf_with(alloc, input.as_bytes(), points.as_bytes(), &[])?;
        let came = answer(alloc, "locate in points out", &mut files)?;
        assert_eq!(rt; came, *expected, "{case}");
        assert!(rt; files.held("in") == Some(input.as_bytes()), "in: {case}");
        assert!(rt;
            files.held("points") == Some(points.as_bytes()),
            "points: {case}"
        );
        assert!(rt; files.held("out") == Some(output.as_bytes()), "out: {case}");
    }
    Ok(())
}

#[test]
fn each_point_is_on_an_edge_or_in_its_least_member(rt: HostRuntime) -> Result<(), test::Fail> {
    let cases: [Case; 5] = [
        (
            "squares that overlap",
            SQUARES,
            "1 1\n7 5\n10 5\n12 5\n20 5\n0 0\n",
            Outcome::Done,
            "0\n0\nedge\n1\nnone\nedge\n",
        ),
        ("no points", SQUARES, "", Outcome::Done, ""),
        ("no members", "", "0 0\n", Outcome::Done, "none\n"),
        (
            "vertices, and points on lines through horizontal and vertical sides",
            SQUARE,
            "10 0\n10 10\n0 10\n4 0\n4 10\n0 4\n10 4\n-1 0\n11 0\n-1 10\n11 10\n0 -1\n0 11\n10 -1\n10 11\n1 1\n9 1\n9 9\n1 9\n",
            Outcome::Done,
            "edge\nedge\nedge\nedge\nedge\nedge\nedge\nnone\nnone\nnone\nnone\nnone\nnone\nnone\nnone\n0\n0\n0\n0\n",
        ),
        (
            "a slanted side has the grid points on it alone",
            "POLYGON ((0 0, 6 4, 0 4, 0 0))\n",
            "3 2\n3 3\n2 1\n4 3\n2 2\n",
            Outcome::Done,
            "edge\n0\nnone\n0\n0\n",
        ),
    ];
    expect_places(&rt, rt.alloc(), &cases)
}

#[test]
fn rings_of_a_member_count_together(rt: HostRuntime) -> Result<(), test::Fail> {
    let cases: [Case; 3] = [
        (
            "a hole that is drawn as a polygon of its own",
            "MULTIPOLYGON (((0 0, 10 0, 10 10, 0 10, 0 0)), ((3 3, 6 3, 6 6, 3 6, 3 3)))\nPOLYGON ((2 2, 8 2, 8 8, 2 8, 2 2))\n",
            "1 1\n7 7\n4 4\n6 5\n",
            Outcome::Done,
            "0\n0\n1\nedge\n",
        ),
        (
            "an island in a hole",
            "POLYGON ((0 0, 9 0, 9 9, 0 9, 0 0), (2 2, 2 7, 7 7, 7 2, 2 2), (4 4, 6 4, 6 6, 4 6, 4 4))\n",
            "1 1\n3 3\n5 5\n",
            Outcome::Done,
            "0\nnone\n0\n",
        ),
        (
            "a square that is drawn twice in one member holds nothing",
            "MULTIPOLYGON (((0 0, 10 0, 10 10, 0 10, 0 0)), ((0 0, 10 0, 10 10, 0 10, 0 0)))\n",
            "5 5\n10 5\n",
            Outcome::Done,
            "none\nedge\n",
        ),
    ];
    expect_places(&rt, rt.alloc(), &cases)
}

#[test]
fn points_at_the_border_of_the_range_are_located(rt: HostRuntime) -> Result<(), test::Fail> {
    let cases: [Case; 2] = [
        (
            "a square on all four border lines",
            "POLYGON ((-268435456 -268435456, 268435456 -268435456, 268435456 268435456, -268435456 268435456, -268435456 -268435456))\n",
            "268435456 268435456\n-268435456 0\n268435455 268435455\n-268435455 -268435455\n",
            Outcome::Done,
            "edge\nedge\n0\n0\n",
        ),
        (
            "a square in a corner",
            "POLYGON ((268435446 268435446, 268435456 268435446, 268435456 268435456, 268435446 268435456, 268435446 268435446))\n",
            "268435450 268435450\n268435450 268435456\n-268435456 268435456\n268435456 -268435456\n",
            Outcome::Done,
            "0\nedge\nnone\nnone\n",
        ),
    ];
    expect_places(&rt, rt.alloc(), &cases)
}

#[test]
fn a_hundred_members_over_one_point(rt: HostRuntime) -> Result<(), test::Fail> {
    // Member k reaches 2k + 1 units each way.
    let mut input = String::new(rt.alloc());
    for k in 0..100u32 {
        let half = 2 * k + 1;
        let square = format!(in rt.alloc();
            "POLYGON ((-{half} -{half}, {half} -{half}, {half} {half}, -{half} {half}, -{half} -{half}))\n"
        )?;
        input.push_str(&square)?;
    }
    let case = (
        "squares round one point",
        input.as_str(),
        "0 0\n50 -20\n101 0\n-198 198\n200 0\n",
        Outcome::Done,
        "0\n25\nedge\n99\nnone\n",
    );
    expect_places(&rt, rt.alloc(), &[case])
}

#[test]
fn white_space_and_line_ends_of_points(rt: HostRuntime) -> Result<(), test::Fail> {
    let cases: [Case; 3] = [
        (
            "tabs, carriage returns, signs and zeros",
            SQUARES,
            "1 1\r\n\t+7\t5 \r\n \t12  005\r\n20\t-0\n",
            Outcome::Done,
            "0\n0\n1\nnone\n",
        ),
        (
            "blank lines have no row",
            SQUARES,
            "\n\n1 1\n \t\r\n12 5\n\n",
            Outcome::Done,
            "0\n1\n",
        ),
        (
            "the last line may lack its end",
            SQUARES,
            "20 5\n12 5",
            Outcome::Done,
            "none\n1\n",
        ),
    ];
    expect_places(&rt, rt.alloc(), &cases)
}

#[test]
fn the_first_faulty_line_of_points_is_answered(rt: HostRuntime) -> Result<(), test::Fail> {
    let syntax = |line| Outcome::BadPoints(PointsFault::Syntax { line });
    let range = |line| Outcome::BadPoints(PointsFault::OutOfRange { line });
    let cases: [Case; 8] = [
        ("a word", SQUARES, "1 1\n\n1 x\n", syntax(2), BEFORE),
        (
            "one past the range",
            SQUARES,
            "3 268435457\n",
            range(0),
            BEFORE,
        ),
        ("one number", SQUARES, "1 1\n7\n", syntax(1), BEFORE),
        ("three numbers", SQUARES, "1 1 1", syntax(0), BEFORE),
        ("a fraction", SQUARES, "1 1\n1.0 1\n", syntax(1), BEFORE),
        (
            "both numbers out of range and then a word",
            SQUARES,
            " \n-268435457 99999999999999999999\nx\n",
            range(1),
            BEFORE,
        ),
        (
            "a line out of range that is no point either",
            SQUARES,
            "268435457\n",
            syntax(0),
            BEFORE,
        ),
        (
            "a fault of the input comes first",
            "POLYGON",
            "x\n",
            Outcome::BadText(TextFault::Syntax { at: 7 }),
            BEFORE,
        ),
    ];
    expect_places(&rt, rt.alloc(), &cases)
}

#[test]
fn both_inputs_are_read_before_either_is_parsed(rt: HostRuntime) -> Result<(), test::Fail> {
    let syntax = Outcome::BadText(TextFault::Syntax { at: 0 });
    for (line, expected) in [
        ("locate none points out", Outcome::ReadFault),
        ("locate points none out", Outcome::ReadFault),
        ("locate points in out", syntax),
        ("locate in points none", Outcome::WriteFault),
        ("locate in points", Outcome::Usage),
        ("locate in points out --scale 0", Outcome::Usage),
    ] {
        let mut files = shelf_with(rt.alloc(), SQUARES.as_bytes(), b"1 1\n", &[])?;
        let came = answer(rt.alloc(), line, &mut files)?;
        assert_eq!(rt; came, expected, "{line}");
        assert!(rt; files.held("out") == Some(BEFORE.as_bytes()), "{line}");
    }
    Ok(())
}

#[test]
fn a_read_of_either_input_may_fail(rt: HostRuntime) -> Result<(), test::Fail> {
    // The squares take two reads of at most 64 bytes and one that finds the end; the points take two more.
    for (call, nth, expected) in [
        (Call::OpenInput, 1, Outcome::ReadFault),
        (Call::OpenInput, 2, Outcome::Done),
        (Call::Read, 2, Outcome::ReadFault),
        (Call::Read, 3, Outcome::ReadFault),
        (Call::Read, 4, Outcome::ReadFault),
        (Call::Read, 5, Outcome::Done),
    ] {
        let fails = [Fail { call, nth }];
        let mut files = shelf_with(rt.alloc(), SQUARES.as_bytes(), b"1 1\n", &fails)?;
        let came = answer(rt.alloc(), "locate in points out", &mut files)?;
        assert_eq!(rt; came, expected, "{call:?} {nth}");
    }
    Ok(())
}

#[test]
fn an_input_that_is_too_long(rt: HostRuntime) -> Result<(), test::Fail> {
    let alloc = rt.alloc();
    let mut files = Vec::new(alloc);
    files.push(file(alloc, "in", SQUARES.as_bytes())?)?;
    files.push(file(alloc, "long", b"")?)?;
    files.push(file(alloc, "out", BEFORE.as_bytes())?)?;
    files[1].bytes.resize(LONGEST_INPUT + 1, b' ')?;
    let mut shelf = Shelf::new(alloc, files, Vec::new(alloc), LONGEST_INPUT, LONGEST_INPUT)?;
    for line in ["locate in long out", "locate long none out"] {
        let came = answer(alloc, line, &mut shelf)?;
        assert_eq!(rt; came, Outcome::TooLong, "{line}");
        assert!(rt; shelf.held("out") == Some(BEFORE.as_bytes()), "{line}");
    }
    Ok(())
}

#[test]
fn points_are_text_whatever_their_name(rt: HostRuntime) -> Result<(), test::Fail> {
    let document = "{\"type\":\"Polygon\",\"coordinates\":[[[0,0],[10,0],[10,10],[0,10],[0,0]]]}";
    let mut files = shelf_with(rt.alloc(), SQUARES.as_bytes(), b"1 1\n12 5\n", &[])?;
    let came = answer(rt.alloc(), "locate in points.json out", &mut files)?;
    assert_eq!(rt; came, Outcome::Done);
    assert!(rt; files.held("out") == Some(b"0\n1\n".as_slice()));
    let came = answer(rt.alloc(), "locate in points points.json", &mut files)?;
    assert_eq!(rt; came, Outcome::Done);
    assert!(rt; files.held("points.json") == Some(b"0\n1\n".as_slice()));

    let mut files = shelf_with(rt.alloc(), b"1 1\n12 5\n", document.as_bytes(), &[])?;
    let came = answer(rt.alloc(), "locate points.json in in", &mut files)?;
    assert_eq!(rt; came, Outcome::Done);
    assert!(rt; files.held("in") == Some(b"0\nnone\n".as_slice()));
    Ok(())
}

#[test]
fn each_fault_of_points_has_its_status_and_its_message(rt: HostRuntime) -> Result<(), test::Fail> {
    for (fault, text) in [
        (PointsFault::Syntax { line: 2 }, "points: syntax in line 2"),
        (
            PointsFault::OutOfRange {
                line: 18_446_744_073_709_551_615,
            },
            "points: out of range in line 18446744073709551615",
        ),
    ] {
        let outcome = Outcome::BadPoints(fault);
        assert_eq!(rt; status(&outcome), 10, "{text}");
        let line = message(rt.alloc(), &outcome)?;
        assert!(rt; line.as_str() == text, "{text}");
    }
    Ok(())
}
