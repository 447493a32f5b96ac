use cov_types::Coverage;
use geo_text::{LONGEST_INPUT, TextError, TextFault, read_text};
use std::alloc::{AllocError, Global};
use std::test::Fail;

/// The coverage with `m`, `p` and `r` before each member, polygon and ring.
fn shown(alloc: Global, coverage: &Coverage) -> Result<String, AllocError> {
    let mut text = String::new(alloc);
    for member in &coverage.members {
        text.push('m')?;
        for poly in &member.polys {
            text.push('p')?;
            for ring in &poly.rings {
                text.push('r')?;
                for point in &ring.points {
                    let (x, y) = (point.x, point.y);
                    let numbers = format!(in alloc; " {x} {y}")?;
                    text.push_str(numbers.as_str())?;
                }
            }
        }
    }
    Ok(text)
}

fn answer(alloc: Global, text: &[u8]) -> Result<String, Fail> {
    answer_at(alloc, text, None)
}

fn answer_at(alloc: Global, text: &[u8], scale: Option<u8>) -> Result<String, Fail> {
    if scale.unwrap_or(0) > 7 {
        return Ok(String::from_str(alloc, "no scale")?);
    }
    if text.len() > LONGEST_INPUT {
        return Ok(String::from_str(alloc, "too long")?);
    }
    Ok(match read_text(alloc, text, scale) {
        Ok(coverage) => shown(alloc, &coverage)?,
        Err(TextError::Fault(fault)) => named(alloc, fault)?,
        Err(TextError::NoMemory) => String::from_str(alloc, "no memory")?,
    })
}

fn named(alloc: Global, fault: TextFault) -> Result<String, AllocError> {
    match fault {
        TextFault::Syntax { at } => format!(in alloc; "syntax {at}"),
        TextFault::NotPlanar { at } => format!(in alloc; "not planar {at}"),
        TextFault::NotWhole { at } => format!(in alloc; "not whole {at}"),
        TextFault::OutOfRange { at } => format!(in alloc; "out of range {at}"),
        TextFault::RingShort { ring } => format!(in alloc; "short {ring}"),
        TextFault::RingOpen { ring } => format!(in alloc; "open {ring}"),
    }
}

#[test]
fn files_are_read(rt: HostRuntime) -> Result<(), Fail> {
    for (text, want) in [
        ("", ""),
        (" \t\r\n", ""),
        ("POLYGON((0 0,1 0,1 1,0 0))", "mpr 0 0 1 0 1 1"),
        (
            "\npOlYgOn\r\n( ( 0 0 , 10\t0,10 10,\n0 10,0 0 ) )\nPolygon((5 5,6 5,5 6,5 5))",
            "mpr 0 0 10 0 10 10 0 10mpr 5 5 6 5 5 6",
        ),
        (
            "POLYGON ((0 0,9 0,0 9,0 0), (1 1, 2 1, 1 2, 1 1))",
            "mpr 0 0 9 0 0 9r 1 1 2 1 1 2",
        ),
        ("POLYGON((-0 0,-1 0,-1 -1,0 -0))", "mpr 0 0 -1 0 -1 -1"),
        (
            "POLYGON((000000000000000000000000000007 0,1 0,1 1,7 00))",
            "mpr 7 0 1 0 1 1",
        ),
        (
            "POLYGON((-268435456 268435456,0 0,0 0,-268435456 268435456))",
            "mpr -268435456 268435456 0 0 0 0",
        ),
        ("GEOMETRYCOLLECTION EMPTY", ""),
        ("GEOMETRYCOLLECTION (POLYGON EMPTY, POLYGON EMPTY)", "mm"),
        (
            "MULTIPOLYGON (EMPTY, ((0 0, 4 0, 0 4, 0 0)))",
            "mpr 0 0 4 0 0 4",
        ),
        ("multipolygon empty POLYGON EMPTY", "mm"),
        ("POLYGON ((+0 -0, 4. 0, 0 04, .0 0))", "mpr 0 0 4 0 0 4"),
        ("POLYGON ((0 0, 1.0 0, 0 5, 0 0))", "mpr 0 0 1 0 0 5"),
        (
            "\tPOLYGON\r\n(\t(0\t0,\r1\n0,1 1,0 0\t)\n)\r\tPOLYGON EMPTY\n\nMULTIPOLYGON\tEMPTY\r",
            "mpr 0 0 1 0 1 1mm",
        ),
        (
            "GeometryCollection(MultiPolygon(((0 0,1 0,1 1,0 0)),((2 2,3 2,3 3,2 2))),Polygon((5 5,6 5,5 6,5 5)))Polygon Empty",
            "mpr 0 0 1 0 1 1pr 2 2 3 2 3 3mpr 5 5 6 5 5 6m",
        ),
    ] {
        let got = answer(rt.alloc(), text.as_bytes())?;
        assert_eq!(rt; got.as_str(), want, "at {text}");
    }
    Ok(())
}

#[test]
fn each_fault_has_its_place(rt: HostRuntime) -> Result<(), Fail> {
    for (text, want) in [
        ("POLYGONEMPTY", "syntax 7"),
        ("POINT (1 2)", "syntax 2"),
        ("SRID=1;POLYGON EMPTY", "syntax 0"),
        ("POLYGON ((0 0, 1e3 0, 0 1, 0 0))", "syntax 16"),
        ("POLYGON", "syntax 7"),
        ("POLYGON M EMPTY", "not planar 8"),
        ("POLYGONZ", "syntax 7"),
        ("POLYGON ZEMPTY", "syntax 9"),
        ("POLYGON Z M", "syntax 10"),
        ("POLYGON ((0 0, 1", "syntax 16"),
        ("POLYGON ((0 0, 1.", "syntax 17"),
        ("POLYGON ((0 0, +", "syntax 16"),
        ("POLYGON ((0 0, .", "syntax 16"),
        ("POLYGON ((0 0, . ", "syntax 16"),
        ("POLYGON ((0 0, 1.2.3", "syntax 18"),
        ("POLYGON ((0 0, 1-2", "syntax 16"),
        ("POLYGON ((0 0 0 0 0", "syntax 18"),
        ("POLYGON ((0,", "syntax 11"),
        ("POLYGON (EMPTY)", "syntax 9"),
        ("POLYGON ()", "syntax 9"),
        ("MULTIPOLYGON ()", "syntax 14"),
        ("GEOMETRYCOLLECTION (GEOMETRYCOLLECTION EMPTY)", "syntax 20"),
        ("GEOMETRYCOLLECTION (EMPTY)", "syntax 20"),
        ("POLYGON EMPTY)", "syntax 13"),
        ("POLYGON EMPTY,", "syntax 13"),
        ("MULTIPOLYGON(((0 0, 4 0, 0 4, 0 0)) ((", "syntax 36"),
        ("POLYGON((0 0,1 0,1 1,0 0)) x", "syntax 27"),
        ("\u{feff}POLYGON EMPTY", "syntax 0"),
        ("POLYGON ((0 0, 268435457 0, 0 5, 0 0))", "out of range 15"),
        ("POLYGON ((0 0, 1.5 -268435457, 0 5, 0 0))", "not whole 15"),
        (
            "POLYGON ((0 0, 1 -268435457, .5 5, 0 0))",
            "out of range 17",
        ),
        ("POLYGON Z ((0 0 1, 4 0 1, 0 4 1, 0 0 1))", "not planar 8"),
        ("POLYGON ((0 0 1, 4 0 1, 0 4 1, 0 0 1))", "not planar 14"),
        ("POLYGON ((.5 0, 0 0 1))", "not planar 20"),
        ("POLYGON ((0 0 1 2)) POLYGON zM EMPTY", "not planar 14"),
        ("POLYGON ((0 0, 10 0, 0 0))", "short 0"),
        ("POLYGON ((0 0, 10 0, 10 10, 0 10))", "open 0"),
        (
            "POLYGON ((0 0, 1 0, 0 1, 0 0), (0 0)) MULTIPOLYGON (((5 5, 6 6, 7 7, 8 8)))",
            "short 1",
        ),
        (
            "POLYGON ((0 0, 1 0, 0 1, 0 0)) MULTIPOLYGON (((5 5, 6 6, 7 7, 8 8)), ((0 0)))",
            "open 1",
        ),
        (
            "POLYGON ((0 0, 10 0, 999999999999999999999999999999 10, 0 10))",
            "out of range 21",
        ),
    ] {
        let got = answer(rt.alloc(), text.as_bytes())?;
        assert_eq!(rt; got.as_str(), want, "at {text}");
    }
    Ok(())
}

#[test]
fn bytes_that_are_no_text_are_refused(rt: HostRuntime) -> Result<(), Fail> {
    let got = answer(rt.alloc(), &[0xff, 0xfe])?;
    assert_eq!(rt; got.as_str(), "syntax 0");
    Ok(())
}

/// A line, and each of its beginnings: none but the whole is a file.
#[test]
fn beginnings_are_cut_where_they_end(rt: HostRuntime) -> Result<(), Fail> {
    let good = "MULTIPOLYGON (EMPTY, ((+0 0.0, 4. 0, 0 .0, 0 0)))".as_bytes();
    for n in 1..good.len() {
        let got = answer(rt.alloc(), &good[..n])?;
        let want = format!(in rt.alloc(); "syntax {n}")?;
        assert_eq!(rt; got.as_str(), want.as_str(), "at {n}");
    }
    let got = answer(rt.alloc(), good)?;
    assert_eq!(rt; got.as_str(), "mpr 0 0 4 0 0 0");
    Ok(())
}

/// Each mixture of case of a word.
#[test]
fn words_are_read_in_any_case(rt: HostRuntime) -> Result<(), Fail> {
    for mask in 0..128u32 {
        let mut text = Vec::new(rt.alloc());
        for (i, letter) in b"polygon".iter().enumerate() {
            let raised = (mask >> i) & 1 == 1;
            text.push(if raised {
                letter.to_ascii_uppercase()
            } else {
                *letter
            })?;
        }
        text.extend_from_slice(b" eMpTy")?;
        let got = answer(rt.alloc(), text.as_slice())?;
        assert_eq!(rt; got.as_str(), "m", "at {mask}");
    }
    Ok(())
}

#[test]
fn a_million_brackets_are_refused(rt: HostRuntime) -> Result<(), Fail> {
    let mut text = Vec::new(rt.alloc());
    text.extend_from_slice(b"MULTIPOLYGON")?;
    for _ in 0..1_000_000 {
        text.push(b'(')?;
    }
    let got = answer(rt.alloc(), text.as_slice())?;
    assert_eq!(rt; got.as_str(), "syntax 15");
    Ok(())
}

#[test]
fn a_number_of_a_thousand_digits_is_read(rt: HostRuntime) -> Result<(), Fail> {
    for (digit, want) in [(b'0', "mpr 0 0 1 0 1 1"), (b'7', "out of range 9")] {
        let mut text = Vec::new(rt.alloc());
        text.extend_from_slice(b"POLYGON((")?;
        for _ in 0..1000 {
            text.push(digit)?;
        }
        text.extend_from_slice(b" 0,1 0,1 1,0 0))")?;
        let got = answer(rt.alloc(), text.as_slice())?;
        assert_eq!(rt; got.as_str(), want);
    }
    Ok(())
}

/// Numbers at scales: halves go upwards, digits that are missing are 0, and only what comes out must be in range.
#[test]
fn numbers_are_read_at_a_scale(rt: HostRuntime) -> Result<(), Fail> {
    for (scale, number, want) in [
        (2, "-0.005", "0"),
        (2, "-0.0051", "-1"),
        (2, "-0.00500000000000000000000000001", "-1"),
        (2, "-0.0149999", "-1"),
        (2, "-0.015", "-1"),
        (2, "-0.0150", "-1"),
        (2, "-0.01501", "-2"),
        (2, "0.005", "1"),
        (2, "0.004999", "0"),
        (2, "0.0149", "1"),
        (2, "0.015", "2"),
        (2, "+.995", "100"),
        (2, ".5", "50"),
        (2, "3.", "300"),
        (2, "00012.340", "1234"),
        (2, "1.005", "101"),
        (2, "1.994", "199"),
        (0, "1.5", "2"),
        (0, "-1.5", "-1"),
        (0, "-1.51", "-2"),
        (0, "-0.5", "0"),
        (0, "0.49999999999999999999999999999999", "0"),
        (0, "268435456.4999", "268435456"),
        (7, "26.84354564", "268435456"),
        (7, "-26.84354565", "-268435456"),
        (7, "0.0000001", "1"),
    ] {
        let text = format!(in rt.alloc(); "POLYGON (({number} 0, 1 0, 0 1, {number} 0))")?;
        let got = answer_at(rt.alloc(), text.as_bytes(), Some(scale))?;
        let one = match scale {
            0 => "1",
            2 => "100",
            _ => "10000000",
        };
        let want = format!(in rt.alloc(); "mpr {want} 0 {one} 0 0 {one}")?;
        assert_eq!(rt; got.as_str(), want.as_str(), "at {scale} {number}");
    }
    Ok(())
}

#[test]
fn the_range_is_asked_of_what_is_read_at_the_scale(rt: HostRuntime) -> Result<(), Fail> {
    for (scale, number, want) in [
        (7, "26.84354565", "out of range 15"),
        (7, "-26.84354566", "out of range 15"),
        (7, "26.8435457", "out of range 15"),
        (7, "27", "out of range 15"),
        (7, "268435456", "out of range 15"),
        (0, "268435456.5", "out of range 15"),
        (0, "-268435456.500000001", "out of range 15"),
        (2, "999999999999999999999999999999", "out of range 15"),
        (2, "1e3", "syntax 16"),
        (2, "1.2.3", "syntax 18"),
    ] {
        let text = format!(in rt.alloc(); "POLYGON ((0 0, {number} 0, 0 1, 0 0))")?;
        let got = answer_at(rt.alloc(), text.as_bytes(), Some(scale))?;
        assert_eq!(rt; got.as_str(), want, "at {scale} {number}");
    }
    Ok(())
}

/// A fraction is at fault without a scale alone; a ring is closed where its ends are read as one point.
#[test]
fn scales_decide_on_fractions_and_closing(rt: HostRuntime) -> Result<(), Fail> {
    for (scale, text, want) in [
        (None, "POLYGON ((0 0, 1.5 0, 0 5, 0 0))", "not whole 15"),
        (
            Some(0),
            "POLYGON ((0 0, 1.5 0, 0 5, 0 0))",
            "mpr 0 0 2 0 0 5",
        ),
        (
            Some(1),
            "POLYGON ((0.04 0, 1 0, 0 1, 0 -0.05))",
            "mpr 0 0 10 0 0 10",
        ),
        (Some(2), "POLYGON ((0.04 0, 1 0, 0 1, 0 0))", "open 0"),
        (
            Some(2),
            "POLYGON ((0 0, 1.005 0, 1 1.994, 0 0))",
            "mpr 0 0 101 0 100 199",
        ),
    ] {
        let got = answer_at(rt.alloc(), text.as_bytes(), scale)?;
        assert_eq!(rt; got.as_str(), want, "at {text}");
    }
    Ok(())
}
