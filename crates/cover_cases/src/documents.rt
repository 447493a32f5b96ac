use crate::BEFORE;
use crate::files::file;
use cov_io::Shelf;
use cov_types::NoMemory;
use cover_cli::{Outcome, cover, message, status};
use geo_json::JsonFault;
use geo_text::LONGEST_INPUT;
use std::alloc::Global;
use std::test::Fail;

// Two features: a square with properties, and one with neither a geometry nor properties, but with an id.
const TWO: &str =
    "{\"type\":\"FeatureCollection\",\"name\":\"x\",\"features\":[{\"type\":\"Feature\",\"properties\":{\"name\":\"a\"},\
    \"geometry\":{\"type\":\"Polygon\",\"coordinates\":[[[0,0],[0,10],[10,10],[10,0],[0,0]]]}},\
    {\"type\":\"Feature\",\"id\":7,\"properties\":null,\"geometry\":null}]}";

const TWO_CLEANED: &str =
    "{\"features\":[{\"geometry\":{\"coordinates\":[[[0,0],[10,0],[10,10],[0,10],[0,0]]],\"type\":\"Polygon\"},\
    \"properties\":{\"name\":\"a\"},\"type\":\"Feature\"},\
    {\"geometry\":null,\"id\":7,\"properties\":null,\"type\":\"Feature\"}],\"type\":\"FeatureCollection\"}\n";

// The square alone, as a union has it.
const UNITED: &str =
    "{\"features\":[{\"geometry\":{\"coordinates\":[[[0,0],[10,0],[10,10],[0,10],[0,0]]],\"type\":\"Polygon\"},\
    \"properties\":null,\"type\":\"Feature\"}],\"type\":\"FeatureCollection\"}\n";

// A case: the words, the name of the output, the input, and what the output then holds.
type Case<'a> = (&'a str, &'a str, &'a str, &'a str);

// A shelf with the inputs `a.json` and `a`, which both hold the input, and the outputs `b.json` and `b.wkt`.
fn shelf_with(alloc: Global, input: &str) -> Result<Shelf, NoMemory> {
    let mut files = Vec::new(alloc);
    files.push(file(alloc, "a.json", input.as_bytes())?)?;
    files.push(file(alloc, "a", input.as_bytes())?)?;
    files.push(file(alloc, "b.json", BEFORE.as_bytes())?)?;
    files.push(file(alloc, "b.wkt", BEFORE.as_bytes())?)?;
    Ok(Shelf::new(alloc, files, Vec::new(alloc), LONGEST_INPUT, LONGEST_INPUT)?)
}

// Runs the program on the words of a line.
fn answer(alloc: Global, line: &str, files: &mut Shelf) -> Result<Outcome, Fail> {
    let mut words = Vec::new(alloc);
    for word in line.split_whitespace() {
        words.push(String::from_str(alloc, word)?)?;
    }
    Ok(cover(alloc, &words, files))
}

#[test]
fn each_name_has_its_form(rt: HostRuntime) -> Result<(), Fail> {
    let square = "POLYGON ((0 0, 10 0, 10 10, 0 10, 0 0))\n";
    let text = "POLYGON ((0 0, 10 0, 10 10, 0 10, 0 0))\nPOLYGON EMPTY\n";
    let none = "MULTILINESTRING EMPTY\nMULTILINESTRING EMPTY\n";
    let cases: [Case; 6] = [
        (
            "clean a.json b.json --rule least-index",
            "b.json",
            TWO,
            TWO_CLEANED,
        ),
        (
            "simplify a.json b.json --tolerance 0",
            "b.json",
            TWO_CLEANED,
            TWO_CLEANED,
        ),
        ("clean a.json b.wkt --rule least-index", "b.wkt", TWO, text),
        ("validate a.json b.json", "b.json", TWO, none),
        ("union a.json b.json", "b.json", TWO, UNITED),
        (
            "clean a b.json --rule least-index",
            "b.json",
            square,
            UNITED,
        ),
    ];
    for (line, to, input, expected) in cases {
        let mut files = shelf_with(rt.alloc(), input)?;
        let came = answer(rt.alloc(), line, &mut files)?;
        assert_eq!(rt; came, Outcome::Done, "{line}");
        assert!(rt; files.held(to) == Some(expected.as_bytes()), "{line}");
    }
    Ok(())
}

#[test]
fn a_float_of_the_properties_is_passed_on(rt: HostRuntime) -> Result<(), Fail> {
    let mut files = shelf_with(
        rt.alloc(),
        "{\"type\":\"Feature\",\"properties\":{\"h\":1.5},\"geometry\":{\"type\":\"Polygon\",\"coordinates\":[[[0,0],[4,0],[0,4],[0,0]]]}}",
    )?;
    let came = answer(
        rt.alloc(),
        "clean a.json b.json --rule least-index",
        &mut files,
    )?;
    assert_eq!(rt; came, Outcome::Done, "clean");
    let begin =
        b"{\"features\":[{\"geometry\":{\"coordinates\":[[[0,0],[4,0],[0,4],[0,0]]],\"type\":\"Polygon\"},\"properties\":";
    let end = b",\"type\":\"Feature\"}],\"type\":\"FeatureCollection\"}\n";
    let held = files.held("b.json").unwrap_or(&[]);
    assert!(rt; held.starts_with(begin), "begin");
    assert!(rt; held.ends_with(end), "end");
    Ok(())
}

#[test]
fn faulty_documents_are_refused(rt: HostRuntime) -> Result<(), Fail> {
    let alloc = rt.alloc();
    for (input, fault, line) in [
        ("{", JsonFault::NotJson, "json: not JSON"),
        (
            "{\"type\":\"Point\",\"coordinates\":[0,0]}",
            JsonFault::BadShape { feature: 0 },
            "json: bad shape in feature 0",
        ),
    ] {
        let mut files = shelf_with(alloc, input)?;
        let came = answer(alloc, "node a.json b.wkt", &mut files)?;
        assert_eq!(rt; came, Outcome::BadJson(fault), "{line}");
        assert!(rt; files.held("b.wkt") == Some(BEFORE.as_bytes()), "{line}");
        assert_eq!(rt; status(&came), 5, "{line}");
        assert!(rt; message(alloc, &came)?.as_str() == line, "{line}");
    }
    Ok(())
}
