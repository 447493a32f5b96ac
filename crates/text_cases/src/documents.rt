use geo_json::{Features, JsonError, JsonFault, read_json};
use geo_text::LONGEST_INPUT;
use std::alloc::{AllocError, Global};
use std::process::Abort;
use std::test::Fail;

/// Each member with its polygons, rings and points, and behind it its properties and its id.
fn shown(alloc: Global, features: &Features) -> Result<String, AllocError> {
    let mut text = String::new(alloc);
    for member in &features.coverage.members {
        text.push('m')?;
        for poly in &member.polys {
            text.push('p')?;
            for ring in &poly.rings {
                text.push('r')?;
                for point in &ring.points {
                    let (x, y) = (point.x, point.y);
                    text.push_str(format!(in alloc; " {x} {y}")?.as_str())?;
                }
            }
        }
    }
    for list in [&features.properties, &features.ids] {
        for value in list {
            text.push(' ')?;
            text.push_str(value.to_string(alloc)?.as_str())?;
        }
    }
    Ok(text)
}

fn named(alloc: Global, fault: JsonFault) -> Result<String, AllocError> {
    match fault {
        JsonFault::NotJson => String::from_str(alloc, "not json"),
        JsonFault::BadShape { feature } => format!(in alloc; "bad shape {feature}"),
        JsonFault::NotPlanar { feature } => format!(in alloc; "not planar {feature}"),
        JsonFault::NotWhole { feature } => format!(in alloc; "not whole {feature}"),
        JsonFault::OutOfRange { feature } => format!(in alloc; "out of range {feature}"),
        JsonFault::RingShort { ring } => format!(in alloc; "short {ring}"),
        JsonFault::RingOpen { ring } => format!(in alloc; "open {ring}"),
    }
}

fn answer(alloc: Global, text: &[u8]) -> Result<String, Fail> {
    if text.len() > LONGEST_INPUT {
        return Ok(String::from_str(alloc, "too long")?);
    }
    Ok(match read_json(alloc, text) {
        Ok(features) => shown(alloc, &features)?,
        Err(JsonError::Fault(fault)) => named(alloc, fault)?,
        Err(JsonError::NoMemory) => String::from_str(alloc, "no memory")?,
    })
}

/// The answer on a text is the one that is wanted.
fn expect(alloc: Global, rt: &impl Abort, text: &str, want: &str) -> Result<(), Fail> {
    let got = answer(alloc, text.as_bytes())?;
    assert_eq!(rt; got.as_str(), want, "at {text}");
    Ok(())
}

#[test]
fn documents_are_read(rt: HostRuntime) -> Result<(), Fail> {
    for (text, want) in [
        (
            r#"{"type":"FeatureCollection","name":"x","features":[{"type":"Feature","properties":{"name":"a"},"geometry":{"type":"Polygon","coordinates":[[[0,0],[0,10],[10,10],[10,0],[0,0]]]}},{"type":"Feature","id":7,"properties":null,"geometry":null}]}"#,
            r#"mpr 0 0 0 10 10 10 10 0m {"name":"a"} null null 7"#,
        ),
        (
            r#"{"type":"Feature","geometry":{"type":"MultiPolygon","coordinates":[[],[[[0,0],[4,0],[0,4],[0,0]],[[1,1],[2,1],[1,2],[1,1]]]]},"id":"a","bbox":[]}"#,
            r#"mpr 0 0 4 0 0 4r 1 1 2 1 1 2 null "a""#,
        ),
        (
            r#" {"coordinates":[[[-268435456,268435456],[0,0],[0,0],[-268435456,268435456]]],"type":"Polygon","id":1} "#,
            "mpr -268435456 268435456 0 0 0 0 null null",
        ),
        (
            r#"{"type":"Point","type":"Polygon","coordinates":[[0]],"coordinates":[]}"#,
            "m null null",
        ),
        (
            r#"{"type":"Feature","id":18446744073709551615,"properties":[1,{"b":2,"a":-3}]}"#,
            r#"m [1,{"a":-3,"b":2}] 18446744073709551615"#,
        ),
        (r#"{"type":"FeatureCollection","features":[]}"#, ""),
    ] {
        expect(rt.alloc(), &rt, text, want)?;
    }
    Ok(())
}

#[test]
fn what_is_no_json_is_refused(rt: HostRuntime) -> Result<(), Fail> {
    for (text, want) in [
        ("", "not json"),
        ("{", "not json"),
        ("\u{feff}{}", "not json"),
        (r#"{"type":"Feature","x":1e999}"#, "not json"),
    ] {
        expect(rt.alloc(), &rt, text, want)?;
    }
    Ok(())
}

#[test]
fn other_shapes_are_refused(rt: HostRuntime) -> Result<(), Fail> {
    for (text, want) in [
        (r#"{"type":"FeatureCollection"}"#, "bad shape 0"),
        (
            r#"{"type":"FeatureCollection","features":{}}"#,
            "bad shape 0",
        ),
        (r#"{"type":"Point","coordinates":[0,0]}"#, "bad shape 0"),
        (r#"{"coordinates":[]}"#, "bad shape 0"),
        (r#"{"type":"Polygon"}"#, "bad shape 0"),
        (
            r#"{"type":"Feature","geometry":{"type":"Point","coordinates":[0,0]}}"#,
            "bad shape 0",
        ),
        (
            r#"{"type":"FeatureCollection","features":[{"type":"Feature"},{"type":"Polygon","coordinates":[]}]}"#,
            "bad shape 1",
        ),
        (r#"{"type":"Polygon","coordinates":[[0,0]]}"#, "bad shape 0"),
        (r#"{"type":"Polygon","coordinates":[[[0]]]}"#, "bad shape 0"),
        (
            r#"{"type":"Polygon","coordinates":[[[0,0,"z"]]]}"#,
            "bad shape 0",
        ),
        (
            r#"{"type":"MultiPolygon","coordinates":[[[0,0]]]}"#,
            "bad shape 0",
        ),
        (
            r#"{"type":"Polygon","coordinates":[[[0,0,0]],[[0.5,null]]]}"#,
            "bad shape 0",
        ),
    ] {
        expect(rt.alloc(), &rt, text, want)?;
    }
    Ok(())
}

#[test]
fn faulty_positions_and_numbers_are_refused(rt: HostRuntime) -> Result<(), Fail> {
    for (text, want) in [
        (
            r#"{"type":"Polygon","coordinates":[[[0,0],[4,0,1],[0,4],[0,0]]]}"#,
            "not planar 0",
        ),
        (
            r#"{"type":"Polygon","coordinates":[[[0.5,0]],[[0,0,0]]]}"#,
            "not planar 0",
        ),
        (
            r#"{"type":"Polygon","coordinates":[[[0,0],[10.0,0],[0,4],[0,0]]]}"#,
            "not whole 0",
        ),
        (
            r#"{"type":"Polygon","coordinates":[[[0,0],[1.5,0],[0,5],[0,0]]]}"#,
            "not whole 0",
        ),
        (
            r#"{"type":"Polygon","coordinates":[[[0,-0]]]}"#,
            "not whole 0",
        ),
        (
            r#"{"type":"Polygon","coordinates":[[[0,18446744073709551616],[268435457,0]]]}"#,
            "not whole 0",
        ),
        (
            r#"{"type":"Polygon","coordinates":[[[0,18446744073709551615],[0.5,0]]]}"#,
            "out of range 0",
        ),
        (
            r#"{"type":"Polygon","coordinates":[[[0,-268435457],[0,0]]]}"#,
            "out of range 0",
        ),
        (
            r#"{"type":"FeatureCollection","features":[{"type":"Feature","geometry":{"type":"Polygon","coordinates":[[[0,0.5]]]}},{"type":"Feature","geometry":{"type":"Polygon","coordinates":[[[0,0,0]]]}}]}"#,
            "not whole 0",
        ),
    ] {
        expect(rt.alloc(), &rt, text, want)?;
    }
    Ok(())
}

#[test]
fn short_and_open_rings_are_refused(rt: HostRuntime) -> Result<(), Fail> {
    for (text, want) in [
        (
            r#"{"type":"Polygon","coordinates":[[[0,0],[4,0],[0,0]],[[0,0],[4,0],[0,4],[1,0]]]}"#,
            "short 0",
        ),
        (
            r#"{"type":"Polygon","coordinates":[[[0,0],[4,0],[0,4],[0,0]],[[0,0],[4,0],[0,4],[0,1]]]}"#,
            "open 1",
        ),
        (
            r#"{"type":"FeatureCollection","features":[{"type":"Feature","geometry":{"type":"Polygon","coordinates":[[[0,0],[4,0],[0,4],[0,0]]]}},{"type":"Feature","geometry":{"type":"MultiPolygon","coordinates":[[],[[]]]}},{}]}"#,
            "short 1",
        ),
    ] {
        expect(rt.alloc(), &rt, text, want)?;
    }
    Ok(())
}

#[test]
fn arrays_nest_127_deep(rt: HostRuntime) -> Result<(), Fail> {
    for (depth, want) in [
        (100, "bad shape 0"),
        (127, "bad shape 0"),
        (128, "not json"),
        (200, "not json"),
    ] {
        let mut text = Vec::new(rt.alloc());
        for _ in 0..depth {
            text.push(b'[')?;
        }
        for _ in 0..depth {
            text.push(b']')?;
        }
        let got = answer(rt.alloc(), text.as_slice())?;
        assert_eq!(rt; got.as_str(), want, "at {depth}");
    }
    let got = answer(rt.alloc(), &[0xff, 0xfe])?;
    assert_eq!(rt; got.as_str(), "not json");
    Ok(())
}
