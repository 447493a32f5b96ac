use geo_json::{Features, read_json};
use geo_text::LONGEST_INPUT;
use json_write::json_of;
use std::alloc::Global;
use std::test::Fail;

/// What is written of a document.
fn written(alloc: Global, text: &[u8]) -> Result<Vec<u8>, Fail> {
    if text.len() > LONGEST_INPUT {
        return Ok(Vec::new(alloc));
    }
    let features: Features = read_json(alloc, text).map_err(|_e| "not read")?;
    Ok(json_of(alloc, &features)?)
}

fn is_read(alloc: Global, text: &[u8]) -> bool {
    text.len() <= LONGEST_INPUT && read_json(alloc, text).is_ok()
}

fn same(a: &[u8], b: &[u8]) -> bool {
    a == b
}

#[test]
fn documents_are_written(rt: HostRuntime) -> Result<(), Fail> {
    for (text, want) in [
        (
            r#"{"type":"FeatureCollection","name":"x","features":[{"type":"Feature","properties":{"name":"a"},"geometry":{"type":"Polygon","coordinates":[[[0,0],[10,0],[10,10],[0,10],[0,0]]]}},{"type":"Feature","id":7,"properties":null,"geometry":null}]}"#,
            "{\"features\":[{\"geometry\":{\"coordinates\":[[[0,0],[10,0],[10,10],[0,10],[0,0]]],\"type\":\"Polygon\"},\"properties\":{\"name\":\"a\"},\"type\":\"Feature\"},{\"geometry\":null,\"id\":7,\"properties\":null,\"type\":\"Feature\"}],\"type\":\"FeatureCollection\"}\n",
        ),
        (
            r#"{"type":"MultiPolygon","coordinates":[[[[0,0],[4,0],[0,-4],[0,0]]],[[[5,5],[6,5],[5,6],[5,5]]]]}"#,
            "{\"features\":[{\"geometry\":{\"coordinates\":[[[[0,0],[4,0],[0,-4],[0,0]]],[[[5,5],[6,5],[5,6],[5,5]]]],\"type\":\"MultiPolygon\"},\"properties\":null,\"type\":\"Feature\"}],\"type\":\"FeatureCollection\"}\n",
        ),
        (
            r#"{"type":"FeatureCollection","features":[]}"#,
            "{\"features\":[],\"type\":\"FeatureCollection\"}\n",
        ),
    ] {
        let got = written(rt.alloc(), text.as_bytes())?;
        assert!(rt; same(got.as_slice(), want.as_bytes()), "at {text}");
    }
    Ok(())
}

#[test]
fn what_is_written_comes_back(rt: HostRuntime) -> Result<(), Fail> {
    for text in [
        r#"{"type":"FeatureCollection","features":[]}"#,
        r#"{"type":"Feature","properties":{"h":1.5,"a":[-0.0,1e300,18446744073709551616]},"id":-0.25,"geometry":null}"#,
        r#"{"type":"Feature","properties":["\u00e9\n\"",{"":null}],"id":"a","geometry":{"type":"MultiPolygon","coordinates":[[[[-268435456,268435456],[0,-7],[7,0],[-268435456,268435456]]],[[[5,5],[6,5],[5,6],[5,5]]]]}}"#,
    ] {
        let once = written(rt.alloc(), text.as_bytes())?;
        let twice = written(rt.alloc(), once.as_slice())?;
        assert!(rt; !once.is_empty(), "at {text}");
        assert!(rt; same(once.as_slice(), twice.as_slice()), "at {text}");
    }
    Ok(())
}

#[test]
fn properties_come_back_124_deep(rt: HostRuntime) -> Result<(), Fail> {
    for (depth, comes_back) in [(124, true), (125, false)] {
        let mut text = Vec::new(rt.alloc());
        text.extend_from_slice(b"{\"type\":\"Feature\",\"properties\":")?;
        for _ in 0..depth {
            text.push(b'[')?;
        }
        for _ in 0..depth {
            text.push(b']')?;
        }
        text.push(b'}')?;
        let once = written(rt.alloc(), text.as_slice())?;
        assert_eq!(rt;
            is_read(rt.alloc(), once.as_slice()),
            comes_back,
            "at {depth}"
        );
    }
    Ok(())
}
