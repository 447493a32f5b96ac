use cov_types::Coverage;
use feature_files::{FileError, FileFault, bare_features, read_features, text_for};
use geo_json::JsonFault;
use geo_text::TextFault;
use std::test::Fail;

const TEXT: &str = "POLYGON ((0 0, 4 0, 0 4, 0 0))\n";

const JSON: &str =
    "{\"features\":[{\"geometry\":{\"coordinates\":[[[0,0],[4,0],[0,4],[0,0]]],\"type\":\"Polygon\"},\
    \"id\":7,\"properties\":{\"h\":1},\"type\":\"Feature\"}],\"type\":\"FeatureCollection\"}\n";

#[test]
fn each_name_has_its_form(rt: HostRuntime) -> Result<(), Fail> {
    let alloc = rt.alloc();
    let json = read_features(alloc, "a.geojson", None, JSON.as_bytes());
    assert!(rt; json.is_ok(), "GeoJSON");
    if let Ok(features) = json {
        assert!(rt;
            text_for(alloc, "b.json", None, &features)?.as_slice() == JSON.as_bytes(),
            "GeoJSON kept"
        );
        assert!(rt;
            text_for(alloc, "b", None, &features)?.as_slice() == TEXT.as_bytes(),
            "GeoJSON to text"
        );
    }
    let text = read_features(alloc, "a", None, TEXT.as_bytes());
    assert!(rt; text.is_ok(), "text");
    if let Ok(features) = text {
        assert!(rt;
            text_for(alloc, "b", None, &features)?.as_slice() == TEXT.as_bytes(),
            "text kept"
        );
    }
    Ok(())
}

#[test]
fn text_has_a_scale(rt: HostRuntime) -> Result<(), Fail> {
    let alloc = rt.alloc();
    let bytes = "POLYGON ((0 0, 1.005 0, 1 1.994, 0 0))";
    let text = read_features(alloc, "a", Some(2), bytes.as_bytes());
    assert!(rt; text.is_ok(), "decimals");
    if let Ok(features) = text {
        assert!(rt;
            text_for(alloc, "b", Some(2), &features)?.as_slice()
                == "POLYGON ((0 0, 1.01 0, 1 1.99, 0 0))\n".as_bytes(),
            "decimals"
        );
        assert!(rt;
            text_for(alloc, "b", None, &features)?.as_slice()
                == "POLYGON ((0 0, 101 0, 100 199, 0 0))\n".as_bytes(),
            "grid units"
        );
    }
    Ok(())
}

#[test]
fn each_name_has_its_faults(rt: HostRuntime) -> Result<(), Fail> {
    let alloc = rt.alloc();
    match read_features(alloc, "a.json", None, TEXT.as_bytes()) {
        Err(FileError::Fault(fault)) => {
            assert_eq!(rt; fault, FileFault::Json(JsonFault::NotJson), "text");
        }
        _ => assert!(rt; false, "text is no GeoJSON"),
    }
    match read_features(alloc, "a", None, JSON.as_bytes()) {
        Err(FileError::Fault(fault)) => {
            assert_eq!(rt;
                fault,
                FileFault::Text(TextFault::Syntax { at: 0 }),
                "GeoJSON"
            );
        }
        _ => assert!(rt; false, "GeoJSON is no text"),
    }
    Ok(())
}

#[test]
fn no_members_have_no_features(rt: HostRuntime) -> Result<(), Fail> {
    let alloc = rt.alloc();
    let features = bare_features(
        alloc,
        Coverage {
            members: Vec::new(alloc),
        },
    )?;
    let text = text_for(alloc, "b.json", None, &features)?;
    assert!(rt;
        text.as_slice() == "{\"features\":[],\"type\":\"FeatureCollection\"}\n".as_bytes(),
        "written"
    );
    Ok(())
}
