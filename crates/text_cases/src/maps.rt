use cov_types::{Coord, Poly, Ring, Seg};
use cov_valid::Kind;
use fault_text::{MapFeature, map_text};
use std::alloc::{AllocError, Global};
use std::test::Fail;

fn same(written: &[u8], wanted: &[u8]) -> bool {
    written == wanted
}

fn ring(alloc: Global, places: &[(i32, i32)]) -> Result<Ring, AllocError> {
    let mut points = Vec::new(alloc);
    for (x, y) in places {
        points.push(Coord { x: *x, y: *y })?;
    }
    Ok(Ring { points })
}

/// A square with corners at this distance from the axes, on either side, and a hole in it.
fn frame(alloc: Global, far: i32) -> Result<Poly, AllocError> {
    let shell = ring(alloc, &[(-150, -150), (far, -150), (far, far), (-150, far)])?;
    let hole = ring(alloc, &[(-5, -5), (-5, 5), (50, 5)])?;
    Ok(Poly {
        rings: vec![in alloc; shell, hole]?,
    })
}

fn triangle(alloc: Global) -> Result<Poly, AllocError> {
    let shell = ring(alloc, &[(0, 0), (40, 0), (0, 3)])?;
    Ok(Poly {
        rings: vec![in alloc; shell]?,
    })
}

fn slanted(kind: Kind, member: u32, place: u64) -> Result<MapFeature, &'static str> {
    let lo = Coord { x: -10, y: 25 };
    let hi = Coord { x: 0, y: -3 };
    let segment = Seg::between(hi, lo).ok_or("one point")?;
    Ok(MapFeature::Marked {
        kind,
        member,
        place,
        segment,
    })
}

#[test]
fn no_feature_at_all(rt: HostRuntime) -> Result<(), Fail> {
    let written = map_text(rt.alloc(), &[], None)?;
    assert!(rt;
        same(
            &written,
            b"{\"features\":[],\"type\":\"FeatureCollection\"}\n"
        )
    );
    let scaled = map_text(rt.alloc(), &[], Some(7))?;
    assert!(rt; same(&scaled, &written));
    Ok(())
}

/// A segment of each kind, by the word of the kind.
#[test]
fn segments_by_their_kinds(rt: HostRuntime) -> Result<(), Fail> {
    for (kind, word) in [
        (Kind::Meets, "meets"),
        (Kind::Repeated, "repeated"),
        (Kind::SameSide, "same side"),
        (Kind::Inside, "inside"),
        (Kind::NarrowGap, "narrow gap"),
    ] {
        let features = vec![in rt.alloc(); slanted(kind, 4, 18446744073709551615)?]?;
        let written = map_text(rt.alloc(), &features, None)?;
        let mut wanted = Vec::new(rt.alloc());
        wanted.extend_from_slice(
            b"{\"features\":[{\"geometry\":{\"coordinates\":[[-10,25],[0,-3]],\"type\":\"LineString\"},\"properties\":{\"kind\":\"",
        )?;
        wanted.extend_from_slice(word.as_bytes())?;
        wanted.extend_from_slice(
            b"\",\"member\":4,\"place\":18446744073709551615},\"type\":\"Feature\"}],\"type\":\"FeatureCollection\"}\n",
        )?;
        assert!(rt; same(&written, &wanted), "at {word}");
    }
    Ok(())
}

/// One feature of each kind, without a scale and at two of them; only coordinates are written at a scale.
#[test]
fn each_kind_of_feature_at_scales(rt: HostRuntime) -> Result<(), Fail> {
    let features = vec![in rt.alloc();
        slanted(Kind::Inside, 0, 7)?,
        MapFeature::Overlap {
            members: vec![in rt.alloc(); 0, 2, 10]?,
            area2: 244_450,
            region: 3,
            polygon: frame(rt.alloc(), 200)?,
        },
        MapFeature::Gap {
            area2: 120,
            clearance: 3,
            region: 12,
            members: vec![in rt.alloc(); 1]?,
            polygon: triangle(rt.alloc())?,
        },
    ]?;
    let plain = b"{\"features\":[\
        {\"geometry\":{\"coordinates\":[[-10,25],[0,-3]],\"type\":\"LineString\"},\
        \"properties\":{\"kind\":\"inside\",\"member\":0,\"place\":7},\"type\":\"Feature\"},\
        {\"geometry\":{\"coordinates\":[[[-150,-150],[200,-150],[200,200],[-150,200],[-150,-150]],\
        [[-5,-5],[-5,5],[50,5],[-5,-5]]],\"type\":\"Polygon\"},\
        \"properties\":{\"kind\":\"overlap\",\"members\":[0,2,10],\"area2\":244450,\"region\":3},\"type\":\"Feature\"},\
        {\"geometry\":{\"coordinates\":[[[0,0],[40,0],[0,3],[0,0]]],\"type\":\"Polygon\"},\
        \"properties\":{\"kind\":\"gap\",\"area2\":120,\"clearance\":3,\"region\":12,\"members\":[1]},\"type\":\"Feature\"}\
        ],\"type\":\"FeatureCollection\"}\n";
    let scaled = b"{\"features\":[\
        {\"geometry\":{\"coordinates\":[[-0.1,0.25],[0,-0.03]],\"type\":\"LineString\"},\
        \"properties\":{\"kind\":\"inside\",\"member\":0,\"place\":7},\"type\":\"Feature\"},\
        {\"geometry\":{\"coordinates\":[[[-1.5,-1.5],[2,-1.5],[2,2],[-1.5,2],[-1.5,-1.5]],\
        [[-0.05,-0.05],[-0.05,0.05],[0.5,0.05],[-0.05,-0.05]]],\"type\":\"Polygon\"},\
        \"properties\":{\"kind\":\"overlap\",\"members\":[0,2,10],\"area2\":244450,\"region\":3},\"type\":\"Feature\"},\
        {\"geometry\":{\"coordinates\":[[[0,0],[0.4,0],[0,0.03],[0,0]]],\"type\":\"Polygon\"},\
        \"properties\":{\"kind\":\"gap\",\"area2\":120,\"clearance\":3,\"region\":12,\"members\":[1]},\"type\":\"Feature\"}\
        ],\"type\":\"FeatureCollection\"}\n";
    assert!(rt; same(&map_text(rt.alloc(), &features, None)?, plain));
    assert!(rt; same(&map_text(rt.alloc(), &features, Some(0))?, plain));
    assert!(rt; same(&map_text(rt.alloc(), &features, Some(2))?, scaled));
    Ok(())
}

/// An area below 0, no members, a polygon without a ring and a ring without a point: what no map has is written too.
#[test]
fn what_no_map_has(rt: HostRuntime) -> Result<(), Fail> {
    let bare = ring(rt.alloc(), &[])?;
    let features = vec![in rt.alloc();
        MapFeature::Gap {
            area2: -7,
            clearance: 0,
            region: 0,
            members: Vec::new(rt.alloc()),
            polygon: Poly {
                rings: Vec::new(rt.alloc()),
            },
        },
        MapFeature::Overlap {
            members: Vec::new(rt.alloc()),
            area2: 0,
            region: 1,
            polygon: Poly {
                rings: vec![in rt.alloc(); bare]?,
            },
        },
    ]?;
    let wanted = b"{\"features\":[\
        {\"geometry\":{\"coordinates\":[],\"type\":\"Polygon\"},\
        \"properties\":{\"kind\":\"gap\",\"area2\":-7,\"clearance\":0,\"region\":0,\"members\":[]},\"type\":\"Feature\"},\
        {\"geometry\":{\"coordinates\":[[]],\"type\":\"Polygon\"},\
        \"properties\":{\"kind\":\"overlap\",\"members\":[],\"area2\":0,\"region\":1},\"type\":\"Feature\"}\
        ],\"type\":\"FeatureCollection\"}\n";
    assert!(rt; same(&map_text(rt.alloc(), &features, None)?, wanted));
    Ok(())
}
