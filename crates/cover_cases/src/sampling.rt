use crate::files::file;
use crate::tests::{answer, holds};
use crate::{BEFORE, shelf_of};
use cov_io::Shelf;
use cov_types::NoMemory;
use cover_cli::{Outcome, message};
use geo_text::LONGEST_INPUT;
use std::alloc::Global;
use std::process::Abort;
use std::test;

// The FNV-1a digest, by which long texts are compared with those of `tools/sample.py` and `tools/simplify.py`.
fn digest(bytes: &[u8]) -> u64 {
    let mut hash: u64 = 0xCBF2_9CE4_8422_2325;
    for byte in bytes {
        hash = (hash ^ *byte as u64).wrapping_mul(0x0100_0000_01B3);
    }
    hash
}

fn digest_of(files: &Shelf, name: &str) -> u64 {
    match files.held(name) {
        Some(bytes) => digest(bytes),
        None => 0,
    }
}

// The files `in` and `out` with room for a long text.
fn empty_shelf(alloc: Global) -> Result<Shelf, NoMemory> {
    shelf_of(alloc, &[], &[], LONGEST_INPUT, LONGEST_INPUT)
}

#[test]
fn a_sample_of_one_cell(rt: HostRuntime) -> Result<(), test::Fail> {
    let alloc = rt.alloc();
    let one = Outcome::Sampled {
        members: 1,
        polygons: 1,
        points: 4,
    };
    for (line, name, text) in [
        (
            "sample 1 0 out.wkt",
            "out.wkt",
            "POLYGON ((-1 0, 64 0, 63 63, 1 64, -1 0))\n",
        ),
        (
            "sample 1 0 out.json",
            "out.json",
            "{\"features\":[{\"geometry\":{\"coordinates\":[[[-1,0],[64,0],[63,63],[1,64],[-1,0]]],\"type\":\"Polygon\"},\
             \"properties\":null,\"type\":\"Feature\"}],\"type\":\"FeatureCollection\"}\n",
        ),
    ] {
        let mut stored = Vec::new(alloc);
        stored.push(file(alloc, name, BEFORE.as_bytes())?)?;
        let mut files = Shelf::new(alloc, stored, Vec::new(alloc), LONGEST_INPUT, LONGEST_INPUT)?;
        assert_eq!(rt; answer(alloc, line, &mut files)?, one, "{line}");
        assert!(rt; holds(&files, name, text), "{line}");
    }
    let told = message(alloc, &one)?;
    assert!(rt; told.as_str() == "sampled: members 1, polygons 1, points 4");
    Ok(())
}

#[test]
fn a_sample_has_1_to_400_cells_on_a_side(rt: HostRuntime) -> Result<(), test::Fail> {
    let alloc = rt.alloc();
    for (line, expected) in [
        ("sample 0 1 out", Outcome::Usage),
        ("sample 401 1 out", Outcome::Usage),
        ("sample 1 4294967296 out", Outcome::Usage),
        ("sample 1 1", Outcome::Usage),
        ("sample 1 1 none", Outcome::WriteFault),
    ] {
        let mut files = empty_shelf(alloc)?;
        assert_eq!(rt; answer(alloc, line, &mut files)?, expected, "{line}");
        assert!(rt; holds(&files, "out", BEFORE), "{line}");
    }
    Ok(())
}

// The counts and the digests are those of tools/sample.py, and of tools/simplify.py on what it writes.
#[test]
fn a_sample_of_144_cells_is_simplified(rt: HostRuntime) -> Result<(), test::Fail> {
    let alloc = rt.alloc();
    let mut files = empty_shelf(alloc)?;
    let sampled = Outcome::Sampled {
        members: 144,
        polygons: 144,
        points: 1246,
    };
    assert_eq!(rt; answer(alloc, "sample 12 1 in", &mut files)?, sampled);
    assert_eq!(rt; digest_of(&files, "in"), 0x3B1C_2DA8_3357_CF5A);
    let line = "simplify in out --tolerance 12";
    assert_eq!(rt; answer(alloc, line, &mut files)?, Outcome::Done);
    assert_eq!(rt; digest_of(&files, "out"), 0x5682_2741_70A3_FBB8);
    Ok(())
}

// Makes the large sample, with the counts and the digest of tools/sample.py.
fn large_sample(rt: &impl Abort, alloc: Global) -> Result<Shelf, test::Fail> {
    let mut files = empty_shelf(alloc)?;
    let sampled = Outcome::Sampled {
        members: 3600,
        polygons: 3617,
        points: 34573,
    };
    assert_eq!(rt; answer(alloc, "sample 60 1 in", &mut files)?, sampled);
    assert_eq!(rt; digest_of(&files, "in"), 0xFB10_61DF_9F78_7123);
    Ok(files)
}

#[test]
fn a_sample_of_3600_cells_is_valid(rt: HostRuntime) -> Result<(), test::Fail> {
    let alloc = rt.alloc();
    let mut files = large_sample(&rt, alloc)?;
    assert_eq!(rt;
        answer(alloc, "validate in out", &mut files)?,
        Outcome::Done
    );
    Ok(())
}

#[test]
fn a_sample_of_3600_cells_is_simplified(rt: HostRuntime) -> Result<(), test::Fail> {
    let alloc = rt.alloc();
    let mut files = large_sample(&rt, alloc)?;
    let line = "simplify in out --tolerance 12";
    assert_eq!(rt; answer(alloc, line, &mut files)?, Outcome::Done);
    Ok(())
}
