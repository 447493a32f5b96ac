use cov_types::{Coord, Coverage, LIMIT, Member, Poly, Ring, formed, same_coverage};
use cov_write::text_of;
use geo_text::{LONGEST_INPUT, read_text};
use std::alloc::{AllocError, Global};
use std::test::Fail;

fn ring(alloc: Global, places: &[(i32, i32)]) -> Result<Ring, AllocError> {
    let mut points = Vec::new(alloc);
    for (x, y) in places {
        points.push(Coord { x: *x, y: *y })?;
    }
    Ok(Ring { points })
}

/// Whether the text of the coverage is read as an equal coverage, without a scale and at each one.
fn comes_back(alloc: Global, coverage: &Coverage) -> Result<bool, Fail> {
    if !comes_back_at(alloc, coverage, None)? {
        return Ok(false);
    }
    for scale in 0..8u8 {
        if !comes_back_at(alloc, coverage, Some(scale))? {
            return Ok(false);
        }
    }
    Ok(true)
}

fn comes_back_at(alloc: Global, coverage: &Coverage, scale: Option<u8>) -> Result<bool, Fail> {
    if scale.unwrap_or(0) > 7 {
        return Ok(false);
    }
    let text = text_of(alloc, coverage, scale)?;
    if text.len() > LONGEST_INPUT {
        return Ok(false);
    }
    let read = read_text(alloc, &text, scale)?;
    Ok(same_coverage(coverage, &read))
}

#[test]
fn members_of_each_shape_come_back(rt: HostRuntime) -> Result<(), Fail> {
    let alloc = rt.alloc();
    let none = Member {
        polys: Vec::new(alloc),
    };
    let shell = ring(
        alloc,
        &[(-LIMIT, -LIMIT), (LIMIT, -LIMIT), (LIMIT, LIMIT), (-7, 9)],
    )?;
    let hole = ring(alloc, &[(-10, -2), (0, 0), (10, -1)])?;
    let holed = Poly {
        rings: vec![in alloc; shell, hole]?,
    };
    let one = Member {
        polys: vec![in alloc; holed]?,
    };
    let left = Poly {
        rings: vec![in alloc; ring(alloc, &[(0, 0), (0, 0), (0, 0)])?]?,
    };
    let right = Poly {
        rings: vec![in alloc; ring(alloc, &[(100, 20), (-1, 305), (268_435_455, 4)])?]?,
    };
    let two = Member {
        polys: vec![in alloc; left, right]?,
    };
    let coverage = Coverage {
        members: vec![in alloc; none, one, two]?,
    };
    assert!(rt; formed(&coverage));
    assert!(rt; comes_back(alloc, &coverage)?);
    Ok(())
}

#[test]
fn a_coverage_without_members_comes_back(rt: HostRuntime) -> Result<(), Fail> {
    let coverage = Coverage {
        members: Vec::new(rt.alloc()),
    };
    assert!(rt; comes_back(rt.alloc(), &coverage)?);
    Ok(())
}
