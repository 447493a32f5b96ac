use cov_types::{Coord, Coverage, Member, Poly, Ring, Seg};
use cov_write::{
    append_edge_row, append_inner_row, append_member_row, append_none_row, append_outer_row,
    lines_of, text_of,
};
use std::alloc::{AllocError, Global};
use std::test::Fail;

fn same(written: &[u8], wanted: &[u8]) -> bool {
    written == wanted
}

fn ring(alloc: Global, places: &[(i32, i32)]) -> Result<Ring, AllocError> {
    let mut points = Vec::new(alloc);
    for (x, y) in places {
        points.push(Coord { x: *x, y: *y })?;
    }
    Ok(Ring { points })
}

#[test]
fn a_member_without_polygons_and_a_square(rt: HostRuntime) -> Result<(), Fail> {
    let square = ring(rt.alloc(), &[(0, 0), (10, 0), (10, 10), (0, 10)])?;
    let poly = Poly {
        rings: vec![in rt.alloc(); square]?,
    };
    let none = Member {
        polys: Vec::new(rt.alloc()),
    };
    let one = Member {
        polys: vec![in rt.alloc(); poly]?,
    };
    let coverage = Coverage {
        members: vec![in rt.alloc(); none, one]?,
    };
    let written = text_of(rt.alloc(), &coverage, None)?;
    let wanted = b"POLYGON EMPTY\n\
        POLYGON ((0 0, 10 0, 10 10, 0 10, 0 0))\n";
    assert!(rt; same(&written, wanted));
    Ok(())
}

#[test]
fn no_members_are_the_empty_text(rt: HostRuntime) -> Result<(), Fail> {
    let coverage = Coverage {
        members: Vec::new(rt.alloc()),
    };
    assert!(rt; text_of(rt.alloc(), &coverage, None)?.is_empty());
    assert!(rt; lines_of(rt.alloc(), &[], None)?.is_empty());
    Ok(())
}

#[test]
fn two_polygons_a_hole_a_bare_ring_and_both_ends_of_the_range(rt: HostRuntime) -> Result<(), Fail> {
    let shell = ring(
        rt.alloc(),
        &[(i32::MIN, i32::MIN), (i32::MAX, -1), (7, i32::MAX)],
    )?;
    let hole = ring(rt.alloc(), &[(-10, 0), (100, 20), (3, 9999)])?;
    let bare = ring(rt.alloc(), &[])?;
    let point = ring(rt.alloc(), &[(5, -5)])?;
    let holed = Poly {
        rings: vec![in rt.alloc(); shell, hole]?,
    };
    let odd = Poly {
        rings: vec![in rt.alloc(); bare, point]?,
    };
    let two = Member {
        polys: vec![in rt.alloc(); holed, odd]?,
    };
    let coverage = Coverage {
        members: vec![in rt.alloc(); two]?,
    };
    let written = text_of(rt.alloc(), &coverage, None)?;
    let wanted = b"MULTIPOLYGON (\
        ((-2147483648 -2147483648, 2147483647 -1, 7 2147483647, -2147483648 -2147483648), \
        (-10 0, 100 20, 3 9999, -10 0)), \
        ((), (5 -5, 5 -5)))\n";
    assert!(rt; same(&written, wanted));
    Ok(())
}

#[test]
fn an_empty_list_and_one_segment(rt: HostRuntime) -> Result<(), Fail> {
    let unit = Seg::between(Coord { x: 0, y: 0 }, Coord { x: 1, y: 0 }).ok_or("one point")?;
    let lists = vec![in rt.alloc(); Vec::new(rt.alloc()), vec![in rt.alloc(); unit]?]?;
    let written = lines_of(rt.alloc(), &lists, None)?;
    let wanted = b"MULTILINESTRING EMPTY\nMULTILINESTRING ((0 0, 1 0))\n";
    assert!(rt; same(&written, wanted));
    Ok(())
}

#[test]
fn several_segments_share_a_line(rt: HostRuntime) -> Result<(), Fail> {
    let zero = Coord { x: 0, y: 0 };
    let right = Seg::between(zero, Coord { x: 7, y: -5 }).ok_or("one point")?;
    let left = Seg::between(zero, Coord { x: -1, y: 12 }).ok_or("one point")?;
    let lists = vec![in rt.alloc(); vec![in rt.alloc(); right, left, right]?]?;
    let written = lines_of(rt.alloc(), &lists, None)?;
    let wanted = b"MULTILINESTRING ((0 0, 7 -5), (-1 12, 0 0), (0 0, 7 -5))\n";
    assert!(rt; same(&written, wanted));
    Ok(())
}

#[test]
fn rows_of_places(rt: HostRuntime) -> Result<(), Fail> {
    let mut rows = Vec::new(rt.alloc());
    append_member_row(&mut rows, 0)?;
    append_edge_row(&mut rows)?;
    append_member_row(&mut rows, u32::MAX)?;
    append_none_row(&mut rows)?;
    assert!(rt; same(&rows, b"0\nedge\n4294967295\nnone\n"));
    Ok(())
}

#[test]
fn rows_of_regions_by_the_members_in_their_labels(rt: HostRuntime) -> Result<(), Fail> {
    let mut rows = Vec::new(rt.alloc());
    append_outer_row(&mut rows, 0)?;
    append_inner_row(&mut rows, 1, &[4], 100, None)?;
    append_inner_row(&mut rows, 7, &[], 72, Some(12))?;
    append_inner_row(&mut rows, 13, &[0, 2, 10], 576_460_752_303_423_488, None)?;
    let wanted = b"0 outer - - -\n\
        1 single 4 100 -\n\
        7 gap - 72 12\n\
        13 shared 0,2,10 576460752303423488 -\n";
    assert!(rt; same(&rows, wanted));
    Ok(())
}

/// Both numbers of a point, as they are written at each scale.
#[test]
fn numbers_at_scales(rt: HostRuntime) -> Result<(), Fail> {
    for (scale, x, y, want) in [
        (2, -5, -100, "-0.05 -1"),
        (2, 120, 0, "1.2 0"),
        (2, 101, 199, "1.01 1.99"),
        (2, -10, 99, "-0.1 0.99"),
        (2, 100_000, -100_001, "1000 -1000.01"),
        (0, -5, 268_435_456, "-5 268435456"),
        (1, 268_435_456, -1, "26843545.6 -0.1"),
        (7, 268_435_456, 1, "26.8435456 0.0000001"),
        (7, -268_435_456, 10_000_000, "-26.8435456 1"),
        (7, 9_999_999, -1_000_000, "0.9999999 -0.1"),
        (7, i32::MIN, i32::MAX, "-214.7483648 214.7483647"),
    ] {
        let point = ring(rt.alloc(), &[(x, y)])?;
        let poly = Poly {
            rings: vec![in rt.alloc(); point]?,
        };
        let one = Member {
            polys: vec![in rt.alloc(); poly]?,
        };
        let coverage = Coverage {
            members: vec![in rt.alloc(); one]?,
        };
        let written = text_of(rt.alloc(), &coverage, Some(scale))?;
        let wanted = format!(in rt.alloc(); "POLYGON (({want}, {want}))\n")?;
        assert!(rt; same(&written, wanted.as_bytes()), "at {scale} {want}");
    }
    Ok(())
}

#[test]
fn segments_at_a_scale(rt: HostRuntime) -> Result<(), Fail> {
    let half = Seg::between(Coord { x: 0, y: 5 }, Coord { x: -15, y: 20 }).ok_or("one point")?;
    let lists = vec![in rt.alloc(); Vec::new(rt.alloc()), vec![in rt.alloc(); half]?]?;
    let written = lines_of(rt.alloc(), &lists, Some(1))?;
    let wanted = b"MULTILINESTRING EMPTY\nMULTILINESTRING ((-1.5 2, 0 0.5))\n";
    assert!(rt; same(&written, wanted));
    Ok(())
}
