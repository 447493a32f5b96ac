ghost use Rattle.cov_types.specs.Range.{IsInRange};

use crate::Cells;
use crate::triangle::is_in_triangle;
use cov_types::Coord;
use std::process::Abort;
use std::test::Fail;

#[test]
fn the_first_in_a_triangle_goes(rt: HostRuntime) -> Result<(), Fail> {
    let a = point(&rt, 0, 0);
    let b = point(&rt, 10, 0);
    let c = point(&rt, 0, 10);
    let middle = point(&rt, 5, 0);
    let mut cells = Cells::build(rt.alloc(), &[a, middle, b, c])?;
    assert_eq!(rt; cells.first_in(a, b, c), Some(middle));
    cells.remove(middle);
    assert_eq!(rt; cells.first_in(a, b, c), None);
    Ok(())
}

#[test]
fn grid_points_are_in_triangles(rt: HostRuntime) {
    let cases = [
        // Left of all sides, on a side, a corner, beyond a corner, and beside.
        ((0, 0), (10, 0), (0, 10), (3, 3), true),
        ((0, 0), (10, 0), (0, 10), (5, 5), true),
        ((0, 0), (10, 0), (0, 10), (10, 0), true),
        ((0, 0), (10, 0), (0, 10), (11, 0), false),
        ((0, 0), (10, 0), (0, 10), (6, 5), false),
        // The other way round.
        ((0, 10), (10, 0), (0, 0), (3, 3), true),
        ((0, 10), (10, 0), (0, 0), (-1, 3), false),
        // Flat: the segment that has all three, upright too; and a point.
        ((0, 0), (10, 0), (4, 0), (7, 0), true),
        ((0, 0), (10, 0), (4, 0), (11, 0), false),
        ((0, 0), (10, 0), (4, 0), (7, 1), false),
        ((2, 9), (2, 1), (2, 5), (2, 2), true),
        ((2, 9), (2, 1), (2, 5), (2, 0), false),
        ((1, 1), (1, 1), (1, 1), (1, 1), true),
        ((1, 1), (1, 1), (1, 1), (2, 1), false),
    ];
    for (a, b, c, p, want) in cases {
        let a = point(&rt, a.0, a.1);
        let b = point(&rt, b.0, b.1);
        let c = point(&rt, c.0, c.1);
        let p = point(&rt, p.0, p.1);
        assert_eq!(rt; is_in_triangle(a, b, c, p), want);
    }
}

/// A point in range.
fn point(rt: &impl Abort, x: i32, y: i32) -> Coord
    ensures { IsInRange result }
{
    let p = Coord { x, y };
    assert!(rt; p.is_in_range());
    p
}
