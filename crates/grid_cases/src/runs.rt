ghost use Rattle.std.specs.Prelude.{All, IfOk};
ghost use Rattle.cov_types.specs.Range.{IsInRange};

use cov_types::{Coord, NoMemory};
use std::alloc::Global;
use std::process::Abort;
use std::test::Fail;
use visvalingam::removed_points;

#[test]
fn a_blocked_point_goes_once_the_other_went(rt: HostRuntime) -> Result<(), Fail> {
    let alloc = rt.alloc();
    // The tip of the second line is in the notch of the first: that triangle has 80, the other 110.
    let notched = [(0, -20), (0, 0), (10, -4), (20, 0), (20, -20), (0, -20)];
    let spike = [(5, 10), (5, 200), (15, 200), (15, 10), (10, -1), (5, 10)];
    let lines = [line_of(&rt, alloc, &notched)?, line_of(&rt, alloc, &spike)?];
    let both = [point(&rt, 10, -1), point(&rt, 10, -4)];
    assert_eq!(rt;
        removed_points(alloc, &lines, &[true, true], 8)?.as_slice(),
        both.as_slice()
    );
    assert_eq!(rt; removed_points(alloc, &lines, &[true, true], 7)?.len(), 0);
    assert_eq!(rt; removed_points(alloc, &lines, &[false, false], 8)?.len(), 0);
    Ok(())
}

#[test]
fn a_triangle_stays(rt: HostRuntime) -> Result<(), Fail> {
    let alloc = rt.alloc();
    let square = [line_of(&rt, alloc, &[(0, 0), (0, 4), (4, 4), (4, 0), (0, 0)])?];
    let first = [point(&rt, 0, 4)];
    assert_eq!(rt; removed_points(alloc, &square, &[true], 2)?.len(), 0);
    assert_eq!(rt;
        removed_points(alloc, &square, &[true], 3)?.as_slice(),
        first.as_slice()
    );
    Ok(())
}

/// The line of these points.
fn line_of(rt: &impl Abort, alloc: Global, pairs: &[(i32, i32)]) -> Result<Vec<Coord>, NoMemory>
    ensures { IfOk result (λ line. All IsInRange line.items) }
{
    let mut line = Vec::new(alloc);
    for (x, y) in pairs {
        line.push(point(rt, *x, *y))?;
    }
    Ok(line)
}

/// A point in range.
fn point(rt: &impl Abort, x: i32, y: i32) -> Coord
    ensures { IsInRange result }
{
    let p = Coord { x, y };
    assert!(rt; p.is_in_range());
    p
}
