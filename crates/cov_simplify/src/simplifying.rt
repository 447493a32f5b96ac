ghost use Rattle.std.specs.Prelude.{◌≡◌, ◌≤◌, ◌^◌, IfOk};
ghost use Rattle.cov_simplify.specs.KeptLines.{AreLinesKept, AreNodesKept};
ghost use Rattle.cov_types.specs.Coverage.{AllInRange, IsFormed};
ghost use Rattle.cov_types.specs.Uses.{uses_of};
ghost use Rattle.greedy_run.specs.Run.{coverage_without, IsSimplified};
ghost use Rattle.plane.specs.Validity.{IsValid};

use crate::edges::edges_of_valid;
use crate::inner::open_lines;
use crate::without::coverage_without;
use cov_admit::ValidCoverage;
use cov_types::{Coord, Coverage, NoMemory};
use line_walk::lines_of;
use std::alloc::Global;
use visvalingam::removed_points;

/// A valid coverage, simplified after Visvalingam and Whyatt: points go from its lines, the one with the smallest triangle first, so long
/// as the coverage stays valid and no ring is lost. Each line keeps its two ends and the members on its two sides. The tolerance is in
/// grid units, at most 2^30: a point may go where its doubled triangle is at most twice the square of it. Where `inner` is set, only lines
/// between two members lose points. Runs out of memory with the coverage lost.
///
/// Takes memory in proportion to the points, and n log n time for n points where their triangles are small and apart.
pub fn simplify(
    alloc: Global,
    v: ValidCoverage,
    tolerance: u32,
    inner: bool,
) -> Result<ValidCoverage, NoMemory>
    requires { tolerance ≤ 2 ^ 30 }
    ensures simplified { IfOk result (λ out. IsSimplified v tolerance inner out) }
    ensures valid { IfOk result (λ out. IsValid (uses_of out)) }
    ensures formed { IfOk result IsFormed }
    ensures nodes { IfOk result (λ out. AreNodesKept v out) }
    ensures lines { IfOk result (λ out. AreLinesKept v out) }
{
    let removed = removed_from(alloc, v.coverage(), tolerance, inner)?;
    let simplified = coverage_without(alloc, v.into_coverage(), &removed)?;
    Ok(ValidCoverage::known(simplified))
}

// The points that simplifying the coverage removes.
fn removed_from(
    alloc: Global,
    c: &Coverage,
    tolerance: u32,
    inner: bool,
) -> Result<Vec<Coord>, NoMemory>
    requires in_range { AllInRange c.now }
    requires valid { IsValid (uses_of c.now) }
    requires tolerance { tolerance ≤ 2 ^ 30 }
    ensures { IfOk result (λ removed. IsSimplified c.now tolerance inner (coverage_without removed.items c.now)) }
{
    let live = edges_of_valid(alloc, c)?;
    let lines = lines_of(alloc, &live.edges)?;
    let marks = open_lines(alloc, &live, &lines, inner)?;
    // The run needs the lines alone.
    drop(live);
    removed_points(alloc, &lines, &marks, tolerance)
}
