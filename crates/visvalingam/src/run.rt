ghost use Rattle.std.specs.Prelude.{◌≡◌, ◌≤◌, ◌^◌, IfOk, reverse};
ghost use Rattle.greedy_run.specs.Run.{Simplification, IsFinalState};
ghost use Rattle.visvalingam.specs.State.{IsAsked, AreLinesInRange};

use crate::begin::first_state;
use crate::task::Task;
use cov_types::{Coord, NoMemory};
use std::alloc::Global;

/// The points that the run over the lines of a coverage removes, in the order in which they go; of these lines those marked may lose
/// points. The tolerance is in grid units, at most 2^30: a point may go where its doubled triangle is at most twice the square of it.
///
/// Takes linear memory, and n log n time for n points where their triangles are small and apart.
pub fn removed_points(
    alloc: Global,
    lines: &[Vec<Coord>],
    open_lines: &[bool],
    tolerance: u32,
) -> Result<Vec<Coord>, NoMemory>
    requires in_range { AreLinesInRange lines.now }
    requires tolerance { tolerance ≤ 2 ^ 30 }
    ensures { IfOk result (λ removed. (s : Simplification) → IsAsked s lines.now open_lines.now tolerance → IsFinalState s (reverse removed.items)) }
{
    let task = Task {
        lines,
        open_lines,
        tolerance,
    };
    let mut state = first_state(alloc, &task)?;
    'removals: while let Some((spot, corner)) = state.next_corner(&task)? {
        state.remove(&task, spot, corner)?;
    }
    Ok(state.removed)
}
