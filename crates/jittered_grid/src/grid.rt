ghost use Rattle.std.specs.Prelude.{◌≡◌, ◌+◌, ◌*◌, ◌<◌, ◌≤◌, ◌++◌, ℕ, IfOk, OnOk};
ghost use Rattle.cov_types.specs.Coverage.{IsFormed};
ghost use Rattle.jittered_grid.specs.Cells.{cells, cells_in_row};
ghost use Rattle.jittered_grid.specs.Draws.{HasDrawn};

use crate::cell::cell;
use crate::draws::Draws;
use cov_types::{Coverage, Member, NoMemory};
use std::alloc::Global;

// Appends the cells of the row.
fn add_row(
    alloc: Global,
    members: &mut Vec<Member>,
    draws: &mut Draws,
    side: u32,
    row: u32,
) -> Result<(), NoMemory>
    requires side { side ≤ 400 }
    requires row { row < side }
    ensures cells { OnOk result ((seed : ℕ) → HasDrawn draws.old seed (8 * (row * side))
        → members.new.items ≡ members.old.items ++ cells_in_row side seed row) }
    ensures drawn { OnOk result ((seed : ℕ) → HasDrawn draws.old seed (8 * (row * side))
        → HasDrawn draws.new seed (8 * ((row + 1) * side))) }
{
    for column in 0..side {
        members.push(cell(alloc, draws, column, row)?)?;
    }
    Ok(())
}

/// The grid with so many cells on a side, 64 units from one line to the next, whose corners are jittered by draws from the seed. The
/// members are the cells, row by row.
///
/// Takes time and memory in proportion to the cells. The error says that there was no memory.
pub fn jittered_cells(alloc: Global, side: u32, seed: u32) -> Result<Coverage, NoMemory>
    requires { side ≤ 400 }
    ensures cells { IfOk result (λ c. c ≡ cells side seed) }
    ensures formed { IfOk result IsFormed }
{
    let mut draws = Draws::new(seed);
    let mut members = Vec::new(alloc);
    for row in 0..side {
        add_row(alloc, &mut members, &mut draws, side, row)?;
    }
    Ok(Coverage { members })
}
