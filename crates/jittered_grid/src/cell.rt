ghost use Rattle.std.specs.Prelude.{◌≡◌, ◌+◌, ◌<◌, ◌≤◌, ℕ, IfOk, OnOk, [], ◌∷◌};
ghost use Rattle.cov_types.specs.Coverage.{IsRingFormed, IsRingInRange};
ghost use Rattle.cov_types.specs.Range.{IsInRange};
ghost use Rattle.jittered_grid.specs.Cells.{corner as corner_of, jittered as jittered_of, ring as ring_of};
ghost use Rattle.jittered_grid.specs.Draws.{HasDrawn};

use crate::draws::Draws;
use cov_types::{Coord, Member, NoMemory, Poly, Ring};
use std::alloc::Global;

// The units between two lines of the grid.
const SPACING: i32 = 64;

// A coordinate of the line of the grid, moved by the next draw.
fn jittered(draws: &mut Draws, line: u32) -> i32
    requires line { line ≤ 400 }
    ensures value { (seed count : ℕ) → HasDrawn draws.old seed count → result ≡ jittered_of seed count line }
    ensures drawn { (seed count : ℕ) → HasDrawn draws.old seed count → HasDrawn draws.new seed (count + 1) }
{
    SPACING * line as i32 + draws.next()
}

// The corner at the column and the row, moved by the next two draws.
fn corner(draws: &mut Draws, column: u32, row: u32) -> Coord
    requires column { column ≤ 400 }
    requires row { row ≤ 400 }
    ensures point { (seed count : ℕ) → HasDrawn draws.old seed count → result ≡ corner_of seed count column row }
    ensures drawn { (seed count : ℕ) → HasDrawn draws.old seed count → HasDrawn draws.new seed (count + 2) }
{
    let x = jittered(draws, column);
    let y = jittered(draws, row);
    Coord { x, y }
}

// The ring round the cell at the column and the row, of the next eight draws.
fn ring(alloc: Global, draws: &mut Draws, column: u32, row: u32) -> Result<Ring, NoMemory>
    requires column { column < 400 }
    requires row { row < 400 }
    ensures points { IfOk result (λ r. (seed count : ℕ) → HasDrawn draws.old seed count → r ≡ ring_of seed count column row) }
    ensures drawn { (seed count : ℕ) → HasDrawn draws.old seed count → HasDrawn draws.new seed (count + 8) }
{
    let corners = [
        corner(draws, column, row),
        corner(draws, column + 1, row),
        corner(draws, column + 1, row + 1),
        corner(draws, column, row + 1),
    ];
    Ok(Ring {
        points: Vec::from_slice(alloc, &corners)?,
    })
}

/// The member of the cell at the column and the row, of the next eight draws. Takes constant time.
pub fn cell(alloc: Global, draws: &mut Draws, column: u32, row: u32) -> Result<Member, NoMemory>
    requires column { column < 400 }
    requires row { row < 400 }
    ensures member { IfOk result (λ m. (seed count : ℕ) → HasDrawn draws.old seed count → m ≡ (ring_of seed count column row ∷ []) ∷ []) }
    ensures drawn { (seed count : ℕ) → HasDrawn draws.old seed count → HasDrawn draws.new seed (count + 8) }
{
    let mut rings = Vec::new(alloc);
    rings.push(ring(alloc, draws, column, row)?)?;
    let mut polys = Vec::new(alloc);
    polys.push(Poly { rings })?;
    Ok(Member { polys })
}
