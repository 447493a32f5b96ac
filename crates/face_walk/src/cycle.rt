ghost use Rattle.std.specs.Prelude.{◌≡◌, ◌*◌, ◌<◌, ◌≤◌, length, slice_index, IfOk};
ghost use Rattle.sector_laws.specs.Sector.{IsPlanar, AreDistinct};
ghost use Rattle.face_walk.specs.Cycles.{IsBeforeMarks, IsMarkedRound, AreCycles};

use cov_types::NoMemory;
use half_edge::Arena;
use std::alloc::Global;

/// A boundary cycle: its least side, and one of its half-edges that leaves the least vertex of the cycle.
#[derive(Clone, Copy)]
pub struct Cycle {
    pub least: usize,
    pub first: usize,
}

/// The boundary cycles of an arena, ascending by their least sides, and for each half-edge the place of its cycle.
#[derive(Drop)]
pub struct Cycles {
    pub of: Vec<usize>,
    pub list: Vec<Cycle>,
}

/// The boundary cycles of an arena, in linear time and memory: from each half-edge that none has passed a walk along `next` leads back
/// to it, and marks what it passes.
pub fn boundary_cycles(alloc: Global, a: &Arena) -> Result<Cycles, NoMemory>
    ensures { IfOk result (λ c. AreCycles a.now c.of.items c.list.items) }
{
    let unmarked = a.len();
    let mut of = vec![in alloc; unmarked; a.len()]?;
    let mut list = Vec::new(alloc);
    for h in 0..a.len() {
        if of[h] == unmarked {
            let first = walk(a, h, list.len(), &mut of);
            list.push(Cycle { least: h, first })?;
        }
    }
    Ok(Cycles { of, list })
}

// Marks the half-edges of the cycle that the start is on, and answers one of them that leaves the least vertex. A half-edge without a
// mark has the number of all half-edges.
fn walk(a: &Arena, start: usize, mark: usize, marks: &mut [usize]) -> usize
    requires before { IsBeforeMarks a.now start marks.old }
    requires fresh { mark < 2 * length a.now }
    ensures { IsMarkedRound a.now start mark result marks.old marks.new }
{
    let unmarked = a.len();
    let mut first = start;
    let mut h = start;
    'round: while marks[h] == unmarked {
        marks[h] = mark;
        if a.origin(h) < a.origin(first) {
            first = h;
        }
        h = a.next(h);
    }
    first
}
