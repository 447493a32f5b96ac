ghost use Rattle.std.specs.Prelude.{◌≡◌, ◌≤◌, ◌<◌, ◌+◌, ◌*◌, ◌/◌, ◌%◌, ◌==◌, All, count_by, length, slice_index_or};
ghost use Rattle.cov_types.specs.Range.{IsSegInRange};
ghost use Rattle.cov_types.specs.Rings.{IsRing};
ghost use Rattle.cov_types.specs.declared.coord.Coord.{Coord};
ghost use Rattle.cov_valid.specs.Parts.{IsLevelled, IsRunPart};
ghost use Rattle.parity_laws.specs.Paths.{differ, is_started};
ghost use Rattle.parity_laws.specs.Runs.{place_in, run_holds};
ghost use Rattle.plane.specs.Ray.{is_over};
ghost use Rattle.plane.specs.Segment.{midpoint};

use crate::level::Level;
use crate::placed::{Placed, is_started, place_of, twice_middle};
use cov_types::{EdgeUse, Outline, RingRun, Seg};
use grid_pred::over_mid;

/// Whether the uses in the run hold the midpoint of the segment. It looks at few uses where most boxes lie beside or above the
/// midpoint.
pub fn run_holds(outline: &Outline, levels: &[Level], run: RingRun, s: Seg) -> bool
    requires levelled { IsLevelled outline.now levels.now }
    requires ring { IsRing outline.now.uses.items outline.now.starts.items run }
    requires in_range { IsSegInRange s }
    ensures { result ≡ run_holds outline.now.uses.items (midpoint s) run }
{
    let mut holds = false;
    let mut from = run.from;
    while from < run.to {
        let part = part_from(outline, levels, run, from, s);
        holds = holds != part.holds;
        from = part.to;
    }
    holds
}

/// A part of a run: where it ends, and whether its uses hold the midpoint.
#[derive(Clone, Copy)]
pub struct Part {
    pub to: usize,
    pub holds: bool,
}

// The part of the run from a place on: a block of uses whose box tells what they hold, or the rest of a narrow block, use by use.
fn part_from(outline: &Outline, levels: &[Level], run: RingRun, from: usize, s: Seg) -> Part
    requires levelled { IsLevelled outline.now levels.now }
    requires ring { IsRing outline.now.uses.items outline.now.starts.items run }
    requires in_range { IsSegInRange s }
    requires begins { run.from ≤ from }
    requires some { from < run.to }
    ensures part { IsRunPart outline.now run from s result }
    ensures some { from < result.to }
{
    let part = widest_block(outline, levels, run, from, s);
    if from < part.to {
        return part;
    }
    let to = end_of_block(NARROW, from, run.to);
    Part {
        to,
        holds: are_held(&outline.uses[from..to], s),
    }
}

// How many uses are looked at one by one.
const NARROW: usize = 8;

// The widest block from the place on whose box tells what its uses hold; one of no use, where not even a narrow one does.
fn widest_block(outline: &Outline, levels: &[Level], run: RingRun, from: usize, s: Seg) -> Part
    requires levelled { IsLevelled outline.now levels.now }
    requires ring { IsRing outline.now.uses.items outline.now.starts.items run }
    requires in_range { IsSegInRange s }
    requires begins { run.from ≤ from }
    requires some { from < run.to }
    ensures { IsRunPart outline.now run from s result }
{
    let middle = twice_middle(s);
    let mut part = Part {
        to: from,
        holds: false,
    };
    for level in levels {
        let to = end_of_block(level.width, from, run.to);
        let holds = match place_of(level.boxes[from / level.width], middle) {
            Placed::Near => return part,
            Placed::Beside => false,
            Placed::Higher => do_ends_differ(outline, run, from, to, s),
        };
        part = Part { to, holds };
    }
    part
}

// The end of the block of so many uses that a place is in, or of the run where that comes first.
fn end_of_block(width: usize, from: usize, end: usize) -> usize
    requires width { 0 < width }
    requires some { from < end }
    ensures begins { from < result }
    ensures within { result ≤ end }
    ensures block { result ≤ (from / width) * width + width }
{
    let left = width - from % width;
    if left < end - from { from + left } else { end }
}

// Whether just one end of a part of the run is started.
fn do_ends_differ(outline: &Outline, run: RingRun, from: usize, to: usize, s: Seg) -> bool
    requires uses_in_range { All (λ u. IsSegInRange u.seg) outline.now.uses.items }
    requires ring { IsRing outline.now.uses.items outline.now.starts.items run }
    requires in_range { IsSegInRange s }
    requires begins { run.from ≤ from }
    requires some { from < run.to }
    requires ends { run.from ≤ to }
    ensures { (d : Coord) → result ≡ differ (is_started (slice_index_or outline.now.starts.items (place_in run from) d) (midpoint s))
        (is_started (slice_index_or outline.now.starts.items (place_in run to) d) (midpoint s)) }
{
    let next = if to < run.to { to } else { run.from };
    is_started(outline.starts[from], s) != is_started(outline.starts[next], s)
}

// Whether an odd number of uses is over the midpoint of the segment.
fn are_held(uses: &[EdgeUse], s: Seg) -> bool
    requires uses_in_range { All (λ u. IsSegInRange u.seg) uses.now }
    requires in_range { IsSegInRange s }
    ensures { result ≡ (count_by (λ u. is_over u.seg (midpoint s)) uses.now % 2 == 1) }
{
    let mut holds = false;
    for u in uses {
        holds = holds != over_mid(u.seg, s);
    }
    holds
}
