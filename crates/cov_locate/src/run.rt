ghost use Rattle.std.specs.Prelude.{◌≡◌, ◌≤◌, ◌<◌, ◌+◌, All, MatchOption, map, slice_index_or};
ghost use Rattle.box_tree.specs.Rect.{box_of_segment};
ghost use Rattle.cov_locate.specs.Blocks.{AreBlocks, IsBlock};
ghost use Rattle.cov_types.specs.Range.{IsInRange, IsSegInRange};
ghost use Rattle.cov_types.specs.Rings.{IsRing};
ghost use Rattle.cov_types.specs.declared.coord.Coord.{Coord};
ghost use Rattle.cov_locate.specs.Parts.{IsLevelled, IsPart, IsRunTold};
ghost use Rattle.cov_locate.specs.Where.{IsOnEdge};
ghost use Rattle.parity_laws.specs.Paths.{differ, is_started};
ghost use Rattle.parity_laws.specs.Runs.{place_in};
ghost use Rattle.plane.specs.Point.{at_coord};

use crate::block::{Block, Placed, widest_block};
use crate::level::Level;
use box_tree::Rect;
use cov_types::{Coord, Outline, RingRun};
use grid_pred::{on_segment, over};

/// Whether the uses in the run hold the point; None where one of their segments has it. It looks at few uses where most boxes lie
/// beside or above the point.
pub fn run_holds(outline: &Outline, levels: &[Level], run: RingRun, p: Coord) -> Option<bool>
    requires levelled { IsLevelled outline.now levels.now }
    requires ring { IsRing outline.now.uses.items outline.now.starts.items run }
    requires point { IsInRange p }
    ensures { MatchOption result (IsOnEdge outline.now.uses.items p) (λ holds. IsRunTold outline.now.uses.items run p holds) }
{
    let mut holds = false;
    let mut from = run.from;
    while from < run.to {
        let block = widest_block(levels, from, run.to, Rect::of_point(p));
        let part = part_from(outline, run, from, block, p)?;
        holds = holds != part.holds;
        from = part.to;
    }
    Some(holds)
}

/// Whether the uses in the run hold the point; None where one of their segments has it. By blocks of the run about a box with the point.
pub fn blocks_hold(outline: &Outline, run: RingRun, blocks: &[Block], p: Coord) -> Option<bool>
    requires uses_in_range { All (λ u. IsSegInRange u.seg) outline.now.uses.items }
    requires ring { IsRing outline.now.uses.items outline.now.starts.items run }
    requires point { IsInRange p }
    requires blocks { AreBlocks (map (λ u. box_of_segment u.seg) outline.now.uses.items) run.from run.to p blocks.now }
    ensures { MatchOption result (IsOnEdge outline.now.uses.items p) (λ holds. IsRunTold outline.now.uses.items run p holds) }
{
    let mut holds = false;
    let mut from = run.from;
    for block in blocks {
        let part = part_from(outline, run, from, *block, p)?;
        holds = holds != part.holds;
        from = part.to;
    }
    Some(holds)
}

/// A part of a run without the point on a segment: where it ends, and whether its uses hold the point.
#[derive(Clone, Copy)]
pub struct Part {
    pub to: usize,
    pub holds: bool,
}

// The part of the run that is a block from a place on: of uses that lie beside or above the point, or of one use; None where its segment
// has the point.
fn part_from(outline: &Outline, run: RingRun, from: usize, block: Block, p: Coord) -> Option<Part>
    requires uses_in_range { All (λ u. IsSegInRange u.seg) outline.now.uses.items }
    requires ring { IsRing outline.now.uses.items outline.now.starts.items run }
    requires point { IsInRange p }
    requires begins { run.from ≤ from }
    requires block { IsBlock (map (λ u. box_of_segment u.seg) outline.now.uses.items) from run.to p block }
    ensures told { MatchOption result (IsOnEdge outline.now.uses.items p) (λ part. IsPart outline.now.uses.items run from p part) }
    ensures to { MatchOption result (Unit {0}) (λ part. part.to ≡ block.to) }
{
    match block.placed {
        Placed::Beside => Some(Part {
            to: block.to,
            holds: false,
        }),
        Placed::Higher => Some(part_above(outline, run, from, block, p)),
        Placed::Near => part_of_one(outline, run, from, p),
    }
}

// The part of a block that lies above the point: by its ends.
fn part_above(outline: &Outline, run: RingRun, from: usize, block: Block, p: Coord) -> Part
    requires uses_in_range { All (λ u. IsSegInRange u.seg) outline.now.uses.items }
    requires ring { IsRing outline.now.uses.items outline.now.starts.items run }
    requires point { IsInRange p }
    requires begins { run.from ≤ from }
    requires some { from < run.to }
    requires ends { run.from ≤ block.to }
    ensures to { result.to ≡ block.to }
    ensures holds { (d : Coord) → result.holds ≡ differ (is_started (slice_index_or outline.now.starts.items (place_in run from) d) (at_coord p))
        (is_started (slice_index_or outline.now.starts.items (place_in run block.to) d) (at_coord p)) }
{
    let next = if block.to < run.to {
        block.to
    } else {
        run.from
    };
    let holds = is_started(outline.starts[from], p) != is_started(outline.starts[next], p);
    Part {
        to: block.to,
        holds,
    }
}

// The part of one use, None where its segment has the point.
fn part_of_one(outline: &Outline, run: RingRun, from: usize, p: Coord) -> Option<Part>
    requires uses_in_range { All (λ u. IsSegInRange u.seg) outline.now.uses.items }
    requires ring { IsRing outline.now.uses.items outline.now.starts.items run }
    requires point { IsInRange p }
    requires begins { run.from ≤ from }
    requires some { from < run.to }
    ensures told { MatchOption result (IsOnEdge outline.now.uses.items p) (λ part. IsPart outline.now.uses.items run from p part) }
    ensures to { MatchOption result (Unit {0}) (λ part. part.to ≡ from + 1) }
{
    let seg = outline.uses[from].seg;
    if on_segment(p, seg) {
        return None;
    }
    Some(Part {
        to: from + 1,
        holds: over(seg, p),
    })
}

// Whether the sweep value of a grid point is not past that of p.
fn is_started(c: Coord, p: Coord) -> bool
    requires first { IsInRange c }
    requires second { IsInRange p }
    ensures { result ≡ is_started c (at_coord p) }
{
    c <= p
}
