ghost use Rattle.std.specs.Prelude.{◌≡◌, ◌≤◌, ◌<◌, ℕ, false, All, Contains, IfOk, OnOk, length, map, slice_index_or};
ghost use Rattle.std.specs.List.Sorted.{IsNonDecreasing};
ghost use Rattle.box_tree.specs.Rect.{IsInside, box_of_point, box_of_segment};
ghost use Rattle.cov_types.specs.Range.{IsInRange};
ghost use Rattle.cov_types.specs.declared.coord.Coord.{Coord};
ghost use Rattle.cov_types.specs.declared.ring_run.RingRun.{RingRun};
ghost use Rattle.cov_locate.specs.Blocks.{AreBlocks};
ghost use Rattle.cov_locate.specs.Near.{AreNear, IsNearRing, with_near};
ghost use Rattle.cov_locate.specs.Parts.{IsLevelled, IsRunTold};
ghost use Rattle.cov_locate.specs.Rings.{IsRingIndex};

use crate::block::{Block, Placed, widest_block};
use crate::level::Level;
use crate::ring_index::RingIndex;
use box_tree::Rect;
use cov_types::{NoMemory, Outline, RingRun};
use std::alloc::Global;

/// A ring whose box is near a box, and the blocks of its uses that lie beside, above or near that box.
#[derive(Drop)]
pub struct NearRing {
    pub number: usize,
    pub run: RingRun,
    pub blocks: Vec<Block>,
}

/// The rings that are near a box, by ascending numbers: no other ring holds a point of the box or has one on a segment. Takes time and
/// memory in proportion to the rings and the segments near the box, and to the logarithm of all.
pub fn near_rings(alloc: Global, index: &RingIndex, round: Rect) -> Result<Vec<NearRing>, NoMemory>
    requires { IsRingIndex index.now }
    ensures { IfOk result (λ near. (p : Coord) → IsInRange p → IsInside (box_of_point p) round → AreNear index.now.outline.uses.items index.now.outline.rings.items p 0 near.items) }
{
    let numbers = near_numbers(alloc, index, round)?;
    let mut near = Vec::with_capacity(alloc, numbers.len())?;
    for number in &numbers {
        let ring = near_ring(alloc, index, *number, round)?;
        near.push(ring)?;
    }
    Ok(near)
}

// The ring with this number, and its blocks about the box.
fn near_ring(
    alloc: Global,
    index: &RingIndex,
    number: usize,
    round: Rect,
) -> Result<NearRing, NoMemory>
    requires index { IsRingIndex index.now }
    requires number { number < length index.now.outline.rings.items }
    ensures number { IfOk result (λ ring. ring.number ≡ number) }
    ensures near { IfOk result (λ ring. (p : Coord) → IsInside (box_of_point p) round → IsNearRing index.now.outline.uses.items index.now.outline.rings.items p ring) }
{
    let run = index.outline.rings[number];
    let blocks = blocks_about(alloc, &index.outline, &index.over_uses, run, round)?;
    Ok(NearRing {
        number,
        run,
        blocks,
    })
}

// The blocks of the run: the widest ones that lie beside or above the box, and single uses that are near it.
fn blocks_about(
    alloc: Global,
    outline: &Outline,
    levels: &[Level],
    run: RingRun,
    round: Rect,
) -> Result<Vec<Block>, NoMemory>
    requires levelled { IsLevelled outline.now levels.now }
    requires some { run.from < run.to }
    requires ends { run.to ≤ length outline.now.uses.items }
    ensures { IfOk result (λ blocks. (p : Coord) → IsInside (box_of_point p) round → AreBlocks (map (λ u. box_of_segment u.seg) outline.now.uses.items) run.from run.to p blocks.items) }
{
    let mut blocks = Vec::new(alloc);
    let mut from = run.from;
    while from < run.to {
        let block = widest_block(levels, from, run.to, round);
        blocks.push(block)?;
        from = block.to;
    }
    Ok(blocks)
}

// The numbers of the rings whose boxes are near the box, ascending.
fn near_numbers(alloc: Global, index: &RingIndex, round: Rect) -> Result<Vec<usize>, NoMemory>
    requires { IsRingIndex index.now }
    ensures within { IfOk result (λ numbers. All (λ n. n < length index.now.outline.rings.items) numbers.items) }
    ensures ascending { IfOk result (λ numbers. IsNonDecreasing numbers.items) }
    ensures others { IfOk result (λ numbers. (p : Coord) → IsInRange p → IsInside (box_of_point p) round → (n : ℕ) (d : RingRun) → n < length index.now.outline.rings.items
        → ¬ Contains numbers.items n → IsRunTold index.now.outline.uses.items (slice_index_or index.now.outline.rings.items n d) p false) }
{
    let mut numbers = Vec::new(alloc);
    let mut from = 0;
    while from < index.numbers.len() {
        let block = widest_block(&index.over_rings, from, index.numbers.len(), round);
        add_near(&mut numbers, block.placed, index.numbers[from])?;
        from = block.to;
    }
    numbers.sort_unstable();
    Ok(numbers)
}

// Appends the number of a ring, where its box is near.
fn add_near(numbers: &mut Vec<usize>, placed: Placed, number: usize) -> Result<(), NoMemory>
    ensures { OnOk result (numbers.new.items ≡ with_near numbers.old.items placed number) }
{
    match placed {
        Placed::Beside | Placed::Higher => Ok(()),
        Placed::Near => {
            numbers.push(number)?;
            Ok(())
        }
    }
}
