ghost use Rattle.std.specs.Prelude.{◌≡◌, ◌<◌, IfOk, All, length, map};
ghost use Rattle.cov_types.specs.Range.{IsSegInRange};
ghost use Rattle.cov_types.specs.Rings.{IsRing};
ghost use Rattle.cov_locate.specs.Rings.{AreNumbersBelow, AreRingLevels, AreBoxesOf, IsInOrder, IsRingIndex};

use crate::level::{Level, boxes_of, levels_of};
use box_tree::{Rect, curve, hull_of};
use cov_types::{NoMemory, Outline};
use std::alloc::Global;

/// The rings of an outline, with what finds those round a point and tells what they hold.
#[derive(Drop)]
pub struct RingIndex {
    pub outline: Outline,
    /// The numbers of the rings along a curve.
    pub numbers: Vec<usize>,
    /// Hulls of the boxes about the rings in that order.
    pub over_rings: Vec<Level>,
    /// Hulls of the boxes of the segments in the order of the uses.
    pub over_uses: Vec<Level>,
}

impl RingIndex {
    /// Takes linear memory, and n log n time for n rings beside what is linear.
    pub fn build(alloc: Global, outline: Outline) -> Result<RingIndex, NoMemory>
        requires in_range { All (λ u. IsSegInRange u.seg) outline.uses.items }
        requires in_order { IsInOrder outline }
        ensures index { IfOk result IsRingIndex }
        ensures same { IfOk result (λ index. index.outline.uses.items ≡ outline.uses.items) }
    {
        let boxes = boxes_of(alloc, &outline.uses)?;
        let over_uses = levels_of(alloc, &boxes)?;
        let numbers = numbers_along(alloc, &outline)?;
        let over_rings = ring_levels(alloc, &outline, &numbers)?;
        Ok(RingIndex {
            outline,
            numbers,
            over_rings,
            over_uses,
        })
    }
}

// The levels over the boxes about the rings with these numbers.
fn ring_levels(alloc: Global, outline: &Outline, numbers: &[usize]) -> Result<Vec<Level>, NoMemory>
    requires within { All (λ n. n < length outline.now.rings.items) numbers.now }
    requires round { All (IsRing outline.now.uses.items outline.now.starts.items) outline.now.rings.items }
    ensures { IfOk result (λ levels. AreRingLevels outline.now.uses.items outline.now.rings.items numbers.now levels.items) }
{
    let boxes = ring_boxes(alloc, outline, numbers)?;
    levels_of(alloc, &boxes)
}

// The boxes about the rings with these numbers.
fn ring_boxes(alloc: Global, outline: &Outline, numbers: &[usize]) -> Result<Vec<Rect>, NoMemory>
    requires within { All (λ n. n < length outline.now.rings.items) numbers.now }
    requires round { All (IsRing outline.now.uses.items outline.now.starts.items) outline.now.rings.items }
    ensures { IfOk result (λ boxes. AreBoxesOf outline.now.uses.items outline.now.rings.items numbers.now boxes.items) }
{
    let mut boxes = Vec::with_capacity(alloc, numbers.len())?;
    for number in numbers {
        let run = outline.rings[*number];
        let sides = boxes_of(alloc, &outline.uses[run.from..run.to])?;
        boxes.push(hull_of(&sides))?;
    }
    Ok(boxes)
}

// The numbers of the rings along a curve that keeps near points near, by the point where each begins.
fn numbers_along(alloc: Global, outline: &Outline) -> Result<Vec<usize>, NoMemory>
    requires { All (IsRing outline.now.uses.items outline.now.starts.items) outline.now.rings.items }
    ensures { IfOk result (λ numbers. AreNumbersBelow (length outline.now.rings.items) numbers.items) }
{
    let mut keyed = Vec::with_capacity(alloc, outline.rings.len())?;
    for (number, run) in outline.rings.iter().enumerate() {
        keyed.push((curve(outline.starts[run.from]), number))?;
    }
    keyed.sort_unstable();
    let numbers = without_keys(alloc, keyed.as_slice())?;
    Ok(numbers)
}

/// What stands beside the keys.
pub fn without_keys(alloc: Global, keyed: &[(u64, usize)]) -> Result<Vec<usize>, NoMemory>
    ensures { IfOk result (λ numbers. numbers.items ≡ map (λ p. p.1) keyed.now) }
{
    let numbers = keyed.iter().map(|(_, number)| *number).collect(alloc)?;
    Ok(numbers)
}
