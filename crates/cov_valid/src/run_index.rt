ghost use Rattle.std.specs.Prelude.{◌≡◌, ◌<◌, IfOk, All};
ghost use Rattle.cov_types.specs.Range.{IsSegInRange};
ghost use Rattle.cov_types.specs.Rings.{IsRing};
ghost use Rattle.cov_valid.specs.RunIndex.{AreRingBoxes, IsIndexed};

use crate::level::{Level, box_about, levels_of};
use crate::ring_tree::RingTree;
use box_tree::Rect;
use cov_types::{NoMemory, Outline};
use std::alloc::Global;

/// What finds the rings of an outline that can hold a midpoint, and tells what they hold.
#[derive(Drop)]
pub struct RunIndex {
    /// The boxes about the rings, in their order.
    pub rings: RingTree,
    /// The boxes about blocks of uses.
    pub levels: Vec<Level>,
}

impl RunIndex {
    /// Takes linear memory, and n log n time for n rings beside what is linear.
    pub fn build(alloc: Global, outline: &Outline) -> Result<RunIndex, NoMemory>
        requires in_range { All (λ u. IsSegInRange u.seg) outline.now.uses.items }
        requires round { All (IsRing outline.now.uses.items outline.now.starts.items) outline.now.rings.items }
        ensures { IfOk result (λ index. IsIndexed outline.now index) }
    {
        let rings = RingTree::build(alloc, ring_boxes(alloc, outline)?)?;
        let levels = levels_of(alloc, &outline.uses)?;
        Ok(RunIndex { rings, levels })
    }
}

// The boxes about the rings, in their order.
fn ring_boxes(alloc: Global, outline: &Outline) -> Result<Vec<Rect>, NoMemory>
    requires { All (IsRing outline.now.uses.items outline.now.starts.items) outline.now.rings.items }
    ensures { IfOk result (λ boxes. AreRingBoxes outline.now.uses.items outline.now.rings.items boxes.items) }
{
    let mut boxes = Vec::with_capacity(alloc, outline.rings.len())?;
    for run in &outline.rings {
        boxes.push(box_about(&outline.uses[run.from..run.to]))?;
    }
    Ok(boxes)
}
