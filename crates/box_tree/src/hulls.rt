ghost use Rattle.std.specs.Prelude.{◌≡◌, ◌<◌, All, IfOk, drop, length, take};
ghost use Rattle.box_tree.specs.Hulls.{AreHulls};
ghost use Rattle.box_tree.specs.Rect.{IsInside};

use crate::rect::Rect;
use cov_types::NoMemory;
use std::alloc::Global;

/// The hulls of a list by eights. Linear in time and memory.
pub(crate) fn hulls_of(alloc: Global, boxes: &[Rect]) -> Result<Vec<Rect>, NoMemory>
    ensures { IfOk result (λ hulls. AreHulls hulls.items boxes.now) }
{
    let mut hulls = Vec::new(alloc);
    let mut rest = boxes;
    while !rest.is_empty() {
        let (block, others) = split_block(rest);
        hulls.push(hull_of(block))?;
        rest = others;
    }
    Ok(hulls)
}

/// The first eight, or all where there are fewer, and the others.
pub(crate) fn split_block(boxes: &[Rect]) -> (&[Rect], &[Rect])
    ensures block { result.0.now ≡ take 8 boxes.now }
    ensures others { result.1.now ≡ drop 8 boxes.now }
{
    boxes.split_at(boxes.len().min(8))
}

/// A box about all these boxes. Takes time in proportion to them, and no memory.
pub fn hull_of(boxes: &[Rect]) -> Rect
    requires { 0 < length boxes.now }
    ensures { All (λ b. IsInside b result) boxes.now }
{
    let mut hull = boxes[0];
    for b in boxes {
        hull = hull.hull(*b);
    }
    hull
}
