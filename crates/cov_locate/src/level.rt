ghost use Rattle.std.specs.Prelude.{◌≡◌, ◌<◌, IfOk, All, length, map};
ghost use Rattle.box_tree.specs.Rect.{box_of_segment};
ghost use Rattle.cov_locate.specs.Levels.{IsLevel};

use box_tree::{Rect, hull_of};
use cov_types::{EdgeUse, NoMemory};
use std::alloc::Global;

/// Hulls of the boxes of a list, so many at a time.
#[derive(Drop)]
pub struct Level {
    pub width: usize,
    pub hulls: Vec<Rect>,
}

/// Levels from narrow to wide. Linear in time and memory.
pub fn levels_of(alloc: Global, boxes: &[Rect]) -> Result<Vec<Level>, NoMemory>
    ensures { IfOk result (λ levels. All (IsLevel boxes.now) levels.items) }
{
    let mut levels = Vec::new(alloc);
    for width in [1, 8, 64, 512, 4096, 32768] {
        levels.push(level_of(alloc, boxes, width)?)?;
    }
    Ok(levels)
}

fn level_of(alloc: Global, boxes: &[Rect], width: usize) -> Result<Level, NoMemory>
    requires { 0 < width }
    ensures { IfOk result (λ level. IsLevel boxes.now level) }
{
    let mut hulls = Vec::new(alloc);
    let mut rest = boxes;
    while !rest.is_empty() {
        let (block, others) = rest.split_at(rest.len().min(width));
        hulls.push(hull_of(block))?;
        rest = others;
    }
    Ok(Level { width, hulls })
}

/// The boxes of the segments of some uses.
pub fn boxes_of(alloc: Global, uses: &[EdgeUse]) -> Result<Vec<Rect>, NoMemory>
    ensures { IfOk result (λ boxes. boxes.items ≡ map (λ u. box_of_segment u.seg) uses.now) }
{
    let boxes = uses.iter().map(|u| Rect::of_segment(u.seg)).collect(alloc)?;
    Ok(boxes)
}
