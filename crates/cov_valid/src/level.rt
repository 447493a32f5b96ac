ghost use Rattle.std.specs.Prelude.{◌<◌, IfOk, All, length};
ghost use Rattle.box_tree.specs.Rect.{box_of_segment};
ghost use Rattle.cov_valid.specs.Levels.{AreAbout, IsAbout, IsLevel};

use box_tree::Rect;
use cov_types::{EdgeUse, NoMemory};
use std::alloc::Global;

/// Boxes about the uses of a list, so many at a time.
#[derive(Drop)]
pub struct Level {
    pub width: usize,
    pub boxes: Vec<Rect>,
}

/// Levels from narrow to wide. Linear in time; the boxes take an eighth of the memory of as many as there are uses, and a little more.
pub fn levels_of(alloc: Global, uses: &[EdgeUse]) -> Result<Vec<Level>, NoMemory>
    ensures { IfOk result (λ levels. All (IsLevel uses.now) levels.items) }
{
    let mut levels = Vec::new(alloc);
    for width in [8, 64, 512, 4096, 32768] {
        levels.push(level_of(alloc, uses, width)?)?;
    }
    Ok(levels)
}

fn level_of(alloc: Global, uses: &[EdgeUse], width: usize) -> Result<Level, NoMemory>
    requires { 0 < width }
    ensures { IfOk result (λ level. IsLevel uses.now level) }
{
    let mut boxes = Vec::new(alloc);
    let mut rest = uses;
    while !rest.is_empty() {
        let (block, others) = rest.split_at(rest.len().min(width));
        boxes.push(box_about(block))?;
        rest = others;
    }
    Ok(Level { width, boxes })
}

/// The box about the segments of some uses.
pub fn box_about(uses: &[EdgeUse]) -> Rect
    requires { 0 < length uses.now }
    ensures { IsAbout uses.now result }
{
    let mut all = Rect::of_segment(uses[0].seg);
    for u in uses {
        all = all.hull(Rect::of_segment(u.seg));
    }
    all
}
