ghost use Rattle.std.specs.Prelude.{◌≡◌, ◌+◌, ◌*◌, ◌<◌, ◌≤◌, All, IfOk, OnOk, ◌↔◌, length, map};
ghost use Rattle.cov_types.specs.Range.{IsSegInRange};
ghost use Rattle.box_tree.specs.Rect.{box_of_segment};
ghost use Rattle.hot_pixel.specs.Centres.{CrossAt, CrossIn, Gains, HasCrossing};
ghost use Rattle.hot_pixel.specs.Near.{AreNear};

use crate::pixel::pixel_of;
use box_tree::{BoxTree, Probe, Rect, hull_of};
use cov_types::{Coord, NoMemory, Seg};
use grid_pred::crossing;
use std::alloc::Global;

// So many neighbours share one query of the tree.
const BLOCK: usize = 8;

/// Adds the centres of the pixels in which two of the segments cross. Segments that stand near one another in the list should be near
/// in the plane. Takes time in proportion to the pairs whose boxes touch, and n log n for the queries.
pub(crate) fn add_crossings(
    alloc: Global,
    centres: &mut Vec<Coord>,
    segs: &[Seg],
) -> Result<(), NoMemory>
    requires { All IsSegInRange segs.now }
    ensures { OnOk result (Gains centres.old.items centres.new.items (HasCrossing segs.now 0 (length segs.now))) }
{
    let tree = BoxTree::build(alloc, boxes_of(alloc, segs)?)?;
    let mut near = Vec::new(alloc);
    let mut spare = Vec::new(alloc);
    for block in 0..segs.len().div_ceil(BLOCK) {
        let first = block * BLOCK;
        let past = segs.len().min(first + BLOCK);
        find_near(&tree, first, past, &mut near, &mut spare)?;
        add_crossings_of_block(centres, segs, tree.boxes(), first, past, near.as_slice())?;
    }
    Ok(())
}

fn boxes_of(alloc: Global, segs: &[Seg]) -> Result<Vec<Rect>, NoMemory>
    ensures { IfOk result (λ boxes. boxes.items ≡ map box_of_segment segs.now) }
{
    let boxes = segs.iter().map(|s| Rect::of_segment(*s)).collect(alloc)?;
    Ok(boxes)
}

// Finds the boxes that touch one of those from first to before past, by one query about their hull.
fn find_near(
    tree: &BoxTree,
    first: usize,
    past: usize,
    near: &mut Vec<usize>,
    spare: &mut Vec<usize>,
) -> Result<(), NoMemory>
    requires some { first < past }
    requires within { past ≤ length tree.now }
    ensures { OnOk result (AreNear tree.now first past near.new.items) }
{
    let round = hull_of(&tree.boxes()[first..past]);
    tree.meeting_into(&Probe::Box(round), near, spare)?;
    Ok(())
}

fn add_crossings_of_block(
    centres: &mut Vec<Coord>,
    segs: &[Seg],
    boxes: &[Rect],
    first: usize,
    past: usize,
    near: &[usize],
) -> Result<(), NoMemory>
    requires in_range { All IsSegInRange segs.now }
    requires boxes { boxes.now ≡ map box_of_segment segs.now }
    requires some { first < past }
    requires within { past ≤ length segs.now }
    requires near { AreNear boxes.now first past near.now }
    ensures { OnOk result (Gains centres.old.items centres.new.items (HasCrossing segs.now first past)) }
{
    for i in first..past {
        add_crossings_of(centres, segs, boxes, i, near)?;
    }
    Ok(())
}

// The crossings of the segment at i with those before it, which are near.
fn add_crossings_of(
    centres: &mut Vec<Coord>,
    segs: &[Seg],
    boxes: &[Rect],
    i: usize,
    near: &[usize],
) -> Result<(), NoMemory>
    requires in_range { All IsSegInRange segs.now }
    requires boxes { boxes.now ≡ map box_of_segment segs.now }
    requires within { i < length segs.now }
    requires near { AreNear boxes.now i (i + 1) near.now }
    ensures { OnOk result (Gains centres.old.items centres.new.items (HasCrossing segs.now i (i + 1))) }
{
    for k in near {
        if let Some(r) = crossed_pixel_before(segs, boxes, i, *k) {
            centres.push(r)?;
        }
    }
    Ok(())
}

// The centre of the pixel in which the segment at i crosses that at k, where k stands before i.
fn crossed_pixel_before(segs: &[Seg], boxes: &[Rect], i: usize, k: usize) -> Option<Coord>
    requires in_range { All IsSegInRange segs.now }
    requires boxes { boxes.now ≡ map box_of_segment segs.now }
    requires i_within { i < length segs.now }
    requires k_within { k < length segs.now }
    ensures { (r : Coord) → (result ≡ Some r) ↔ CrossAt segs.now i k r }
{
    if k < i && boxes[i].touches(boxes[k]) {
        crossed_pixel(segs[i], segs[k])
    } else {
        None
    }
}

// The centre of the pixel in which two segments cross, if they do.
fn crossed_pixel(s: Seg, t: Seg) -> Option<Coord>
    requires s_in_range { IsSegInRange s }
    requires t_in_range { IsSegInRange t }
    ensures { (r : Coord) → (result ≡ Some r) ↔ CrossIn s t r }
{
    let point = crossing(s, t)?;
    Some(pixel_of(&point))
}
