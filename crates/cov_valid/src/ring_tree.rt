ghost use Rattle.std.specs.Prelude.{◌≡◌, ◌<◌, All, IfOk, OnOk, length, map, slice_index_or};
ghost use Rattle.box_tree.specs.Places.{places};
ghost use Rattle.box_tree.specs.Rect.{is_touching};
ghost use Rattle.cov_valid.specs.RingTree.{AreFirstNumbers, AreMoved};

use box_tree::{BoxTree, Probe, Rect, curve};
use cov_types::{Coord, NoMemory};
use std::alloc::Global;
use std::marker::Model;

/// The boxes about rings, for queries of which of them a box touches: a tree over them in an order that keeps near boxes near,
/// whatever the order of the rings is. A contract sees it as the list of the boxes in the order of the rings.
#[derive(Drop)]
pub struct RingTree {
    boxes: Vec<Rect>,
    // The numbers of the rings along the curve.
    order: Vec<usize>,
    // The boxes in that order.
    tree: BoxTree,
}

impl Model for RingTree {
    ghost use Rattle.std.specs.Prelude.{List};
    ghost use Rattle.box_tree.specs.declared.rect.Rect.{Rect};
    ghost use Rattle.cov_valid.specs.RingTree.{AreMovedBoxes};

    ghost Value = { List Rect };

    ghost view = { λ t. t.boxes.items };

    ghost invariant = { λ t. AreMovedBoxes t.boxes.items t.order.items t.tree };
}

impl RingTree {
    /// The tree over the boxes about the rings. Takes linear memory, and n log n time for n rings.
    pub fn build(alloc: Global, boxes: Vec<Rect>) -> Result<RingTree, NoMemory>
        ensures { IfOk result (λ t. t ≡ boxes.items) }
    {
        let order = numbers_along(alloc, &boxes)?;
        let moved = boxes_at(alloc, &boxes, &order)?;
        let tree = BoxTree::build(alloc, moved)?;
        Ok(RingTree { boxes, order, tree })
    }

    /// The numbers of the rings whose boxes touch this one, ascending, written over `found`; what is in `spare` afterwards is of no
    /// use, and after an error both are of none. Takes the time of a query of a `BoxTree`, and n log n for n numbers that are found.
    pub fn meeting_into(
        &self,
        own: Rect,
        found: &mut Vec<usize>,
        spare: &mut Vec<usize>,
    ) -> Result<(), NoMemory>
        ensures { OnOk result (found.new.items ≡ places (is_touching own) 0 self.now) }
    {
        self.tree.meeting_into(&Probe::Box(own), spare, found)?;
        numbers_into(&self.order, spare, found)?;
        found.sort_unstable();
        Ok(())
    }
}

// The numbers of the boxes along a curve that keeps near ones near.
fn numbers_along(alloc: Global, boxes: &[Rect]) -> Result<Vec<usize>, NoMemory>
    ensures { IfOk result (λ order. AreFirstNumbers (length boxes.now) order.items) }
{
    let mut keyed = Vec::with_capacity(alloc, boxes.len())?;
    for (number, b) in boxes.iter().enumerate() {
        keyed.push((curve_of_box(*b), number))?;
    }
    keyed.sort_unstable();
    let order = without_keys(alloc, keyed.as_slice())?;
    Ok(order)
}

// The place of a box's centre, taken twice, along the curve. Only the time of a query depends on it, so a sum may wrap.
fn curve_of_box(b: Rect) -> u64 {
    curve(Coord {
        x: b.lo.x.wrapping_add(b.hi.x),
        y: b.lo.y.wrapping_add(b.hi.y),
    })
}

fn without_keys(alloc: Global, keyed: &[(u64, usize)]) -> Result<Vec<usize>, NoMemory>
    ensures { IfOk result (λ order. order.items ≡ map (λ p. p.1) keyed.now) }
{
    let order = keyed.iter().map(|(_, number)| *number).collect(alloc)?;
    Ok(order)
}

// The boxes with these numbers.
fn boxes_at(alloc: Global, boxes: &[Rect], order: &[usize]) -> Result<Vec<Rect>, NoMemory>
    requires { All (λ n. n < length boxes.now) order.now }
    ensures { IfOk result (λ moved. AreMoved boxes.now order.now moved.items) }
{
    let mut moved = Vec::with_capacity(alloc, order.len())?;
    for number in order {
        moved.push(boxes[*number])?;
    }
    Ok(moved)
}

// The numbers at these places of the order, written over `found`.
fn numbers_into(order: &[usize], places: &[usize], found: &mut Vec<usize>) -> Result<(), NoMemory>
    requires { All (λ k. k < length order.now) places.now }
    ensures { OnOk result (found.new.items ≡ map (λ k. slice_index_or order.now k 0) places.now) }
{
    found.clear();
    for k in places {
        found.push(order[*k])?;
    }
    Ok(())
}
