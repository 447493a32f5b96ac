ghost use Rattle.std.specs.Prelude.{◌≡◌, ◌∷◌, [], All, IfOk, IsPermutation, Some, map};
ghost use Rattle.cov_types.specs.Range.{IsInRange};
ghost use Rattle.greedy_run.specs.Run.{current};
ghost use Rattle.box_tree.specs.Rect.{box_of_point};
ghost use Rattle.cov_cells.specs.Way.{IsFirstInWay};

use crate::removal::without;
use crate::search::first_wanted;
use crate::wanted::Wanted;
use box_tree::{BoxTree, Rect, curve};
use cov_types::{Coord, NoMemory};
use std::alloc::Global;
use std::marker::{Brand, Model};
use std::mem::replace;

/// Points that may go one after the other. A contract sees them as the list of those that are left, in an order of the cells' own.
#[derive(Drop)]
pub struct Cells {
    // The points in the order of the tree, and nothing where one has gone.
    slots: Vec<Option<Coord>>,
    tree: BoxTree,
}

impl Model for Cells {
    ghost use Rattle.std.specs.Prelude.{List};
    ghost use Rattle.cov_types.specs.declared.coord.Coord.{Coord};
    ghost use Rattle.cov_cells.specs.Slots.{living, AreCells};

    ghost Value = { List Coord };

    ghost view = { λ cells. living cells.slots.items };

    ghost invariant = { λ cells. AreCells cells.slots.items cells.tree };
}

impl Cells {
    /// Cells of these points. Takes linear memory, and n log n time for n points.
    pub fn build(alloc: Global, points: &[Coord]) -> Result<Cells, NoMemory>
        requires { All IsInRange points.now }
        ensures { IfOk result (λ cells. IsPermutation points.now cells) }
    {
        let along = points_along(alloc, points)?;
        let slots = slots_of(alloc, along.as_slice())?;
        let boxes = boxes_of(alloc, along.as_slice())?;
        let tree = BoxTree::build(alloc, boxes)?;
        Ok(Cells { slots, tree })
    }

    /// Takes a point out, as often as it stands there. Takes no memory, and about the logarithm of the number of points in time.
    pub fn remove(&mut self, p: Coord)
        ensures { self.new ≡ current (p ∷ []) self.old }
    {
        let alloc = *self.slots.allocator();
        let slots = replace(&mut self.slots, Vec::new(alloc));
        self.slots = without::<Brand>(slots, &self.tree, p);
    }

    /// The least of the points that are in the closed triangle abc and none of its corners; None where there is none. A flat
    /// triangle is the segment that has all three. Takes no memory; the time is that of the boxes that the triangle's box touches.
    pub fn first_in(&self, a: Coord, b: Coord, c: Coord) -> Option<Coord>
        requires a_in_range { IsInRange a }
        requires b_in_range { IsInRange b }
        requires c_in_range { IsInRange c }
        ensures { IsFirstInWay self.now (record { a = a; b = b; c = c }) result }
    {
        let wanted = Wanted::InWay(a, b, c);
        match first_wanted::<Brand>(self.slots.as_slice(), &self.tree, wanted) {
            Some(found) => Some(found.point),
            None => None,
        }
    }
}

// The same points along a curve that keeps near ones near in the list.
fn points_along(alloc: Global, points: &[Coord]) -> Result<Vec<Coord>, NoMemory>
    ensures { IfOk result (λ along. IsPermutation points.now along.items) }
{
    let mut keyed = keyed_points(alloc, points)?;
    keyed.sort_unstable();
    let along = without_keys(alloc, keyed.as_slice())?;
    Ok(along)
}

fn keyed_points(alloc: Global, points: &[Coord]) -> Result<Vec<(u64, Coord)>, NoMemory>
    ensures { IfOk result (λ keyed. map (λ p. p.1) keyed.items ≡ points.now) }
{
    let mut keyed = Vec::with_capacity(alloc, points.len())?;
    for p in points {
        keyed.push((curve(*p), *p))?;
    }
    Ok(keyed)
}

fn without_keys(alloc: Global, keyed: &[(u64, Coord)]) -> Result<Vec<Coord>, NoMemory>
    ensures { IfOk result (λ along. along.items ≡ map (λ p. p.1) keyed.now) }
{
    let along = keyed.iter().map(|(_, p)| *p).collect(alloc)?;
    Ok(along)
}

fn slots_of(alloc: Global, points: &[Coord]) -> Result<Vec<Option<Coord>>, NoMemory>
    ensures { IfOk result (λ slots. slots.items ≡ map Some points.now) }
{
    let slots = points.iter().map(|p| Some(*p)).collect(alloc)?;
    Ok(slots)
}

fn boxes_of(alloc: Global, points: &[Coord]) -> Result<Vec<Rect>, NoMemory>
    ensures { IfOk result (λ boxes. boxes.items ≡ map box_of_point points.now) }
{
    let boxes = points.iter().map(|p| Rect::of_point(*p)).collect(alloc)?;
    Ok(boxes)
}
