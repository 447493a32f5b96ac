ghost use Rattle.std.specs.Prelude.{◌≡◌, ◌<◌, ℕ, All, Contains, IfOk, OnOk, length, slice_index_or};
ghost use Rattle.std.specs.List.{AllZip};
ghost use Rattle.box_tree.specs.Rect.{IsInside, box_of_point};
ghost use Rattle.cov_types.specs.Range.{IsInRange};
ghost use Rattle.cov_types.specs.declared.coord.Coord.{Coord};
ghost use Rattle.cov_locate.specs.Places.{IsRightAt};
ghost use Rattle.cov_locate.specs.Rings.{AreNumbersBelow, IsRingIndex};
ghost use Rattle.cov_locate.specs.Where.{IsWhere};

use crate::near::near_rings;
use crate::place::Where;
use crate::ring_index::{RingIndex, without_keys};
use crate::tally::place_among;
use box_tree::{Rect, curve};
use cov_types::{Coord, NoMemory};
use std::alloc::Global;

/// Where each of the points lies. Neighbours along a curve are located together.
pub fn places_of(alloc: Global, index: &RingIndex, points: &[Coord]) -> Result<Vec<Where>, NoMemory>
    requires index { IsRingIndex index.now }
    requires points { All IsInRange points.now }
    ensures { IfOk result (λ places. AllZip (IsWhere index.now.outline.uses.items) points.now places.items) }
{
    let order = order_along(alloc, points)?;
    let width = group_width(points.len(), index.outline.uses.len());
    let mut places = vec![in alloc; Where::Nowhere; points.len()]?;
    let mut rest = order.as_slice();
    while !rest.is_empty() {
        let (group, others) = rest.split_at(rest.len().min(width));
        place_group(alloc, index, points, group, &mut places)?;
        rest = others;
    }
    Ok(places)
}

// How many points are located together: fewer where they lie farther apart than the segments.
fn group_width(points: usize, uses: usize) -> usize
    ensures { 0 < result }
{
    (points / (uses / 16 + 1)).min(64).max(1)
}

// The numbers of the points along a curve that keeps near points near.
fn order_along(alloc: Global, points: &[Coord]) -> Result<Vec<usize>, NoMemory>
    ensures { IfOk result (λ numbers. AreNumbersBelow (length points.now) numbers.items) }
{
    let mut keyed = Vec::with_capacity(alloc, points.len())?;
    for (number, p) in points.iter().enumerate() {
        keyed.push((curve(*p), number))?;
    }
    keyed.sort_unstable();
    let numbers = without_keys(alloc, keyed.as_slice())?;
    Ok(numbers)
}

// Tells where the points with these numbers lie, by the rings near the box about them. The other places stay right where they are.
fn place_group(
    alloc: Global,
    index: &RingIndex,
    points: &[Coord],
    group: &[usize],
    places: &mut Vec<Where>,
) -> Result<(), NoMemory>
    requires index { IsRingIndex index.now }
    requires points { All IsInRange points.now }
    requires some { 0 < length group.now }
    requires within { All (λ n. n < length points.now) group.now }
    requires places { length places.old.items ≡ length points.now }
    ensures length { OnOk result (length places.new.items ≡ length points.now) }
    ensures group { OnOk result ((n : ℕ) → Contains group.now n → IsRightAt index.now.outline.uses.items points.now places.new.items n) }
    ensures others { OnOk result ((n : ℕ) → IsRightAt index.now.outline.uses.items points.now places.old.items n → IsRightAt index.now.outline.uses.items points.now places.new.items n) }
{
    let round = box_about(points, group);
    let near = near_rings(alloc, index, round)?;
    for number in group {
        places[*number] = place_among(&index.outline, &near, points[*number]);
    }
    Ok(())
}

// A box about the points with these numbers.
fn box_about(points: &[Coord], group: &[usize]) -> Rect
    requires some { 0 < length group.now }
    requires within { All (λ n. n < length points.now) group.now }
    ensures { (k n : ℕ) (d : Coord) → k < length group.now → IsInside (box_of_point (slice_index_or points.now (slice_index_or group.now k n) d)) result }
{
    let mut about = Rect::of_point(points[group[0]]);
    for number in group {
        about = about.hull(Rect::of_point(points[*number]));
    }
    about
}
