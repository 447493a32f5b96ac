//! The tree of boxes against a scan of the list.

ghost use Rattle.std.specs.Prelude.{◌<◌, ◌≤◌};
ghost use Rattle.box_tree.specs.Probe.{IsProbeInRange};

use crate::points::in_range;
use crate::random::Random;
use crate::segments::segment;
use box_tree::{BoxTree, Probe, Rect, curve, narrow_into};
use cov_types::{Coord, LIMIT, NoMemory};
use std::alloc::Global;

/// How the boxes of a list lie.
#[derive(Clone, Copy)]
enum Layout {
    /// Short ones, mostly apart.
    Apart,
    /// Short ones in two places far from one another.
    Clusters,
    /// All equal.
    Equal,
    /// Short ones, and one across the whole range.
    OneAcross,
    /// Squares of a grid, each of which touches its neighbours.
    Cells,
    /// Between any two points of 32 bits.
    Anywhere,
}

/// What a list is asked for.
#[derive(Clone, Copy)]
enum Kind {
    Box,
    Pixels,
    Above,
    Below,
}

/// How often a list is asked for each kind.
const ASKED: u32 = 3;

/// A list of boxes, asked by probes of each kind and by a query that is narrowed: what differs from a scan.
pub fn tree_case(alloc: Global, random: &mut Random) -> Result<Option<String>, NoMemory> {
    let boxes = random_boxes(alloc, random)?;
    let tree = BoxTree::build(alloc, Vec::from_slice(alloc, &boxes)?)?;
    for kind in [Kind::Box, Kind::Pixels, Kind::Above, Kind::Below] {
        for _ in 0..ASKED {
            let probe = random_probe(kind, &boxes, random);
            let difference = meeting_difference(alloc, &tree, &boxes, &probe)?;
            if difference.is_some() {
                return Ok(difference);
            }
        }
    }
    narrow_difference(alloc, &tree, &boxes, random)
}

// ---- the plain form

// The numbers of the boxes that the probe reaches, by asking each.
fn scan(alloc: Global, boxes: &[Rect], probe: &Probe) -> Result<Vec<usize>, NoMemory>
    requires { IsProbeInRange probe.now }
{
    let mut found = Vec::new(alloc);
    for (number, b) in boxes.iter().enumerate() {
        if probe.reaches(*b) {
            found.push(number)?;
        }
    }
    Ok(found)
}

// ---- what differs

fn meeting_difference(
    alloc: Global,
    tree: &BoxTree,
    boxes: &[Rect],
    probe: &Probe,
) -> Result<Option<String>, NoMemory>
    requires { IsProbeInRange probe.now }
{
    let found = tree.meeting(probe)?;
    let scanned = scan(alloc, boxes, probe)?;
    if found.as_slice() == scanned.as_slice() {
        return Ok(None);
    }
    let count = boxes.len();
    Ok(Some(format!(in alloc; "{count} boxes, {probe:?}: meeting {found:?}, scan {scanned:?}")?))
}

fn narrow_difference(
    alloc: Global,
    tree: &BoxTree,
    boxes: &[Rect],
    random: &mut Random,
) -> Result<Option<String>, NoMemory> {
    let own = Rect::spanning(point_near(boxes, random), point_near(boxes, random));
    let round = own.hull(Rect::of_point(point_near(boxes, random)));
    let wide = tree.meeting(&Probe::Box(round))?;
    let mut found = Vec::new(alloc);
    narrow_into(tree.boxes(), round, &wide, own, &mut found)?;
    let scanned = scan(alloc, boxes, &Probe::Box(own))?;
    if found.as_slice() == scanned.as_slice() {
        return Ok(None);
    }
    let count = boxes.len();
    Ok(Some(format!(in alloc;
        "{count} boxes, {own:?} in {round:?}: narrow_into {found:?}, scan {scanned:?}"
    )?))
}

// ---- probes

// A probe whose points are near corners of boxes.
fn random_probe(kind: Kind, boxes: &[Rect], random: &mut Random) -> Probe
    ensures { IsProbeInRange result }
{
    let a = point_near(boxes, random);
    let b = point_near(boxes, random);
    match kind {
        Kind::Box => Probe::Box(Rect::spanning(a, b)),
        Kind::Pixels => pixels(a, b),
        Kind::Above => Probe::Above(twice(a, random)),
        Kind::Below => Probe::Below(twice(a, random)),
    }
}

// The pixels of the segment between the points in range that are nearest to two points; of equal ones their box.
fn pixels(a: Coord, b: Coord) -> Probe
    ensures { IsProbeInRange result }
{
    let from = in_range(a.x as i64, a.y as i64);
    let to = in_range(b.x as i64, b.y as i64);
    match segment(from, to) {
        Some(s) => Probe::Pixels(s),
        None => Probe::Box(Rect::of_point(from)),
    }
}

// Twice the point, or one more in a coordinate.
fn twice(p: Coord, random: &mut Random) -> Coord {
    Coord {
        x: p.x.saturating_mul(2).saturating_add(random.below(2) as i32),
        y: p.y.saturating_mul(2).saturating_add(random.below(2) as i32),
    }
}

// A corner of some box, or a point at most one unit from it in each coordinate; of no boxes some point.
fn point_near(boxes: &[Rect], random: &mut Random) -> Coord {
    let corner = if boxes.is_empty() {
        anywhere(random)
    } else {
        random_corner(boxes[random.place(boxes.len())], random)
    };
    Coord {
        x: corner.x.saturating_add(random.below(3) as i32 - 1),
        y: corner.y.saturating_add(random.below(3) as i32 - 1),
    }
}

fn random_corner(b: Rect, random: &mut Random) -> Coord {
    Coord {
        x: if random.one_in(2) { b.lo.x } else { b.hi.x },
        y: if random.one_in(2) { b.lo.y } else { b.hi.y },
    }
}

// ---- lists

// Up to 300 boxes of one layout, in any order or along the curve.
fn random_boxes(alloc: Global, random: &mut Random) -> Result<Vec<Rect>, NoMemory> {
    let layout = random_layout(random);
    let most = if random.one_in(3) { 21 } else { 301 };
    let mut boxes = Vec::new(alloc);
    for k in 0..random.below(most) {
        boxes.push(random_box(layout, k, random))?;
    }
    if random.one_in(2) {
        boxes.sort_unstable_by_key(|b| curve(b.lo));
    }
    Ok(boxes)
}

fn random_layout(random: &mut Random) -> Layout {
    match random.below(6) {
        0 => Layout::Apart,
        1 => Layout::Clusters,
        2 => Layout::Equal,
        3 => Layout::OneAcross,
        4 => Layout::Cells,
        _ => Layout::Anywhere,
    }
}

// The box with the number k of a layout.
fn random_box(layout: Layout, k: u32, random: &mut Random) -> Rect {
    match layout {
        Layout::Apart => short_box(0, 100, random),
        Layout::Clusters if k % 2 == 0 => short_box(-200_000_000, 12, random),
        Layout::Clusters => short_box(200_000_000, 12, random),
        Layout::Equal => Rect::spanning(Coord { x: 3, y: 5 }, Coord { x: 9, y: 6 }),
        Layout::OneAcross if k == 5 => Rect::spanning(
            Coord {
                x: -LIMIT,
                y: -LIMIT,
            },
            Coord { x: LIMIT, y: LIMIT },
        ),
        Layout::OneAcross => short_box(0, 100, random),
        Layout::Cells => cell(k),
        Layout::Anywhere => Rect::spanning(anywhere(random), anywhere(random)),
    }
}

// A box of a few units, up to so many from a point of the diagonal.
fn short_box(middle: i32, most: u32, random: &mut Random) -> Rect
    requires some { 0 < most }
    requires few { most ≤ 1000 }
{
    let lo = Coord {
        x: middle.saturating_add(random.below(most) as i32),
        y: middle.saturating_add(random.below(most) as i32),
    };
    let hi = Coord {
        x: lo.x.saturating_add(random.below(5) as i32),
        y: lo.y.saturating_add(random.below(5) as i32),
    };
    Rect::spanning(lo, hi)
}

// The square with the number k of a grid that is 16 squares wide.
fn cell(k: u32) -> Rect {
    let lo = Coord {
        x: (k % 16) as i32 * 10,
        y: (k / 16 % 1000) as i32 * 10,
    };
    let hi = Coord {
        x: lo.x + 10,
        y: lo.y + 10,
    };
    Rect::spanning(lo, hi)
}

// Any point of 32 bits.
fn anywhere(random: &mut Random) -> Coord {
    Coord {
        x: (random.below(u32::MAX) as i64 + i32::MIN as i64) as i32,
        y: (random.below(u32::MAX) as i64 + i32::MIN as i64) as i32,
    }
}
