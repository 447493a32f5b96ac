ghost use Rattle.std.specs.Prelude.{◌≡◌, ℕ, ◌<◌, length, All, IfOk};
ghost use Rattle.cov_types.specs.Range.{IsInRange};
ghost use Rattle.plane.specs.Point.{at_coord};
ghost use Rattle.sector_laws.specs.Sector.{IsPlanar};
ghost use Rattle.face_walk.specs.Nearest.{IsNearestAnswer, AreNearest, IsCandidate, IsSettled};

use crate::edge_tree::EdgeTree;
use cov_types::{Coord, NoMemory, Seg};
use grid_pred::{is_nearer, is_under};
use std::alloc::Global;

/// For each of these points the place of the nearest edge below it, straight down the ray; None where no edge is below it.
///
/// For few points, or over few edges, each takes a look at all edges. Else a tree over the boxes of the edges is built, in n log n time
/// and linear memory for n edges, and each point takes a search in it: the logarithm of n where edges are short and apart, and up to n
/// where long edges cover each other's boxes.
pub fn nearest_edges_below(
    alloc: Global,
    edges: &[Seg],
    points: &[Coord],
) -> Result<Vec<Option<usize>>, NoMemory>
    requires planar { IsPlanar edges.now }
    requires in_range { All IsInRange points.now }
    ensures { IfOk result (λ v. AreNearest edges.now points.now v.items) }
{
    if points.len() <= FEW || edges.len() <= FEW {
        nearest_by_scans(alloc, edges, points)
    } else {
        nearest_by_searches(alloc, edges, points)
    }
}

/// As many as a tree would not pay for.
const FEW: usize = 16;

// The nearest edges, by a look at all edges for each point.
fn nearest_by_scans(
    alloc: Global,
    edges: &[Seg],
    points: &[Coord],
) -> Result<Vec<Option<usize>>, NoMemory>
    requires planar { IsPlanar edges.now }
    requires in_range { All IsInRange points.now }
    ensures { IfOk result (λ v. AreNearest edges.now points.now v.items) }
{
    let mut answers = Vec::new(alloc);
    for p in points {
        answers.push(nearest_by_scan(edges, *p))?;
    }
    Ok(answers)
}

// The nearest edges, by a search in a tree for each point.
fn nearest_by_searches(
    alloc: Global,
    edges: &[Seg],
    points: &[Coord],
) -> Result<Vec<Option<usize>>, NoMemory>
    requires planar { IsPlanar edges.now }
    requires in_range { All IsInRange points.now }
    ensures { IfOk result (λ v. AreNearest edges.now points.now v.items) }
{
    let tree = EdgeTree::build(alloc, edges)?;
    let mut answers = Vec::new(alloc);
    for p in points {
        answers.push(tree.nearest_below(*p))?;
    }
    Ok(answers)
}

/// The place of the nearest edge below a point, by a look at all edges.
pub fn nearest_by_scan(edges: &[Seg], p: Coord) -> Option<usize>
    requires planar { IsPlanar edges.now }
    requires in_range { IsInRange p }
    ensures { IsNearestAnswer edges.now (at_coord p) result }
{
    let mut nearest = None;
    for k in 0..edges.len() {
        nearest = nearest_with(edges, p, nearest, k);
    }
    nearest
}

/// The nearest below p of the edges at two places, of which the first is under p if it is there.
pub fn nearest_with(edges: &[Seg], p: Coord, nearest: Option<usize>, k: usize) -> Option<usize>
    requires planar { IsPlanar edges.now }
    requires in_range { IsInRange p }
    requires within { k < length edges.now }
    requires candidate { IsCandidate edges.now (at_coord p) nearest }
    ensures candidate { IsCandidate edges.now (at_coord p) result }
    ensures settled { IsSettled edges.now (at_coord p) result k }
    ensures kept { (i : ℕ) → IsSettled edges.now (at_coord p) nearest i → IsSettled edges.now (at_coord p) result i }
{
    if !is_under(edges[k], p) {
        return nearest;
    }
    match nearest {
        Some(i) => {
            if is_nearer(p, edges[i], edges[k]) {
                Some(i)
            } else {
                Some(k)
            }
        }
        None => Some(k),
    }
}
