ghost use Rattle.std.specs.Prelude.{◌≡◌, ◌<◌, ◌≤◌, All, Contains, IfOk, IsTrue, ◌↔◌, length, map};
ghost use Rattle.cov_types.specs.Range.{IsSegInRange};
ghost use Rattle.box_tree.specs.Rect.{box_of_segment};
ghost use Rattle.plane.specs.Noded.{MeetInEnds, IsNodedFully};
ghost use Rattle.half_edge.specs.Arranged.{AreNodedFrom, MeetInEndsAt};

use box_tree::{BoxTree, Probe, Rect, curve, hull_of, narrow_into};
use cov_types::{NoMemory, Seg};
use grid_pred::{Contact, relation};
use std::alloc::Global;

// How many edges that are neighbours along the curve ask the tree together.
const BLOCK: usize = 8;

/// Whether the edges meet in ends alone. Takes n log n time, and besides the pairs of edges whose boxes touch; linear memory.
pub(crate) fn are_noded(alloc: Global, edges: &[Seg]) -> Result<bool, NoMemory>
    requires { All IsSegInRange edges.now }
    ensures { IfOk result (λ noded. IsTrue noded ↔ IsNodedFully edges.now) }
{
    let along = along_curve(alloc, edges)?;
    let noded = are_noded_by_blocks(alloc, along.as_slice())?;
    Ok(noded)
}

// The same of edges of which near ones are near in the list.
fn are_noded_by_blocks(alloc: Global, edges: &[Seg]) -> Result<bool, NoMemory>
    requires { All IsSegInRange edges.now }
    ensures { IfOk result (λ noded. IsTrue noded ↔ IsNodedFully edges.now) }
{
    let tree = BoxTree::build(alloc, boxes_of(alloc, edges)?)?;
    let mut near = Near {
        wide: Vec::new(alloc),
        spare: Vec::new(alloc),
        own: Vec::new(alloc),
    };
    let mut from = 0;
    while from < edges.len() {
        let to = edges.len().min(from + BLOCK);
        if !are_noded_from(edges, &tree, from, to, &mut near)? {
            return Ok(false);
        }
        from = to;
    }
    Ok(true)
}

/// The places of near boxes: of a whole block, and of one of its edges.
#[derive(Drop)]
struct Near {
    wide: Vec<usize>,
    spare: Vec<usize>,
    own: Vec<usize>,
}

// The same edges in an order that keeps near ones near in the list.
fn along_curve(alloc: Global, edges: &[Seg]) -> Result<Vec<Seg>, NoMemory>
    ensures { IfOk result (λ along. (e : Seg) → Contains along.items e ↔ Contains edges.now e) }
{
    let mut keyed = Vec::with_capacity(alloc, edges.len())?;
    for e in edges {
        keyed.push((curve(e.lo), *e))?;
    }
    keyed.sort_unstable();
    let along = without_keys(alloc, keyed.as_slice())?;
    Ok(along)
}

fn without_keys(alloc: Global, keyed: &[(u64, Seg)]) -> Result<Vec<Seg>, NoMemory>
    ensures { IfOk result (λ edges. edges.items ≡ map (λ p. p.1) keyed.now) }
{
    let edges = keyed.iter().map(|(_, e)| *e).collect(alloc)?;
    Ok(edges)
}

fn boxes_of(alloc: Global, edges: &[Seg]) -> Result<Vec<Rect>, NoMemory>
    ensures { IfOk result (λ boxes. boxes.items ≡ map box_of_segment edges.now) }
{
    let boxes = edges.iter().map(|e| Rect::of_segment(*e)).collect(alloc)?;
    Ok(boxes)
}

// Whether each edge of a block meets all edges in ends alone, by one query of the tree about the hull of the block.
fn are_noded_from(
    edges: &[Seg],
    tree: &BoxTree,
    from: usize,
    to: usize,
    near: &mut Near,
) -> Result<bool, NoMemory>
    requires in_range { All IsSegInRange edges.now }
    requires boxed { tree.now ≡ map box_of_segment edges.now }
    requires some { from < to }
    requires within { to ≤ length edges.now }
    ensures { IfOk result (λ noded. IsTrue noded ↔ AreNodedFrom edges.now from to) }
{
    let boxes = tree.boxes();
    let round = hull_of(&boxes[from..to]);
    tree.meeting_into(&Probe::Box(round), &mut near.wide, &mut near.spare)?;
    for k in from..to {
        narrow_into(boxes, round, &near.wide, boxes[k], &mut near.own)?;
        if !meets_in_ends_at(edges[k], edges, &near.own) {
            return Ok(false);
        }
    }
    Ok(true)
}

// Whether the edge meets those at the places in ends alone.
fn meets_in_ends_at(e: Seg, edges: &[Seg], places: &[usize]) -> bool
    requires edge_in_range { IsSegInRange e }
    requires in_range { All IsSegInRange edges.now }
    requires within { All (λ k. k < length edges.now) places.now }
    ensures { IsTrue result ↔ MeetInEndsAt e edges.now places.now }
{
    for k in places {
        if !meets_in_ends(e, edges[*k]) {
            return false;
        }
    }
    true
}

fn meets_in_ends(e: Seg, f: Seg) -> bool
    requires e_in_range { IsSegInRange e }
    requires f_in_range { IsSegInRange f }
    ensures { IsTrue result ↔ MeetInEnds e f }
{
    match relation(e, f) {
        Contact::Bad(_) => false,
        Contact::Apart => true,
        Contact::SameSegment => true,
        Contact::CommonEnd => true,
    }
}
