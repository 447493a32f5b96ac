ghost use Rattle.std.specs.Prelude.{◌≡◌, ◌<◌, length, All, IfOk, map};
ghost use Rattle.cov_types.specs.Range.{IsInRange, IsSegInRange};
ghost use Rattle.plane.specs.Point.{at_coord};
ghost use Rattle.sector_laws.specs.Sector.{IsPlanar};
ghost use Rattle.face_walk.specs.Boxes.{AreFirstPlaces, AreBoxesAt, AreEdgeBoxes, curve_down};
ghost use Rattle.face_walk.specs.Nearest.{IsNearestAnswer};

use crate::search_below::{Query, SearchBelow};
use box_tree::{BoxTree, Rect, curve};
use cov_types::{Coord, NoMemory, Seg};
use std::alloc::Global;
use std::marker::{Brand, Model};

/// Planar edges, with a tree over their boxes. A contract sees them as their list.
#[derive(Drop)]
pub struct EdgeTree<'a> {
    edges: &'a [Seg],
    // The places of the edges, in the order of their boxes.
    places: Vec<usize>,
    tree: BoxTree,
}

impl<'a> Model for EdgeTree<'a> {
    ghost use Rattle.std.specs.Prelude.{List};
    ghost use Rattle.cov_types.specs.declared.seg.Seg.{Seg};
    ghost use Rattle.face_walk.specs.Boxes.{AreEdgeBoxes};

    ghost Value = { List Seg };

    ghost view = { λ t. t.edges.now };

    ghost invariant = { λ t. AreEdgeBoxes t.edges.now t.places.items t.tree };
}

impl<'a> EdgeTree<'a> {
    /// The tree over the boxes of edges, which it borrows. Takes linear memory, and n log n time for n edges.
    pub fn build(alloc: Global, edges: &'a [Seg]) -> Result<EdgeTree<'a>, NoMemory>
        requires { IsPlanar edges.now }
        ensures { IfOk result (λ t. t ≡ edges.now) }
    {
        let places = places_down(alloc, edges)?;
        let boxes = boxes_at(alloc, edges, &places)?;
        let tree = BoxTree::build(alloc, boxes)?;
        Ok(EdgeTree {
            edges,
            places,
            tree,
        })
    }

    /// The place of the nearest edge below a point; None where no edge is below it.
    pub fn nearest_below(&self, p: Coord) -> Option<usize>
        requires { IsInRange p }
        ensures { IsNearestAnswer self.now (at_coord p) result }
    {
        nearest_in_tree::<Brand>(self.edges, self.places.as_slice(), &self.tree, p)
    }
}

// The place of the nearest edge below a point, by a search in a tree of the boxes of the edges at these places.
fn nearest_in_tree<Q: Query>(
    edges: &[Seg],
    places: &[usize],
    tree: &BoxTree,
    p: Coord,
) -> Option<usize>
    requires query { (edges.now ≡ Q.edges) × (places.now ≡ Q.places) × (p ≡ Q.point) }
    requires boxes { AreEdgeBoxes edges.now places.now tree.now }
    requires in_range { IsInRange p }
    ensures { IsNearestAnswer edges.now (at_coord p) result }
{
    let mut search = SearchBelow::<Q>::new(edges, places, p);
    tree.search(&mut search);
    search.nearest
}

// The places of the edges along a curve that keeps near edges together and on the whole leads down: the nearest edge below a point is
// then among the first of a search.
fn places_down(alloc: Global, edges: &[Seg]) -> Result<Vec<usize>, NoMemory>
    requires { IsPlanar edges.now }
    ensures { IfOk result (λ places. AreFirstPlaces (length edges.now) places.items) }
{
    let mut keyed = Vec::with_capacity(alloc, edges.len())?;
    for (place, e) in edges.iter().enumerate() {
        keyed.push((curve_down(*e), place))?;
    }
    keyed.sort_unstable();
    let places = without_keys(alloc, keyed.as_slice())?;
    Ok(places)
}

// The place of an edge's midpoint, taken twice and turned upside down, along the curve.
fn curve_down(e: Seg) -> u64
    requires { IsSegInRange e }
    ensures { result ≡ curve_down e }
{
    curve(Coord {
        x: e.lo.x + e.hi.x,
        y: -(e.lo.y + e.hi.y),
    })
}

fn without_keys(alloc: Global, keyed: &[(u64, usize)]) -> Result<Vec<usize>, NoMemory>
    ensures { IfOk result (λ places. places.items ≡ map (λ p. p.1) keyed.now) }
{
    let places = keyed.iter().map(|(_, place)| *place).collect(alloc)?;
    Ok(places)
}

// The boxes of the edges at these places.
fn boxes_at(alloc: Global, edges: &[Seg], places: &[usize]) -> Result<Vec<Rect>, NoMemory>
    requires { All (λ place. place < length edges.now) places.now }
    ensures { IfOk result (λ boxes. AreBoxesAt edges.now places.now boxes.items) }
{
    let mut boxes = Vec::with_capacity(alloc, places.len())?;
    for place in places {
        boxes.push(Rect::of_segment(edges[*place]))?;
    }
    Ok(boxes)
}
