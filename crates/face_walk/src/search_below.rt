ghost use Rattle.std.specs.Prelude.{◌≡◌, [], pos, List, ℕ, IsTrue, ◌^◌};
ghost use Rattle.cov_types.specs.Range.{IsInRange, IsSegInRange};
ghost use Rattle.cov_types.specs.declared.coord.Coord.{Coord};
ghost use Rattle.cov_types.specs.declared.seg.Seg.{Seg};
ghost use Rattle.plane.specs.Point.{at_coord};
ghost use Rattle.sector_laws.specs.Sector.{IsPlanar};
ghost use Rattle.face_walk.specs.Boxes.{AreEdgeBoxes, IsSearchBelow, IsBoxSettled, IsFloor, IsRowsDown, is_in_reach};
ghost use Rattle.face_walk.specs.Nearest.{IsCandidate};
ghost use Rattle.region_laws.specs.Below.{is_under};
ghost use Rattle.integer_laws.specs.Bound.{IsWithin};

use crate::below::nearest_with;
use box_tree::{Rect, Search};
use cov_types::{Coord, LIMIT, Seg};
use grid_pred::{SLOPE, rise, turn_to};
use std::marker::{Brand, PhantomData};

/// What is asked of a search, from its begin to its end.
pub trait Query {
    /// The edges.
    ghost edges: { List Seg };

    /// The places of the edges, in the order of their boxes.
    ghost places: { List ℕ };

    /// The point whose nearest edge below it is looked for.
    ghost point: { Coord };
}

impl Query for Brand {
    ghost edges = { [] };

    ghost places = { [] };

    ghost point = { record { x = pos 0; y = pos 0 } };
}

/// A search among the boxes of edges for the nearest edge below a point.
#[derive(Drop)]
pub struct SearchBelow<'a, Q: Query> {
    edges: &'a [Seg],
    places: &'a [usize],
    point: Coord,
    // The place of the nearest edge so far.
    pub nearest: Option<usize>,
    // No edge that is wholly below this row is nearer.
    floor: i32,
    query: PhantomData<Q>,
}

impl<'a, Q: Query> SearchBelow<'a, Q> {
    /// A search that has settled no edge yet. It takes the edges and their places as the query has them.
    pub fn new(edges: &'a [Seg], places: &'a [usize], point: Coord) -> SearchBelow<'a, Q>
        requires planar { IsPlanar edges.now }
        requires in_range { IsInRange point }
        ensures edges { result.edges.now ≡ edges.now }
        ensures places { result.places.now ≡ places.now }
        ensures point { result.point ≡ point }
        ensures so_far { IsSearchBelow edges.now point result.nearest result.floor }
    {
        SearchBelow {
            edges,
            places,
            point,
            nearest: None,
            floor: -LIMIT,
            query: PhantomData,
        }
    }
}

impl<'a, Q: Query> Search for SearchBelow<'a, Q> {
    ghost use Rattle.std.specs.Prelude.{◌≡◌};
    ghost use Rattle.face_walk.specs.Boxes.{AreEdgeBoxes, IsSearchBelow, IsBoxSettled};

    ghost is_among = { λ s boxes. (s.edges.now ≡ Q.edges) × (s.places.now ≡ Q.places) × (s.point ≡ Q.point) × AreEdgeBoxes Q.edges Q.places boxes × IsSearchBelow Q.edges Q.point s.nearest s.floor };

    ghost is_settled = { λ s k. IsBoxSettled Q.edges Q.places Q.point s.nearest k };

    fn may_matter(&self, hull: Rect) -> bool {
        is_in_reach(self.point, self.floor, hull)
    }

    fn visit(&mut self, k: usize) {
        self.nearest = nearest_with(self.edges, self.point, self.nearest, self.places[k]);
        self.floor = floor_below(self.edges, self.point, self.nearest);
    }
}

// Whether a box may have an edge that is under p and not wholly below the row.
fn is_in_reach(p: Coord, row: i32, b: Rect) -> bool
    ensures { result ≡ is_in_reach p row b }
{
    (b.lo.x <= p.x) & (p.x <= b.hi.x) & (b.lo.y < p.y) & (row <= b.hi.y)
}

// The least row that is not below where the way straight down the ray from p meets the nearest edge so far; where there is none, the
// least row in range.
fn floor_below(edges: &[Seg], p: Coord, nearest: Option<usize>) -> i32
    requires planar { IsPlanar edges.now }
    requires in_range { IsInRange p }
    requires candidate { IsCandidate edges.now (at_coord p) nearest }
    ensures { IsFloor edges.now (at_coord p) nearest result }
{
    match nearest {
        Some(place) => p.y - rows_down(edges[place], p),
        None => -LIMIT,
    }
}

// How many rows it is from p down to where the ray meets the edge, rounded down. The way goes a right of p by the turn over the rise.
fn rows_down(e: Seg, p: Coord) -> i32
    requires edge_in_range { IsSegInRange e }
    requires point_in_range { IsInRange p }
    requires under { IsTrue (is_under e (at_coord p)) }
    ensures rows { IsRowsDown e p result }
    ensures small { IsWithin (2 ^ 29) result }
{
    let turn = turn_to(e, p).unsigned_abs() as u128;
    let rise = rise(e).unsigned_abs() as u128;
    (turn * SLOPE as u128 / rise) as i32
}
