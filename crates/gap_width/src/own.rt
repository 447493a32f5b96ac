ghost use Rattle.std.specs.Prelude.{◌≡◌, ℕ, ◌*◌, ◌/◌, ◌<◌, length, All, Some, slice_get, IfOk};
ghost use Rattle.cov_types.specs.Range.{IsSegInRange};
ghost use Rattle.crossing_laws.specs.Crossing.{crossing_sum};
ghost use Rattle.clearance_laws.specs.Inside.{half_point};
ghost use Rattle.grid_pred.specs.Half.{IsHalfInRange};
ghost use Rattle.gap_width.specs.Own.{IsSmallEdge, weighed, weight_of_side, AreOfSides};

use cov_types::{Coord, NoMemory, Seg};
use grid_pred::over_half;
use half_edge::Side;
use std::alloc::Global;

/// An edge beside a region. Over a point it weighs 1 where the region is below it, -1 where the region is above it.
#[derive(Clone, Copy)]
pub struct OwnEdge {
    pub edge: Seg,
    pub weight: i64,
}

/// The edges of the sides, each with what it weighs.
pub fn own_edges(alloc: Global, edges: &[Seg], sides: &[usize]) -> Result<Vec<OwnEdge>, NoMemory>
    requires in_range { All IsSegInRange edges.now }
    requires within { All (λ n. n < 2 * length edges.now) sides.now }
    ensures { IfOk result (λ v. AreOfSides edges.now sides.now v.items) }
{
    let mut own = Vec::new(alloc);
    for side in sides {
        own.push(own_edge(edges, Side::of_number(*side)))?;
    }
    Ok(own)
}

// The edge of the side.
fn own_edge(edges: &[Seg], side: Side) -> OwnEdge
    requires within { side.number < 2 * length edges.now }
    ensures edge { slice_get edges.now (side.number / 2) ≡ Some result.edge }
    ensures weight { result.weight ≡ weight_of_side side.number }
{
    OwnEdge {
        edge: edges[side.edge()],
        weight: if side.is_upper() { -1 } else { 1 },
    }
}

/// What the edges over the point c/2 weigh.
pub fn weight_over(own: &[OwnEdge], c: Coord) -> i64
    requires edges { All IsSmallEdge own.now }
    requires point { IsHalfInRange c }
    ensures { result ≡ crossing_sum (weighed own.now) (half_point c) }
{
    let mut weight = 0;
    for o in own {
        if over_half(o.edge, c) {
            weight += o.weight;
        }
    }
    weight
}
