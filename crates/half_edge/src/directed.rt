ghost use Rattle.std.specs.Prelude.{◌≡◌, ◌*◌, ◌<◌, length};
ghost use Rattle.sector_laws.specs.Sector.{origin, IsHalfEdge};
ghost use Rattle.half_edge.specs.Directed.{half_edge_of};

use crate::side::Side;
use cov_types::{Coord, Seg};

/// An edge with a direction: forwards from lo to hi, or back.
#[derive(Clone, Copy)]
pub struct DirectedEdge {
    pub edge: Seg,
    pub forwards: bool,
}

/// The half-edge that has the side on its left.
pub fn directed(edges: &[Seg], h: Side) -> DirectedEdge
    requires within { h.number < 2 * length edges.now }
    ensures numbered { IsHalfEdge edges.now h.number (half_edge_of result) }
{
    DirectedEdge {
        edge: edges[h.edge()],
        forwards: h.is_upper(),
    }
}

impl DirectedEdge {
    /// The vertex where it begins.
    pub fn origin(self) -> Coord
        ensures { result ≡ origin (half_edge_of self) }
    {
        if self.forwards {
            self.edge.lo
        } else {
            self.edge.hi
        }
    }
}
