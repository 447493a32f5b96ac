ghost use Rattle.std.specs.Prelude.{◌≡◌, IfOk};
ghost use Rattle.arrangement.specs.Noding.{IsAscending};
ghost use Rattle.line_walk.specs.Partners.{ArePartners};

use crate::edge_end::{ends_by_vertex, other_of_two};
use cov_types::{Coord, NoMemory, Seg};
use std::alloc::Global;

/// Of an edge, at each end the other edge there, where just two meet: its place.
#[derive(Clone, Copy)]
pub struct Partners {
    pub at_lo: Option<usize>,
    pub at_hi: Option<usize>,
}

impl Partners {
    ghost use Rattle.line_walk.specs.Partners.{partner_at, with_partner};

    /// The partner at the vertex, of an edge that ends there.
    pub fn at(self, edge: Seg, vertex: Coord) -> Option<usize>
        ensures { result ≡ partner_at edge vertex self }
    {
        if edge.lo == vertex {
            self.at_lo
        } else {
            self.at_hi
        }
    }

    // The same but for the partner at the vertex.
    fn with(self, edge: Seg, vertex: Coord, other: Option<usize>) -> Partners
        ensures { result ≡ with_partner edge vertex other self }
    {
        if edge.lo == vertex {
            Partners {
                at_lo: other,
                at_hi: self.at_hi,
            }
        } else {
            Partners {
                at_lo: self.at_lo,
                at_hi: other,
            }
        }
    }
}

/// The partners of each edge. Takes n log n time, and memory in proportion to the edges.
pub fn partners_of(alloc: Global, edges: &[Seg]) -> Result<Vec<Partners>, NoMemory>
    requires { IsAscending edges.now }
    ensures { IfOk result (λ partners. ArePartners edges.now partners.items) }
{
    let ends = ends_by_vertex(alloc, edges)?;
    let none = Partners {
        at_lo: None,
        at_hi: None,
    };
    let mut partners = vec![in alloc; none; edges.len()]?;
    for (i, end) in ends.iter().enumerate() {
        let other = other_of_two(&ends, i);
        partners[end.edge] = partners[end.edge].with(edges[end.edge], end.vertex, other);
    }
    Ok(partners)
}
