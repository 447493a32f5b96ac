ghost use Rattle.std.specs.Prelude.{◌≡◌, ◌*◌, ◌<◌, ◌^◌, length};
ghost use Rattle.cov_types.specs.Uses.{HasEvenEnds};
ghost use Rattle.arrangement.specs.Noding.{odd_uses};
ghost use Rattle.owner_label.specs.Sided.{region_on, AreSided};

use arrangement::OddUse;
use cov_types::Seg;
use face_walk::Regions;
use half_edge::Side;
use snap_noder::LiveEdges;
use std::marker::Model;

/// Distinct edges that meet in ends alone, their odd pairs, and the region of each side, while labels are made.
#[derive(Drop)]
pub struct SidedEdges<'a> {
    edges: &'a [Seg],
    odd: &'a [OddUse],
    regions: &'a [usize],
}

impl<'a> Model for SidedEdges<'a> {
    ghost use Rattle.owner_label.specs.Sided.{Sided, AreSided};

    ghost Value = { Sided };

    ghost view = { λ s. record { edges = s.edges.now; odd = s.odd.now; regions = s.regions.now } };

    ghost invariant = { λ s. AreSided (record { edges = s.edges.now; odd = s.odd.now; regions = s.regions.now }) };
}

impl<'a> SidedEdges<'a> {
    /// The live edges, with the regions between them.
    pub fn build(r: &'a Regions, l: &'a LiveEdges) -> SidedEdges<'a>
        requires regions { r.now ≡ l.now.edges.items }
        requires even { HasEvenEnds (odd_uses l.now.edges.items l.now.odd.items) }
        ensures edges { result.edges ≡ l.now.edges.items }
        ensures odd { result.odd ≡ l.now.odd.items }
    {
        SidedEdges {
            edges: &l.edges,
            odd: &l.odd,
            regions: r.numbers(),
        }
    }

    /// How many edges there are.
    pub fn len(&self) -> usize
        ensures count { result ≡ length self.now.edges }
        ensures small { result < 2 ^ 62 }
        ensures sided { AreSided self.now }
    {
        self.edges.len()
    }

    /// The odd pairs, ascending.
    pub fn odd(&self) -> &[OddUse]
        ensures odd { result.now ≡ self.now.odd }
        ensures sided { AreSided self.now }
    {
        self.odd
    }

    /// The region of each side.
    pub fn regions(&self) -> &[usize]
        ensures regions { result.now ≡ self.now.regions }
        ensures sided { AreSided self.now }
    {
        self.regions
    }

    /// The region of the side.
    pub fn region(&self, side: Side) -> usize
        requires within { side.number < 2 * length self.now.edges }
        ensures region { result ≡ region_on self.now side.number }
        ensures within { result < 2 * length self.now.edges }
        ensures sided { AreSided self.now }
    {
        let regions = self.regions;
        regions[side.number()]
    }
}
