ghost use Rattle.std.specs.Prelude.{◌≡◌, ℕ, ◌≤◌, ◌^◌, ◌↔◌, List, IfOk, IsTrue};
ghost use Rattle.cov_types.specs.declared.seg.Seg.{Seg};
ghost use Rattle.plane.specs.Region.{IsOuterRegion};
ghost use Rattle.arrangement.specs.Overlay.{IsRegion};
ghost use Rattle.region_owners.specs.Gap.{IsClearance, IsNarrow};
ghost use Rattle.gap_width.specs.Own.{AreSides};
ghost use Rattle.gap_width.specs.Search.{IsMost};

use crate::block::block_inside;
use crate::near::measure;
use crate::own::own_edges;
use crate::search::{coarse_room, most_room};
use counting_sort::Grouped;
use cov_types::{NoMemory, Seg};
use face_walk::Regions;
use half_edge::Arena;
use std::alloc::Global;
use std::marker::Model;

// The half diagonal of the blocks that the search for a clearance looks at first, in half grid units.
const COARSEST: u32 = 1 << 26;

/// How wide the regions between the edges of an arena are. It borrows the edges, and keeps the sides of each region. A contract sees
/// the list of edges.
#[derive(Drop)]
pub struct GapSearch<'a> {
    alloc: Global,
    edges: &'a [Seg],
    // By the number of the region.
    sides: Grouped,
}

impl<'a> Model for GapSearch<'a> {
    ghost Value = { List Seg };

    ghost view = { λ g. g.edges.now };

    ghost invariant = { λ g. AreSides g.edges.now g.sides };
}

impl<'a> GapSearch<'a> {
    /// A search in the regions of the arena. Takes time and memory in proportion to the edges.
    pub fn build(alloc: Global, a: &'a Arena, r: &Regions<'a>) -> Result<GapSearch<'a>, NoMemory>
        requires regions { r.now ≡ a.now }
        ensures { IfOk result (λ g. g ≡ a.now) }
    {
        let sides = Grouped::build(alloc, r.numbers(), a.len())?;
        Ok(GapSearch {
            alloc,
            edges: a.edges(),
            sides,
        })
    }

    /// Whether the region is narrower than w, in half grid units: from no grid point of it is twice the distance to all edges w or more.
    /// At the width 0 none is.
    /// For n edges of the region in a box of d units it takes about n log d time, and looks besides at a block for each w units of border
    /// where the border bends; along straight sides the blocks are as long as these are.
    pub fn narrow(&self, region: usize, w: u32) -> Result<bool, NoMemory>
        requires region { IsRegion self.now region }
        requires not_outer { ¬ IsOuterRegion self.now region }
        requires width { w ≤ 2 ^ 30 }
        ensures { IfOk result (λ narrow. IsTrue narrow ↔ IsNarrow self.now region w) }
    {
        if w == 0 {
            return Ok(false);
        }
        Ok(self.most(region, w - 1, w, 0)? < w)
    }

    /// The clearance of the region, in half grid units: twice the distance from all edges of the grid point of it that is furthest
    /// from them, rounded down, and 0 where there is none.
    /// For n edges of the region in a box of d units it takes about n log² d time, however long the region is where straight sides face each
    /// other; of a corridor with many bends that is as wide everywhere it looks at the grid points near its middle.
    pub fn clearance(&self, region: usize) -> Result<u32, NoMemory>
        requires region { IsRegion self.now region }
        requires not_outer { ¬ IsOuterRegion self.now region }
        ensures { IfOk result (IsClearance self.now region) }
    {
        self.most(region, 0, u32::MAX, COARSEST)
    }

    // The greater of best and the room of the region's grid points; the search stops at enough. Before all blocks are searched, those down
    // to the coarsest half diagonal are, and then finer ones.
    fn most(&self, region: usize, best: u32, enough: u32, coarsest: u32) -> Result<u32, NoMemory>
        requires region { IsRegion self.now region }
        requires not_outer { ¬ IsOuterRegion self.now region }
        requires best { best ≤ 2 ^ 31 }
        ensures small { IfOk result (λ found. found ≤ 2 ^ 31) }
        ensures most { IfOk result (IsMost self.now region enough best) }
    {
        let own = own_edges(self.alloc, self.edges, self.sides.group(region))?;
        match block_inside(&own) {
            None => Ok(best),
            Some(block) => {
                let whole = measure(&own, block);
                let most = coarse_room(self.alloc, &own, whole, best, enough, coarsest)?;
                most_room(self.alloc, &own, &own, whole, most, enough, 0)
            }
        }
    }
}

/// Whether a region that is not outer is narrower than w, in half grid units.
pub fn narrow(
    alloc: Global,
    a: &Arena,
    r: &Regions,
    region: usize,
    w: u32,
) -> Result<bool, NoMemory>
    requires regions { r.now ≡ a.now }
    requires region { IsRegion a.now region }
    requires not_outer { ¬ IsOuterRegion a.now region }
    requires width { w ≤ 2 ^ 30 }
    ensures { IfOk result (λ narrow. IsTrue narrow ↔ IsNarrow a.now region w) }
{
    GapSearch::build(alloc, a, r)?.narrow(region, w)
}

/// The clearance of a region that is not outer, in half grid units.
pub fn clearance(alloc: Global, a: &Arena, r: &Regions, region: usize) -> Result<u32, NoMemory>
    requires regions { r.now ≡ a.now }
    requires region { IsRegion a.now region }
    requires not_outer { ¬ IsOuterRegion a.now region }
    ensures { IfOk result (IsClearance a.now region) }
{
    GapSearch::build(alloc, a, r)?.clearance(region)
}
