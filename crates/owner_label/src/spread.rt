ghost use Rattle.std.specs.Prelude.{◌≡◌, ℕ, ◌*◌, ◌<◌, ◌∷◌, [], false, length, replicate, All, IfOk, OnOk, slice_index_or};
ghost use Rattle.counting_sort.specs.Grouped.{IsGrouped};
ghost use Rattle.owner_label.specs.Lists.{AreRegionLabels};
ghost use Rattle.owner_label.specs.Members.{pair_edges};
ghost use Rattle.owner_label.specs.Sided.{Sided, region_on, IsRegionLabel, IsOuterOf};

use crate::label_table::LabelTable;
use crate::sided::SidedEdges;
use arrangement::OddUse;
use counting_sort::Grouped;
use cov_types::NoMemory;
use half_edge::Side;
use std::alloc::Global;

/// The labels of the regions that were reached so far, by their numbers, and these regions in the order in which they were reached.
#[derive(Drop)]
pub struct Spread {
    pub labels: LabelTable,
    pub reached: Vec<bool>,
    pub queue: Vec<usize>,
}

/// The label of each region, by its number, spread from the outer region across the edges; an empty one at other numbers. The sides are
/// grouped by their regions. Takes time in proportion to the sides, the odd pairs and the lengths of
/// the labels.
pub fn labels_of_regions(
    alloc: Global,
    map: &SidedEdges,
    sides: &Grouped,
    outer: Option<usize>,
) -> Result<LabelTable, NoMemory>
    requires sides { IsGrouped map.now.regions (length map.now.regions) sides.now }
    requires outer { IsOuterOf map.now outer }
    ensures { IfOk result (λ t. AreRegionLabels map.now t) }
{
    let pairs = pairs_by_edge(alloc, map.len(), map.odd())?;
    let mut spread = Spread::begin(alloc, map, outer)?;
    let mut next = 0;
    while next < spread.queue.len() {
        let region = spread.queue[next];
        spread.leave(map, &pairs, sides.group(region))?;
        next += 1;
    }
    Ok(spread.labels)
}

// The places of the odd pairs of each edge.
fn pairs_by_edge(alloc: Global, edges: usize, odd: &[OddUse]) -> Result<Grouped, NoMemory>
    requires places { All (λ o. o.edge < edges) odd.now }
    ensures { IfOk result (λ g. IsGrouped (pair_edges odd.now) edges g) }
{
    let keys = edges_of_pairs(alloc, odd)?;
    Grouped::build(alloc, &keys, edges)
}

fn edges_of_pairs(alloc: Global, odd: &[OddUse]) -> Result<Vec<usize>, NoMemory>
    ensures { IfOk result (λ v. v.items ≡ pair_edges odd.now) }
{
    Ok(odd.iter().map(|o| o.edge).collect(alloc)?)
}

impl Spread {
    ghost use Rattle.owner_label.specs.Spread.{IsReached, IsReachedNow, IsSpread, IsBegun, Grows, AreReachedAcross};

    // The outer region is reached.
    fn begin(alloc: Global, map: &SidedEdges, outer: Option<usize>) -> Result<Spread, NoMemory>
        requires outer { IsOuterOf map.now outer }
        ensures spread { IfOk result (λ spread. IsSpread map.now spread) }
        ensures begun { IfOk result (λ spread. IsBegun map.now spread) }
    {
        let mut spread = Spread::start(alloc, 2 * map.len())?;
        let Some(region) = outer else {
            return Ok(spread);
        };
        spread.reach(region)?;
        Ok(spread)
    }

    // No region is reached.
    fn start(alloc: Global, regions: usize) -> Result<Spread, NoMemory>
        ensures spread { IfOk result (λ spread. (s : Sided) → length s.regions ≡ regions → IsSpread s spread) }
        ensures none { IfOk result (λ spread. (r : ℕ) → slice_index_or spread.reached.items r false ≡ false) }
        ensures empty { IfOk result (λ spread. spread.labels ≡ replicate regions []) }
    {
        let labels = LabelTable::build(alloc, regions)?;
        let reached = vec![in alloc; false; regions]?;
        Ok(Spread {
            labels,
            reached,
            queue: Vec::new(alloc),
        })
    }

    // The region is reached, with the label that it has in the table.
    fn reach(&mut self, region: usize) -> Result<(), NoMemory>
        requires { region < length self.old.reached.items }
        ensures { OnOk result (IsReachedNow self.old region (slice_index_or self.old.labels region []) self.new) }
    {
        self.reached[region] = true;
        self.queue.push(region)?;
        Ok(())
    }

    // The region across the side is reached, from that of the side.
    fn cross(&mut self, map: &SidedEdges, pairs: &Grouped, side: Side) -> Result<(), NoMemory>
        requires within { side.number < 2 * length map.now.edges }
        requires pairs { IsGrouped (pair_edges map.now.odd) (length map.now.edges) pairs.now }
        requires spread { IsSpread map.now self.old }
        requires reached { IsReached self.old (region_on map.now side.number) }
        ensures spread { OnOk result (IsSpread map.now self.new) }
        ensures grows { OnOk result (Grows self.old self.new) }
        ensures crossed { OnOk result (AreReachedAcross map.now self.new (side.number ∷ [])) }
    {
        let from = map.region(side);
        let over = map.region(side.twin());
        if self.reached[over] {
            return Ok(());
        }
        self.labels
            .toggle(over, from, map.odd(), pairs.group(side.edge()))?;
        self.reach(over)
    }

    // The regions across these sides are reached, from the one that has them.
    fn leave(&mut self, map: &SidedEdges, pairs: &Grouped, sides: &[usize]) -> Result<(), NoMemory>
        requires within { All (λ n. n < 2 * length map.now.edges) sides.now }
        requires pairs { IsGrouped (pair_edges map.now.odd) (length map.now.edges) pairs.now }
        requires spread { IsSpread map.now self.old }
        requires reached { All (λ n. IsReached self.old (region_on map.now n)) sides.now }
        ensures spread { OnOk result (IsSpread map.now self.new) }
        ensures grows { OnOk result (Grows self.old self.new) }
        ensures crossed { OnOk result (AreReachedAcross map.now self.new sides.now) }
    {
        for side in sides {
            self.cross(map, pairs, Side::of_number(*side))?;
        }
        Ok(())
    }
}
