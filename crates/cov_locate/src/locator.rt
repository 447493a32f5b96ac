ghost use Rattle.std.specs.Prelude.{◌≡◌, All, IfOk};
ghost use Rattle.cov_types.specs.Coverage.{AllInRange};
ghost use Rattle.cov_types.specs.Range.{IsInRange};
ghost use Rattle.cov_types.specs.Uses.{uses_of};

use crate::holder::place_in;
use crate::place::Where;
use crate::places::places_of;
use crate::ring_index::RingIndex;
use cov_types::{Coord, Coverage, NoMemory, Outline};
use std::alloc::Global;
use std::marker::Model;

/// Tells where points lie in a coverage. A contract sees it as the list of the uses.
#[derive(Drop)]
pub struct Locator {
    index: RingIndex,
}

impl Model for Locator {
    ghost use Rattle.std.specs.Prelude.{List};
    ghost use Rattle.cov_types.specs.declared.edge_use.EdgeUse.{EdgeUse};
    ghost use Rattle.cov_locate.specs.Rings.{IsRingIndex};

    ghost Value = { List EdgeUse };

    ghost view = { λ l. l.index.outline.uses.items };

    ghost invariant = { λ l. IsRingIndex l.index };
}

impl Locator {
    ghost use Rattle.std.specs.List.{AllZip};
    ghost use Rattle.cov_locate.specs.Where.{IsWhere};

    /// Takes n log n time and memory in proportion to n, for n segments.
    pub fn build(alloc: Global, c: &Coverage) -> Result<Locator, NoMemory>
        requires { AllInRange c.now }
        ensures { IfOk result (λ l. l ≡ uses_of c.now) }
    {
        let outline = Outline::build(alloc, c)?;
        let index = RingIndex::build(alloc, outline)?;
        Ok(Locator { index })
    }

    /// Where the point lies. It looks at the rings whose boxes have the point, and in each at few segments where most boxes of its
    /// parts do not have it. Takes log n time for n segments where few boxes of rings overlap, and at most n time for each ring that
    /// holds the point. Takes no memory.
    pub fn at(&self, p: Coord) -> Where
        requires { IsInRange p }
        ensures { IsWhere self.now p result }
    {
        place_in(&self.index, p)
    }

    /// Where each of the points lies, in their order: what `at` answers for each. Points near one another are located together, so
    /// many points take less time than as many calls of `at`: for m points k log k time for k = n + m where few boxes of rings
    /// overlap, and memory in proportion to m and to the segments near a few neighbouring points.
    pub fn places(&self, alloc: Global, points: &[Coord]) -> Result<Vec<Where>, NoMemory>
        requires { All IsInRange points.now }
        ensures { IfOk result (λ places. AllZip (IsWhere self.now) points.now places.items) }
    {
        places_of(alloc, &self.index, points)
    }
}
