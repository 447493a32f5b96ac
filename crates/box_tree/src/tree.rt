ghost use Rattle.std.specs.Prelude.{◌≡◌, ℕ, ◌<◌, ◌*◌, ◌++◌, All, IfOk, OnOk, List, drop, flat_map, length, take};
ghost use Rattle.box_tree.specs.Places.{places};
ghost use Rattle.box_tree.specs.Probe.{IsProbeInRange, reaches};

use crate::hulls::{hulls_of, split_block};
use crate::probe::Probe;
use crate::rect::Rect;
use crate::scan::add_places;
use crate::search::{Search, search_under};
use cov_types::NoMemory;
use std::alloc::Global;
use std::marker::Model;
use std::mem::swap;

/// A tree over a list of boxes, in the list's order: a query looks at the boxes whose parents it reaches, so boxes that are near
/// one another in the plane should be near in the list (`curve`). A contract sees it as that list.
#[derive(Drop)]
pub struct BoxTree {
    // The boxes, and above each level its hulls by eights, up to a level of eight or fewer.
    levels: Vec<Vec<Rect>>,
}

impl Model for BoxTree {
    ghost use Rattle.std.specs.Prelude.{List};
    ghost use Rattle.box_tree.specs.declared.rect.Rect.{Rect};
    ghost use Rattle.box_tree.specs.Levels.{IsPacked, level_at};

    ghost Value = { List Rect };

    ghost view = { λ tree. level_at tree.levels.items 0 };

    ghost invariant = { λ tree. IsPacked tree.levels.items };
}

impl BoxTree {
    /// The tree over a list of boxes. Linear in time and memory: each level has an eighth of the boxes of the one below.
    pub fn build(alloc: Global, boxes: Vec<Rect>) -> Result<BoxTree, NoMemory>
        ensures { IfOk result (λ tree. tree ≡ boxes.items) }
    {
        let mut levels = Vec::new(alloc);
        levels.push(boxes)?;
        let mut top = 0;
        'levels: while levels[top].len() > 8 {
            let hulls = hulls_of(alloc, levels[top].as_slice())?;
            levels.push(hulls)?;
            top += 1;
        }
        Ok(BoxTree { levels })
    }

    /// The boxes, in their order. Takes constant time.
    pub fn boxes(&self) -> &[Rect]
        ensures { result.now ≡ self.now }
    {
        self.levels[0].as_slice()
    }

    /// The numbers of the boxes that the probe reaches, ascending. On each level it looks only at the boxes whose hulls are reached,
    /// so the time is that of the answer times the number of levels, where hulls are small.
    pub fn meeting(&self, probe: &Probe) -> Result<Vec<usize>, NoMemory>
        requires { IsProbeInRange probe.now }
        ensures { IfOk result (λ found. found.items ≡ places (reaches probe.now) 0 self.now) }
    {
        let alloc = *self.levels.allocator();
        let mut found = Vec::new(alloc);
        let mut spare = Vec::new(alloc);
        self.meeting_into(probe, &mut found, &mut spare)?;
        Ok(found)
    }

    /// The same, written over `found`; what is in `spare` afterwards is of no use, and after an error both are of none. For many
    /// queries these two keep their memory.
    pub fn meeting_into(
        &self,
        probe: &Probe,
        found: &mut Vec<usize>,
        spare: &mut Vec<usize>,
    ) -> Result<(), NoMemory>
        requires { IsProbeInRange probe.now }
        ensures { OnOk result (found.new.items ≡ places (reaches probe.now) 0 self.now) }
    {
        let mut depth = self.levels.len() - 1;
        found.clear();
        add_places(self.levels[depth].as_slice(), 0, probe, found)?;
        while depth > 0 {
            depth -= 1;
            spare.clear();
            add_children(
                self.levels[depth].as_slice(),
                found.as_slice(),
                probe,
                spare,
            )?;
            swap(found, spare);
        }
        Ok(())
    }

    /// Settles all boxes: it shows a search those whose hulls may matter when their turn comes, level by level. Takes
    /// time in proportion to what it shows the search, of which each step takes its own.
    pub fn search<S: Search>(&self, search: &mut S)
        requires { S.is_among search.old self.now }
        ensures among { S.is_among search.new self.now }
        ensures settled { (k : ℕ) → k < length self.now → S.is_settled search.new k }
    {
        let top = self.levels.len() - 1;
        for place in 0..self.levels[top].len() {
            search_under(self.levels.as_slice(), top, place, search);
        }
    }
}

// Adds the places of those boxes that the probe reaches and that stand in the blocks of eight with these numbers.
fn add_children(
    level: &[Rect],
    blocks: &[usize],
    probe: &Probe,
    found: &mut Vec<usize>,
) -> Result<(), NoMemory>
    requires in_range { IsProbeInRange probe.now }
    requires within { All (λ j. 8 * j < length level.now) blocks.now }
    ensures { OnOk result (found.new.items ≡ found.old.items ++ flat_map (λ j. places (reaches probe.now) (8 * j) (take 8 (drop (8 * j) level.now))) blocks.now) }
{
    for j in blocks {
        let first = 8 * *j;
        let (block, _) = split_block(&level[first..]);
        add_places(block, first, probe, found)?;
    }
    Ok(())
}
