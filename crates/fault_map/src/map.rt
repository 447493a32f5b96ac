ghost use Rattle.std.specs.Prelude.{◌≤◌, ◌^◌, IfOk};
ghost use Rattle.cov_types.specs.Coverage.{AllInRange};
ghost use Rattle.fault_map.specs.FaultMap.{IsFaultMap};

use crate::features::{append_gaps, append_marks, append_overlaps};
use cov_marks::marks;
use cov_types::{Coverage, NoMemory, uses};
use face_walk::Regions;
use fault_text::MapFeature;
use half_edge::Arena;
use owner_label::Labels;
use snap_noder::{live, node};
use std::alloc::Global;

/// The map of the faults of a coverage.
#[derive(Debug, Drop)]
pub struct FaultMap {
    /// The marks, then the overlaps, and then the gaps.
    pub features: Vec<MapFeature>,
    /// How many of them are marks.
    pub marked: usize,
}

/// The map of the faults of a coverage at a gap width, in grid units: its marks, by ascending place, and of its snapped members the
/// regions that several of them hold and the gaps, each by ascending number. It fails only where memory runs out.
///
/// Takes the time and memory of `cov_marks::marks` and of the noding, n log n time for n edges, the search for the clearance of each gap,
/// and time and memory in proportion to the labels.
pub fn fault_map(alloc: Global, c: &Coverage, gap: u32) -> Result<FaultMap, NoMemory>
    requires in_range { AllInRange c.now }
    requires gap { gap ≤ 2 ^ 30 }
    ensures { IfOk result (λ m. IsFaultMap c.now gap m.marked m.features.items) }
{
    let marks = marks(alloc, c, gap)?;
    let uses = uses(alloc, c)?;
    let mut features = Vec::new(alloc);
    append_marks(&mut features, &uses, &marks)?;
    let noded = node(alloc, &uses)?;
    let live = live(alloc, &noded)?;
    let arena = Arena::build(alloc, live.edges.to_vec(alloc)?)?;
    let regions = Regions::build(alloc, &arena)?;
    let labels = Labels::build(alloc, &arena, &regions, &live)?;
    append_overlaps(alloc, &mut features, &arena, &regions, &labels)?;
    append_gaps(alloc, &mut features, &arena, &regions, &labels)?;
    Ok(FaultMap {
        features,
        marked: marks.len(),
    })
}
