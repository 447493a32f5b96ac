ghost use Rattle.std.specs.Prelude.{◌≤◌, ◌<◌, ◌^◌, All, IfOk, length};
ghost use Rattle.cov_types.specs.Coverage.{AllInRange};
ghost use Rattle.cov_types.specs.Range.{IsSegInRange};
ghost use Rattle.cov_types.specs.Uses.{uses_of, HasEvenEnds};
ghost use Rattle.plane.specs.Validity.{IsValid};
ghost use Rattle.arrangement.specs.Noding.{AreLiveEdges, IsAscending, odd_uses};
ghost use Rattle.sector_laws.specs.Sector.{AreDistinct, IsPlanar};
ghost use Rattle.cov_valid.specs.Kinds.{AreFaultless};
ghost use Rattle.cov_valid.specs.Marks.{AreMarksBy};
ghost use Rattle.cov_marks.specs.Beside.{IsUseOf};
ghost use Rattle.cov_marks.specs.Marks.{AreMarks};

use crate::edges::{edges_beside, has_segment};
use cov_types::{Coverage, EdgeUse, NoMemory, Seg, uses};
use cov_valid::{Kind, Mark};
use face_walk::Regions;
use half_edge::Arena;
use narrow_gaps::narrow_gaps;
use owner_label::Labels;
use snap_noder::{LiveEdges, live, plain};
use std::alloc::Global;

/// The marks of a coverage at a gap width, in grid units: the segments that are at fault or, where none is, those one side of which is in
/// a gap that is narrow at the width. It takes the time and memory of `cov_valid::marks` and, where that marks nothing and the width is
/// not 0, n log n time for n segments, beside the search for room in each gap, and memory linear in n.
pub fn marks(alloc: Global, c: &Coverage, gap: u32) -> Result<Vec<Mark>, NoMemory>
    requires in_range { AllInRange c.now }
    requires width { gap ≤ 2 ^ 30 }
    ensures exact { IfOk result (λ v. AreMarks (uses_of c.now) (length c.now) gap v.items) }

    // Every mark has the place of a use and the number of a member.
    ensures places { IfOk result (λ v. All (λ m. m.place < length (uses_of c.now)) v.items) }
    ensures members { IfOk result (λ v. All (λ m. m.member < length c.now) v.items) }
{
    let faults = cov_valid::marks(alloc, c)?;
    if !faults.is_empty() {
        return Ok(faults);
    }
    if gap == 0 {
        return Ok(faults);
    }
    gap_marks(alloc, c, gap)
}

// The marks of a coverage without faults.
fn gap_marks(alloc: Global, c: &Coverage, gap: u32) -> Result<Vec<Mark>, NoMemory>
    requires in_range { AllInRange c.now }
    requires faultless { AreFaultless (uses_of c.now) }
    requires width { gap ≤ 2 ^ 30 }
    ensures { IfOk result (λ v. AreMarks (uses_of c.now) (length c.now) gap v.items) }
{
    let uses = uses(alloc, c)?;
    let live = live_edges(alloc, &uses)?;
    let arena = Arena::build(alloc, live.edges.to_vec(alloc)?)?;
    let regions = Regions::build(alloc, &arena)?;
    let labels = Labels::build(alloc, &arena, &regions, &live)?;
    let gaps = narrow_gaps(alloc, &arena, &regions, &labels, gap)?;
    let beside = edges_beside(alloc, arena.edges(), &regions, &gaps)?;
    marks_of_segments(alloc, &uses, &beside)
}

// The segments of valid uses, each once: as no member has a segment twice, all of them are live.
fn live_edges(alloc: Global, uses: &[EdgeUse]) -> Result<LiveEdges, NoMemory>
    requires in_range { All (λ u. IsSegInRange u.seg) uses.now }
    requires valid { IsValid uses.now }
    requires even { HasEvenEnds uses.now }
    ensures exact { IfOk result (λ l. AreLiveEdges uses.now l.edges.items l.odd.items) }
    ensures planar { IfOk result (λ l. IsPlanar l.edges.items) }
    ensures distinct { IfOk result (λ l. AreDistinct l.edges.items) }
    ensures even { IfOk result (λ l. HasEvenEnds (odd_uses l.edges.items l.odd.items)) }
{
    let noded = plain(alloc, uses)?;
    Ok(live(alloc, &noded)?)
}

// The marks of the uses of these segments, by ascending place.
fn marks_of_segments(
    alloc: Global,
    uses: &[EdgeUse],
    segments: &[Seg],
) -> Result<Vec<Mark>, NoMemory>
    requires { IsAscending segments.now }
    ensures { IfOk result (λ v. AreMarksBy (IsUseOf segments.now) uses.now v.items) }
{
    let mut marks = Vec::new(alloc);
    for (place, edge) in uses.iter().enumerate() {
        if has_segment(segments, edge.seg) {
            marks.push(Mark {
                member: edge.member,
                place: place as u64,
                kind: Kind::NarrowGap,
            })?;
        }
    }
    Ok(marks)
}
