ghost use Rattle.std.specs.Prelude.{◌≡◌, ◌≤◌, ◌^◌, true, length, IfOk, IfErr};
ghost use Rattle.cov_types.specs.Coverage.{AllInRange, IsFormed};
ghost use Rattle.cov_types.specs.Uses.{uses_of};
ghost use Rattle.arrangement.specs.Overlay.{Overlay, IsSnappedOverlay};
ghost use Rattle.plane.specs.Validity.{IsValid};
ghost use Rattle.region_owners.specs.Owner.{last_state};
ghost use Rattle.gap_replay.specs.Cleaned.{IsCleanedBy, IsCleanedWithGaps};
ghost use Rattle.gap_replay.specs.Replay.{HasAskedFirst, HasAskedSome, HasLastState};
ghost use Rattle.sound_polygons.specs.Cleaned.{IsCleaned};
ghost use Rattle.cov_clean.specs.SnappedEdges.{AreSnappedEdges};

use crate::facts::areas_of_members;
use crate::gaps::owners_with_gaps;
use crate::owners::owners_of_sides;
use cov_build::polygons;
use cov_types::{Coverage, NoMemory, uses};
use face_walk::Regions;
use half_edge::Arena;
use merge_rule::MergeRule;
use narrow_gaps::narrow_gaps;
use owner_label::Labels;
use snap_noder::{LiveEdges, live, node};
use std::alloc::Global;

/// The coverage, cleaned: it is snapped, each region goes to the one member that holds it or, where members overlap, to the one that the
/// rule picks, each gap that is narrow at the gap width, in grid units, goes to the member with the longest owned border, and each member
/// becomes the polygons of the regions that it has. At the gap width 0 no gap is filled.
///
/// The rule is asked once for each region that several members hold, in ascending order. After running out of memory it has the state
/// that it has after the first of these regions, be it none of them or all.
///
/// Takes time in proportion to the edges and their logarithm, beside the noding and the search for room in each gap, and for each region
/// that several members hold to its sides times these members; and memory in proportion to the edges, the members and the lengths of the
/// labels.
pub fn clean<R: MergeRule>(
    alloc: Global,
    c: &Coverage,
    rule: &mut R,
    gap: u32,
) -> Result<Coverage, NoMemory>
    requires in_range { AllInRange c.now }
    requires gap { gap ≤ 2 ^ 30 }
    ensures cleaned { IfOk result (λ out. IsCleaned c.now R.rule (R.state rule.old) gap out) }
    ensures valid { IfOk result (λ out. IsValid (uses_of out)) }
    ensures formed { IfOk result IsFormed }
    ensures count { IfOk result (λ out. length out ≡ length c.now) }

    // The rule was asked for all shared regions or, without memory, for the first ones.
    ensures state { IfOk result (λ _. (o : Overlay) → IsSnappedOverlay (uses_of c.now) (length c.now) o → R.state rule.new ≡ last_state R.rule (R.state rule.old) o) }
    ensures no_memory { IfErr result (λ _. (o : Overlay) → IsSnappedOverlay (uses_of c.now) (length c.now) o → HasAskedFirst R.rule (R.state rule.old) o (R.state rule.new)) }
{
    cleaned_by(alloc, c, rule, gap, false)
}

/// The coverage, cleaned as [`clean`] does, where the rule is asked for the narrow gaps too: once it was asked for all regions that several
/// members hold, it is asked once for each gap that is narrow at the gap width, in ascending order. The candidates for a gap are the members
/// with an owned border with it, by the owners of the regions that members hold, and the gap goes to the one that the rule picks.
///
/// After running out of memory the rule has the state that it has after the first of these regions, or after all of them and the first of
/// the gaps.
///
/// Takes time and memory as [`clean`] does, and for each narrow gap time in proportion to its sides and their logarithm.
pub fn clean_with_gaps<R: MergeRule>(
    alloc: Global,
    c: &Coverage,
    rule: &mut R,
    gap: u32,
) -> Result<Coverage, NoMemory>
    requires in_range { AllInRange c.now }
    requires gap { gap ≤ 2 ^ 30 }
    ensures cleaned { IfOk result (λ out. IsCleanedWithGaps c.now R.rule (R.state rule.old) gap out) }
    ensures valid { IfOk result (λ out. IsValid (uses_of out)) }
    ensures formed { IfOk result IsFormed }
    ensures count { IfOk result (λ out. length out ≡ length c.now) }

    // The rule was asked for all shared regions and all narrow gaps or, without memory, for the first ones.
    ensures state { IfOk result (λ _. (o : Overlay) → IsSnappedOverlay (uses_of c.now) (length c.now) o → HasLastState true R.rule (R.state rule.old) o gap (R.state rule.new)) }
    ensures no_memory { IfErr result (λ _. (o : Overlay) → IsSnappedOverlay (uses_of c.now) (length c.now) o → HasAskedSome true R.rule (R.state rule.old) o gap (R.state rule.new)) }
{
    cleaned_by(alloc, c, rule, gap, true)
}

// The coverage, cleaned, where the rule is asked for the narrow gaps too or not.
fn cleaned_by<R: MergeRule>(
    alloc: Global,
    c: &Coverage,
    rule: &mut R,
    gap: u32,
    gaps_too: bool,
) -> Result<Coverage, NoMemory>
    requires in_range { AllInRange c.now }
    requires gap { gap ≤ 2 ^ 30 }
    ensures cleaned { IfOk result (λ out. IsCleanedBy gaps_too c.now R.rule (R.state rule.old) gap out) }
    ensures valid { IfOk result (λ out. IsValid (uses_of out)) }
    ensures formed { IfOk result IsFormed }
    ensures count { IfOk result (λ out. length out ≡ length c.now) }
    ensures state { IfOk result (λ _. (o : Overlay) → IsSnappedOverlay (uses_of c.now) (length c.now) o → HasLastState gaps_too R.rule (R.state rule.old) o gap (R.state rule.new)) }
    ensures no_memory { IfErr result (λ _. (o : Overlay) → IsSnappedOverlay (uses_of c.now) (length c.now) o → HasAskedSome gaps_too R.rule (R.state rule.old) o gap (R.state rule.new)) }
{
    let live = live_edges(alloc, c)?;
    let arena = Arena::build(alloc, live.edges.to_vec(alloc)?)?;
    let regions = Regions::build(alloc, &arena)?;
    let labels = Labels::build(alloc, &arena, &regions, &live)?;
    let members = c.members.len() as u32;
    let areas = areas_of_members(alloc, &labels, members)?;
    let owners = owners_of_sides(alloc, &regions, &labels, &areas, arena.len(), rule)?;
    let gaps = narrow_gaps(alloc, &arena, &regions, &labels, gap)?;
    let filled = owners_with_gaps(alloc, &labels, &areas, &gaps, owners, rule, gaps_too)?;
    polygons(alloc, &arena, &regions, &filled, members)
}

// The live edges of the snapped members.
fn live_edges(alloc: Global, c: &Coverage) -> Result<LiveEdges, NoMemory>
    requires { AllInRange c.now }
    ensures { IfOk result (λ l. AreSnappedEdges c.now l.edges.items l.odd.items) }
{
    let uses = uses(alloc, c)?;
    let noded = node(alloc, &uses)?;
    Ok(live(alloc, &noded)?)
}
