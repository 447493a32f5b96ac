ghost use Rattle.std.specs.Prelude.{◌≡◌, ◌*◌, ◌<◌, All, map, length, IfOk, IfSome};
ghost use Rattle.arrangement.specs.Overlay.{Overlay, IsRegion};
ghost use Rattle.owner_label.specs.Labelled.{IsOverlay, owner_in};
ghost use Rattle.gap_replay.specs.Replay.{gap_facts};
ghost use Rattle.cov_clean.specs.Asked.{member_areas};
ghost use Rattle.cov_clean.specs.Runs.{run_candidate};

use crate::runs::runs_by_member;
use cov_types::NoMemory;
use merge_rule::{Candidate, Facts};
use owner_label::{Labels, OwnedSide};
use std::alloc::Global;

/// What a rule is told of a gap: the owners beyond its sides with their doubled areas and the lengths of these sides, and its own doubled
/// area. Takes n log n time in the sides of the gap, and memory in proportion to them.
pub fn facts_of_gap(
    alloc: Global,
    labels: &Labels,
    areas: &[i128],
    owners: &[Option<u32>],
    gap: usize,
) -> Result<Facts, NoMemory>
    requires region { IsRegion labels.now.edges gap }
    requires areas { areas.now ≡ member_areas labels.now (length areas.now) }
    requires owners { length owners.now ≡ 2 * length labels.now.edges }
    requires below { All (λ found. IfSome found (λ i. i < length areas.now)) owners.now }
    ensures { IfOk result (λ facts. (o : Overlay) → IsOverlay labels.now o → o.members ≡ length areas.now → facts ≡ gap_facts o (owner_in owners.now) gap) }
{
    let sides = labels.owned_sides(alloc, gap, owners)?;
    let runs = runs_by_member(alloc, sides)?;
    let candidates = candidates_of_runs(alloc, areas, &runs)?;
    Ok(Facts {
        candidates,
        region_area2: labels.region_area2(gap),
    })
}

// The runs as candidates.
fn candidates_of_runs(
    alloc: Global,
    areas: &[i128],
    runs: &[OwnedSide],
) -> Result<Vec<Candidate>, NoMemory>
    requires { All (λ run. run.member < length areas.now) runs.now }
    ensures { IfOk result (λ v. v.items ≡ map (run_candidate areas.now) runs.now) }
{
    let mut candidates = Vec::new(alloc);
    for run in runs {
        candidates.push(Candidate {
            member: run.member,
            area2: areas[run.member as usize],
            border: run.length,
        })?;
    }
    Ok(candidates)
}
