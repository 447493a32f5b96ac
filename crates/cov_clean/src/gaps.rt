ghost use Rattle.std.specs.Prelude.{◌≡◌, ◌*◌, ◌<◌, ◌^◌, All, AllPairs, length, IfOk, IfErr, IfSome};
ghost use Rattle.arrangement.specs.Overlay.{Overlay, IsRegion};
ghost use Rattle.region_owners.specs.Owner.{neighbour_of};
ghost use Rattle.owner_label.specs.Labelled.{IsOverlay, owner_in};
ghost use Rattle.gap_replay.specs.Replay.{state_after_gaps};
ghost use Rattle.cov_clean.specs.Asked.{member_areas};
ghost use Rattle.cov_clean.specs.Filled.{AreFilled, asked_gaps, filler_by, HasFilledFirst, HasNeighbour};

use crate::borders::Borders;
use crate::fillers::filled_by_rule;
use cov_types::NoMemory;
use merge_rule::MergeRule;
use owner_label::Labels;
use std::alloc::Global;

/// The owners with those of gaps: where the rule is asked for gaps too, each goes to the candidate that it picks, and otherwise to the member
/// with the longest owned border.
pub fn owners_with_gaps<R: MergeRule>(
    alloc: Global,
    labels: &Labels,
    areas: &[i128],
    gaps: &[usize],
    owners: Vec<Option<u32>>,
    rule: &mut R,
    gaps_too: bool,
) -> Result<Vec<Option<u32>>, NoMemory>
    requires areas { areas.now ≡ member_areas labels.now (length areas.now) }
    requires few { length areas.now < 2 ^ 32 }
    requires owners { length owners.items ≡ 2 * length labels.now.edges }
    requires below { All (λ found. IfSome found (λ i. i < length areas.now)) owners.items }
    requires gaps { All (IsRegion labels.now.edges) gaps.now }
    requires ascending { AllPairs (λ m n. m < n) gaps.now }
    requires some { All (HasNeighbour labels.now (length areas.now) owners.items) gaps.now }
    ensures filled { IfOk result (λ v. (o : Overlay) → IsOverlay labels.now o → o.members ≡ length areas.now → AreFilled (filler_by gaps_too R.rule (R.state rule.old) o (owner_in owners.items) gaps.now) owners.items gaps.now v.items) }
    ensures state { IfOk result (λ _. (o : Overlay) → IsOverlay labels.now o → o.members ≡ length areas.now → R.state rule.new ≡ state_after_gaps R.rule (R.state rule.old) o (owner_in owners.items) (asked_gaps gaps_too gaps.now)) }
    ensures no_memory { IfErr result (λ _. (o : Overlay) → IsOverlay labels.now o → o.members ≡ length areas.now → HasFilledFirst R.rule (R.state rule.old) o (owner_in owners.items) (asked_gaps gaps_too gaps.now) (R.state rule.new)) }
{
    if gaps_too {
        filled_by_rule(alloc, labels, areas, gaps, &owners, rule)
    } else {
        filled_owners(alloc, labels, gaps, owners, areas.len() as u32)
    }
}

/// The owners with those of gaps: each of the gaps goes to the member with the longest owned border, by the owners as they are given.
/// Takes time in proportion to the sides of the gaps and, where there are some, to the members and the owners.
pub fn filled_owners(
    alloc: Global,
    labels: &Labels,
    gaps: &[usize],
    owners: Vec<Option<u32>>,
    members: u32,
) -> Result<Vec<Option<u32>>, NoMemory>
    requires owners { length owners.items ≡ 2 * length labels.now.edges }
    requires below { All (λ found. IfSome found (λ i. i < members)) owners.items }
    requires gaps { All (IsRegion labels.now.edges) gaps.now }
    ensures { IfOk result (λ v. (o : Overlay) → IsOverlay labels.now o → o.members ≡ members → AreFilled (neighbour_of o (owner_in owners.items)) owners.items gaps.now v.items) }
{
    if gaps.is_empty() {
        return Ok(owners);
    }
    let mut borders = Borders::build(alloc, members)?;
    let mut filled = Vec::from_slice(alloc, &owners)?;
    for gap in gaps {
        let sides = labels.owned_sides(alloc, *gap, &owners)?;
        filled[*gap] = borders.longest(&sides);
    }
    Ok(filled)
}
