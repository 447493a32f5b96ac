ghost use Rattle.std.specs.Prelude.{◌≡◌, ◌*◌, ◌<◌, true, All, AllPairs, length, IfOk, IfErr, IfSome, Some};
ghost use Rattle.arrangement.specs.Overlay.{Overlay, IsRegion};
ghost use Rattle.owner_label.specs.Labelled.{IsOverlay, owner_in};
ghost use Rattle.gap_replay.specs.Replay.{gap_facts, state_after_gaps};
ghost use Rattle.cov_clean.specs.Asked.{member_areas};
ghost use Rattle.cov_clean.specs.Filled.{AreFilled, filler_by, picked_in, HasFilledFirst, HasNeighbour};

use crate::gap_facts::facts_of_gap;
use cov_types::NoMemory;
use merge_rule::MergeRule;
use owner_label::Labels;
use std::alloc::Global;

/// The owners with those of gaps: the rule is asked once for each of the gaps, in their order, by the owners as they are given, and the gap
/// goes to the candidate that it picks. Takes time in proportion to the owners, and to the sides of the gaps and their logarithm.
pub fn filled_by_rule<R: MergeRule>(
    alloc: Global,
    labels: &Labels,
    areas: &[i128],
    gaps: &[usize],
    owners: &[Option<u32>],
    rule: &mut R,
) -> Result<Vec<Option<u32>>, NoMemory>
    requires areas { areas.now ≡ member_areas labels.now (length areas.now) }
    requires owners { length owners.now ≡ 2 * length labels.now.edges }
    requires below { All (λ found. IfSome found (λ i. i < length areas.now)) owners.now }
    requires gaps { All (IsRegion labels.now.edges) gaps.now }
    requires ascending { AllPairs (λ m n. m < n) gaps.now }
    requires some { All (HasNeighbour labels.now (length areas.now) owners.now) gaps.now }
    ensures filled { IfOk result (λ v. (o : Overlay) → IsOverlay labels.now o → o.members ≡ length areas.now → AreFilled (filler_by true R.rule (R.state rule.old) o (owner_in owners.now) gaps.now) owners.now gaps.now v.items) }
    ensures state { IfOk result (λ _. (o : Overlay) → IsOverlay labels.now o → o.members ≡ length areas.now → R.state rule.new ≡ state_after_gaps R.rule (R.state rule.old) o (owner_in owners.now) gaps.now) }
    ensures no_memory { IfErr result (λ _. (o : Overlay) → IsOverlay labels.now o → o.members ≡ length areas.now → HasFilledFirst R.rule (R.state rule.old) o (owner_in owners.now) gaps.now (R.state rule.new)) }
{
    let mut filled = Vec::from_slice(alloc, owners)?;
    for gap in gaps {
        let filler = filler_of_gap(alloc, labels, areas, owners, *gap, rule)?;
        filled[*gap] = Some(filler);
    }
    Ok(filled)
}

// The candidate for the gap that the rule picks.
fn filler_of_gap<R: MergeRule>(
    alloc: Global,
    labels: &Labels,
    areas: &[i128],
    owners: &[Option<u32>],
    gap: usize,
    rule: &mut R,
) -> Result<u32, NoMemory>
    requires areas { areas.now ≡ member_areas labels.now (length areas.now) }
    requires owners { length owners.now ≡ 2 * length labels.now.edges }
    requires below { All (λ found. IfSome found (λ i. i < length areas.now)) owners.now }
    requires region { IsRegion labels.now.edges gap }
    requires some { HasNeighbour labels.now (length areas.now) owners.now gap }
    ensures picked { IfOk result (λ filler. (o : Overlay) → IsOverlay labels.now o → o.members ≡ length areas.now → Some filler ≡ picked_in R.rule (R.state rule.old) o (owner_in owners.now) gap) }
    ensures state { IfOk result (λ _. (o : Overlay) → IsOverlay labels.now o → o.members ≡ length areas.now → R.state rule.new ≡ R.rule.next (R.state rule.old) (gap_facts o (owner_in owners.now) gap)) }
    ensures no_memory { IfErr result (λ _. R.state rule.new ≡ R.state rule.old) }
{
    let facts = facts_of_gap(alloc, labels, areas, owners, gap)?;
    let place = rule.choose(&facts);
    Ok(facts.candidates[place].member)
}
