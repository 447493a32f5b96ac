ghost use Rattle.std.specs.Prelude.{◌≡◌, ◌*◌, ◌<◌, All, map, length, IfOk, IfErr};
ghost use Rattle.plane.specs.Label.{numbers_below};
ghost use Rattle.arrangement.specs.Overlay.{Overlay, IsRegion, label_of};
ghost use Rattle.region_owners.specs.Owner.{state_after, last_state};
ghost use Rattle.owner_label.specs.Labelled.{IsOverlay};
ghost use Rattle.gap_replay.specs.Replay.{HasAskedFirst};
ghost use Rattle.cov_clean.specs.Asked.{member_areas, owner_in_state, one_if_shared, side_owner};

use crate::facts::facts_of_region;
use cov_types::NoMemory;
use face_walk::Regions;
use merge_rule::MergeRule;
use owner_label::Labels;
use std::alloc::Global;

/// For each side the owner of the region with its number; None where there is no such region or nobody owns it. The rule is asked once
/// for each shared region, in ascending order.
pub fn owners_of_sides<R: MergeRule>(
    alloc: Global,
    regions: &Regions,
    labels: &Labels,
    areas: &[i128],
    sides: usize,
    rule: &mut R,
) -> Result<Vec<Option<u32>>, NoMemory>
    requires regions { regions.now ≡ labels.now.edges }
    requires areas { areas.now ≡ member_areas labels.now (length areas.now) }
    requires members { All (λ u. u.member < length areas.now) labels.now.odd }
    requires sides { sides ≡ 2 * length labels.now.edges }
    ensures owners { IfOk result (λ v. (o : Overlay) → IsOverlay labels.now o → v.items ≡ map (side_owner R.rule (R.state rule.old) o) (numbers_below sides)) }
    ensures state { IfOk result (λ _. (o : Overlay) → IsOverlay labels.now o → R.state rule.new ≡ last_state R.rule (R.state rule.old) o) }
    ensures no_memory { IfErr result (λ _. (o : Overlay) → IsOverlay labels.now o → HasAskedFirst R.rule (R.state rule.old) o (R.state rule.new)) }
{
    let mut owners = Vec::new(alloc);
    for side in 0..sides {
        if regions.region_of(side) == side {
            owners.push(owner_of_region(alloc, labels, areas, side, rule)?)?;
        } else {
            owners.push(None)?;
        }
    }
    Ok(owners)
}

// The owner of the region: none where its label is empty, its one member, or the member that the rule picks.
fn owner_of_region<R: MergeRule>(
    alloc: Global,
    labels: &Labels,
    areas: &[i128],
    region: usize,
    rule: &mut R,
) -> Result<Option<u32>, NoMemory>
    requires region { IsRegion labels.now.edges region }
    requires areas { areas.now ≡ member_areas labels.now (length areas.now) }
    requires members { All (λ u. u.member < length areas.now) labels.now.odd }
    ensures owner { IfOk result (λ owner. (o : Overlay) → IsOverlay labels.now o → owner ≡ owner_in_state R.rule (R.state rule.old) o region (label_of o region)) }
    ensures state { IfOk result (λ _. (o : Overlay) → IsOverlay labels.now o → R.state rule.new ≡ state_after R.rule (R.state rule.old) o (one_if_shared o region)) }
    ensures no_memory { IfErr result (λ _. R.state rule.new ≡ R.state rule.old) }
{
    match labels.label(region) {
        [] => Ok(None),
        [member] => Ok(Some(*member)),
        _ => {
            let facts = facts_of_region(alloc, labels, areas, region)?;
            let place = rule.choose(&facts);
            Ok(Some(facts.candidates[place].member))
        }
    }
}
