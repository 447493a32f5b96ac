ghost use Rattle.std.specs.Prelude.{◌≡◌, IfOk};
ghost use Rattle.arrangement.specs.Overlay.{Overlay, IsRegion, label_of};
ghost use Rattle.cov_union.specs.Owners.{union_owner, union_owners};
ghost use Rattle.owner_label.specs.Labelled.{IsOverlay};

use cov_types::NoMemory;
use face_walk::Regions;
use owner_label::Labels;
use std::alloc::Global;

/// The owner of the region of each side: member 0 where the region has a label, and none elsewhere.
pub fn union_owners(
    alloc: Global,
    regions: &Regions,
    labels: &Labels,
) -> Result<Vec<Option<u32>>, NoMemory>
    requires { labels.now.edges ≡ regions.now }
    ensures { IfOk result (λ owners. (o : Overlay) → IsOverlay labels.now o → owners.items ≡ union_owners o o.numbers) }
{
    let numbers = regions.numbers();
    let mut owners = Vec::new(alloc);
    for side in 0..numbers.len() {
        owners.push(owner_by_label(labels, numbers[side]))?;
    }
    Ok(owners)
}

// The owner of a region by its label.
fn owner_by_label(labels: &Labels, region: usize) -> Option<u32>
    requires { IsRegion labels.now.edges region }
    ensures { (o : Overlay) → IsOverlay labels.now o → result ≡ union_owner (label_of o region) }
{
    if labels.label(region).is_empty() {
        None
    } else {
        Some(0)
    }
}
