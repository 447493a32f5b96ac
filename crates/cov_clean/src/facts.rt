ghost use Rattle.std.specs.Prelude.{◌≡◌, ◌<◌, All, length, IfOk};
ghost use Rattle.arrangement.specs.Overlay.{Overlay, IsRegion};
ghost use Rattle.region_owners.specs.Owner.{facts_of};
ghost use Rattle.owner_label.specs.Labelled.{IsOverlay};
ghost use Rattle.cov_clean.specs.Asked.{member_areas};

use cov_types::NoMemory;
use merge_rule::{Candidate, Facts};
use owner_label::Labels;
use std::alloc::Global;

/// The doubled areas of so many members, in square grid units. Takes time in proportion to the odd pairs, and for each member to their
/// logarithm.
pub fn areas_of_members(alloc: Global, labels: &Labels, members: u32) -> Result<Vec<i128>, NoMemory>
    ensures { IfOk result (λ v. v.items ≡ member_areas labels.now members) }
{
    let mut areas = Vec::new(alloc);
    for member in 0..members {
        areas.push(labels.area2(member))?;
    }
    Ok(areas)
}

/// What a rule is told of the region: the members of its label with their doubled areas and borders, and its own doubled area. Takes
/// time in proportion to the sides of the region, once for each of these members.
pub fn facts_of_region(
    alloc: Global,
    labels: &Labels,
    areas: &[i128],
    region: usize,
) -> Result<Facts, NoMemory>
    requires region { IsRegion labels.now.edges region }
    requires areas { areas.now ≡ member_areas labels.now (length areas.now) }
    requires members { All (λ u. u.member < length areas.now) labels.now.odd }
    ensures { IfOk result (λ facts. (o : Overlay) → IsOverlay labels.now o → facts ≡ facts_of o region) }
{
    let label = labels.label(region);
    let mut candidates = Vec::new(alloc);
    for member in label {
        candidates.push(Candidate {
            member: *member,
            area2: areas[*member as usize],
            border: labels.border(region, *member),
        })?;
    }
    Ok(Facts {
        candidates,
        region_area2: labels.region_area2(region),
    })
}
