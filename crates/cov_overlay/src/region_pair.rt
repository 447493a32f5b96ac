ghost use Rattle.std.specs.Prelude.{◌≡◌, ◌*◌, ◌<◌, AllPairs, IfOk, length, map};
ghost use Rattle.arrangement.specs.Overlay.{Overlay, IsRegion, region_at};
ghost use Rattle.plane.specs.Label.{numbers_below};
ghost use Rattle.overlaid_laws.specs.Pairs.{pair_of};
ghost use Rattle.owner_label.specs.Labelled.{IsOverlay};
ghost use Rattle.cov_overlay.specs.SidePairs.{side_pair};

use cov_types::NoMemory;
use face_walk::Regions;
use overlaid_laws::Pair;
use owner_label::Labels;
use std::alloc::Global;

/// For each side the pair of the region with its number; None where there is no such region or the region has no pair. The first
/// coverage has so many members.
pub fn pairs_of_sides(
    alloc: Global,
    regions: &Regions,
    labels: &Labels,
    first: u32,
) -> Result<Vec<Option<Pair>>, NoMemory>
    requires { labels.now.edges ≡ regions.now }
    ensures { IfOk result (λ v. (o : Overlay) → IsOverlay labels.now o → v.items ≡ map (side_pair first o) (numbers_below (2 * length o.edges))) }
{
    let numbers = regions.numbers();
    let mut pairs = Vec::new(alloc);
    for side in 0..numbers.len() {
        pairs.push(pair_of_side(labels, side, numbers[side], first))?;
    }
    Ok(pairs)
}

// The pair of the region of a side where the region has the number of the side, and otherwise None.
fn pair_of_side(labels: &Labels, side: usize, region: usize, first: u32) -> Option<Pair>
    requires { IsRegion labels.now.edges region }
    ensures { (o : Overlay) → IsOverlay labels.now o → region ≡ region_at o side → result ≡ side_pair first o side }
{
    if region == side {
        pair_of_label(labels.label(region), first)
    } else {
        None
    }
}

// The least member of the label that is one of the first coverage, with the least one of the second.
fn pair_of_label(label: &[u32], first: u32) -> Option<Pair>
    requires { AllPairs (λ i j. i < j) label.now }
    ensures { result ≡ pair_of first label.now }
{
    let (of_first, of_second) = label.split_at(label.partition_point(|m| *m < first));
    match (of_first.first(), of_second.first()) {
        (Some(a), Some(b)) => Some(Pair {
            a: *a,
            b: *b - first,
        }),
        _ => None,
    }
}
