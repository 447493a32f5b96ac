ghost use Rattle.std.specs.Prelude.{◌≡◌, ℕ, ◌*◌, ◌<◌, length, slice_index, option_map, IfOk, IsTrue};
ghost use Rattle.components.specs.Connected.{AreLinksWithin};
ghost use Rattle.plane.specs.Region.{AreRegions};
ghost use Rattle.arrangement.specs.Overlay.{Overlay};
ghost use Rattle.cov_build.specs.Owners.{owner_in};
ghost use Rattle.cov_build.specs.Parted.{AreOwnerLinks, ArePartsOf, AreBelow};

use components::{Link, components};
use cov_types::NoMemory;
use face_walk::Regions;
use std::alloc::Global;

/// An edge-connected part of the regions of one owner, by its least region.
#[derive(Clone, Copy)]
pub struct Part {
    pub least: usize,
}

/// For each side of so many edges the part of its region; None where nobody owns the region. Takes memory in proportion to the edges,
/// and time in proportion to them but for a factor of at most their logarithm.
pub fn parts_of_sides(
    alloc: Global,
    r: &Regions,
    edges: usize,
    owners: &[Option<u32>],
) -> Result<Vec<Option<Part>>, NoMemory>
    requires edges { edges ≡ length r.now }
    requires owners { length owners.now ≡ 2 * edges }
    ensures parts { IfOk result (λ v. (o : Overlay) → o.edges ≡ r.now → AreRegions o.edges o.numbers → ArePartsOf o (owner_in owners.now) v.items) }
    ensures count { IfOk result (λ v. length v.items ≡ 2 * edges) }
    ensures below { IfOk result (λ v. AreBelow v.items (2 * edges)) }
{
    let links = links_within_owners(alloc, r, edges, owners)?;
    let least = components(alloc, 2 * edges, &links)?;
    let mut parts = Vec::new(alloc);
    for side in 0..2 * edges {
        let region = r.region_of(side);
        parts.push(part_of_region(&least, owners, region))?;
    }
    Ok(parts)
}

// The part of the region, if somebody owns it.
fn part_of_region(least: &[usize], owners: &[Option<u32>], region: usize) -> Option<Part>
    requires least { region < length least.now }
    requires owners { region < length owners.now }
    ensures { result ≡ option_map (λ i. record { least = slice_index least.now region }) (owner_in owners.now region) }
{
    match owners[region] {
        Some(_) => Some(Part {
            least: least[region],
        }),
        None => None,
    }
}

// A link for each edge whose two sides have one owner, from the region above it to that below.
fn links_within_owners(
    alloc: Global,
    r: &Regions,
    edges: usize,
    owners: &[Option<u32>],
) -> Result<Vec<Link>, NoMemory>
    requires edges { edges ≡ length r.now }
    requires owners { length owners.now ≡ 2 * edges }
    ensures links { IfOk result (λ v. (o : Overlay) → o.edges ≡ r.now → AreRegions o.edges o.numbers → AreOwnerLinks o (owner_in owners.now) edges v.items) }
    ensures within { IfOk result (λ v. AreLinksWithin (2 * edges) v.items) }
{
    let mut links = Vec::new(alloc);
    for edge in 0..edges {
        let from = r.region_of(2 * edge);
        let to = r.region_of(2 * edge + 1);
        if have_one_owner(owners[from], owners[to]) {
            links.push(Link { from, to })?;
        }
    }
    Ok(links)
}

// Whether somebody owns both.
fn have_one_owner(first: Option<u32>, second: Option<u32>) -> bool
    ensures one { IsTrue result → (i : ℕ) × ((first ≡ Some i) × (second ≡ Some i)) }
    ensures any { (i : ℕ) → first ≡ Some i → second ≡ Some i → IsTrue result }
{
    match (first, second) {
        (Some(a), Some(b)) => a == b,
        _ => false,
    }
}
