ghost use Rattle.std.specs.Prelude.{◌≡◌, ℕ, ◌+◌, ◌<◌, ◌≤◌, ◌++◌, ◌^◌, List, All, AllPairs, IfOk, IfSome, OnOk, drop, length, take};
ghost use Rattle.cov_types.specs.declared.coord.Coord.{Coord};
ghost use Rattle.cov_build.specs.Owners.{owner_in};
ghost use Rattle.fault_map.specs.Polygon.{ArePolygonsOfEach, AreOwnersByPlace, IsInner};

use cov_build::polygons;
use cov_types::{Member, NoMemory, Poly};
use face_walk::Regions;
use half_edge::Arena;
use std::alloc::Global;

// How many regions are owners beside each other: as many as have a number.
const MOST_OWNERS: usize = 4_294_967_295;

/// The polygon of each of the regions, in their order. Takes time in proportion to the edges and their logarithm, and memory in proportion
/// to the edges, once for each 4,294,967,295 regions.
pub(crate) fn region_polygons(
    alloc: Global,
    a: &Arena,
    r: &Regions,
    listed: &[usize],
) -> Result<Vec<Poly>, NoMemory>
    requires regions { r.now ≡ a.now }
    requires inner { All (IsInner a.now) listed.now }
    requires ascending { AllPairs (λ m n. m < n) listed.now }
    ensures { IfOk result (λ v. ArePolygonsOfEach a.now listed.now v.items) }
{
    let mut found = Vec::new(alloc);
    'piece: while found.len() < listed.len() {
        let piece = piece_from(listed, found.len());
        append_polygons(alloc, &mut found, a, r, piece)?;
    }
    Ok(found)
}

// The regions from the place on, or as many of them as may be owners.
fn piece_from(listed: &[usize], from: usize) -> &[usize]
    requires from { from ≤ length listed.now }
    ensures some { from < length listed.now → 0 < length result.now }
    ensures within { from + length result.now ≤ length listed.now }
    ensures few { length result.now < 2 ^ 32 }
    ensures piece { result.now ≡ take (length result.now) (drop from listed.now) }
{
    let rest = &listed[from..];
    &rest[..rest.len().min(MOST_OWNERS)]
}

// Appends the polygons of these regions, each of which is an owner of its own.
fn append_polygons(
    alloc: Global,
    found: &mut Vec<Poly>,
    a: &Arena,
    r: &Regions,
    piece: &[usize],
) -> Result<(), NoMemory>
    requires regions { r.now ≡ a.now }
    requires inner { All (IsInner a.now) piece.now }
    requires ascending { AllPairs (λ m n. m < n) piece.now }
    requires few { length piece.now < 2 ^ 32 }
    ensures { OnOk result ((more : List (List (List Coord))) × (ArePolygonsOfEach a.now piece.now more × (found.new.items ≡ found.old.items ++ more))) }
{
    let owners = owners_by_place(alloc, a.len(), piece)?;
    let built = polygons(alloc, a, r, &owners, piece.len() as u32)?;
    for member in built.members {
        let Member { mut polys } = member;
        found.append(&mut polys)?;
    }
    Ok(())
}

// For each of so many numbers, where it is that of one of the regions, the place of that one.
fn owners_by_place(
    alloc: Global,
    count: usize,
    regions: &[usize],
) -> Result<Vec<Option<u32>>, NoMemory>
    requires within { All (λ r. r < count) regions.now }
    requires ascending { AllPairs (λ m n. m < n) regions.now }
    requires few { length regions.now < 2 ^ 32 }
    ensures long { IfOk result (λ v. length v.items ≡ count) }
    ensures below { IfOk result (λ v. All (λ o. IfSome o (λ i. i < length regions.now)) v.items) }
    ensures owners { IfOk result (λ v. AreOwnersByPlace regions.now (owner_in v.items)) }
{
    let mut owners = vec![in alloc; None; count]?;
    for (place, region) in regions.iter().enumerate() {
        owners[*region] = Some(place as u32);
    }
    Ok(owners)
}
