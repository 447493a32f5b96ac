ghost use Rattle.std.specs.Prelude.{◌≡◌, ℕ, ◌*◌, ◌<◌, [], All, length, vec_len, replicate, IfOk, IfSome, IfNone};
ghost use Rattle.std.specs.List.Sorted.{IsPermutation};
ghost use Rattle.cov_types.specs.Coverage.{IsFormed};
ghost use Rattle.plane.specs.Region.{IsOuterRegion, AreRegions};
ghost use Rattle.arrangement.specs.Overlay.{Overlay};
ghost use Rattle.sound_polygons.specs.Cleaned.{IsBuilt, shell_of};
ghost use Rattle.cov_build.specs.Members.{AreAllPartPolygons, AreListsApart, AreShellsSorted, AreSortedMembers};
ghost use Rattle.cov_build.specs.Rings.{IsBoundary};
ghost use Rattle.cov_build.specs.Owners.{owner_in};

use crate::boundary::{BoundaryEdge, boundaries};
use crate::part::parts_of_sides;
use crate::polygon::polygon;
use cov_types::{Coord, Coverage, Member, NoMemory, Poly};
use face_walk::Regions;
use half_edge::Arena;
use std::alloc::Global;

/// The polygons of so many owners of regions, in canonical order: one polygon for each edge-connected part of the regions of an owner.
/// It is sound for the part: rings are simple, the shell is first and counter-clockwise, and holes are clockwise (OGC 06-103r4).
/// There is one owner for each side, read at the numbers of regions; nobody owns the outer region.
///
/// Takes time in proportion to the edges and their logarithm, and memory in proportion to the edges and the members.
pub fn polygons(
    alloc: Global,
    a: &Arena,
    r: &Regions,
    owners: &[Option<u32>],
    members: u32,
) -> Result<Coverage, NoMemory>
    requires regions { r.now ≡ a.now }
    requires count { length owners.now ≡ 2 * length a.now }
    requires below { All (λ o. IfSome o (λ i. i < members)) owners.now }
    requires outer { (n : ℕ) → IsOuterRegion a.now n → owner_in owners.now n ≡ None }
    ensures polygons { IfOk result (λ c. (o : Overlay) → o.edges ≡ a.now → AreRegions o.edges o.numbers → IsBuilt o (owner_in owners.now) members c) }
    ensures formed { IfOk result IsFormed }
{
    let edges = a.edges();
    let parts = parts_of_sides(alloc, r, edges.len(), owners)?;
    let boundaries = boundaries(alloc, edges, &parts)?;
    drop(parts);
    let unsorted = polygons_of_parts(alloc, a, &boundaries, owners, members)?;
    let members = all_by_shells(alloc, unsorted)?;
    Ok(Coverage { members })
}

// The members, each with its polygons by the points of their shells.
fn all_by_shells(alloc: Global, unsorted: Vec<Member>) -> Result<Vec<Member>, NoMemory>
    ensures { IfOk result (λ v. AreSortedMembers unsorted.items v.items) }
{
    let mut sorted = Vec::new(alloc);
    for member in unsorted {
        sorted.push(by_shells(member)?)?;
    }
    Ok(sorted)
}

// For each member the polygons of its parts, in the order of the parts.
fn polygons_of_parts(
    alloc: Global,
    a: &Arena,
    boundaries: &[Vec<BoundaryEdge>],
    owners: &[Option<u32>],
    members: u32,
) -> Result<Vec<Member>, NoMemory>
    requires count { length owners.now ≡ length boundaries.now }
    requires below { All (λ o. IfSome o (λ i. i < members)) owners.now }
    requires boundaries { All (λ v. 0 < vec_len v → IsBoundary v.items) boundaries.now }
    requires apart { AreListsApart boundaries.now }
    ensures { IfOk result (λ v. AreAllPartPolygons boundaries.now owners.now (length boundaries.now) members v.items) }
{
    let mut list = empty_members(alloc, members)?;
    for (part, boundary) in boundaries.iter().enumerate() {
        match owner_of_boundary(boundary, owners[part]) {
            Some(owner) => {
                let polygon = polygon(alloc, a, boundary)?;
                let member = &mut list[owner as usize];
                member.polys.push(polygon)?;
            }
            None => {}
        }
    }
    Ok(list)
}

// The owner, unless the boundary has no edge.
fn owner_of_boundary(boundary: &[BoundaryEdge], owner: Option<u32>) -> Option<u32>
    ensures some { IfSome result (λ i. (0 < length boundary.now) × (owner ≡ Some i)) }
    ensures none { IfNone result ((i : ℕ) → 0 < length boundary.now → ¬ (owner ≡ Some i)) }
{
    if boundary.is_empty() {
        return None;
    }
    owner
}

fn empty_members(alloc: Global, count: u32) -> Result<Vec<Member>, NoMemory>
    ensures { IfOk result (λ v. v.items ≡ replicate count []) }
{
    let mut members = Vec::new(alloc);
    for _ in 0..count {
        members.push(Member {
            polys: Vec::new(alloc),
        })?;
    }
    Ok(members)
}

// The member with its polygons by the points of their shells.
fn by_shells(member: Member) -> Result<Member, NoMemory>
    ensures same { IfOk result (λ m. IsPermutation member m) }
    ensures sorted { IfOk result AreShellsSorted }
{
    let Member { mut polys } = member;
    polys.sort_by(|a, b| shell_points(a).cmp(shell_points(b)))?;
    Ok(Member { polys })
}

// The points of the first ring, if there is one.
fn shell_points(poly: &Poly) -> &[Coord]
    ensures { result.now ≡ shell_of poly.now }
{
    match poly.rings.first() {
        Some(shell) => &shell.points,
        None => &[],
    }
}
