//! The clearances of regions against a try of each grid point.

ghost use Rattle.std.specs.Prelude.{◌≡◌, ◌*◌, ◌<◌, ◌≤◌, All, IfOk, IsTrue, length};
ghost use Rattle.cov_types.specs.Range.{IsInRange, IsSegInRange};
ghost use Rattle.plane.specs.Region.{IsOuterRegion};
ghost use Rattle.arrangement.specs.Overlay.{IsRegion};

use crate::coverages::roomy_coverage;
use crate::points::{ROOM, in_range};
use crate::random::Random;
use cov_types::{Coord, EdgeUse, NoMemory, Seg, uses};
use face_walk::Regions;
use gap_width::GapSearch;
use grid_pred::{at_least, over};
use half_edge::Arena;
use snap_noder::{live, node};
use std::alloc::Global;

/// The regions of a coverage on a grid with room: where the clearance of one that isn't outer differs from the plain one, or `narrow`
/// is not as the plain one says at it and above it.
pub fn gaps_case(alloc: Global, random: &mut Random) -> Result<Option<String>, NoMemory> {
    let coverage = roomy_coverage(alloc, random)?;
    let arena = arena_of(alloc, &uses(alloc, &coverage)?)?;
    let regions = Regions::build(alloc, &arena)?;
    let search = GapSearch::build(alloc, &arena, &regions)?;
    first_difference(alloc, arena.edges(), &regions, &search)
}

// What differs at the first of the regions that differs.
fn first_difference(
    alloc: Global,
    edges: &[Seg],
    regions: &Regions,
    search: &GapSearch,
) -> Result<Option<String>, NoMemory>
    requires in_range { All IsSegInRange edges.now }
    requires regions { regions.now ≡ edges.now }
    requires search { search.now ≡ regions.now }
{
    for side in 0..regions.numbers().len() {
        if is_inner_region(regions, side) {
            let difference = region_difference(alloc, edges, regions, search, side)?;
            if difference.is_some() {
                return Ok(difference);
            }
        }
    }
    Ok(None)
}

// The live edges of the uses.
fn arena_of(alloc: Global, list: &[EdgeUse]) -> Result<Arena, NoMemory>
    requires { All (λ u. IsSegInRange u.seg) list.now }
{
    let noded = node(alloc, list)?;
    let kept = live(alloc, &noded)?;
    Arena::build(alloc, kept.edges.to_vec(alloc)?)
}

// Whether the side is the least of a region that isn't outer: each of these regions has one.
fn is_inner_region(regions: &Regions, side: usize) -> bool
    requires { side < 2 * length regions.now }
    ensures region { IsTrue result → IsRegion regions.now side }
    ensures not_outer { IsTrue result → ¬ IsOuterRegion regions.now side }
{
    if regions.region_of(side) != side {
        return false;
    }
    match regions.outer() {
        Some(outer) => side != outer,
        None => false,
    }
}

fn region_difference(
    alloc: Global,
    edges: &[Seg],
    regions: &Regions,
    search: &GapSearch,
    region: usize,
) -> Result<Option<String>, NoMemory>
    requires in_range { All IsSegInRange edges.now }
    requires regions { regions.now ≡ edges.now }
    requires region { IsRegion search.now region }
    requires not_outer { ¬ IsOuterRegion search.now region }
{
    let own = own_edges(alloc, edges, regions, region)?;
    let plain = plain_clearance(edges, &own);
    let found = search.clearance(region)?;
    let at = search.narrow(region, plain)?;
    let above = search.narrow(region, plain + 1)?;
    if found == plain && !at && above {
        return Ok(None);
    }
    Ok(Some(format!(in alloc;
        "region {region} of {edges:?}: clearance {found}, plain {plain}, narrow at it {at} and above it {above}"
    )?))
}

// ---- the plain form

// The edges of the region's sides: one that has the region on both sides is there twice.
fn own_edges(
    alloc: Global,
    edges: &[Seg],
    regions: &Regions,
    region: usize,
) -> Result<Vec<Seg>, NoMemory>
    requires same { regions.now ≡ edges.now }
    requires in_range { All IsSegInRange edges.now }
    ensures { IfOk result (λ own. All IsSegInRange own.items) }
{
    let mut own = Vec::new(alloc);
    for side in 0..regions.numbers().len() {
        if regions.region_of(side) != region {
            continue;
        }
        own.push(edges[side / 2])?;
    }
    Ok(own)
}

/// More than twice the way across the grid.
const MOST: u32 = 200;

// The most room that a grid point of the region has, where own are the edges round it.
fn plain_clearance(edges: &[Seg], own: &[Seg]) -> u32
    requires in_range { All IsSegInRange edges.now }
    requires own_in_range { All IsSegInRange own.now }
    ensures { result ≤ 200 }
{
    let mut most = 0;
    for x in 0..ROOM {
        most = most_in_column(edges, own, x, most);
    }
    most
}

// The greater of the room so far and that of the points of the region in a column.
fn most_in_column(edges: &[Seg], own: &[Seg], x: u32, so_far: u32) -> u32
    requires in_range { All IsSegInRange edges.now }
    requires own_in_range { All IsSegInRange own.now }
    requires few { so_far ≤ 200 }
    ensures { result ≤ 200 }
{
    let mut most = so_far;
    for y in 0..ROOM {
        let q = in_range(x as i64, y as i64);
        if holds(own, q) {
            most = most_with(edges, q, most);
        }
    }
    most
}

// An odd number of the edges is over the point.
fn holds(own: &[Seg], q: Coord) -> bool
    requires own_in_range { All IsSegInRange own.now }
    requires in_range { IsInRange q }
{
    let mut odd = false;
    for e in own {
        if over(*e, q) {
            odd = !odd;
        }
    }
    odd
}

// The greater of the room so far and that of the point.
fn most_with(edges: &[Seg], q: Coord, so_far: u32) -> u32
    requires edges_in_range { All IsSegInRange edges.now }
    requires in_range { IsInRange q }
    requires few { so_far ≤ 200 }
    ensures { result ≤ 200 }
{
    let mut most = so_far;
    for w in so_far + 1..MOST {
        if !has_room(edges, q, w) {
            return most;
        }
        most = w;
    }
    most
}

// Twice the distance of the point to each edge is w or more.
fn has_room(edges: &[Seg], q: Coord, w: u32) -> bool
    requires edges_in_range { All IsSegInRange edges.now }
    requires in_range { IsInRange q }
    requires few { w ≤ 200 }
{
    for e in edges {
        if !at_least(q, *e, w) {
            return false;
        }
    }
    true
}
