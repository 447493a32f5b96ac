ghost use Rattle.std.specs.Prelude.{◌≡◌, ◌*◌, ◌<◌, length, slice_index_or, All, IfOk};
ghost use Rattle.sector_laws.specs.Sector.{IsPlanar, AreDistinct};
ghost use Rattle.face_walk.specs.Cycles.{AreCycles};
ghost use Rattle.face_walk.specs.Links.{AnswersOverRay, AreOverRay, AreVertices, IsPlaceWithin, place_below, AreLinksOf, AreLinks};

use crate::below::nearest_edges_below;
use crate::cycle::Cycles;
use components::Link;
use cov_types::{Coord, NoMemory};
use half_edge::{Arena, Side};
use std::alloc::Global;

/// The links between the cycles of an arena and the place past the range, whose number is that after the cycles: from a cycle, where
/// its sector at its least vertex has the way straight down the ray in it, to the cycle of the upper side of the nearest edge below
/// that vertex, or to the place past the range.
pub fn links(alloc: Global, a: &Arena, cycles: &Cycles) -> Result<Vec<Link>, NoMemory>
    requires { AreCycles a.now cycles.now.of.items cycles.now.list.items }
    ensures { IfOk result (λ v. AreLinks a.now cycles.now.of.items cycles.now.list.items v.items) }
{
    let sides = sides_over_ray(alloc, a, cycles)?;
    let vertices = vertices_of(alloc, a, &sides)?;
    let below = nearest_edges_below(alloc, a.edges(), &vertices)?;
    links_down(alloc, a, cycles, &sides, &below)
}

// The sides that are to be linked down.
fn sides_over_ray(alloc: Global, a: &Arena, cycles: &Cycles) -> Result<Vec<usize>, NoMemory>
    requires { AreCycles a.now cycles.now.of.items cycles.now.list.items }
    ensures { IfOk result (λ v. AreOverRay a.now cycles.now.of.items cycles.now.list.items v.items) }
{
    let mut sides = Vec::new(alloc);
    for h in 0..a.len() {
        if let Some(side) = side_over_ray(a, cycles, h) {
            sides.push(side)?;
        }
    }
    Ok(sides)
}

// The side that follows h, where it leaves the least vertex of its cycle and the sector between the two has the way straight down the
// ray in it.
fn side_over_ray(a: &Arena, cycles: &Cycles, h: usize) -> Option<usize>
    requires cycles { AreCycles a.now cycles.now.of.items cycles.now.list.items }
    requires within { h < 2 * length a.now }
    ensures { AnswersOverRay a.now cycles.now.of.items cycles.now.list.items h result }
{
    // The edges of an arena are planar and distinct.
    let _sides = a.len();
    let side = a.next(h);
    let cycle = cycles.list[cycles.of[side]];
    if a.origin(side) != a.origin(cycle.first) {
        return None;
    }
    if a.opens_down(h) { Some(side) } else { None }
}

// The vertices that the half-edges leave.
fn vertices_of(alloc: Global, a: &Arena, sides: &[usize]) -> Result<Vec<Coord>, NoMemory>
    requires { All (λ n. n < 2 * length a.now) sides.now }
    ensures { IfOk result (λ v. AreVertices a.now sides.now v.items) }
{
    let mut vertices = Vec::new(alloc);
    for side in sides {
        vertices.push(a.origin(*side))?;
    }
    Ok(vertices)
}

// For each side the link from its cycle to that of the upper side of the edge below it, or to the place past the range.
fn links_down(
    alloc: Global,
    a: &Arena,
    cycles: &Cycles,
    sides: &[usize],
    below: &[Option<usize>],
) -> Result<Vec<Link>, NoMemory>
    requires cycles { AreCycles a.now cycles.now.of.items cycles.now.list.items }
    requires sides { All (λ n. n < 2 * length a.now) sides.now }
    requires below { All (IsPlaceWithin a.now) below.now }
    requires count { length below.now ≡ length sides.now }
    ensures { IfOk result (λ v. AreLinksOf a.now cycles.now.of.items cycles.now.list.items sides.now below.now v.items) }
{
    // The edges of an arena are planar and distinct.
    let _sides = a.len();
    let mut links = Vec::new(alloc);
    for (i, side) in sides.iter().enumerate() {
        links.push(Link {
            from: cycles.of[*side],
            to: cycle_below(a, cycles, below[i]),
        })?;
    }
    Ok(links)
}

// The number of the cycle that has the upper side of the edge, or of the place past the range.
fn cycle_below(a: &Arena, cycles: &Cycles, edge: Option<usize>) -> usize
    requires cycles { AreCycles a.now cycles.now.of.items cycles.now.list.items }
    requires within { IsPlaceWithin a.now edge }
    ensures { result ≡ slice_index_or cycles.now.of.items (place_below a.now edge) (length cycles.now.list.items) }
{
    // The edges of an arena are planar and distinct.
    let _sides = a.len();
    match edge {
        Some(k) => cycles.of[Side::upper(k).number()],
        None => cycles.list.len(),
    }
}
