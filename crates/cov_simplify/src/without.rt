ghost use Rattle.std.specs.Prelude.{◌≡◌, List, IfOk};
ghost use Rattle.cov_types.specs.declared.coord.Coord.{Coord as Point};
ghost use Rattle.cov_simplify.specs.Without.{AreGone, poly_without, member_without};
ghost use Rattle.greedy_run.specs.Run.{is_one_point, ring_without, coverage_without};

use cov_types::{Coord, Coverage, Member, NoMemory, Poly, Ring};
use std::alloc::{AllocError, Global};
use std::collections::HashSet;

/// The coverage without the removed points: each ring loses all of them, but for a ring whose points are all equal. Takes time and memory
/// in proportion to the points of both.
pub fn coverage_without(alloc: Global, c: Coverage, removed: &[Coord]) -> Result<Coverage, NoMemory>
    ensures { IfOk result (λ out. out ≡ coverage_without removed.now c) }
{
    let gone = set_of(alloc, removed)?;
    let mut members = Vec::new(alloc);
    for member in c.members {
        members.push(member_without(alloc, member, &gone)?)?;
    }
    Ok(Coverage { members })
}

// The points as a set.
fn set_of(alloc: Global, points: &[Coord]) -> Result<HashSet<Coord>, AllocError>
    ensures { IfOk result (λ gone. AreGone gone points.now) }
{
    points.iter().copied().collect(alloc)
}

// The member without the points.
fn member_without(alloc: Global, member: Member, gone: &HashSet<Coord>) -> Result<Member, NoMemory>
    ensures { IfOk result (λ m. (removed : List Point) → AreGone gone.now removed → m ≡ member_without removed member) }
{
    let mut polys = Vec::new(alloc);
    for poly in member.polys {
        polys.push(poly_without(alloc, poly, gone)?)?;
    }
    Ok(Member { polys })
}

// The polygon without the points.
fn poly_without(alloc: Global, poly: Poly, gone: &HashSet<Coord>) -> Result<Poly, NoMemory>
    ensures { IfOk result (λ p. (removed : List Point) → AreGone gone.now removed → p ≡ poly_without removed poly) }
{
    let mut rings = Vec::new(alloc);
    for ring in poly.rings {
        rings.push(ring_without(ring, gone))?;
    }
    Ok(Poly { rings })
}

// The ring without the points; one whose points are all equal as it is.
fn ring_without(ring: Ring, gone: &HashSet<Coord>) -> Ring
    ensures { (removed : List Point) → AreGone gone.now removed → result ≡ ring_without removed ring }
{
    if is_one_point(&ring.points) {
        return ring;
    }
    let Ring { mut points } = ring;
    points.retain(|p| !gone.contains(p));
    Ring { points }
}

// Whether the points are all equal.
fn is_one_point(points: &[Coord]) -> bool
    ensures { result ≡ is_one_point points.now }
{
    for i in 1..points.len() {
        if points[i - 1] != points[i] {
            return false;
        }
    }
    true
}
