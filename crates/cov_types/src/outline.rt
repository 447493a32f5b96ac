ghost use Rattle.std.specs.Prelude.{◌≡◌, ◌++◌, ◌∷◌, [], ◌<◌, All, length, IfOk, OnOk};
ghost use Rattle.cov_types.specs.Coverage.{AllInRange};
ghost use Rattle.cov_types.specs.Range.{IsSegInRange};
ghost use Rattle.cov_types.specs.Rings.{member_rings, poly_rings, ring_starts, side_starts, Adds};
ghost use Rattle.cov_types.specs.Uses.{ring_uses, side_uses};

use crate::coord::Coord;
use crate::coverage::{Coverage, Member, Poly, Ring};
use crate::edge_use::EdgeUse;
use crate::no_memory::NoMemory;
use crate::ring_run::RingRun;
use crate::seg::Seg;
use std::alloc::Global;

/// The uses of a coverage, and the rings that they come from.
#[derive(Drop)]
pub struct Outline {
    /// The uses, as `uses` lists them.
    pub uses: Vec<EdgeUse>,
    /// The point where each use begins, the way its ring goes.
    pub starts: Vec<Coord>,
    /// The rings that have a use, in the order of their uses.
    pub rings: Vec<RingRun>,
}

impl Outline {
    ghost use Rattle.std.specs.Prelude.{◌≤◌, AllPairs};
    ghost use Rattle.cov_types.specs.Rings.{starts_of, runs_of, AreInRow, IsRing};
    ghost use Rattle.cov_types.specs.Uses.{uses_of};

    /// Linear in time and memory.
    pub fn build(alloc: Global, c: &Coverage) -> Result<Outline, NoMemory>
        requires { AllInRange c.now }
        ensures uses { IfOk result (λ o. o.uses.items ≡ uses_of c.now) }
        ensures starts { IfOk result (λ o. o.starts.items ≡ starts_of c.now) }
        ensures rings { IfOk result (λ o. o.rings.items ≡ runs_of c.now) }

        // Both ends of every segment are in range, and every number is that of a member.
        ensures in_range { IfOk result (λ o. All (λ u. IsSegInRange u.seg) o.uses.items) }
        ensures members { IfOk result (λ o. All (λ u. u.member < length c.now) o.uses.items) }

        // Each use has a start. The runs fill the list of uses, and each goes once round a ring of its member.
        ensures starts_end { IfOk result (λ o. length o.starts.items ≡ length o.uses.items) }
        ensures in_row { IfOk result (λ o. AreInRow 0 o.rings.items (length o.uses.items)) }
        ensures round { IfOk result (λ o. All (IsRing o.uses.items o.starts.items) o.rings.items) }

        // Their members ascend.
        ensures ascending { IfOk result (λ o. AllPairs (λ r s. r.member ≤ s.member) o.rings.items) }
    {
        let mut outline = Outline {
            uses: Vec::new(alloc),
            starts: Vec::new(alloc),
            rings: Vec::new(alloc),
        };
        for (number, member) in c.members.iter().enumerate() {
            add_member(&mut outline, number as u32, member)?;
        }
        Ok(outline)
    }
}

fn add_member(outline: &mut Outline, number: u32, member: &Member) -> Result<(), NoMemory>
    ensures { OnOk result (Adds outline.old outline.new (member_rings (number, member.now))) }
{
    for poly in &member.polys {
        add_poly(outline, number, poly)?;
    }
    Ok(())
}

fn add_poly(outline: &mut Outline, member: u32, poly: &Poly) -> Result<(), NoMemory>
    ensures { OnOk result (Adds outline.old outline.new (poly_rings member poly.now)) }
{
    for ring in &poly.rings {
        add_ring(outline, member, ring)?;
    }
    Ok(())
}

fn add_ring(outline: &mut Outline, member: u32, ring: &Ring) -> Result<(), NoMemory>
    ensures { OnOk result (Adds outline.old outline.new ((member, ring.now) ∷ [])) }
{
    let from = outline.uses.len();
    add_sides(&mut outline.uses, &mut outline.starts, member, ring)?;
    let to = outline.uses.len();
    if from < to {
        outline.rings.push(RingRun { member, from, to })?;
    }
    Ok(())
}

fn add_sides(
    uses: &mut Vec<EdgeUse>,
    starts: &mut Vec<Coord>,
    member: u32,
    ring: &Ring,
) -> Result<(), NoMemory>
    ensures uses { OnOk result (uses.new.items ≡ uses.old.items ++ ring_uses member ring.now) }
    ensures starts { OnOk result (starts.new.items ≡ starts.old.items ++ ring_starts ring.now) }
{
    let points = ring.points.as_slice();
    for (i, point) in points.iter().enumerate() {
        let next = if i + 1 < points.len() {
            points[i + 1]
        } else {
            points[0]
        };
        add_side(uses, starts, member, *point, next)?;
    }
    Ok(())
}

fn add_side(
    uses: &mut Vec<EdgeUse>,
    starts: &mut Vec<Coord>,
    member: u32,
    from: Coord,
    to: Coord,
) -> Result<(), NoMemory>
    ensures uses { OnOk result (uses.new.items ≡ uses.old.items ++ side_uses member (from, to)) }
    ensures starts { OnOk result (starts.new.items ≡ starts.old.items ++ side_starts (from, to)) }
{
    if let Some(seg) = Seg::between(from, to) {
        uses.push(EdgeUse { member, seg })?;
        starts.push(from)?;
    }
    Ok(())
}
