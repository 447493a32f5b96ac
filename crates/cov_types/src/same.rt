ghost use Rattle.std.specs.Prelude.{IsTrue, ◌↔◌, ◌≡◌};

use crate::coverage::{Coverage, Member, Poly, Ring};

/// Whether the two coverages are equal lists. Takes time in proportion to the smaller one's points, and no memory.
pub fn same_coverage(a: &Coverage, b: &Coverage) -> bool
    ensures { IsTrue result ↔ (a.now ≡ b.now) }
{
    if a.members.len() != b.members.len() {
        return false;
    }
    for (i, member) in a.members.iter().enumerate() {
        if !same_member(member, &b.members[i]) {
            return false;
        }
    }
    true
}

fn same_member(a: &Member, b: &Member) -> bool
    ensures { IsTrue result ↔ (a.now ≡ b.now) }
{
    if a.polys.len() != b.polys.len() {
        return false;
    }
    for (i, poly) in a.polys.iter().enumerate() {
        if !same_poly(poly, &b.polys[i]) {
            return false;
        }
    }
    true
}

fn same_poly(a: &Poly, b: &Poly) -> bool
    ensures { IsTrue result ↔ (a.now ≡ b.now) }
{
    if a.rings.len() != b.rings.len() {
        return false;
    }
    for (i, ring) in a.rings.iter().enumerate() {
        if !same_ring(ring, &b.rings[i]) {
            return false;
        }
    }
    true
}

fn same_ring(a: &Ring, b: &Ring) -> bool
    ensures { IsTrue result ↔ (a.now ≡ b.now) }
{
    a.points == b.points
}
