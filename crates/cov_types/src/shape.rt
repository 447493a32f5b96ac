ghost use Rattle.std.specs.Prelude.{IsTrue, ◌↔◌};
ghost use Rattle.cov_types.specs.Coverage.{IsFormed, IsMemberFormed, IsPolyFormed, IsRingFormed};

use crate::coverage::{Coverage, Member, Poly, Ring};
use crate::range::in_range;

/// Whether the coverage is in range, every polygon has a ring and every ring has three points or more.
/// Takes time in proportion to the points.
pub fn formed(c: &Coverage) -> bool
    ensures { IsTrue result ↔ IsFormed c.now }
{
    in_range(c) && c.members.iter().all(|member| is_member_formed(member))
}

fn is_member_formed(member: &Member) -> bool
    ensures { IsTrue result ↔ IsMemberFormed member.now }
{
    member.polys.iter().all(|poly| is_poly_formed(poly))
}

fn is_poly_formed(poly: &Poly) -> bool
    ensures { IsTrue result ↔ IsPolyFormed poly.now }
{
    !poly.rings.is_empty() && poly.rings.iter().all(|ring| is_ring_formed(ring))
}

fn is_ring_formed(ring: &Ring) -> bool
    ensures { IsTrue result ↔ IsRingFormed ring.now }
{
    ring.points.len() >= 3
}
