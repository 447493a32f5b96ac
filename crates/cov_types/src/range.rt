ghost use Rattle.std.specs.Prelude.{IsTrue, ◌↔◌};
ghost use Rattle.cov_types.specs.Coverage.{AllInRange, IsMemberInRange, IsPolyInRange, IsRingInRange};

use crate::coverage::{Coverage, Member, Poly, Ring};

/// Whether every coordinate is in range and there are fewer than 2^32 members. Takes time in proportion to the points.
pub fn in_range(c: &Coverage) -> bool
    ensures { IsTrue result ↔ AllInRange c.now }
{
    c.members.len() <= u32::MAX as usize
        && c.members.iter().all(|member| is_member_in_range(member))
}

fn is_member_in_range(member: &Member) -> bool
    ensures { IsTrue result ↔ IsMemberInRange member.now }
{
    member.polys.iter().all(|poly| is_poly_in_range(poly))
}

fn is_poly_in_range(poly: &Poly) -> bool
    ensures { IsTrue result ↔ IsPolyInRange poly.now }
{
    poly.rings.iter().all(|ring| is_ring_in_range(ring))
}

fn is_ring_in_range(ring: &Ring) -> bool
    ensures { IsTrue result ↔ IsRingInRange ring.now }
{
    ring.points.iter().all(|point| point.is_in_range())
}
