ghost use Rattle.std.specs.Prelude.{◌≡◌, Some, ◌≤◌, ◌*◌, ◌/◌, ◌<◌, ◌^◌, ◌==◌, All, AllPairs, IsTrue, filter, slice_get, length, unsigned_abs};
ghost use Rattle.cov_types.specs.Range.{IsSegInRange};
ghost use Rattle.cov_types.specs.declared.seg.Seg.{Seg};
ghost use Rattle.arrangement.specs.Measure.{trapezoid};
ghost use Rattle.arrangement.specs.Noding.{is_odd_before};
ghost use Rattle.owner_label.specs.Sides.{side_area, length_of};

use arrangement::OddUse;
use cov_types::Seg;
use grid_pred::edge_len;
use grid_pred::exact::{difference, product, sum};
use half_edge::Side;

/// The odd pairs of the member, which stand side by side. Takes time in proportion to the logarithm of the pairs.
pub fn odd_of(odd: &[OddUse], member: u32) -> &[OddUse]
    requires ascending { AllPairs (λ o p. IsTrue (is_odd_before o p)) odd.now }
    ensures { result.now ≡ filter (λ o. o.member == member) odd.now }
{
    let from = odd.partition_point(|o| o.member < member);
    let rest = &odd[from..];
    let count = rest.partition_point(|o| o.member <= member);
    &rest[..count]
}

/// What a side adds to the doubled area of its region: the trapezoid of its edge, turned round on the upper side.
pub fn area_of_side(edges: &[Seg], side: Side) -> i128
    requires within { side.number < 2 * length edges.now }
    requires in_range { All IsSegInRange edges.now }
    ensures exact { result ≡ side_area edges.now side.number }
    ensures small { unsigned_abs result ≤ 2 ^ 60 }
{
    let area = trapezoid_of(edges, side.edge());
    if side.is_upper() { -area } else { area }
}

/// The length of the edge of a side, in 1/256 units.
pub fn length_of_side(edges: &[Seg], side: Side) -> u128
    requires within { side.number < 2 * length edges.now }
    requires in_range { All IsSegInRange edges.now }
    ensures exact { result ≡ length_of (slice_get edges.now (side.number / 2)) }
    ensures small { result < 2 ^ 64 }
{
    edge_len(edges[side.edge()]) as u128
}

/// The doubled area between edge k and the line y = 0, positive above it.
pub fn trapezoid_of(edges: &[Seg], k: usize) -> i128
    requires within { k < length edges.now }
    requires in_range { All IsSegInRange edges.now }
    ensures exact { (e : Seg) → slice_get edges.now k ≡ Some e → result ≡ trapezoid e }
    ensures small { unsigned_abs result ≤ 2 ^ 60 }
{
    trapezoid(edges[k])
}

fn trapezoid(e: Seg) -> i128
    requires in_range { IsSegInRange e }
    ensures exact { result ≡ trapezoid e }
    ensures small { unsigned_abs result ≤ 2 ^ 60 }
{
    product(difference(e.hi.x, e.lo.x), sum(e.lo.y, e.hi.y)) as i128
}
