ghost use Rattle.std.specs.Prelude.{◌≡◌, ◌≤ℤ◌, ◌<ℤ◌, ◌+ℤ◌, ◌*ℤ◌, pos, ◌^◌, unsigned_abs, IsTrue, IsSome, IfSome, ◌↔◌};
ghost use Rattle.integer_laws.specs.Bound.{IsWithin};
ghost use Rattle.cov_types.specs.Range.{IsInRange, IsSegInRange};
ghost use Rattle.plane.specs.Contact.{IsContact};
ghost use Rattle.plane.specs.Segment.{turn_of};
ghost use Rattle.grid_pred.specs.Crossing.{at_cross, IsCrossInRange, IsCrossing};

use crate::cross::Cross;
use crate::exact::wide_product;
use crate::meeting::relation;
use crate::orientation::turn_to;
use cov_types::{Coord, Seg};
use plane::{Badness, Contact};

/// The point in which two segments cross: inside both, and their only common point. Takes constant time.
pub fn crossing(s: Seg, t: Seg) -> Option<Cross>
    requires s_in_range { IsSegInRange s }
    requires t_in_range { IsSegInRange t }

    // There is one exactly where the contact of the segments is Cross.
    ensures crosses { IsSome result ↔ IsContact s t (Contact.Bad Badness.Cross) }
    ensures point { IfSome result (λ c. IsCrossing s t (at_cross c)) }
    ensures in_range { IfSome result IsCrossInRange }
{
    if is_cross(relation(s, t)) {
        Some(meeting_point(s, t))
    } else {
        None
    }
}

fn is_cross(contact: Contact) -> bool
    ensures { IsTrue result ↔ (contact ≡ Contact.Bad Badness.Cross) }
{
    matches!(contact, Contact::Bad(Badness::Cross))
}

// The point in which two segments that cross meet. The farther one end of s is from t, the more the other end weighs.
fn meeting_point(s: Seg, t: Seg) -> Cross
    requires s_in_range { IsSegInRange s }
    requires t_in_range { IsSegInRange t }
    requires crosses { IsContact s t (Contact.Bad Badness.Cross) }
    ensures point { IsCrossing s t (at_cross result) }
    ensures in_range { IsCrossInRange result }
{
    mean_of_ends(s, distance(t, s.hi), distance(t, s.lo))
}

// How far c is from the line of t, times the length of t.
fn distance(t: Seg, c: Coord) -> i64
    requires segment_in_range { IsSegInRange t }
    requires point_in_range { IsInRange c }
    ensures exact { result ≡ pos (unsigned_abs (turn_of t.lo t.hi c)) }
    ensures small { IsWithin (2 ^ 59) result }
{
    turn_to(t, c).abs()
}

// The mean of the ends of s with these weights.
fn mean_of_ends(s: Seg, lo: i64, hi: i64) -> Cross
    requires in_range { IsSegInRange s }
    requires lo_small { IsWithin (2 ^ 59) lo }
    requires hi_small { IsWithin (2 ^ 59) hi }
    requires weighted { pos 0 <ℤ (lo +ℤ hi) }
    ensures x { result.num_x ≡ (lo *ℤ s.lo.x) +ℤ (hi *ℤ s.hi.x) }
    ensures y { result.num_y ≡ (lo *ℤ s.lo.y) +ℤ (hi *ℤ s.hi.y) }
    ensures den { result.den ≡ lo +ℤ hi }
{
    Cross {
        num_x: weighted_sum(lo, s.lo.x, hi, s.hi.x),
        num_y: weighted_sum(lo, s.lo.y, hi, s.hi.y),
        den: (lo + hi) as i128,
    }
}

fn weighted_sum(m: i64, a: i32, n: i64, b: i32) -> i128
    requires m_small { IsWithin (2 ^ 59) m }
    requires a_small { IsWithin (2 ^ 28) a }
    requires n_small { IsWithin (2 ^ 59) n }
    requires b_small { IsWithin (2 ^ 28) b }
    ensures { result ≡ (m *ℤ a) +ℤ (n *ℤ b) }
{
    wide_product(m, a as i64) + wide_product(n, b as i64)
}
