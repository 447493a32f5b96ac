ghost use Rattle.std.specs.Prelude.{IsTrue, ◌↔◌, ◌≡◌, ◌⊎◌, pos};
ghost use Rattle.cov_types.specs.Range.{IsSegInRange};
ghost use Rattle.grid_pred.specs.Sides.{AreOnOneSide, contact_of_ends};
ghost use Rattle.plane.specs.Contact.{IsContact, MeetsBadly, is_bad};
ghost use Rattle.plane.specs.Segment.{turn_of};

use crate::orientation::turn_to;
use cov_types::Seg;
use plane::{Badness, Contact};

/// How two segments meet. Takes constant time.
pub fn relation(s: Seg, t: Seg) -> Contact
    requires s_in_range { IsSegInRange s }
    requires t_in_range { IsSegInRange t }
    ensures exact { IsContact s t result }

    // A contact is bad just where the segments differ and share a point that is not an end of both.
    ensures bad { IsTrue (is_bad result) ↔ MeetsBadly s t }
{
    let t_lo = turn_to(s, t.lo);
    let t_hi = turn_to(s, t.hi);
    if are_on_one_side(t_lo, t_hi) {
        return Contact::Apart;
    }
    let s_lo = turn_to(t, s.lo);
    let s_hi = turn_to(t, s.hi);
    if are_on_one_side(s_lo, s_hi) {
        return Contact::Apart;
    }
    // Parallel, and none on one side of the other: on one line.
    if t_lo == t_hi {
        return relation_on_line(s, t);
    }
    contact_at(is_end_on_line(s_lo, s_hi), is_end_on_line(t_lo, t_hi))
}

/// Whether two segments that are not equal have a point in common that is not an end of both. Takes constant time.
pub fn meets_badly(s: Seg, t: Seg) -> bool
    requires s_in_range { IsSegInRange s }
    requires t_in_range { IsSegInRange t }
    ensures { IsTrue result ↔ MeetsBadly s t }
{
    matches!(relation(s, t), Contact::Bad(_))
}

// The contact of two segments on one line.
fn relation_on_line(s: Seg, t: Seg) -> Contact
    requires s_in_range { IsSegInRange s }
    requires t_in_range { IsSegInRange t }
    requires lo_on_line { turn_of s.lo s.hi t.lo ≡ pos 0 }
    requires hi_on_line { turn_of s.lo s.hi t.hi ≡ pos 0 }
    ensures { IsContact s t result }
{
    if s == t {
        return Contact::SameSegment;
    }
    if s.hi < t.lo || t.hi < s.lo {
        return Contact::Apart;
    }
    if s.hi == t.lo || t.hi == s.lo {
        return Contact::CommonEnd;
    }
    Contact::Bad(Badness::Overlap)
}

// Whether two points whose turns against a line these are lie strictly on one side of it.
fn are_on_one_side(a: i64, b: i64) -> bool
    ensures { IsTrue result ↔ AreOnOneSide a b }
{
    (a > 0 && b > 0) || (a < 0 && b < 0)
}

// Whether an end of a segment is on a line, by the turns of its ends against that line.
fn is_end_on_line(lo: i64, hi: i64) -> bool
    ensures { IsTrue result ↔ ((lo ≡ pos 0) ⊎ (hi ≡ pos 0)) }
{
    lo == 0 || hi == 0
}

// The contact of two segments with one common point, by whether it is an end of each.
fn contact_at(end_of_s: bool, end_of_t: bool) -> Contact
    ensures { result ≡ contact_of_ends end_of_s end_of_t }
{
    match (end_of_s, end_of_t) {
        (true, true) => Contact::CommonEnd,
        (false, false) => Contact::Bad(Badness::Cross),
        _ => Contact::Bad(Badness::Touch),
    }
}
