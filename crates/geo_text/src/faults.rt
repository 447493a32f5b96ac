ghost use Rattle.std.specs.Prelude.{◌≡◌, ◌+◌, ◌^◌, ◌<◌, ◌≤◌, length};
ghost use Rattle.geo_text.specs.Machine.{no_faults, with_extra, with_number, with_ring, first_fault, is_in_range, number_fault, is_closed, ring_fault};

use crate::error::TextFault;
use cov_types::{Coord, LIMIT};

/// The first fault of each kind so far, and how many rings have come.
#[derive(Clone, Copy, Debug)]
pub(crate) struct Faults {
    pub(crate) planar: Option<TextFault>,
    pub(crate) number: Option<TextFault>,
    pub(crate) ring: Option<TextFault>,
    pub(crate) rings: u32,
}

impl Faults {
    pub(crate) fn new() -> Faults
        ensures { result ≡ no_faults }
    {
        Faults {
            planar: None,
            number: None,
            ring: None,
            rings: 0,
        }
    }

    /// Notes a dimension word or a third number.
    pub(crate) fn with_extra(self, at: u64) -> Faults
        ensures { result ≡ with_extra at self }
    {
        Faults {
            planar: self.planar.or(Some(TextFault::NotPlanar { at })),
            ..self
        }
    }

    /// Notes a number's fault, if it has one.
    pub(crate) fn add_number(&mut self, at: u64, value: i32, whole: bool)
        ensures { self.new ≡ with_number at value whole self.old }
    {
        if self.number.is_none() {
            self.number = number_fault(at, value, whole);
        }
    }

    /// Notes a ring, and its fault, if it has one.
    pub(crate) fn with_ring(self, points: &[Coord]) -> Faults
        requires { self.rings + 1 < 2 ^ 32 }
        ensures { result ≡ with_ring points.now self }
    {
        Faults {
            ring: self.ring.or(ring_fault(self.rings, points)),
            rings: self.rings + 1,
            ..self
        }
    }

    /// The fault that decides.
    pub(crate) fn first(self) -> Option<TextFault>
        ensures { result ≡ first_fault self }
    {
        self.planar.or(self.number.or(self.ring))
    }
}

fn is_in_range(number: i32) -> bool
    ensures { result ≡ is_in_range number }
{
    -LIMIT <= number && number <= LIMIT
}

fn number_fault(at: u64, value: i32, whole: bool) -> Option<TextFault>
    ensures { result ≡ number_fault at value whole }
{
    if !whole {
        return Some(TextFault::NotWhole { at });
    }
    (!is_in_range(value)).then_some(TextFault::OutOfRange { at })
}

/// That the last point is the first again.
fn is_closed(points: &[Coord]) -> bool
    requires { 1 ≤ length points.now }
    ensures { result ≡ is_closed points.now }
{
    points[points.len() - 1] == points[0]
}

fn ring_fault(ring: u32, points: &[Coord]) -> Option<TextFault>
    ensures { result ≡ ring_fault ring points.now }
{
    if points.len() < 4 {
        return Some(TextFault::RingShort { ring });
    }
    (!is_closed(points)).then_some(TextFault::RingOpen { ring })
}
