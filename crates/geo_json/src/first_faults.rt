ghost use Rattle.std.specs.Prelude.{◌≡◌, ◌<◌, List, [], ◌∷◌, None, IsOkUnless, length, map, unwrap_or, pos, OnOk};
ghost use Rattle.std.specs.Option.{option_or};
ghost use Rattle.serde_json.specs.View.{number_view};
ghost use Rattle.geo_json.specs.Shape.{RingShape};
ghost use Rattle.geo_json.specs.Reading.{ordinate_of, point_of};
ghost use Rattle.geo_json.specs.Fault.{first, extra_faults, number_faults, ring_faults, is_closed};
ghost use Rattle.geo_json.specs.Noting.{noting, fresh};

use crate::error::{JsonFault, Stop};
use cov_types::{Coord, LIMIT};
use serde_json::Number;

/// The first fault of each kind in a feature's coordinates so far, and the number of the next ring.
#[derive(Clone, Copy, Debug)]
pub(crate) struct FirstFaults {
    pub(crate) feature: u32,
    pub(crate) planar: Option<JsonFault>,
    pub(crate) number: Option<JsonFault>,
    pub(crate) ring: Option<JsonFault>,
    pub(crate) rings: u32,
}

impl FirstFaults {
    pub(crate) fn new(feature: u32, rings: u32) -> FirstFaults
        ensures { result ≡ fresh feature rings }
    {
        FirstFaults {
            feature,
            planar: None,
            number: None,
            ring: None,
            rings,
        }
    }

    /// The coordinate that a number is, or 0 where it is none, whose fault is noted.
    pub(crate) fn take_number(&mut self, number: &Number) -> i32
        ensures value { result ≡ unwrap_or (ordinate_of (number_view number.now)) (pos 0) }
        ensures noted { self.new ≡ noting [] (number_faults self.old.feature (number_view number.now)) [] 0 self.old }
    {
        self.number = self.number.or(number_fault(self.feature, number));
        ordinate_of(number).unwrap_or(0)
    }

    /// Notes a position of so many numbers.
    pub(crate) fn take_position(&mut self, len: usize)
        ensures { self.new ≡ noting (extra_faults self.old.feature len) [] [] 0 self.old }
    {
        if len > 2 {
            self.planar = self.planar.or(Some(JsonFault::NotPlanar {
                feature: self.feature,
            }));
        }
    }

    /// Notes a ring of these positions.
    pub(crate) fn take_ring(&mut self, points: &[Coord]) -> Result<(), Stop>
        ensures noted { OnOk result ((ring : RingShape) → points.now ≡ map point_of ring
            → self.new ≡ noting [] [] (ring_faults self.old.rings ring) 1 self.old) }
        ensures memory { IsOkUnless result Stop.NoMemory }
    {
        let ring = self.rings;
        self.rings = ring.checked_add(1).ok_or(Stop::NoMemory)?;
        self.ring = self.ring.or(ring_fault(ring, points));
        Ok(())
    }

    /// The fault that decides, if there is one.
    pub(crate) fn first(self) -> Option<JsonFault>
        ensures { result ≡ option_or self.planar (option_or self.number self.ring) }
    {
        self.planar.or(self.number.or(self.ring))
    }
}

/// The coordinate that a number is.
fn ordinate_of(number: &Number) -> Option<i32>
    ensures { result ≡ ordinate_of (number_view number.now) }
{
    match number.as_i64() {
        Some(n) if -(LIMIT as i64) <= n && n <= LIMIT as i64 => Some(n as i32),
        _ => None,
    }
}

fn number_fault(feature: u32, number: &Number) -> Option<JsonFault>
    ensures { result ≡ first (number_faults feature (number_view number.now)) }
{
    if number.is_f64() {
        return Some(JsonFault::NotWhole { feature });
    }
    ordinate_of(number)
        .is_none()
        .then_some(JsonFault::OutOfRange { feature })
}

/// That the last point is the first again.
fn is_closed(points: &[Coord]) -> bool
    requires { 0 < length points.now }
    ensures { (ring : RingShape) → points.now ≡ map point_of ring → result ≡ is_closed ring }
{
    points[points.len() - 1] == points[0]
}

fn ring_fault(ring: u32, points: &[Coord]) -> Option<JsonFault>
    ensures { (positions : RingShape) → points.now ≡ map point_of positions → result ≡ first (ring_faults ring positions) }
{
    if points.len() < 4 {
        return Some(JsonFault::RingShort { ring });
    }
    (!is_closed(points)).then_some(JsonFault::RingOpen { ring })
}
