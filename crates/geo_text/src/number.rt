ghost use Rattle.std.specs.Prelude.{◌≡◌, ◌≤◌, Some, None, IfSome, IsTrue, false};
ghost use Rattle.geo_text.specs.Token.{is_digit};
ghost use Rattle.geo_text.specs.Decimal.{IsScale};

use crate::fraction::Fraction;

/// One past the greatest size of a number in range.
pub(crate) const CAP: u32 = 268_435_457;

/// A number that is being typed.
#[derive(Clone, Copy, Debug, PartialEq, Eq)]
pub(crate) struct Number {
    /// How many bytes come before it.
    pub(crate) at: u64,
    pub(crate) negative: bool,
    /// Whether a digit came.
    pub(crate) some_digit: bool,
    /// Whether the point came.
    pub(crate) point: bool,
    pub(crate) fraction: Fraction,
    /// What the digits before the point write, and those behind it that a scale has places for, no more than one past
    /// the range.
    pub(crate) size: u32,
}

impl Number {
    ghost use Rattle.geo_text.specs.Number.{precision_at, no_number, number_on, number_begun, with_digit, capped, rounded, value_of, IsCapped};

    fn empty(at: u64, negative: bool, scale: Option<u8>) -> Number
        requires { IsScale scale }
        ensures value { result ≡ no_number scale at negative }
        ensures capped { IsCapped result }
    {
        Number {
            at,
            negative,
            some_digit: false,
            point: false,
            fraction: Fraction::new(scale),
            size: 0,
        }
    }

    /// The number that a byte begins.
    pub(crate) fn begun(at: u64, byte: u8, scale: Option<u8>) -> Option<Number>
        requires { IsScale scale }
        ensures value { result ≡ number_begun (precision_at scale) at byte }
        ensures capped { IfSome result IsCapped }
    {
        match byte {
            b'-' => Some(Number::empty(at, true, scale)),
            b'+' => Some(Number::empty(at, false, scale)),
            _ => {
                let mut number = Number::empty(at, false, scale);
                if number.type_on(byte) {
                    Some(number)
                } else {
                    None
                }
            }
        }
    }

    /// Takes one byte more where it may have it, and tells whether it may.
    pub(crate) fn type_on(&mut self, byte: u8) -> bool
        requires { IsCapped self.old }
        ensures taken { IsTrue result → number_on CAP self.old byte ≡ Some self.new }
        ensures capped { IsTrue result → IsCapped self.new }
        ensures refused { result ≡ false → number_on CAP self.old byte ≡ None }
    {
        match byte {
            b'0'..=b'9' => self.add_digit(byte),
            b'.' if !self.point => self.point = true,
            _ => return false,
        }
        true
    }

    fn add_digit(&mut self, byte: u8)
        requires capped { IsCapped self.old }
        requires digit { IsTrue (is_digit byte) }
        ensures value { self.new ≡ with_digit CAP self.old byte }
        ensures capped { IsCapped self.new }
    {
        self.some_digit = true;
        if !self.point || self.fraction.takes_digit() {
            self.size = CAP.min(10 * self.size + u32::from(byte - b'0'));
        }
        if self.point {
            self.fraction = self.fraction.with_digit(byte);
        }
    }

    /// Its value, no more than one past the range.
    pub(crate) fn value(self) -> i32
        requires { IsCapped self }
        ensures { result ≡ value_of CAP self }
    {
        let size = self.rounded() as i32;
        if self.negative { -size } else { size }
    }

    fn rounded(self) -> u32
        requires { IsCapped self }
        ensures value { result ≡ rounded CAP self.negative self.fraction self.size }
        ensures bound { result ≤ CAP }
    {
        let up = u64::from(self.fraction.rounds_up(self.negative));
        let size = u64::from(self.size) * self.fraction.unit() + up;
        u64::from(CAP).min(size) as u32
    }
}
