ghost use Rattle.std.specs.Prelude.{◌≡◌, ◌≤◌};
ghost use Rattle.geo_text.specs.Decimal.{IsScale};
ghost use Rattle.geo_text.specs.Number.{tail_on, no_fraction, fraction_on, takes_digit, is_fine, unit, rounds_up, IsShort};

/// What the digits behind the last place that is kept come to, beside one half of that place.
#[derive(Clone, Copy, Debug, PartialEq, Eq)]
pub(crate) enum Tail {
    Empty,
    BelowHalf,
    Half,
    AboveHalf,
}

impl Tail {
    fn with_digit(self, byte: u8) -> Tail
        ensures { result ≡ tail_on self byte }
    {
        match self {
            Tail::Empty if byte < b'5' => Tail::BelowHalf,
            Tail::Empty if byte == b'5' => Tail::Half,
            Tail::Empty => Tail::AboveHalf,
            Tail::Half if byte != b'0' => Tail::AboveHalf,
            _ => self,
        }
    }
}

/// The digits behind the point of a number.
#[derive(Clone, Copy, Debug, PartialEq, Eq)]
pub(crate) enum Fraction {
    /// Without a scale: whether each of them is 0.
    Unscaled { zero: bool },
    /// At a scale: how many are still to come into the size of the number, and those behind them.
    Scaled { left: u8, tail: Tail },
}

impl Fraction {
    pub(crate) fn new(scale: Option<u8>) -> Fraction
        requires { IsScale scale }
        ensures value { result ≡ no_fraction scale }
        ensures short { IsShort result }
    {
        match scale {
            None => Fraction::Unscaled { zero: true },
            Some(places) => Fraction::Scaled {
                left: places,
                tail: Tail::Empty,
            },
        }
    }

    /// Whether the next digit goes into the size of the number.
    pub(crate) fn takes_digit(self) -> bool
        ensures { result ≡ takes_digit self }
    {
        match self {
            Fraction::Unscaled { .. } => false,
            Fraction::Scaled { left, .. } => left > 0,
        }
    }

    pub(crate) fn with_digit(self, byte: u8) -> Fraction
        requires { IsShort self }
        ensures value { result ≡ fraction_on self byte }
        ensures short { IsShort result }
    {
        match self {
            Fraction::Unscaled { zero } => Fraction::Unscaled {
                zero: zero && byte == b'0',
            },
            Fraction::Scaled { left: 0, tail } => Fraction::Scaled {
                left: 0,
                tail: tail.with_digit(byte),
            },
            Fraction::Scaled { left, tail } => Fraction::Scaled {
                left: left - 1,
                tail,
            },
        }
    }

    /// Whether no digit is at fault.
    pub(crate) fn is_fine(self) -> bool
        ensures { result ≡ is_fine self }
    {
        match self {
            Fraction::Unscaled { zero } => zero,
            Fraction::Scaled { .. } => true,
        }
    }

    /// What one unit of the size counts for: the digits that are still to come are 0.
    pub(crate) fn unit(self) -> u64
        requires { IsShort self }
        ensures value { result ≡ unit self }
        ensures bound { result ≤ 10000000 }
    {
        match self {
            Fraction::Unscaled { .. } => 1,
            Fraction::Scaled { left, .. } => 10u64.pow(u32::from(left)),
        }
    }

    /// Whether a size is rounded up. Halves go upwards, which makes the size of a negative number less.
    pub(crate) fn rounds_up(self, negative: bool) -> bool
        ensures { result ≡ rounds_up negative self }
    {
        match self {
            Fraction::Scaled {
                tail: Tail::Half,
                ..
            } => !negative,
            Fraction::Scaled {
                tail: Tail::AboveHalf,
                ..
            } => true,
            _ => false,
        }
    }
}
