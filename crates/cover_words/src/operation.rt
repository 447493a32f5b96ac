ghost use Rattle.std.specs.Prelude.{◌≡◌};
ghost use Rattle.cover_words.specs.Named.{named, names_in};
ghost use Rattle.cover_words.specs.Words.{inputs_of, output_of};

use crate::inputs::Inputs;
use crate::rule_choice::RuleChoice;

/// An operation, with its values, the scale of its texts where it may have one, from 0 to 7, and the names of the files
/// that it works on.
#[derive(Clone, Copy, Debug, PartialEq, Eq)]
pub enum Operation<'a> {
    /// `gap` in grid units, 0 to 1,073,741,824.
    Validate {
        gap: u32,
        scale: Option<u8>,
        from: &'a str,
        to: &'a str,
    },
    /// Of the program `cover_faults`; `gap` in grid units, 0 to 1,073,741,824.
    MapFaults {
        gap: u32,
        scale: Option<u8>,
        from: &'a str,
        to: &'a str,
    },
    /// `gap` in grid units, 0 to 1,073,741,824. `gaps_too`: the rule is asked for narrow gaps too.
    Clean {
        rule: RuleChoice,
        gap: u32,
        gaps_too: bool,
        scale: Option<u8>,
        from: &'a str,
        to: &'a str,
    },
    /// `tolerance` in grid units, 0 to 1,073,741,824.
    Simplify {
        tolerance: u32,
        inner: bool,
        scale: Option<u8>,
        from: &'a str,
        to: &'a str,
    },
    Union {
        scale: Option<u8>,
        from: &'a str,
        to: &'a str,
    },
    Node {
        scale: Option<u8>,
        from: &'a str,
        to: &'a str,
    },
    Regions {
        scale: Option<u8>,
        from: &'a str,
        to: &'a str,
    },
    /// `side` in cells, 1 to 400.
    Sample {
        side: u32,
        seed: u32,
        to: &'a str,
    },
    /// `points` names the file of points.
    Locate {
        from: &'a str,
        points: &'a str,
        to: &'a str,
    },
    /// `first` and `second` name the two coverages.
    Overlay {
        first: &'a str,
        second: &'a str,
        to: &'a str,
    },
}

impl<'a> Operation<'a> {
    /// The names of the files that it reads, in the order in which it reads them. Takes no memory.
    pub fn inputs(&self) -> Inputs<'a>
        ensures { names_in result ≡ inputs_of (named self.now) }
    {
        match self {
            Operation::Validate { from, .. } => Inputs::One(from),
            Operation::MapFaults { from, .. } => Inputs::One(from),
            Operation::Clean { from, .. } => Inputs::One(from),
            Operation::Simplify { from, .. } => Inputs::One(from),
            Operation::Union { from, .. } => Inputs::One(from),
            Operation::Node { from, .. } => Inputs::One(from),
            Operation::Regions { from, .. } => Inputs::One(from),
            Operation::Sample { .. } => Inputs::Nothing,
            Operation::Locate { from, points, .. } => Inputs::Two(from, points),
            Operation::Overlay { first, second, .. } => Inputs::Two(first, second),
        }
    }

    /// The name of the file that it writes. Takes no memory.
    pub fn output(&self) -> &'a str
        ensures { result.now ≡ output_of (named self.now) }
    {
        match self {
            Operation::Validate { to, .. } => to,
            Operation::MapFaults { to, .. } => to,
            Operation::Clean { to, .. } => to,
            Operation::Simplify { to, .. } => to,
            Operation::Union { to, .. } => to,
            Operation::Node { to, .. } => to,
            Operation::Regions { to, .. } => to,
            Operation::Sample { to, .. } => to,
            Operation::Locate { to, .. } => to,
            Operation::Overlay { to, .. } => to,
        }
    }
}
