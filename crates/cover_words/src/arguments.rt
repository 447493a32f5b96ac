ghost use Rattle.std.specs.Prelude.{◌≡◌, false};
ghost use Rattle.clap.specs.Walk.{rule_of};
ghost use Rattle.cover_words.specs.Commands.{gap as gap_rule, gaps_too as gaps_too_rule, inner as inner_rule, lengths as lengths_parser, name as name_rule, rule as rule_rule, scale as scale_rule, seed as seed_rule, side as side_rule, tolerance as tolerance_rule};

use clap::builder::ValueParser;
use clap::{Arg, ArgAction, value_parser};
use std::alloc::Global;

/// The greatest gap width and the greatest tolerance, in grid units.
const MOST: i64 = 1_073_741_824;

/// The greatest scale: the number of decimal places that a text may keep.
const MOST_PLACES: i64 = 7;

/// The greatest number of cells on a side of a sample.
const LONGEST_SIDE: i64 = 400;

// The numbers that a gap width and a tolerance may have.
fn lengths<'a>() -> ValueParser<'a>
    ensures { result ≡ lengths_parser }
{
    value_parser!(u32).range(0..=MOST)
}

/// The name of a file: a positional word that has to be there.
pub fn name<'a>(alloc: Global, id: &'a str) -> Arg<'a>
    ensures rule { rule_of result ≡ name_rule id.entry.now }
    ensures local { result.global ≡ false }
{
    Arg::new(alloc, id).required(true)
}

/// `--rule R`, which has to be there.
pub fn rule<'a>(alloc: Global) -> Arg<'a>
    ensures rule { rule_of result ≡ rule_rule }
    ensures local { result.global ≡ false }
{
    Arg::new(alloc, "rule").long("rule").required(true)
}

/// `--gap W`, where W is 0 if it isn't there.
pub fn gap<'a>(alloc: Global) -> Arg<'a>
    ensures rule { rule_of result ≡ gap_rule }
    ensures local { result.global ≡ false }
{
    Arg::new(alloc, "gap")
        .long("gap")
        .default_value("0")
        .value_parser(lengths())
}

/// `--gaps-too`, which has no value.
pub fn gaps_too<'a>(alloc: Global) -> Arg<'a>
    ensures rule { rule_of result ≡ gaps_too_rule }
    ensures local { result.global ≡ false }
{
    Arg::new(alloc, "gaps-too")
        .long("gaps-too")
        .action(ArgAction::SetTrue)
}

/// `--tolerance T`, which has to be there.
pub fn tolerance<'a>(alloc: Global) -> Arg<'a>
    ensures rule { rule_of result ≡ tolerance_rule }
    ensures local { result.global ≡ false }
{
    Arg::new(alloc, "tolerance")
        .long("tolerance")
        .required(true)
        .value_parser(lengths())
}

/// `--inner`, which has no value.
pub fn inner<'a>(alloc: Global) -> Arg<'a>
    ensures rule { rule_of result ≡ inner_rule }
    ensures local { result.global ≡ false }
{
    Arg::new(alloc, "inner")
        .long("inner")
        .action(ArgAction::SetTrue)
}

/// `--scale K`, which may be there.
pub fn scale<'a>(alloc: Global) -> Arg<'a>
    ensures rule { rule_of result ≡ scale_rule }
    ensures local { result.global ≡ false }
{
    Arg::new(alloc, "scale")
        .long("scale")
        .value_parser(value_parser!(u8).range(0..=MOST_PLACES))
}

/// `N`: a positional number of cells on a side, which has to be there.
pub fn side<'a>(alloc: Global) -> Arg<'a>
    ensures rule { rule_of result ≡ side_rule }
    ensures local { result.global ≡ false }
{
    Arg::new(alloc, "N")
        .required(true)
        .value_parser(value_parser!(u32).range(1..=LONGEST_SIDE))
}

/// `SEED`: a positional number, which has to be there.
pub fn seed<'a>(alloc: Global) -> Arg<'a>
    ensures rule { rule_of result ≡ seed_rule }
    ensures local { result.global ≡ false }
{
    Arg::new(alloc, "SEED")
        .required(true)
        .value_parser(value_parser!(u32))
}
