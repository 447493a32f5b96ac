ghost use Rattle.std.specs.Prelude.{◌≡◌, IfOk, map};
ghost use Rattle.std.specs.String.{string_bytes};
ghost use Rattle.clap.specs.Matches.{found_of};
ghost use Rattle.clap.specs.Simple.{app_of};
ghost use Rattle.clap.specs.Walk.{rows_of};
ghost use Rattle.cover_words.specs.Commands.{validate_command};
ghost use Rattle.cover_words.specs.Named.{IsNamed};
ghost use Rattle.cover_words.specs.Words.{taken, validate_in};

use crate::arguments::{gap, scale as scale_option};
use crate::commands::on_files;
use crate::matched::matched;
use crate::operation::Operation;
use crate::scale::suits;
use crate::values::{number_in, scale_in, text_in};
use clap::{ArgMatches, Command};
use cov_types::NoMemory;
use std::alloc::{AllocError, Global};

// The words after `validate`: `IN OUT [--gap W] [--scale K]`.
fn command<'a>(alloc: Global) -> Result<Command<'a>, AllocError>
    ensures { IfOk result (λ command. app_of command ≡ validate_command) }
{
    on_files(alloc, "validate")?
        .arg(gap(alloc))?
        .arg(scale_option(alloc))
}

// The validation that the matches name.
fn named<'a>(matches: &ArgMatches<'a>) -> Option<Operation<'a>>
    ensures { IsNamed (validate_in (rows_of (found_of matches.now))) result }
{
    let from = text_in(matches, "IN")?;
    let to = text_in(matches, "OUT")?;
    let gap = number_in(matches, "gap")?;
    let scale = scale_in(matches);
    if !suits(scale, from) {
        return None;
    }
    Some(Operation::Validate {
        gap,
        scale,
        from,
        to,
    })
}

/// The validation that the words after the first name, or None where they are not accepted.
pub fn validate_named(alloc: Global, words: &[String]) -> Result<Option<Operation<'_>>, NoMemory>
    ensures { IfOk result (IsNamed (taken validate_command validate_in (map string_bytes words.now))) }
{
    match matched(command(alloc)?, words)? {
        Some(matches) => Ok(named(&matches)),
        None => Ok(None),
    }
}
