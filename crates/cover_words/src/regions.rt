ghost use Rattle.std.specs.Prelude.{◌≡◌, IfOk, map};
ghost use Rattle.std.specs.String.{string_bytes};
ghost use Rattle.clap.specs.Matches.{found_of};
ghost use Rattle.clap.specs.Simple.{app_of};
ghost use Rattle.clap.specs.Walk.{rows_of};
ghost use Rattle.cover_words.specs.Commands.{regions_command};
ghost use Rattle.cover_words.specs.Named.{IsNamed};
ghost use Rattle.cover_words.specs.Words.{taken, regions_in};

use crate::arguments::scale as scale_option;
use crate::commands::on_files;
use crate::matched::matched;
use crate::operation::Operation;
use crate::scale::suits;
use crate::values::{scale_in, text_in};
use clap::{ArgMatches, Command};
use cov_types::NoMemory;
use std::alloc::{AllocError, Global};

// The words after `regions`: `IN OUT [--scale K]`.
fn command<'a>(alloc: Global) -> Result<Command<'a>, AllocError>
    ensures { IfOk result (λ command. app_of command ≡ regions_command) }
{
    on_files(alloc, "regions")?.arg(scale_option(alloc))
}

// The list of regions that the matches name.
fn named<'a>(matches: &ArgMatches<'a>) -> Option<Operation<'a>>
    ensures { IsNamed (regions_in (rows_of (found_of matches.now))) result }
{
    let from = text_in(matches, "IN")?;
    let to = text_in(matches, "OUT")?;
    let scale = scale_in(matches);
    if !suits(scale, from) {
        return None;
    }
    Some(Operation::Regions { scale, from, to })
}

/// The list of regions that the words after the first name, or None where they are not accepted.
pub fn regions_named(alloc: Global, words: &[String]) -> Result<Option<Operation<'_>>, NoMemory>
    ensures { IfOk result (IsNamed (taken regions_command regions_in (map string_bytes words.now))) }
{
    match matched(command(alloc)?, words)? {
        Some(matches) => Ok(named(&matches)),
        None => Ok(None),
    }
}
