ghost use Rattle.std.specs.Prelude.{◌≡◌, IfOk, map};
ghost use Rattle.std.specs.String.{string_bytes};
ghost use Rattle.clap.specs.Matches.{found_of};
ghost use Rattle.clap.specs.Simple.{app_of};
ghost use Rattle.clap.specs.Walk.{rows_of};
ghost use Rattle.cover_words.specs.Commands.{locate_command};
ghost use Rattle.cover_words.specs.Named.{IsNamed};
ghost use Rattle.cover_words.specs.Words.{taken, locate_in};

use crate::arguments::name;
use crate::matched::matched;
use crate::operation::Operation;
use crate::values::text_in;
use clap::{ArgMatches, Command};
use cov_types::NoMemory;
use std::alloc::{AllocError, Global};

// The words after `locate`: `IN POINTS OUT`.
fn command<'a>(alloc: Global) -> Result<Command<'a>, AllocError>
    ensures { IfOk result (λ command. app_of command ≡ locate_command) }
{
    Command::new(alloc, "locate")
        .arg(name(alloc, "IN"))?
        .arg(name(alloc, "POINTS"))?
        .arg(name(alloc, "OUT"))
}

// The location of points that the matches name.
fn named<'a>(matches: &ArgMatches<'a>) -> Option<Operation<'a>>
    ensures { IsNamed (locate_in (rows_of (found_of matches.now))) result }
{
    let from = text_in(matches, "IN")?;
    let points = text_in(matches, "POINTS")?;
    let to = text_in(matches, "OUT")?;
    Some(Operation::Locate { from, points, to })
}

/// The location of points that the words after the first name, or None where the command doesn't take them.
pub fn locate_named(alloc: Global, words: &[String]) -> Result<Option<Operation<'_>>, NoMemory>
    ensures { IfOk result (IsNamed (taken locate_command locate_in (map string_bytes words.now))) }
{
    match matched(command(alloc)?, words)? {
        Some(matches) => Ok(named(&matches)),
        None => Ok(None),
    }
}
