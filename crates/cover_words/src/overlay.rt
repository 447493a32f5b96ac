ghost use Rattle.std.specs.Prelude.{◌≡◌, IfOk, map};
ghost use Rattle.std.specs.String.{string_bytes};
ghost use Rattle.clap.specs.Matches.{found_of};
ghost use Rattle.clap.specs.Simple.{app_of};
ghost use Rattle.clap.specs.Walk.{rows_of};
ghost use Rattle.cover_words.specs.Commands.{overlay_command};
ghost use Rattle.cover_words.specs.Named.{IsNamed};
ghost use Rattle.cover_words.specs.Words.{overlay_in, taken};

use crate::arguments::name;
use crate::matched::matched;
use crate::operation::Operation;
use crate::values::text_in;
use clap::{ArgMatches, Command};
use cov_types::NoMemory;
use std::alloc::{AllocError, Global};

// The words after `overlay`: `A B OUT`.
fn command<'a>(alloc: Global) -> Result<Command<'a>, AllocError>
    ensures { IfOk result (λ command. app_of command ≡ overlay_command) }
{
    Command::new(alloc, "overlay")
        .arg(name(alloc, "A"))?
        .arg(name(alloc, "B"))?
        .arg(name(alloc, "OUT"))
}

// The overlay that the matches name.
fn named<'a>(matches: &ArgMatches<'a>) -> Option<Operation<'a>>
    ensures { IsNamed (overlay_in (rows_of (found_of matches.now))) result }
{
    let first = text_in(matches, "A")?;
    let second = text_in(matches, "B")?;
    let to = text_in(matches, "OUT")?;
    Some(Operation::Overlay { first, second, to })
}

/// The overlay that the words after the first name, or None where the command doesn't take them.
pub fn overlay_named(alloc: Global, words: &[String]) -> Result<Option<Operation<'_>>, NoMemory>
    ensures { IfOk result (IsNamed (taken overlay_command overlay_in (map string_bytes words.now))) }
{
    match matched(command(alloc)?, words)? {
        Some(matches) => Ok(named(&matches)),
        None => Ok(None),
    }
}
