ghost use Rattle.std.specs.Prelude.{◌≡◌, IfOk, map};
ghost use Rattle.std.specs.String.{string_bytes};
ghost use Rattle.clap.specs.Matches.{found_of};
ghost use Rattle.clap.specs.Simple.{app_of};
ghost use Rattle.clap.specs.Walk.{rows_of};
ghost use Rattle.cover_words.specs.Commands.{sample_command};
ghost use Rattle.cover_words.specs.Named.{IsNamed};
ghost use Rattle.cover_words.specs.Words.{sample_in, taken};

use crate::arguments::{name, seed as seed_argument, side as side_argument};
use crate::matched::matched;
use crate::operation::Operation;
use crate::values::{number_in, text_in};
use clap::{ArgMatches, Command};
use cov_types::NoMemory;
use std::alloc::{AllocError, Global};

// The words after `sample`: `N SEED OUT`.
fn command<'a>(alloc: Global) -> Result<Command<'a>, AllocError>
    ensures { IfOk result (λ command. app_of command ≡ sample_command) }
{
    Command::new(alloc, "sample")
        .arg(side_argument(alloc))?
        .arg(seed_argument(alloc))?
        .arg(name(alloc, "OUT"))
}

// The sample that the matches name.
fn named<'a>(matches: &ArgMatches<'a>) -> Option<Operation<'a>>
    ensures { IsNamed (sample_in (rows_of (found_of matches.now))) result }
{
    let side = number_in(matches, "N")?;
    let seed = number_in(matches, "SEED")?;
    let to = text_in(matches, "OUT")?;
    Some(Operation::Sample { side, seed, to })
}

/// The sample that the words after the first name, or None where the command doesn't take them.
pub fn sample_named(alloc: Global, words: &[String]) -> Result<Option<Operation<'_>>, NoMemory>
    ensures { IfOk result (IsNamed (taken sample_command sample_in (map string_bytes words.now))) }
{
    match matched(command(alloc)?, words)? {
        Some(matches) => Ok(named(&matches)),
        None => Ok(None),
    }
}
