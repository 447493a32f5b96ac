ghost use Rattle.std.specs.Prelude.{◌≡◌, IfOk, map, true};
ghost use Rattle.std.specs.String.{string_bytes};
ghost use Rattle.clap.specs.Simple.{app_of};
ghost use Rattle.cover_words.specs.Matched.{IsMatched, is_plain};

use clap::error::ErrorKind;
use clap::{ArgMatches, Command};
use cov_types::NoMemory;

/// The matches of the words, of which the first is not read, or None where the command doesn't take them.
pub fn matched<'a>(
    command: Command<'a>,
    words: &'a [String],
) -> Result<Option<ArgMatches<'a>>, NoMemory>
    requires { is_plain (app_of command) ≡ true }
    ensures { IfOk result (IsMatched (app_of command.entry) (map string_bytes words.entry.now)) }
{
    match command.try_get_matches_from(words) {
        Ok(matches) => Ok(Some(matches)),
        Err(error) => match error.kind() {
            ErrorKind::OutOfMemory => Err(NoMemory),
            _ => Ok(None),
        },
    }
}
