ghost use Rattle.std.specs.Prelude.{◌≡◌, IfOk, map};
ghost use Rattle.std.specs.String.{string_bytes};
ghost use Rattle.clap.specs.Matches.{found_of};
ghost use Rattle.clap.specs.Simple.{app_of};
ghost use Rattle.clap.specs.Walk.{rows_of};
ghost use Rattle.cover_words.specs.Commands.{simplify_command};
ghost use Rattle.cover_words.specs.Named.{IsNamed};
ghost use Rattle.cover_words.specs.Words.{simplify_in, taken};

use crate::arguments::{inner as inner_flag, scale as scale_option, tolerance as tolerance_option};
use crate::commands::on_files;
use crate::matched::matched;
use crate::operation::Operation;
use crate::scale::suits;
use crate::values::{flag_in, number_in, scale_in, text_in};
use clap::{ArgMatches, Command};
use cov_types::NoMemory;
use std::alloc::{AllocError, Global};

// The words after `simplify`: `IN OUT --tolerance T [--inner] [--scale K]`.
fn command<'a>(alloc: Global) -> Result<Command<'a>, AllocError>
    ensures { IfOk result (λ command. app_of command ≡ simplify_command) }
{
    on_files(alloc, "simplify")?
        .arg(tolerance_option(alloc))?
        .arg(inner_flag(alloc))?
        .arg(scale_option(alloc))
}

// The simplification that the matches name.
fn named<'a>(matches: &ArgMatches<'a>) -> Option<Operation<'a>>
    ensures { IsNamed (simplify_in (rows_of (found_of matches.now))) result }
{
    let from = text_in(matches, "IN")?;
    let to = text_in(matches, "OUT")?;
    let tolerance = number_in(matches, "tolerance")?;
    let inner = flag_in(matches, "inner")?;
    let scale = scale_in(matches);
    if !suits(scale, from) || !suits(scale, to) {
        return None;
    }
    Some(Operation::Simplify {
        tolerance,
        inner,
        scale,
        from,
        to,
    })
}

/// The simplification that the words after the first name, or None where they are not accepted.
pub fn simplify_named(alloc: Global, words: &[String]) -> Result<Option<Operation<'_>>, NoMemory>
    ensures { IfOk result (IsNamed (taken simplify_command simplify_in (map string_bytes words.now))) }
{
    match matched(command(alloc)?, words)? {
        Some(matches) => Ok(named(&matches)),
        None => Ok(None),
    }
}
