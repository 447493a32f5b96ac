ghost use Rattle.std.specs.Prelude.{◌≡◌, IfOk, map};
ghost use Rattle.std.specs.String.{string_bytes};
ghost use Rattle.clap.specs.Matches.{found_of};
ghost use Rattle.clap.specs.Simple.{app_of};
ghost use Rattle.clap.specs.Walk.{rows_of};
ghost use Rattle.cover_words.specs.Commands.{clean_command};
ghost use Rattle.cover_words.specs.Named.{IsNamed};
ghost use Rattle.cover_words.specs.Words.{clean_in, taken};

use crate::arguments::{gap, gaps_too as gaps_too_flag, rule, scale as scale_option};
use crate::commands::on_files;
use crate::matched::matched;
use crate::operation::Operation;
use crate::rule_choice::rule_chosen;
use crate::scale::suits;
use crate::values::{flag_in, number_in, scale_in, text_in};
use clap::{ArgMatches, Command};
use cov_types::NoMemory;
use std::alloc::{AllocError, Global};

// The words after `clean`: `IN OUT --rule R [--gap W] [--gaps-too] [--scale K]`.
fn command<'a>(alloc: Global) -> Result<Command<'a>, AllocError>
    ensures { IfOk result (λ command. app_of command ≡ clean_command) }
{
    on_files(alloc, "clean")?
        .arg(rule(alloc))?
        .arg(gap(alloc))?
        .arg(gaps_too_flag(alloc))?
        .arg(scale_option(alloc))
}

// The cleaning that the matches name, where rules of these names are handed in.
fn named<'a>(matches: &ArgMatches<'a>, names: &[&str]) -> Option<Operation<'a>>
    ensures { IsNamed (clean_in (map (λ n. n.now) names.now) (rows_of (found_of matches.now))) result }
{
    let from = text_in(matches, "IN")?;
    let to = text_in(matches, "OUT")?;
    let word = text_in(matches, "rule")?;
    let rule = rule_chosen(word, names)?;
    let gap = number_in(matches, "gap")?;
    let gaps_too = flag_in(matches, "gaps-too")?;
    let scale = scale_in(matches);
    if !suits(scale, from) || !suits(scale, to) {
        return None;
    }
    Some(Operation::Clean {
        rule,
        gap,
        gaps_too,
        scale,
        from,
        to,
    })
}

/// The cleaning that the words after the first name, where rules of these names are handed in, or None where they are not accepted.
pub fn clean_named<'a>(
    alloc: Global,
    words: &'a [String],
    names: &[&str],
) -> Result<Option<Operation<'a>>, NoMemory>
    ensures { IfOk result (IsNamed (taken clean_command (clean_in (map (λ n. n.now) names.now)) (map string_bytes words.now))) }
{
    match matched(command(alloc)?, words)? {
        Some(matches) => Ok(named(&matches, names)),
        None => Ok(None),
    }
}
