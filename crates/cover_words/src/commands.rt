ghost use Rattle.std.specs.Prelude.{◌≡◌, [], IfOk};
ghost use Rattle.clap.specs.Simple.{app_of};
ghost use Rattle.cover_words.specs.Commands.{on_files as app_on_files};

use crate::arguments::name;
use clap::Command;
use std::alloc::{AllocError, Global};

/// The command of this name with an input and an output.
pub fn on_files<'a>(alloc: Global, word: &'a str) -> Result<Command<'a>, AllocError>
    ensures { IfOk result (λ command. app_of command ≡ app_on_files word.entry.now []) }
{
    Command::new(alloc, word)
        .arg(name(alloc, "IN"))?
        .arg(name(alloc, "OUT"))
}
