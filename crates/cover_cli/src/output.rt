ghost use Rattle.cover_cli.specs.Written.{IsTextWritten};

use crate::making::Made;
use crate::outcome::Outcome;
use cov_io::{Files, spill};

/// MayWrite what was made over the file of this name.
pub fn written<F: Files>(files: &mut F, to: &str, made: Made) -> Outcome
    ensures { IsTextWritten to.now made (F.state files.old) (F.state files.new) result }
{
    match spill(files, to, &made.text) {
        Ok(()) => made.outcome,
        Err(_) => Outcome::WriteFault,
    }
}
