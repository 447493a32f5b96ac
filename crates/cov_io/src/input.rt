ghost use Rattle.std.specs.Prelude.{◌≡◌, ◌≢◌, ◌<◌, ◌≤◌, ◌^◌, ◌-◌, Some, Err, length, IsTrue, IfOk, OnOk};
ghost use Rattle.cov_io.specs.Frame.{KeepsOutput};
ghost use Rattle.cov_io.specs.Calls.{IsPromised};
ghost use Rattle.cov_io.specs.Slurp.{IsAtEnd, IsTooLong, HasReadCause};
ghost use Rattle.cov_io.specs.declared.input.SlurpError.TheVariants.{ReadFault, TooLong, NoMemory};

use crate::files::{Failed, Files};
use std::alloc::{AllocError, Global};
use thiserror::Error;

const PIECE: usize = 4096;

/// Why a file was not read.
#[derive(Clone, Copy, Debug, PartialEq, Eq, Error)]
pub enum SlurpError {
    #[error("read fault")]
    ReadFault,
    #[error("too long")]
    TooLong,
    #[error("no memory")]
    NoMemory,
}

impl From<Failed> for SlurpError {
    ghost from_gives = { λ _ e. e ≡ ReadFault };

    fn from(_e: Failed) -> SlurpError {
        SlurpError::ReadFault
    }
}

impl From<AllocError> for SlurpError {
    ghost from_gives = { λ _ e. e ≡ NoMemory };

    fn from(_e: AllocError) -> SlurpError {
        SlurpError::NoMemory
    }
}

/// Reads the whole file of this name, which may hold at most `limit` bytes. Takes time and memory in proportion to what it reads.
pub fn slurp<F: Files>(
    alloc: Global,
    files: &mut F,
    name: &str,
    limit: usize,
) -> Result<Vec<u8>, SlurpError>
    requires { limit < 2 ^ 64 - 1 }
    ensures all { IfOk result (λ bytes. IsTrue (F.state files.old).tells_files
        → (F.state files.old).files name.now ≡ Some bytes.items) }
    ensures within { IfOk result (λ bytes. length bytes.items ≤ limit) }
    ensures ended { OnOk result (IsAtEnd (F.state files.new)) }
    ensures too_long { result ≡ Err SlurpError.TooLong → IsTrue (F.state files.old).tells_files
        → IsTooLong name.now limit (F.state files.old) (F.state files.new) }
    ensures cause { HasReadCause (F.state files.old).read_faults (F.state files.new).read_faults result }
    ensures kept { KeepsOutput (F.state files.old) (F.state files.new) }
    ensures promised { IsPromised name.now (F.state files.old) → result ≢ Err SlurpError.ReadFault }
    ensures no_fault { IsPromised name.now (F.state files.old)
        → (F.state files.new).read_faults ≡ (F.state files.old).read_faults }
{
    files.open_input(name)?;
    let mut bytes = Vec::new(alloc);
    let mut buffer = [0u8; PIECE];
    while bytes.len() <= limit {
        let wanted = PIECE.min(limit + 1 - bytes.len());
        let got = files.read(&mut buffer[..wanted])?;
        if got == 0 {
            return Ok(bytes);
        }
        bytes.extend_from_slice(&buffer[..got])?;
    }
    Err(SlurpError::TooLong)
}
