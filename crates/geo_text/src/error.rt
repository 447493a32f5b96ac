use std::alloc::{AllocError, AllocFailed};
use thiserror::Error;

/// Why a text is not read. Bytes and rings are numbered from 0 through the whole file.
#[derive(Clone, Copy, Debug, PartialEq, Eq, Error)]
pub enum TextFault {
    /// The text is no file. The first `at` bytes begin some file, and no more of them do.
    #[error("syntax at {at}")]
    Syntax { at: u64 },
    /// A dimension word or a third number starts at byte `at`.
    #[error("not planar at {at}")]
    NotPlanar { at: u64 },
    /// A number with a fraction starts at byte `at`.
    #[error("not whole at {at}")]
    NotWhole { at: u64 },
    /// A number out of range starts at byte `at`.
    #[error("out of range at {at}")]
    OutOfRange { at: u64 },
    /// A ring has fewer than four positions.
    #[error("ring {ring} is short")]
    RingShort { ring: u32 },
    /// A ring's first and last position differ.
    #[error("ring {ring} is open")]
    RingOpen { ring: u32 },
}

/// What `read_text` answers in place of a coverage.
#[derive(Debug, Drop, Error)]
pub enum TextError {
    #[error("text: {0}")]
    Fault(TextFault),
    #[error("no memory")]
    NoMemory,
}

/// Why a byte is not taken.
#[derive(Debug, Drop)]
pub(crate) enum Stop {
    /// No file goes on so.
    Refused,
    NoMemory,
}

impl From<AllocError> for Stop {
    ghost use Rattle.std.specs.Prelude.{◌≡◌};
    ghost use Rattle.geo_text.specs.declared.error.Stop.TheVariants.{NoMemory};

    ghost from_gives = { λ _ e. e ≡ NoMemory };

    fn from(_e: AllocError) -> Stop {
        Stop::NoMemory
    }
}

impl<T: Drop> From<AllocFailed<T>> for Stop {
    ghost use Rattle.std.specs.Prelude.{◌≡◌};
    ghost use Rattle.geo_text.specs.declared.error.Stop.TheVariants.{NoMemory};

    ghost from_gives = { λ _ e. e ≡ NoMemory };

    fn from(_e: AllocFailed<T>) -> Stop {
        Stop::NoMemory
    }
}
