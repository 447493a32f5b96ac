use cov_types::NoMemory;
use std::alloc::AllocError;
use thiserror::Error;

/// Why two coverages have no overlay.
#[derive(Clone, Copy, Debug, PartialEq, Eq, Error)]
pub enum OverlayError {
    /// There are 2^32 members or more in both together, or 2^32 pairs or more.
    #[error("too many: {count}")]
    TooMany { count: u64 },
    /// There was no memory for the answer.
    #[error("no memory")]
    NoMemory,
}

impl From<NoMemory> for OverlayError {
    ghost use Rattle.std.specs.Prelude.{◌≡◌};
    ghost use Rattle.cov_overlay.specs.declared.error.OverlayError.TheVariants.{NoMemory};

    ghost from_gives = { λ _ e. e ≡ NoMemory };

    fn from(_e: NoMemory) -> OverlayError {
        OverlayError::NoMemory
    }
}

impl From<AllocError> for OverlayError {
    ghost use Rattle.std.specs.Prelude.{◌≡◌};
    ghost use Rattle.cov_overlay.specs.declared.error.OverlayError.TheVariants.{NoMemory};

    ghost from_gives = { λ _ e. e ≡ NoMemory };

    fn from(_e: AllocError) -> OverlayError {
        OverlayError::NoMemory
    }
}
