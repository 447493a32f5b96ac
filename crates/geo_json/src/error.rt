use std::alloc::{AllocError, AllocFailed};
use thiserror::Error;

/// Why a document is not read. Features and rings are numbered from 0 through the whole file.
#[derive(Clone, Copy, Debug, PartialEq, Eq, Error)]
pub enum JsonFault {
    /// The bytes are no UTF-8, or stand for no JSON value; arrays and objects nest 127 deep at most.
    #[error("not JSON")]
    NotJson,
    /// The feature is of no shape that is read; a document of another shape is feature 0.
    #[error("bad shape in feature {feature}")]
    BadShape { feature: u32 },
    /// A position of the feature has a third number.
    #[error("not planar in feature {feature}")]
    NotPlanar { feature: u32 },
    /// The feature's first faulty number has a fraction or an exponent, is `-0`, or is past 64 bits.
    #[error("not whole in feature {feature}")]
    NotWhole { feature: u32 },
    /// The feature's first faulty number is whole and out of range.
    #[error("out of range in feature {feature}")]
    OutOfRange { feature: u32 },
    /// A ring has fewer than four positions.
    #[error("ring {ring} is short")]
    RingShort { ring: u32 },
    /// A ring's first and last position differ.
    #[error("ring {ring} is open")]
    RingOpen { ring: u32 },
}

/// What `read_json` answers in place of features.
#[derive(Debug, Drop, Error)]
pub enum JsonError {
    #[error("json: {0}")]
    Fault(JsonFault),
    #[error("no memory")]
    NoMemory,
}

impl From<AllocError> for JsonError {
    ghost use Rattle.std.specs.Prelude.{◌≡◌};
    ghost use Rattle.geo_json.specs.declared.error.JsonError.TheVariants.{NoMemory};

    ghost from_gives = { λ _ e. e ≡ NoMemory };

    fn from(_e: AllocError) -> JsonError {
        JsonError::NoMemory
    }
}

impl<T: Drop> From<AllocFailed<T>> for JsonError {
    ghost use Rattle.std.specs.Prelude.{◌≡◌};
    ghost use Rattle.geo_json.specs.declared.error.JsonError.TheVariants.{NoMemory};

    ghost from_gives = { λ _ e. e ≡ NoMemory };

    fn from(_e: AllocFailed<T>) -> JsonError {
        JsonError::NoMemory
    }
}

/// Why coordinates are not taken.
#[derive(Debug, Drop)]
pub(crate) enum Stop {
    /// They are of no shape that is read.
    BadShape,
    NoMemory,
}

impl From<AllocError> for Stop {
    ghost use Rattle.std.specs.Prelude.{◌≡◌};
    ghost use Rattle.geo_json.specs.declared.error.Stop.TheVariants.{NoMemory};

    ghost from_gives = { λ _ e. e ≡ NoMemory };

    fn from(_e: AllocError) -> Stop {
        Stop::NoMemory
    }
}

impl<T: Drop> From<AllocFailed<T>> for Stop {
    ghost use Rattle.std.specs.Prelude.{◌≡◌};
    ghost use Rattle.geo_json.specs.declared.error.Stop.TheVariants.{NoMemory};

    ghost from_gives = { λ _ e. e ≡ NoMemory };

    fn from(_e: AllocFailed<T>) -> Stop {
        Stop::NoMemory
    }
}
