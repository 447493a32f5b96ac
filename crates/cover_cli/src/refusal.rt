ghost use Rattle.std.specs.Prelude.{◌≡◌};
ghost use Rattle.cover_cli.specs.Refusal.{outcome_of_slurp, outcome_of_file, outcome_of_refusal, outcome_of_points, outcome_of_overlay};

use crate::outcome::Outcome;
use cov_admit::AdmitError;
use cov_io::SlurpError;
use cov_locate::PointsError;
use cov_overlay::OverlayError;
use cov_types::NoMemory;
use feature_files::{FileError, FileFault};
use std::alloc::AllocFailed;

impl From<SlurpError> for Outcome {
    ghost from_gives = { λ e o. o ≡ outcome_of_slurp e };

    fn from(e: SlurpError) -> Outcome {
        match e {
            SlurpError::ReadFault => Outcome::ReadFault,
            SlurpError::TooLong => Outcome::TooLong,
            SlurpError::NoMemory => Outcome::NoMemory,
        }
    }
}

impl From<FileError> for Outcome {
    ghost from_gives = { λ e o. o ≡ outcome_of_file e };

    fn from(e: FileError) -> Outcome {
        match e {
            FileError::Fault(FileFault::Text(fault)) => Outcome::BadText(fault),
            FileError::Fault(FileFault::Json(fault)) => Outcome::BadJson(fault),
            FileError::NoMemory => Outcome::NoMemory,
        }
    }
}

impl From<AdmitError> for Outcome {
    ghost from_gives = { λ e o. o ≡ outcome_of_refusal e };

    fn from(e: AdmitError) -> Outcome {
        match e {
            AdmitError::NotValid { coverage: _, mark } => Outcome::NotValid { mark },
            AdmitError::NoMemory { coverage: _ } => Outcome::NoMemory,
        }
    }
}

impl From<PointsError> for Outcome {
    ghost from_gives = { λ e o. o ≡ outcome_of_points e };

    fn from(e: PointsError) -> Outcome {
        match e {
            PointsError::Fault(fault) => Outcome::BadPoints(fault),
            PointsError::NoMemory => Outcome::NoMemory,
        }
    }
}

impl From<OverlayError> for Outcome {
    ghost from_gives = { λ e o. o ≡ outcome_of_overlay e };

    fn from(e: OverlayError) -> Outcome {
        match e {
            OverlayError::TooMany { count } => Outcome::TooMany { count },
            OverlayError::NoMemory => Outcome::NoMemory,
        }
    }
}

impl From<NoMemory> for Outcome {
    ghost use Rattle.cover_cli.specs.declared.outcome.Outcome.TheVariants as outcomes;

    ghost from_gives = { λ _ o. o ≡ outcomes.NoMemory };

    fn from(_e: NoMemory) -> Outcome {
        Outcome::NoMemory
    }
}

impl<T: Drop> From<AllocFailed<T>> for Outcome {
    ghost use Rattle.cover_cli.specs.declared.outcome.Outcome.TheVariants as outcomes;

    ghost from_gives = { λ _ o. o ≡ outcomes.NoMemory };

    fn from(_e: AllocFailed<T>) -> Outcome {
        Outcome::NoMemory
    }
}
