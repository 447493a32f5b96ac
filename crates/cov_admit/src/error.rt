use cov_types::Coverage;
use cov_valid::Mark;
use thiserror::Error;

/// Why a coverage was not admitted. Each hands the coverage back as it was.
#[derive(Debug, Drop, Error)]
pub enum AdmitError {
    /// A segment is at fault: the one with the least place among the uses.
    #[error("member {} is at fault at {}", mark.member, mark.place)]
    NotValid { coverage: Coverage, mark: Mark },
    /// There was no memory to look for faults.
    #[error("no memory")]
    NoMemory { coverage: Coverage },
}
