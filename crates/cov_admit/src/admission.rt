ghost use Rattle.std.specs.Prelude.{◌≡◌, IfOk, IfErr, MatchOption};
ghost use Rattle.cov_admit.specs.Admission.{IsRefusal};
ghost use Rattle.cov_admit.specs.FirstMark.{IsFirstMark};
ghost use Rattle.cov_types.specs.Coverage.{IsFormed};
ghost use Rattle.cov_types.specs.Uses.{uses_of};
ghost use Rattle.plane.specs.Validity.{IsValid};

use crate::error::AdmitError;
use crate::valid_coverage::ValidCoverage;
use cov_types::{Coverage, NoMemory};
use cov_valid::{Mark, are_corners_faultless, marks};
use std::alloc::Global;

/// Admits a coverage where none of its segments is at fault, and otherwise gives it back with its first mark. It takes the time and the
/// memory of `cov_valid::are_corners_faultless`, and where that is not told those of `marks`; none for the coverage itself.
pub fn admit(alloc: Global, c: Coverage) -> Result<ValidCoverage, AdmitError>
    requires { IsFormed c }
    ensures admitted { IfOk result (λ v. v ≡ c) }
    ensures valid { IfOk result (λ v. IsValid (uses_of v)) }
    ensures refused { IfErr result (IsRefusal c) }
{
    match first_mark(alloc, &c) {
        Ok(None) => Ok(ValidCoverage::known(c)),
        Ok(Some(mark)) => Err(AdmitError::NotValid { coverage: c, mark }),
        Err(NoMemory) => Err(AdmitError::NoMemory { coverage: c }),
    }
}

// The first mark of a coverage; none where it is valid, as its corners tell.
fn first_mark(alloc: Global, c: &Coverage) -> Result<Option<Mark>, NoMemory>
    requires { IsFormed c.now }
    ensures { IfOk result (λ found. MatchOption found (IsValid (uses_of c.now)) (λ m. IsFirstMark c.now m × ¬ IsValid (uses_of c.now))) }
{
    if are_corners_faultless(alloc, c)? {
        return Ok(None);
    }
    let marks = marks(alloc, c)?;
    Ok(marks.first().copied())
}
