ghost use Rattle.std.specs.Prelude.{◌≡◌};
ghost use Rattle.cov_types.specs.Coverage.{IsFormed};
ghost use Rattle.cov_types.specs.Uses.{uses_of};
ghost use Rattle.plane.specs.Validity.{IsValid};

use cov_types::Coverage;
use std::marker::Model;

/// A coverage that is formed and valid. A contract sees it as its members.
#[derive(Debug, Drop)]
pub struct ValidCoverage {
    coverage: Coverage,
}

impl Model for ValidCoverage {
    ghost use Rattle.cov_types.specs.Coverage.{Members, IsFormed};
    ghost use Rattle.cov_types.specs.Uses.{uses_of};
    ghost use Rattle.plane.specs.Validity.{IsValid};

    ghost Value = { Members };

    ghost view = { λ v. v.coverage };

    ghost invariant = { λ v. IsFormed v.coverage × IsValid (uses_of v.coverage) };
}

impl ValidCoverage {
    /// A coverage that is known to be formed and valid. Takes constant time.
    pub fn known(coverage: Coverage) -> ValidCoverage
        requires formed { IsFormed coverage }
        requires valid { IsValid (uses_of coverage) }
        ensures { result ≡ coverage }
    {
        ValidCoverage { coverage }
    }

    /// The coverage. Takes constant time.
    pub fn coverage(&self) -> &Coverage
        ensures coverage { result.now ≡ self.now }
        ensures formed { IsFormed self.now }
        ensures valid { IsValid (uses_of self.now) }
    {
        &self.coverage
    }

    /// The coverage, given out. Takes constant time.
    pub fn into_coverage(self) -> Coverage
        ensures coverage { result ≡ self }
        ensures formed { IsFormed result }
        ensures valid { IsValid (uses_of result) }
    {
        self.coverage
    }
}
