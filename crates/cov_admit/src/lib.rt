//! Coverages that are admitted as valid, so that what is asked of a valid coverage need not ask again.
//!
//! Its promise: `admit` hands out a `ValidCoverage` exactly where no segment of the coverage is at fault, running out of memory aside,
//! and otherwise gives the coverage back with its first mark. That such a coverage is valid after the definition of validity by points,
//! `faultless_law` says.
//!
//! A crate above takes a lemma by `use Rattle.cov_admit.proofs.FILE.{NAME}` in its `proofs/`. The files, lowest first:
//!
//! - `Segments`: the segments of uses in range, and who has them. `Contacts`: two that do not meet badly meet in ends alone. `Beside`: who
//!   holds the points beside a segment.
//! - `Corners`: uses whose corners are faultless are valid (`corners_valid`). A region that two members hold has a least vertex, and
//!   there it is between two segments that begin at it, of which one is faultless. `Admitted`: so uses of which none is at fault are
//!   valid (`faultless_valid`). `Refused`: of valid uses none is at fault (`valid_faultless`).
//! - `FirstMarks`: what the list of the marks tells of its coverage.
#![tactic(auto)]

mod admission;
mod error;
mod laws;
mod valid_coverage;

pub use admission::admit;
pub use error::AdmitError;
pub use laws::faultless_law;
pub use valid_coverage::ValidCoverage;
