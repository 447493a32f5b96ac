ghost use Rattle.std.specs.Prelude.{◌≡◌, ◌≤◌, IfOk};
ghost use Rattle.cover_cli.specs.Sample.{IsSampling};

use crate::clean::cleaned;
use crate::counts::{points_of, polygons_of};
use crate::making::Made;
use crate::outcome::Outcome;
use cov_types::NoMemory;
use cover_words::RuleName;
use feature_files::{bare_features, text_for};
use jittered_grid::jittered_cells;
use std::alloc::Global;

// The gap width at which a sample is cleaned, in grid units.
const GAP: u32 = 8;

/// Makes the jittered grid with so many cells on a side, of draws from the seed, and cleans it. The name of the output says
/// whether it is GeoJSON.
pub fn make(alloc: Global, side: u32, seed: u32, to: &str) -> Result<Made, NoMemory>
    requires { side ≤ 400 }
    ensures { IfOk result (λ made. IsSampling side seed to.now made.outcome made.text.items) }
{
    let grid = jittered_cells(alloc, side, seed)?;
    let coverage = cleaned(alloc, &grid, RuleName::LongestBorder, GAP, false)?;
    let outcome = Outcome::Sampled {
        members: coverage.members.len() as u64,
        polygons: polygons_of(&coverage)?,
        points: points_of(&coverage)?,
    };
    let features = bare_features(alloc, coverage)?;
    let text = text_for(alloc, to, None, &features)?;
    Ok(Made { outcome, text })
}
