ghost use Rattle.std.specs.Prelude.{◌≡◌, map, replicate, IfOk};
ghost use Rattle.geo_json.specs.Reading.{held};
ghost use Rattle.serde_json.specs.Data.{null};
ghost use Rattle.serde_json.specs.View.{view};
ghost use Rattle.feature_files.specs.Reading.{bare};

use cov_types::{Coverage, NoMemory};
use geo_json::Features;
use serde_json::Value;
use std::alloc::Global;

// So many null values.
fn nulls(alloc: Global, count: usize) -> Result<Vec<Value>, NoMemory>
    ensures { IfOk result (λ v. map view v.items ≡ replicate count null) }
{
    let mut values = Vec::new(alloc);
    for _ in 0..count {
        values.push(Value::Null)?;
    }
    Ok(values)
}

/// The coverage as features with null properties and no ids. Linear in the number of members.
pub fn bare_features(alloc: Global, coverage: Coverage) -> Result<Features, NoMemory>
    ensures { IfOk result (λ f. held f ≡ bare coverage) }
{
    let count = coverage.members.len();
    let properties = nulls(alloc, count)?;
    let ids = nulls(alloc, count)?;
    Ok(Features {
        coverage,
        properties,
        ids,
    })
}
