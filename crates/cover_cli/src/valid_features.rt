ghost use Rattle.std.specs.Prelude.{◌≡◌, length};

use cov_admit::ValidCoverage;
use serde_json::Value;

/// Features whose coverage is valid, and beside each member its properties and its id.
#[derive(Drop)]
pub struct ValidFeatures {
    pub coverage: ValidCoverage,
    pub properties: Vec<Value>,
    pub ids: Vec<Value>,
    pub ghost even: { (length properties.items ≡ length coverage) × (length ids.items ≡ length coverage) },
}
