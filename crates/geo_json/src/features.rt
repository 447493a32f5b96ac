ghost use Rattle.std.specs.Prelude.{◌≡◌, length};

use cov_types::Coverage;
use serde_json::Value;

/// The features of a document: the members of their coverage, and beside each its properties and its id, which are
/// null where the document has none.
#[derive(Drop)]
pub struct Features {
    pub coverage: Coverage,
    pub properties: Vec<Value>,
    pub ids: Vec<Value>,
    pub ghost even: { (length properties.items ≡ length coverage) × (length ids.items ≡ length coverage) },
}
