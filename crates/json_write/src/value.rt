ghost use Rattle.std.specs.Prelude.{◌≡◌, ℕ, List, ◌++◌, is_some, false, OnOk};
ghost use Rattle.serde_json.specs.Find.{as_null};
ghost use Rattle.serde_json.specs.View.{view};
ghost use Rattle.json_write.specs.Text.{IsValueText, id_text};

use cov_types::NoMemory;
use serde_json::Value;
use std::alloc::Global;

/// Appends a value as compact text.
pub(crate) fn append_value(alloc: Global, out: &mut Vec<u8>, value: &Value) -> Result<(), NoMemory>
    ensures { OnOk result ((text : List ℕ) × IsValueText (view value.now) text × (out.new.items ≡ out.old.items ++ text)) }
{
    let text = value.to_vec(alloc)?;
    out.extend_from_slice(&text)?;
    Ok(())
}

/// Appends the member `id` behind another, where the id isn't null.
pub(crate) fn append_id(alloc: Global, out: &mut Vec<u8>, id: &Value) -> Result<(), NoMemory>
    ensures { OnOk result ((text : List ℕ) × (is_some (as_null (view id.now)) ≡ false → IsValueText (view id.now) text)
        × (out.new.items ≡ out.old.items ++ id_text (view id.now) text)) }
{
    if id.is_null() {
        return Ok(());
    }
    out.extend_from_slice(b",\"id\":")?;
    append_value(alloc, out, id)
}
