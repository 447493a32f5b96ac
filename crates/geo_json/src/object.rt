ghost use Rattle.std.specs.Prelude.{◌≡◌, List, ℕ, map, option_map, unwrap_or, bytes_eq, false};
ghost use Rattle.serde_json.specs.Data.{null};
ghost use Rattle.serde_json.specs.Find.{get_member, as_object};
ghost use Rattle.geo_json.specs.Shape.{items_of};
ghost use Rattle.serde_json.specs.View.{view, members_view};

use serde_json::{Map, Value};

/// The member of this name, taken out of the object; null where it has none.
pub(crate) fn taken(map: &mut Map<String, Value>, name: &str) -> Value
    ensures value { view result ≡ unwrap_or (get_member name.now (members_view map.old.entries)) null }
    ensures others { (other : List ℕ) → bytes_eq name.now other ≡ false
        → get_member other (members_view map.new.entries) ≡ get_member other (members_view map.old.entries) }
{
    match map.remove(name) {
        Some(value) => value,
        None => Value::Null,
    }
}

/// The members of an object.
pub(crate) fn into_members(value: Value) -> Option<Map<String, Value>>
    ensures { option_map (λ m. members_view m.entries) result ≡ as_object (view value) }
{
    match value {
        Value::Object(members) => Some(members),
        Value::Null | Value::Bool(_) | Value::Number(_) => None,
        Value::String(_text) => None,
        Value::Array(_list) => None,
    }
}

/// The items of an array.
pub(crate) fn into_items(value: Value) -> Option<Vec<Value>>
    ensures { option_map (λ v. map view v.items) result ≡ items_of (view value) }
{
    match value {
        Value::Array(list) => Some(list),
        Value::Null | Value::Bool(_) | Value::Number(_) => None,
        Value::String(_text) => None,
        Value::Object(_members) => None,
    }
}
