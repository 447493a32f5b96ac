//! The form of a file, by its name.
//!
//! Its promise: `is_json` tells a name of GeoJSON from one of text, by its last letters alone.
#![tactic(auto)]

ghost use Rattle.std.specs.Prelude.{◌≡◌};
ghost use Rattle.file_form.specs.Name.{is_json as names_json};

#[cfg(test)]
mod tests;

/// Whether a file of this name is GeoJSON: the name ends in `.json` or `.geojson`, in these letters. Every other file
/// is text. Takes constant time.
pub fn is_json(name: &str) -> bool
    ensures { result ≡ names_json name.now }
{
    name.ends_with(".json") || name.ends_with(".geojson")
}
