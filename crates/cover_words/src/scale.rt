ghost use Rattle.std.specs.Prelude.{◌≡◌};
ghost use Rattle.cover_words.specs.Words.{suits as scale_suits};

use file_form::is_json;

/// Whether a scale stands with this name: GeoJSON has none. Takes constant time.
pub fn suits(scale: Option<u8>, name: &str) -> bool
    ensures { result ≡ scale_suits scale name.now }
{
    match scale {
        None => true,
        Some(_) => !is_json(name),
    }
}
