ghost use Rattle.std.specs.Prelude.{IfOk};
ghost use Rattle.geo_json.specs.Reading.{held};
ghost use Rattle.geo_text.specs.Decimal.{IsScale};
ghost use Rattle.feature_files.specs.Form.{IsWrittenAs};

use cov_types::NoMemory;
use cov_write::text_of;
use file_form::is_json;
use geo_json::Features;
use json_write::json_of;
use std::alloc::Global;

/// What a file of this name holds where the features are written to it: GeoJSON, which has no scale, or text, which keeps
/// neither properties nor ids; at scale `k`, from 0 to 7, its numbers are the grid's divided by `10^k`. Linear in time and
/// memory; it fails only where memory runs out.
pub fn text_for(
    alloc: Global,
    name: &str,
    scale: Option<u8>,
    features: &Features,
) -> Result<Vec<u8>, NoMemory>
    requires { IsScale scale }
    ensures { IfOk result (λ text. IsWrittenAs name.now scale (held features.now) text.items) }
{
    if is_json(name) {
        json_of(alloc, features)
    } else {
        text_of(alloc, &features.coverage, scale)
    }
}
