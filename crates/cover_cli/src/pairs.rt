ghost use Rattle.std.specs.Prelude.{◌≡◌, map, length, vec_len, IfOk};
ghost use Rattle.geo_json.specs.Reading.{held};
ghost use Rattle.serde_json.specs.View.{view};
ghost use Rattle.cover_cli.specs.Overlay.{pair_properties, with_pairs};

use cov_overlay::{Overlaid, Pair};
use cov_types::NoMemory;
use feature_files::bare_features;
use geo_json::Features;
use serde_json::{Value, json};
use std::alloc::{AllocError, Global};

// The properties of the feature of a pair.
fn properties_of_pair(alloc: Global, pair: Pair) -> Result<Value, AllocError>
    ensures { IfOk result (λ v. view v ≡ pair_properties pair) }
{
    json!(in alloc; {"a": pair.a, "b": pair.b})
}

// The properties of the features of the pairs, in their order.
fn properties_of(alloc: Global, pairs: &[Pair]) -> Result<Vec<Value>, NoMemory>
    ensures { IfOk result (λ v. map view v.items ≡ map pair_properties pairs.now) }
{
    let mut properties = Vec::new(alloc);
    for pair in pairs {
        let value = properties_of_pair(alloc, *pair)?;
        properties.push(value)?;
    }
    Ok(properties)
}

/// The members of an overlay as features, each with the properties of its pair and no id. Linear in the number of members.
pub fn features_of_pairs(alloc: Global, overlaid: Overlaid) -> Result<Features, NoMemory>
    requires { vec_len overlaid.pairs ≡ length overlaid.coverage }
    ensures { IfOk result (λ f. held f ≡ with_pairs overlaid.pairs.items overlaid.coverage) }
{
    let properties = properties_of(alloc, &overlaid.pairs)?;
    let bare = bare_features(alloc, overlaid.coverage)?;
    Ok(Features {
        coverage: bare.coverage,
        properties,
        ids: bare.ids,
    })
}
