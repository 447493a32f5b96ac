ghost use Rattle.std.specs.Prelude.{◌≡◌, ℕ, List, ◌++◌, ◌≤◌, map, length, codes, OnOk, IfOk};
ghost use Rattle.serde_json.specs.View.{view};
ghost use Rattle.serde_json.specs.Written.{comma_if};
ghost use Rattle.geo_json.specs.Reading.{held, Reads};
ghost use Rattle.geo_json.specs.Fault.{HasNoFault};
ghost use Rattle.json_write.specs.ReadBack.{IsReadable};
ghost use Rattle.json_write.specs.Text.{IsFeatureText, AreFeatureTexts, with_commas, features_from, features_of, IsWritten};

use crate::geometry::append_geometry;
use crate::value::{append_id, append_value};
use cov_types::{Member, NoMemory};
use geo_json::Features;
use serde_json::Value;
use std::alloc::Global;

fn append_comma_if(out: &mut Vec<u8>, later: bool) -> Result<(), NoMemory>
    ensures { OnOk result (out.new.items ≡ out.old.items ++ comma_if later) }
{
    if later {
        out.push(b',')?;
    }
    Ok(())
}

fn append_feature(
    alloc: Global,
    out: &mut Vec<u8>,
    member: &Member,
    properties: &Value,
    id: &Value,
) -> Result<(), NoMemory>
    ensures { OnOk result ((text : List ℕ)
        × IsFeatureText (record { polys = member.now; properties = view properties.now; id = view id.now }) text
        × (out.new.items ≡ out.old.items ++ text)) }
{
    out.extend_from_slice(b"{\"geometry\":")?;
    append_geometry(out, member)?;
    append_id(alloc, out, id)?;
    out.extend_from_slice(b",\"properties\":")?;
    append_value(alloc, out, properties)?;
    out.extend_from_slice(b",\"type\":\"Feature\"}")?;
    Ok(())
}

/// Appends the features with commas between them.
fn append_features(
    alloc: Global,
    out: &mut Vec<u8>,
    members: &[Member],
    properties: &[Value],
    ids: &[Value],
) -> Result<(), NoMemory>
    requires properties { length members.now ≤ length properties.now }
    requires ids { length members.now ≤ length ids.now }
    ensures { OnOk result ((texts : List (List ℕ))
        × AreFeatureTexts (features_from members.now (map view properties.now) (map view ids.now)) texts
        × (out.new.items ≡ out.old.items ++ with_commas texts)) }
{
    for (i, member) in members.iter().enumerate() {
        append_comma_if(out, i > 0)?;
        append_feature(alloc, out, member, &properties[i], &ids[i])?;
    }
    Ok(())
}

/// The features as one FeatureCollection on one line. It reads back as them where their coverage is formed and no value of
/// properties or of an id nests more than 124 deep. Linear in time and memory; it fails only where memory runs out.
pub fn json_of(alloc: Global, features: &Features) -> Result<Vec<u8>, NoMemory>
    ensures written { IfOk result (λ v. IsWritten (features_of (held features.now)) v.items) }
    ensures reads_back { IfOk result (λ v. IsReadable (held features.now)
        → Reads v.items (held features.now) × HasNoFault v.items) }
{
    let mut out = Vec::new(alloc);
    out.extend_from_slice(b"{\"features\":[")?;
    append_features(
        alloc,
        &mut out,
        &features.coverage.members,
        &features.properties,
        &features.ids,
    )?;
    out.extend_from_slice(b"],\"type\":\"FeatureCollection\"}\n")?;
    Ok(out)
}
