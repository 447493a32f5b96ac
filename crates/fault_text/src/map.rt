ghost use Rattle.std.specs.Prelude.{◌≡◌, ◌++◌, OnOk, IfOk};
ghost use Rattle.geo_text.specs.Decimal.{IsScale};
ghost use Rattle.fault_text.specs.MapText.{map_geometry, map_properties, map_feature_text, map_bytes};

use crate::feature::MapFeature;
use crate::geometry::{append_line, append_polygon};
use crate::properties::{append_gap, append_marked, append_overlap};
use crate::written::{Written, append_separated};
use cov_types::NoMemory;
use std::alloc::Global;

// Appends the geometry of a feature.
fn append_geometry(
    out: &mut Vec<u8>,
    feature: &MapFeature,
    scale: Option<u8>,
) -> Result<(), NoMemory>
    requires { IsScale scale }
    ensures { OnOk result (out.new.items ≡ out.old.items ++ map_geometry scale feature.now) }
{
    match feature {
        MapFeature::Marked { segment, .. } => append_line(out, segment, scale),
        MapFeature::Overlap { polygon, .. } => append_polygon(out, polygon, scale),
        MapFeature::Gap { polygon, .. } => append_polygon(out, polygon, scale),
    }
}

// Appends the properties of a feature.
fn append_properties(out: &mut Vec<u8>, feature: &MapFeature) -> Result<(), NoMemory>
    ensures { OnOk result (out.new.items ≡ out.old.items ++ map_properties feature.now) }
{
    match feature {
        MapFeature::Marked {
            kind,
            member,
            place,
            ..
        } => append_marked(out, *kind, *member, *place),
        MapFeature::Overlap {
            members,
            area2,
            region,
            ..
        } => append_overlap(out, members, *area2, *region),
        MapFeature::Gap {
            area2,
            clearance,
            region,
            members,
            ..
        } => append_gap(out, *area2, *clearance, *region, members),
    }
}

impl Written for MapFeature {
    ghost text = { map_feature_text };

    fn append_to(&self, out: &mut Vec<u8>, scale: Option<u8>) -> Result<(), NoMemory> {
        out.extend_from_slice(b"{\"geometry\":")?;
        append_geometry(out, self, scale)?;
        out.extend_from_slice(b",\"properties\":")?;
        append_properties(out, self)?;
        out.extend_from_slice(b",\"type\":\"Feature\"}")?;
        Ok(())
    }
}

/// The features as one FeatureCollection on one line, in their order. At scale `k`, from 0 to 7, each number of a position is written as
/// the decimal that times `10^k` is the number; properties stay in grid units.
/// It fails only where memory runs out. Takes time and memory in proportion to the text.
pub fn map_text(
    alloc: Global,
    features: &[MapFeature],
    scale: Option<u8>,
) -> Result<Vec<u8>, NoMemory>
    requires scale { IsScale scale }
    ensures bytes { IfOk result (λ v. v.items ≡ map_bytes scale features.now) }
{
    let mut out = Vec::new(alloc);
    out.extend_from_slice(b"{\"features\":[")?;
    append_separated(&mut out, features, scale)?;
    out.extend_from_slice(b"],\"type\":\"FeatureCollection\"}\n")?;
    Ok(out)
}
