ghost use Rattle.std.specs.Prelude.{◌≡◌, codes, Some, IsErrOf, IfOk, IsTrue};
ghost use Rattle.serde_json.specs.View.{view, members_view};
ghost use Rattle.serde_json.specs.Data.{object};
ghost use Rattle.geo_json.specs.Shape.{is_of_type, geometry_of, geometry_or_null, feature_of, lone_feature};
ghost use Rattle.geo_json.specs.Fault.{first, polygons_faults, feature_faults};
ghost use Rattle.geo_json.specs.Collecting.{AreShapesRead, IsFeatureRead};
ghost use Rattle.geo_json.specs.declared.error.JsonFault.{JsonFault};

use crate::error::{JsonError, JsonFault, Stop};
use crate::first_faults::FirstFaults;
use crate::geometry::{geometry, is_of_type};
use crate::object::{into_members, taken};
use cov_types::Poly;
use serde_json::{Map, Value};
use std::alloc::Global;

/// The polygons of a feature, and the number of the ring behind theirs.
#[derive(Drop)]
pub(crate) struct Shapes {
    pub(crate) polys: Vec<Poly>,
    pub(crate) rings: u32,
}

/// A feature that was read.
#[derive(Drop)]
pub(crate) struct Feature {
    pub(crate) shapes: Shapes,
    pub(crate) properties: Value,
    pub(crate) id: Value,
}

pub(crate) fn bad_shape(feature: u32) -> JsonError
    ensures { result ≡ JsonError.Fault (JsonFault.BadShape feature) }
{
    JsonError::Fault(JsonFault::BadShape { feature })
}

/// The polygons of a geometry, of the feature of this number; its rings are numbered from `rings` on.
fn read_shapes(alloc: Global, value: &Value, number: u32, rings: u32) -> Result<Shapes, JsonError>
    ensures ok { IfOk result (λ s. AreShapesRead number rings (geometry_of (view value.now)) s) }
    ensures fault { (fault : JsonFault) → IsErrOf result (JsonError.Fault fault)
        → first (polygons_faults number rings (geometry_of (view value.now))) ≡ Some fault }
{
    let mut noted = FirstFaults::new(number, rings);
    match geometry(alloc, value, &mut noted) {
        Ok(polys) => match noted.first() {
            None => Ok(Shapes {
                polys,
                rings: noted.rings,
            }),
            Some(fault) => Err(JsonError::Fault(fault)),
        },
        Err(Stop::BadShape) => Err(bad_shape(number)),
        Err(Stop::NoMemory) => Err(JsonError::NoMemory),
    }
}

/// The same, where null stands for no polygons.
fn read_shapes_or_none(
    alloc: Global,
    value: &Value,
    number: u32,
    rings: u32,
) -> Result<Shapes, JsonError>
    ensures ok { IfOk result (λ s. AreShapesRead number rings (geometry_or_null (view value.now)) s) }
    ensures fault { (fault : JsonFault) → IsErrOf result (JsonError.Fault fault)
        → first (polygons_faults number rings (geometry_or_null (view value.now))) ≡ Some fault }
{
    if value.is_null() {
        return Ok(Shapes {
            polys: Vec::new(alloc),
            rings,
        });
    }
    read_shapes(alloc, value, number, rings)
}

/// The feature of this number that has these members; its rings are numbered from `rings` on.
fn read_members(
    alloc: Global,
    mut members: Map<String, Value>,
    number: u32,
    rings: u32,
) -> Result<Feature, JsonError>
    requires { IsTrue (is_of_type (codes "Feature") (object (members_view members.entries))) }
    ensures ok { IfOk result (λ f. IsFeatureRead number rings (feature_of (object (members_view members.entries))) f) }
    ensures fault { (fault : JsonFault) → IsErrOf result (JsonError.Fault fault)
        → first (feature_faults number rings (feature_of (object (members_view members.entries)))) ≡ Some fault }
{
    let geometry = taken(&mut members, "geometry");
    let properties = taken(&mut members, "properties");
    let id = taken(&mut members, "id");
    Ok(Feature {
        shapes: read_shapes_or_none(alloc, &geometry, number, rings)?,
        properties,
        id,
    })
}

/// The feature of this number; its rings are numbered from `rings` on.
pub(crate) fn read_feature(
    alloc: Global,
    value: Value,
    number: u32,
    rings: u32,
) -> Result<Feature, JsonError>
    ensures ok { IfOk result (λ f. IsFeatureRead number rings (feature_of (view value)) f) }
    ensures fault { (fault : JsonFault) → IsErrOf result (JsonError.Fault fault)
        → first (feature_faults number rings (feature_of (view value))) ≡ Some fault }
{
    if !is_of_type(&value, "Feature") {
        return Err(bad_shape(number));
    }
    match into_members(value) {
        Some(members) => read_members(alloc, members, number, rings),
        None => Err(bad_shape(number)),
    }
}

/// The one feature of a document that is a feature or a geometry.
pub(crate) fn read_lone_feature(alloc: Global, value: Value) -> Result<Feature, JsonError>
    ensures ok { IfOk result (λ f. IsFeatureRead 0 0 (lone_feature (view value)) f) }
    ensures fault { (fault : JsonFault) → IsErrOf result (JsonError.Fault fault)
        → first (feature_faults 0 0 (lone_feature (view value))) ≡ Some fault }
{
    if is_of_type(&value, "Feature") {
        return read_feature(alloc, value, 0, 0);
    }
    Ok(Feature {
        shapes: read_shapes(alloc, &value, 0, 0)?,
        properties: Value::Null,
        id: Value::Null,
    })
}
