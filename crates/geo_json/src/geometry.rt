ghost use Rattle.std.specs.Prelude.{◌≡◌, None, IsErrOf, IfOk};
ghost use Rattle.serde_json.specs.View.{view};
ghost use Rattle.geo_json.specs.Shape.{is_of_type, geometry_of};
ghost use Rattle.geo_json.specs.Noting.{IsGeometryTaken};

use crate::coordinates::{multi_polygon, polygon, push_with_rings};
use crate::error::Stop;
use crate::first_faults::FirstFaults;
use cov_types::Poly;
use serde_json::Value;
use std::alloc::Global;

/// That the value is an object of this type.
pub(crate) fn is_of_type(value: &Value, name: &str) -> bool
    ensures { result ≡ is_of_type name.now (view value.now) }
{
    match value.get("type").and_then(Value::as_str) {
        Some(text) => text == name,
        None => false,
    }
}

/// The polygons of a Polygon or a MultiPolygon that have a ring.
pub(crate) fn geometry(
    alloc: Global,
    value: &Value,
    noted: &mut FirstFaults,
) -> Result<Vec<Poly>, Stop>
    ensures ok { IfOk result (λ v. IsGeometryTaken (view value.now) noted.old v.items noted.new) }
    ensures bad { IsErrOf result Stop.BadShape → geometry_of (view value.now) ≡ None }
{
    let Some(coordinates) = value.get("coordinates") else {
        return Err(Stop::BadShape);
    };
    if is_of_type(value, "Polygon") {
        let mut polys = Vec::new(alloc);
        push_with_rings(&mut polys, polygon(alloc, coordinates, noted)?)?;
        return Ok(polys);
    }
    if is_of_type(value, "MultiPolygon") {
        return multi_polygon(alloc, coordinates, noted);
    }
    Err(Stop::BadShape)
}
