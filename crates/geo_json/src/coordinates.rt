ghost use Rattle.std.specs.Prelude.{◌≡◌, ◌++◌, ◌∷◌, [], map, option_map, None, IsErrOf, IsOkUnless, IfOk, OnOk, MatchOption};
ghost use Rattle.serde_json.specs.Find.{as_number};
ghost use Rattle.serde_json.specs.View.{view};
ghost use Rattle.geo_json.specs.Shape.{PolygonShape, with_rings, items_of, each, position_of, ring_of, polygon_of, multi_polygon_of};
ghost use Rattle.geo_json.specs.Reading.{point_of, points_of, poly_of};
ghost use Rattle.geo_json.specs.Noting.{placed, noting_numbers, noting_positions, noting_rings, IsTaken, AreTaken, IsPositionTaken, IsRingTaken, IsPolygonTaken, ArePolygonsTaken, IsMultiPolygonTaken};

use crate::error::Stop;
use crate::first_faults::FirstFaults;
use cov_types::{Coord, Poly, Ring};
use serde_json::Value;
use std::alloc::Global;

/// The items of an array.
pub(crate) fn items(value: &Value) -> Option<&[Value]>
    ensures { option_map (λ s. map view s.now) result ≡ items_of (view value.now) }
{
    match value.as_array() {
        Some(list) => Some(list.as_slice()),
        None => None,
    }
}

/// The point with a number more of its position, in this place.
fn placed(point: Coord, place: usize, number: i32) -> Coord
    ensures { result ≡ placed point place number }
{
    match place {
        0 => Coord {
            x: number,
            y: point.y,
        },
        1 => Coord {
            x: point.x,
            y: number,
        },
        _ => point,
    }
}

/// The point of the first two of some numbers, 0 in the place of one that is missing; None where one is no number.
fn ordinates(list: &[Value], noted: &mut FirstFaults) -> Option<Coord>
    ensures { MatchOption result (each as_number (map view list.now) ≡ None)
        (λ p. IsTaken (each as_number) point_of noting_numbers (map view list.now) noted.old p noted.new) }
{
    let mut point = Coord { x: 0, y: 0 };
    for (i, item) in list.iter().enumerate() {
        let number = noted.take_number(item.as_number()?);
        point = placed(point, i, number);
    }
    Some(point)
}

fn position(value: &Value, noted: &mut FirstFaults) -> Option<Coord>
    ensures { MatchOption result (position_of (view value.now) ≡ None)
        (λ p. IsPositionTaken (view value.now) noted.old p noted.new) }
{
    let list = items(value)?;
    let point = ordinates(list, noted)?;
    if list.len() < 2 {
        return None;
    }
    noted.take_position(list.len());
    Some(point)
}

/// The points of a ring's positions, the last with them.
fn positions(alloc: Global, list: &[Value], noted: &mut FirstFaults) -> Result<Vec<Coord>, Stop>
    ensures ok { IfOk result (λ v. AreTaken position_of point_of noting_positions (map view list.now) noted.old v.items noted.new) }
    ensures bad { IsErrOf result Stop.BadShape → each position_of (map view list.now) ≡ None }
{
    let mut points = Vec::with_capacity(alloc, list.len())?;
    for item in list {
        let Some(point) = position(item, noted) else {
            return Err(Stop::BadShape);
        };
        points.push(point)?;
    }
    Ok(points)
}

fn ring(alloc: Global, value: &Value, noted: &mut FirstFaults) -> Result<Ring, Stop>
    ensures ok { IfOk result (λ r. IsRingTaken (view value.now) noted.old r noted.new) }
    ensures bad { IsErrOf result Stop.BadShape → ring_of (view value.now) ≡ None }
{
    let Some(list) = items(value) else {
        return Err(Stop::BadShape);
    };
    let mut points = positions(alloc, list, noted)?;
    noted.take_ring(&points)?;
    points.pop();
    Ok(Ring { points })
}

fn rings(alloc: Global, list: &[Value], noted: &mut FirstFaults) -> Result<Vec<Ring>, Stop>
    ensures ok { IfOk result (λ v. AreTaken ring_of points_of noting_rings (map view list.now) noted.old v.items noted.new) }
    ensures bad { IsErrOf result Stop.BadShape → each ring_of (map view list.now) ≡ None }
{
    let mut rings = Vec::with_capacity(alloc, list.len())?;
    for item in list {
        rings.push(ring(alloc, item, noted)?)?;
    }
    Ok(rings)
}

/// The coordinates of a Polygon.
pub(crate) fn polygon(alloc: Global, value: &Value, noted: &mut FirstFaults) -> Result<Poly, Stop>
    ensures ok { IfOk result (λ p. IsPolygonTaken (view value.now) noted.old p noted.new) }
    ensures bad { IsErrOf result Stop.BadShape → polygon_of (view value.now) ≡ None }
{
    let Some(list) = items(value) else {
        return Err(Stop::BadShape);
    };
    Ok(Poly {
        rings: rings(alloc, list, noted)?,
    })
}

/// Puts a polygon that has a ring behind the others.
pub(crate) fn push_with_rings(polys: &mut Vec<Poly>, poly: Poly) -> Result<(), Stop>
    ensures pushed { OnOk result ((polygon : PolygonShape) → poly ≡ poly_of polygon
        → polys.new.items ≡ polys.old.items ++ map poly_of (with_rings (polygon ∷ []))) }
    ensures memory { IsOkUnless result Stop.NoMemory }
{
    if !poly.rings.is_empty() {
        polys.push(poly)?;
    }
    Ok(())
}

/// The polygons that have a ring.
fn polygons(alloc: Global, list: &[Value], noted: &mut FirstFaults) -> Result<Vec<Poly>, Stop>
    ensures ok { IfOk result (λ v. ArePolygonsTaken (map view list.now) noted.old v.items noted.new) }
    ensures bad { IsErrOf result Stop.BadShape → each polygon_of (map view list.now) ≡ None }
{
    let mut polys = Vec::new(alloc);
    for item in list {
        let poly = polygon(alloc, item, noted)?;
        push_with_rings(&mut polys, poly)?;
    }
    Ok(polys)
}

/// The coordinates of a MultiPolygon.
pub(crate) fn multi_polygon(
    alloc: Global,
    value: &Value,
    noted: &mut FirstFaults,
) -> Result<Vec<Poly>, Stop>
    ensures ok { IfOk result (λ v. IsMultiPolygonTaken (view value.now) noted.old v.items noted.new) }
    ensures bad { IsErrOf result Stop.BadShape → multi_polygon_of (view value.now) ≡ None }
{
    let Some(list) = items(value) else {
        return Err(Stop::BadShape);
    };
    polygons(alloc, list, noted)
}
