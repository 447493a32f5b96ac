ghost use Rattle.std.specs.Prelude.{◌≡◌, ◌++◌, take, OnOk};
ghost use Rattle.geo_text.specs.Decimal.{IsScale};
ghost use Rattle.json_write.specs.Text.{separated};
ghost use Rattle.fault_text.specs.MapText.{scaled_position, scaled_line, scaled_ring, scaled_polygon, line_geometry, polygon_geometry};

use crate::written::{Written, append_separated};
use cov_types::{Coord, NoMemory, Poly, Ring, Seg};
use cov_write::append_coordinate;

impl Written for Coord {
    ghost text = { scaled_position };

    fn append_to(&self, out: &mut Vec<u8>, scale: Option<u8>) -> Result<(), NoMemory> {
        out.push(b'[')?;
        append_coordinate(out, self.x, scale)?;
        out.push(b',')?;
        append_coordinate(out, self.y, scale)?;
        out.push(b']')?;
        Ok(())
    }
}

impl Written for Seg {
    ghost text = { scaled_line };

    fn append_to(&self, out: &mut Vec<u8>, scale: Option<u8>) -> Result<(), NoMemory> {
        out.push(b'[')?;
        self.lo.append_to(out, scale)?;
        out.push(b',')?;
        self.hi.append_to(out, scale)?;
        out.push(b']')?;
        Ok(())
    }
}

impl Written for Ring {
    ghost text = { scaled_ring };

    fn append_to(&self, out: &mut Vec<u8>, scale: Option<u8>) -> Result<(), NoMemory> {
        out.push(b'[')?;
        append_closed(out, &self.points, scale)?;
        out.push(b']')?;
        Ok(())
    }
}

/// Appends the positions with commas between them, the first again at the end.
fn append_closed(out: &mut Vec<u8>, points: &[Coord], scale: Option<u8>) -> Result<(), NoMemory>
    requires { IsScale scale }
    ensures { OnOk result
        (out.new.items ≡ out.old.items ++ separated (scaled_position scale) (points.now ++ take 1 points.now)) }
{
    let Some(first) = points.first() else {
        return Ok(());
    };
    append_separated(out, points, scale)?;
    out.push(b',')?;
    first.append_to(out, scale)
}

impl Written for Poly {
    ghost text = { scaled_polygon };

    fn append_to(&self, out: &mut Vec<u8>, scale: Option<u8>) -> Result<(), NoMemory> {
        out.push(b'[')?;
        append_separated(out, &self.rings, scale)?;
        out.push(b']')?;
        Ok(())
    }
}

/// Appends a segment as a LineString.
pub(crate) fn append_line(
    out: &mut Vec<u8>,
    segment: &Seg,
    scale: Option<u8>,
) -> Result<(), NoMemory>
    requires { IsScale scale }
    ensures { OnOk result (out.new.items ≡ out.old.items ++ line_geometry scale segment.now) }
{
    out.extend_from_slice(b"{\"coordinates\":")?;
    segment.append_to(out, scale)?;
    out.extend_from_slice(b",\"type\":\"LineString\"}")?;
    Ok(())
}

/// Appends a polygon as a Polygon.
pub(crate) fn append_polygon(
    out: &mut Vec<u8>,
    polygon: &Poly,
    scale: Option<u8>,
) -> Result<(), NoMemory>
    requires { IsScale scale }
    ensures { OnOk result (out.new.items ≡ out.old.items ++ polygon_geometry scale polygon.now) }
{
    out.extend_from_slice(b"{\"coordinates\":")?;
    polygon.append_to(out, scale)?;
    out.extend_from_slice(b",\"type\":\"Polygon\"}")?;
    Ok(())
}
