ghost use Rattle.std.specs.Prelude.{◌≡◌, ◌++◌, take, OnOk};
ghost use Rattle.json_write.specs.Text.{separated, position_text, ring_text, polygon_text, geometry_text};

use crate::written::{Written, append_separated};
use cov_types::{Coord, Member, NoMemory, Poly, Ring};

impl Written for Ring {
    ghost text = { ring_text };

    fn append_to(&self, out: &mut Vec<u8>) -> Result<(), NoMemory> {
        out.push(b'[')?;
        append_closed(out, &self.points)?;
        out.push(b']')?;
        Ok(())
    }
}

/// Appends the positions with commas between them, the first again at the end.
fn append_closed(out: &mut Vec<u8>, points: &[Coord]) -> Result<(), NoMemory>
    ensures { OnOk result
        (out.new.items ≡ out.old.items ++ separated position_text (points.now ++ take 1 points.now)) }
{
    let Some(first) = points.first() else {
        return Ok(());
    };
    append_separated(out, points)?;
    out.push(b',')?;
    first.append_to(out)
}

impl Written for Poly {
    ghost text = { polygon_text };

    fn append_to(&self, out: &mut Vec<u8>) -> Result<(), NoMemory> {
        out.push(b'[')?;
        append_separated(out, &self.rings)?;
        out.push(b']')?;
        Ok(())
    }
}

/// Appends the geometry of a member; after an error some of it may be there.
pub(crate) fn append_geometry(out: &mut Vec<u8>, member: &Member) -> Result<(), NoMemory>
    ensures { OnOk result (out.new.items ≡ out.old.items ++ geometry_text member.now) }
{
    match member.polys.as_slice() {
        [] => out.extend_from_slice(b"null")?,
        [poly] => {
            out.extend_from_slice(b"{\"coordinates\":")?;
            poly.append_to(out)?;
            out.extend_from_slice(b",\"type\":\"Polygon\"}")?;
        }
        polys => {
            out.extend_from_slice(b"{\"coordinates\":[")?;
            append_separated(out, polys)?;
            out.extend_from_slice(b"],\"type\":\"MultiPolygon\"}")?;
        }
    }
    Ok(())
}
