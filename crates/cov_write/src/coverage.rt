ghost use Rattle.std.specs.Prelude.{◌≡◌, ◌++◌, take, OnOk, IfOk};
ghost use Rattle.geo_text.specs.Decimal.{IsScale};
ghost use Rattle.cov_write.specs.Written.{separated, position_text, ring_text, polygon_text, member_line, coverage_text};

use crate::written::{Written, append_separated};
use cov_types::{Coord, Coverage, Member, NoMemory, Poly, Ring};
use std::alloc::Global;

impl Written for Ring {
    ghost text = { ring_text };

    fn append_to(&self, out: &mut Vec<u8>, scale: Option<u8>) -> Result<(), NoMemory> {
        out.push(b'(')?;
        append_closed(out, &self.points, scale)?;
        out.push(b')')?;
        Ok(())
    }
}

/// Appends the positions with `, ` between them, the first again at the end.
fn append_closed(out: &mut Vec<u8>, points: &[Coord], scale: Option<u8>) -> Result<(), NoMemory>
    requires { IsScale scale }
    ensures { OnOk result
        (out.new.items ≡ out.old.items ++ separated (position_text scale) (points.now ++ take 1 points.now)) }
{
    let Some(first) = points.first() else {
        return Ok(());
    };
    append_separated(out, points, scale)?;
    out.extend_from_slice(b", ")?;
    first.append_to(out, scale)
}

impl Written for Poly {
    ghost text = { polygon_text };

    fn append_to(&self, out: &mut Vec<u8>, scale: Option<u8>) -> Result<(), NoMemory> {
        out.push(b'(')?;
        append_separated(out, &self.rings, scale)?;
        out.push(b')')?;
        Ok(())
    }
}

fn append_member_line(out: &mut Vec<u8>, member: &Member, scale: Option<u8>) -> Result<(), NoMemory>
    requires { IsScale scale }
    ensures { OnOk result (out.new.items ≡ out.old.items ++ member_line scale member.now) }
{
    match member.polys.as_slice() {
        [] => out.extend_from_slice(b"POLYGON EMPTY\n")?,
        [poly] => {
            out.extend_from_slice(b"POLYGON ")?;
            poly.append_to(out, scale)?;
            out.push(b'\n')?;
        }
        polys => {
            out.extend_from_slice(b"MULTIPOLYGON (")?;
            append_separated(out, polys, scale)?;
            out.extend_from_slice(b")\n")?;
        }
    }
    Ok(())
}

/// The coverage as text, one line for each member, polygons and rings in the order of their lists. At scale `k`, from 0
/// to 7, each number is written as the decimal that times `10^k` is the number.
/// It fails only where memory runs out. Takes time and memory in proportion to the text.
pub fn text_of(alloc: Global, c: &Coverage, scale: Option<u8>) -> Result<Vec<u8>, NoMemory>
    requires { IsScale scale }
    ensures { IfOk result (λ v. v.items ≡ coverage_text scale c.now) }
{
    let mut out = Vec::new(alloc);
    for member in &c.members {
        append_member_line(&mut out, member, scale)?;
    }
    Ok(out)
}
