ghost use Rattle.std.specs.Prelude.{◌≡◌, ◌+◌, IfOk};
ghost use Rattle.cover_cli.specs.Sample.{member_points, points_in, polygon_points, polygons_in};

use cov_types::{Coverage, Member, NoMemory, Poly};

// The sum of two counts. No memory holds what 64 bits cannot count.
fn added(a: u64, b: u64) -> Result<u64, NoMemory>
    ensures { IfOk result (λ n. n ≡ a + b) }
{
    match a.checked_add(b) {
        Some(sum) => Ok(sum),
        None => Err(NoMemory),
    }
}

/// The number of polygons of all members.
pub fn polygons_of(c: &Coverage) -> Result<u64, NoMemory>
    ensures { IfOk result (λ n. n ≡ polygons_in c.now) }
{
    let mut count = 0;
    for member in &c.members {
        count = added(count, member.polys.len() as u64)?;
    }
    Ok(count)
}

/// The number of points of all rings of all members, without closing repeats.
pub fn points_of(c: &Coverage) -> Result<u64, NoMemory>
    ensures { IfOk result (λ n. n ≡ points_in c.now) }
{
    let mut count = 0;
    for member in &c.members {
        count = added(count, points_of_member(member)?)?;
    }
    Ok(count)
}

fn points_of_member(member: &Member) -> Result<u64, NoMemory>
    ensures { IfOk result (λ n. n ≡ member_points member.now) }
{
    let mut count = 0;
    for poly in &member.polys {
        count = added(count, points_of_polygon(poly)?)?;
    }
    Ok(count)
}

fn points_of_polygon(poly: &Poly) -> Result<u64, NoMemory>
    ensures { IfOk result (λ n. n ≡ polygon_points poly.now) }
{
    let mut count = 0;
    for ring in &poly.rings {
        count = added(count, ring.points.len() as u64)?;
    }
    Ok(count)
}
