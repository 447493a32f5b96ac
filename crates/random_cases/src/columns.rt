//! The index over columns against a scan of the list.

ghost use Rattle.std.specs.Prelude.{All, OnOk};
ghost use Rattle.cov_types.specs.Range.{IsSegInRange};

use crate::random::Random;
use crate::segments::{random_layout, random_segment, random_uses};
use cov_types::{EdgeUse, NoMemory, Seg};
use hot_pixel::Columns;
use std::alloc::Global;

/// A list of uses, asked by the segment of each and by others of the same layout: what differs from a scan.
pub fn columns_case(alloc: Global, random: &mut Random) -> Result<Option<String>, NoMemory> {
    let layout = random_layout(random);
    let most = if random.one_in(20) { 401 } else { 101 };
    let count = random.below(most);
    let uses = random_uses(alloc, layout, count, random)?;
    let columns = Columns::build(alloc, &uses)?;
    for u in &uses {
        let difference = near_difference(alloc, &columns, &uses, u.seg)?;
        if difference.is_some() {
            return Ok(difference);
        }
    }
    for k in 0..20 {
        if let Some(s) = random_segment(layout, k, random) {
            let difference = near_difference(alloc, &columns, &uses, s)?;
            if difference.is_some() {
                return Ok(difference);
            }
        }
    }
    Ok(None)
}

// The places of the uses whose segments pass a column of the segment, or one beside it, by asking each.
fn scan(alloc: Global, uses: &[EdgeUse], s: Seg) -> Result<Vec<usize>, NoMemory> {
    let mut places = Vec::new(alloc);
    for (place, u) in uses.iter().enumerate() {
        if is_near(s, u.seg) {
            places.push(place)?;
        }
    }
    Ok(places)
}

fn is_near(s: Seg, e: Seg) -> bool {
    e.lo.x as i64 - 1 <= s.hi.x as i64 && s.lo.x as i64 - 1 <= e.hi.x as i64
}

fn near_difference(
    alloc: Global,
    columns: &Columns,
    uses: &[EdgeUse],
    s: Seg,
) -> Result<Option<String>, NoMemory>
    requires { IsSegInRange s }
{
    let near = columns.near(s)?;
    let scanned = scan(alloc, uses, s)?;
    if near.as_slice() == scanned.as_slice() {
        return Ok(None);
    }
    let count = uses.len();
    Ok(Some(format!(in alloc; "{count} uses, {s:?}: near {near:?}, scan {scanned:?}")?))
}
