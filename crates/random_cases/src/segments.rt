//! Lists of segments that random numbers make.

ghost use Rattle.std.specs.Prelude.{All, IfOk, IfSome};
ghost use Rattle.cov_types.specs.Range.{IsInRange, IsSegInRange};

use crate::points::{Grid, any_point, in_range, random_grid};
use crate::random::Random;
use cov_types::{Coord, EdgeUse, LIMIT, NoMemory, Seg};
use std::alloc::Global;

/// How the segments of a list lie.
#[derive(Clone, Copy)]
pub enum Layout {
    /// Between any points of a grid.
    Between(Grid),
    /// Short ones in three places far from one another.
    Clusters,
    /// Short ones along a long one.
    Comb,
    /// From one small place to another far from it, nearly parallel.
    Bundle,
}

/// Some layout.
pub fn random_layout(random: &mut Random) -> Layout {
    match random.below(5) {
        0 => Layout::Clusters,
        1 => Layout::Comb,
        2 => Layout::Bundle,
        _ => Layout::Between(random_grid(random)),
    }
}

/// So many uses or fewer, of four members.
pub fn random_uses(
    alloc: Global,
    layout: Layout,
    count: u32,
    random: &mut Random,
) -> Result<Vec<EdgeUse>, NoMemory>
    ensures { IfOk result (λ uses. All (λ u. IsSegInRange u.seg) uses.items) }
{
    let mut uses = Vec::new(alloc);
    for k in 0..count {
        let member = random.below(4);
        if let Some(seg) = random_segment(layout, k, random) {
            uses.push(EdgeUse { member, seg })?;
        }
    }
    Ok(uses)
}

/// The segment with the number k of a layout, or None where its ends came out equal.
pub fn random_segment(layout: Layout, k: u32, random: &mut Random) -> Option<Seg>
    ensures { IfSome result IsSegInRange }
{
    let a = random_end(layout, k, false, random);
    let b = random_end(layout, k, true, random);
    segment(a, b)
}

/// The segment between two points in range, or None where they are equal.
pub fn segment(a: Coord, b: Coord) -> Option<Seg>
    requires a_in_range { IsInRange a }
    requires b_in_range { IsInRange b }
    ensures { IfSome result IsSegInRange }
{
    Seg::between(a, b)
}

// An end of the segment with the number k: its first or its second one.
fn random_end(layout: Layout, k: u32, second: bool, random: &mut Random) -> Coord
    ensures { IsInRange result }
{
    let x = random.below(8) as i64;
    let y = random.below(8) as i64;
    let limit = LIMIT as i64;
    match layout {
        Layout::Between(grid) => any_point(grid, random),
        Layout::Clusters => {
            let far = (k % 3) as i64 * limit;
            in_range(far + x - limit, limit - far - y)
        },
        Layout::Comb if k == 0 && second => in_range(300, 6),
        Layout::Comb if k == 0 => in_range(0, 3),
        Layout::Comb => in_range((k % 40) as i64 * 8 + x, y),
        Layout::Bundle if second => in_range(1000 + x, y),
        Layout::Bundle => in_range(x, y),
    }
}
