ghost use Rattle.std.specs.Prelude.{◌≡◌, ◌<◌, All, length, IfOk};
ghost use Rattle.cov_types.specs.Coverage.{AllInRange};
ghost use Rattle.cov_types.specs.Range.{IsSegInRange};
ghost use Rattle.cov_types.specs.Uses.{uses_of, HasEvenEnds};

use crate::coverage::Coverage;
use crate::edge_use::EdgeUse;
use crate::no_memory::NoMemory;
use crate::outline::Outline;
use std::alloc::Global;

/// The segments of non-zero length of the coverage, each beside the number of its member, in the order of
/// members, polygons, rings and points; the closing segment of a ring comes last. Takes time and memory in proportion to the points.
pub fn uses(alloc: Global, c: &Coverage) -> Result<Vec<EdgeUse>, NoMemory>
    requires { AllInRange c.now }
    ensures exact { IfOk result (λ v. v.items ≡ uses_of c.now) }

    // Both ends of every segment are in range, and every number is that of a member.
    ensures in_range { IfOk result (λ v. All (λ u. IsSegInRange u.seg) v.items) }
    ensures members { IfOk result (λ v. All (λ u. u.member < length c.now) v.items) }

    // Of any set of points, each member has an even number of segment ends in it.
    ensures even { IfOk result (λ v. HasEvenEnds v.items) }
{
    let Outline {
        uses,
        starts: _,
        rings: _,
    } = Outline::build(alloc, c)?;
    Ok(uses)
}
