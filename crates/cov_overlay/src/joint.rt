ghost use Rattle.std.specs.Prelude.{◌≡◌, ◌+◌, ◌<◌, ◌^◌, ◌++◌, IfOk, length};
ghost use Rattle.cov_types.specs.Coverage.{AllInRange};
ghost use Rattle.cov_types.specs.Uses.{uses_of};
ghost use Rattle.cov_clean.specs.SnappedEdges.{AreSnappedEdges};

use cov_types::{Coverage, EdgeUse, NoMemory, uses};
use snap_noder::{LiveEdges, live, node};
use std::alloc::Global;

/// The live edges of the members of both coverages, snapped together: the members of the second come after all members of the first.
pub fn live_edges(alloc: Global, a: &Coverage, b: &Coverage) -> Result<LiveEdges, NoMemory>
    requires first { AllInRange a.now }
    requires second { AllInRange b.now }
    requires few { length a.now + length b.now < 2 ^ 32 }
    ensures { IfOk result (λ l. AreSnappedEdges (a.now ++ b.now) l.edges.items l.odd.items) }
{
    let uses = joint_uses(alloc, a, b)?;
    let noded = node(alloc, &uses)?;
    Ok(live(alloc, &noded)?)
}

// The uses of the first coverage, and then those of the second, whose members are numbered after all members of the first.
fn joint_uses(alloc: Global, a: &Coverage, b: &Coverage) -> Result<Vec<EdgeUse>, NoMemory>
    requires first { AllInRange a.now }
    requires second { AllInRange b.now }
    requires few { length a.now + length b.now < 2 ^ 32 }
    ensures { IfOk result (λ v. v.items ≡ uses_of (a.now ++ b.now)) }
{
    let count = a.members.len() as u32;
    let mut joint = uses(alloc, a)?;
    let second = uses(alloc, b)?;
    for u in &second {
        joint.push(EdgeUse {
            member: count + u.member,
            seg: u.seg,
        })?;
    }
    Ok(joint)
}
