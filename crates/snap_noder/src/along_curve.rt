ghost use Rattle.std.specs.Prelude.{◌≡◌, ℕ, IfOk, IsPermutation, map};
ghost use Rattle.box_tree.specs.Curve.{curve_of};
ghost use Rattle.snap_noder.specs.Along.{keyed_of, use_of};

use box_tree::curve;
use cov_types::{EdgeUse, NoMemory, Seg};
use std::alloc::Global;

/// The uses in an order that keeps near segments near in the list, and equal ones side by side. Takes n log n time.
pub(crate) fn along_curve(alloc: Global, uses: &[EdgeUse]) -> Result<Vec<EdgeUse>, NoMemory>
    ensures { IfOk result (λ along. IsPermutation uses.now along.items) }
{
    let mut keyed = with_keys(alloc, uses)?;
    keyed.sort_unstable();
    let along = without_keys(alloc, keyed.as_slice())?;
    Ok(along)
}

fn with_keys(alloc: Global, uses: &[EdgeUse]) -> Result<Vec<(u64, (Seg, u32))>, NoMemory>
    ensures { IfOk result (λ keyed. keyed.items ≡ map keyed_of uses.now) }
{
    let keyed = uses
        .iter()
        .map(|u| (curve(u.seg.lo), (u.seg, u.member)))
        .collect(alloc)?;
    Ok(keyed)
}

fn without_keys(alloc: Global, keyed: &[(u64, (Seg, u32))]) -> Result<Vec<EdgeUse>, NoMemory>
    ensures { IfOk result (λ uses. uses.items ≡ map use_of keyed.now) }
{
    let uses = keyed
        .iter()
        .map(|(_, (seg, member))| EdgeUse {
            member: *member,
            seg: *seg,
        })
        .collect(alloc)?;
    Ok(uses)
}
