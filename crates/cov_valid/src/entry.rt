ghost use Rattle.std.specs.Prelude.{IfOk, All, length};
ghost use Rattle.cov_types.specs.Range.{IsSegInRange};
ghost use Rattle.cov_valid.specs.Entries.{AreEntries, AreTogether, ArePlaced};

use box_tree::curve;
use cov_types::{EdgeUse, NoMemory, Seg};
use std::alloc::Global;

/// A use and its place among the uses, behind the place of its segment's lesser end along a curve. In ascending order near segments are
/// near, those that begin at one vertex stand together, and equal ones side by side.
#[derive(Clone, Copy, PartialEq, Eq, PartialOrd, Ord)]
pub struct Entry {
    pub curve: u64,
    pub seg: Seg,
    pub member: u32,
    pub place: usize,
}

/// The entries of the uses, ascending.
pub fn sorted_entries(alloc: Global, uses: &[EdgeUse]) -> Result<Vec<Entry>, NoMemory>
    requires { All (λ u. IsSegInRange u.seg) uses.now }
    ensures entries { IfOk result (λ v. AreEntries uses.now v.items) }
    ensures together { IfOk result (λ v. AreTogether v.items) }
{
    let mut entries = entries_of(alloc, uses)?;
    entries.sort_unstable();
    Ok(entries)
}

fn entries_of(alloc: Global, uses: &[EdgeUse]) -> Result<Vec<Entry>, NoMemory>
    requires { All (λ u. IsSegInRange u.seg) uses.now }
    ensures { IfOk result (λ v. ArePlaced uses.now (length uses.now) v.items) }
{
    let mut entries = Vec::with_capacity(alloc, uses.len())?;
    for (place, u) in uses.iter().enumerate() {
        entries.push(Entry {
            curve: curve(u.seg.lo),
            seg: u.seg,
            member: u.member,
            place,
        })?;
    }
    Ok(entries)
}
