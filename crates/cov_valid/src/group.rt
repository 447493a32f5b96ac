ghost use Rattle.std.specs.Prelude.{◌≡◌, ℕ, ◌<◌, ◌≤◌, IfOk, All, length, slice_index_or};
ghost use Rattle.cov_valid.specs.Entries.{AreTogether};
ghost use Rattle.cov_valid.specs.Groups.{IsGroup, AreGroupsInRow};
ghost use Rattle.cov_valid.specs.declared.entry.Entry.{Entry};

use crate::entry::Entry;
use cov_types::{NoMemory, Seg};
use std::alloc::Global;

/// The entries of one segment: those from the place `from` to before the place `to` in the list of entries.
#[derive(Clone, Copy)]
pub struct Group {
    pub seg: Seg,
    pub from: usize,
    pub to: usize,
}

/// The groups of the entries: each segment once, in the order of the entries.
pub fn groups_of(alloc: Global, entries: &[Entry]) -> Result<Vec<Group>, NoMemory>
    requires { AreTogether entries.now }
    ensures each { IfOk result (λ v. All (IsGroup entries.now) v.items) }
    ensures in_row { IfOk result (λ v. AreGroupsInRow 0 v.items (length entries.now)) }
{
    let mut groups = Vec::new(alloc);
    let mut from = 0;
    while from < entries.len() {
        let to = end_of_group(entries, from);
        let seg = entries[from].seg;
        groups.push(Group { seg, from, to })?;
        from = to;
    }
    Ok(groups)
}

// The place after the last of the entries from a place on that have its segment.
fn end_of_group(entries: &[Entry], from: usize) -> usize
    requires { from < length entries.now }
    ensures some { from < result }
    ensures within { result ≤ length entries.now }
    ensures same { (k : ℕ) (d : Entry) → from ≤ k → k < result → (slice_index_or entries.now k d).seg ≡ (slice_index_or entries.now from d).seg }
    ensures ends { (d : Entry) → result < length entries.now → ¬ ((slice_index_or entries.now result d).seg ≡ (slice_index_or entries.now from d).seg) }
{
    let seg = entries[from].seg;
    for to in from + 1..entries.len() {
        if !entries[to].seg.is_same(seg) {
            return to;
        }
    }
    entries.len()
}
