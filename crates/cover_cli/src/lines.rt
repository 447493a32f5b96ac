ghost use Rattle.std.specs.Prelude.{◌≡◌, ℕ, ◌<◌, IfOk, OnOk, All, List, [], ◌∷◌, ◌++◌, length};
ghost use Rattle.cov_types.specs.declared.edge_use.EdgeUse.{EdgeUse as Use};
ghost use Rattle.cover_cli.specs.Lines.{AreMemberLists, marked_uses};

use cov_types::{EdgeUse, NoMemory, Seg};
use cov_valid::Mark;
use std::alloc::Global;

// A list of segments for each member, all of them empty.
fn empty_lists(alloc: Global, members: usize) -> Result<Vec<Vec<Seg>>, NoMemory>
    ensures { IfOk result (λ v. AreMemberLists [] members v.items) }
{
    let mut lists = Vec::new(alloc);
    for _ in 0..members {
        lists.push(Vec::new(alloc))?;
    }
    Ok(lists)
}

/// For each member the segments of its uses in the list, in their order.
pub fn lists_by_member(
    alloc: Global,
    uses: &[EdgeUse],
    members: usize,
) -> Result<Vec<Vec<Seg>>, NoMemory>
    ensures { IfOk result (λ v. AreMemberLists uses.now members v.items) }
{
    let mut lists = empty_lists(alloc, members)?;
    for edge in uses {
        add_use(&mut lists, *edge)?;
    }
    Ok(lists)
}

// Puts the segment of a use at the end of its member's list, where there is one.
fn add_use(lists: &mut Vec<Vec<Seg>>, edge: EdgeUse) -> Result<(), NoMemory>
    ensures { OnOk result ((uses : List Use) (members : ℕ) → AreMemberLists uses members lists.old.items
        → AreMemberLists (uses ++ edge ∷ []) members lists.new.items) }
{
    let member = edge.member as usize;
    if member >= lists.len() {
        return Ok(());
    }
    let list = &mut lists[member];
    list.push(edge.seg)?;
    Ok(())
}

/// The uses at the places of the marks.
pub fn uses_at_marks(
    alloc: Global,
    uses: &[EdgeUse],
    marks: &[Mark],
) -> Result<Vec<EdgeUse>, NoMemory>
    requires { All (λ m. m.place < length uses.now) marks.now }
    ensures { IfOk result (λ v. v.items ≡ marked_uses uses.now marks.now) }
{
    let mut marked = Vec::new(alloc);
    for mark in marks {
        marked.push(uses[mark.place as usize])?;
    }
    Ok(marked)
}
