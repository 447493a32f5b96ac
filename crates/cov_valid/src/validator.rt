ghost use Rattle.std.specs.Prelude.{◌<◌, IfOk, All, length};
ghost use Rattle.cov_types.specs.Coverage.{AllInRange};
ghost use Rattle.cov_types.specs.Uses.{uses_of};
ghost use Rattle.cov_valid.specs.Judged.{AreKinds};
ghost use Rattle.cov_valid.specs.Marks.{AreFaultMarks};
ghost use Rattle.cov_valid.specs.RunIndex.{IsInOrder};

use crate::contacts::contacts;
use crate::entry::sorted_entries;
use crate::group::groups_of;
use crate::kinds::kinds_of;
use crate::mark::{Kind, Mark};
use crate::table::by_place;
use cov_types::{Coverage, EdgeUse, NoMemory, Outline};
use std::alloc::Global;

/// The marks of the faults of a coverage: each segment that is at fault, with its place among the uses. For n segments it takes time n log n
/// where few of their boxes and few boxes of rings overlap, and memory linear in n.
pub fn marks(alloc: Global, c: &Coverage) -> Result<Vec<Mark>, NoMemory>
    requires in_range { AllInRange c.now }
    ensures exact { IfOk result (λ v. AreFaultMarks (uses_of c.now) v.items) }

    // Every mark has the place of a use and the number of a member.
    ensures places { IfOk result (λ v. All (λ m. m.place < length (uses_of c.now)) v.items) }
    ensures members { IfOk result (λ v. All (λ m. m.member < length c.now) v.items) }
{
    let outline = Outline::build(alloc, c)?;
    let kinds = kinds_by_place(alloc, &outline)?;
    let list = marks_of(alloc, &outline.uses, &kinds)?;
    Ok(list)
}

// The kinds of the faults of an outline's uses, in their order.
fn kinds_by_place(alloc: Global, outline: &Outline) -> Result<Vec<Option<Kind>>, NoMemory>
    requires { IsInOrder outline.now }
    ensures { IfOk result (λ kinds. AreKinds outline.now.uses.items kinds.items) }
{
    let entries = sorted_entries(alloc, &outline.uses)?;
    let groups = groups_of(alloc, &entries)?;
    let met = contacts(alloc, &groups)?;
    let kinds = kinds_of(alloc, outline, &entries, &groups, &met)?;
    by_place(alloc, &outline.uses, &entries, &kinds)
}

// The marks of the uses at fault, by ascending place.
fn marks_of(alloc: Global, uses: &[EdgeUse], kinds: &[Option<Kind>]) -> Result<Vec<Mark>, NoMemory>
    requires { AreKinds uses.now kinds.now }
    ensures { IfOk result (λ v. AreFaultMarks uses.now v.items) }
{
    let mut marks = Vec::new(alloc);
    for (place, edge) in uses.iter().enumerate() {
        if let Some(kind) = kinds[place] {
            marks.push(Mark {
                member: edge.member,
                place: place as u64,
                kind,
            })?;
        }
    }
    Ok(marks)
}
