ghost use Rattle.std.specs.Prelude.{◌≡◌, ℕ, ◌+◌, ◌≤◌, ◌<◌, IfOk, OnOk, Option, length, slice_index_or};
ghost use Rattle.cov_valid.specs.Contacts.{AreContacts};
ghost use Rattle.cov_valid.specs.Groups.{IsGroup};
ghost use Rattle.cov_valid.specs.Judged.{AreGroups, AreJudged, AreSorted};
ghost use Rattle.cov_valid.specs.Kinds.{HasBadContact};
ghost use Rattle.cov_valid.specs.RunIndex.{IsIndexed, IsInOrder};

use crate::among::Sides;
use crate::entry::Entry;
use crate::group::Group;
use crate::holders::Holders;
use crate::mark::Kind;
use crate::run_index::RunIndex;
use crate::users::users_into;
use cov_types::{NoMemory, Outline};
use std::alloc::Global;

/// The kinds of the entries' faults, in their order, where it is told of each group whether its segment is met badly.
pub fn kinds_of(
    alloc: Global,
    outline: &Outline,
    entries: &[Entry],
    groups: &[Group],
    met: &[bool],
) -> Result<Vec<Option<Kind>>, NoMemory>
    requires in_order { IsInOrder outline.now }
    requires sorted { AreSorted outline.now.uses.items entries.now }
    requires grouped { AreGroups entries.now groups.now }
    requires contacts { AreContacts groups.now (length groups.now) met.now }
    ensures { IfOk result (λ kinds. AreJudged outline.now.uses.items entries.now (length entries.now) kinds.items) }
{
    let index = RunIndex::build(alloc, outline)?;
    let mut room = Room {
        users: Vec::new(alloc),
        holders: Holders::new(alloc),
        sides: Sides::new(alloc),
    };
    let mut kinds = Vec::with_capacity(alloc, entries.len())?;
    for (k, group) in groups.iter().enumerate() {
        if met[k] {
            add_meets(*group, &mut kinds)?;
        } else {
            add_group(outline, &index, entries, *group, &mut room, &mut kinds)?;
        }
    }
    Ok(kinds)
}

/// The users of a segment and the members that hold its midpoint.
#[derive(Drop)]
struct Room {
    users: Vec<u32>,
    holders: Holders,
    sides: Sides,
}

// Every entry of a group whose segment is met badly is of one kind.
fn add_meets(group: Group, kinds: &mut Vec<Option<Kind>>) -> Result<(), NoMemory>
    requires { group.from ≤ group.to }
    ensures count { OnOk result (length kinds.new.items + group.from ≡ length kinds.old.items + group.to) }
    ensures kept { OnOk result ((k : ℕ) (o : Option Kind) → k < length kinds.old.items → slice_index_or kinds.new.items k o ≡ slice_index_or kinds.old.items k o) }
    ensures meets { OnOk result ((k : ℕ) (o : Option Kind) → length kinds.old.items ≤ k → k < length kinds.new.items → slice_index_or kinds.new.items k o ≡ Some Kind.Meets) }
{
    for _ in group.from..group.to {
        kinds.push(Some(Kind::Meets))?;
    }
    Ok(())
}

// The kinds of the entries of a group whose segment nothing meets badly.
fn add_group(
    outline: &Outline,
    index: &RunIndex,
    entries: &[Entry],
    group: Group,
    room: &mut Room,
    kinds: &mut Vec<Option<Kind>>,
) -> Result<(), NoMemory>
    requires in_order { IsInOrder outline.now }
    requires indexed { IsIndexed outline.now index.now }
    requires sorted { AreSorted outline.now.uses.items entries.now }
    requires group { IsGroup entries.now group }
    requires not_met { ¬ HasBadContact outline.now.uses.items group.seg }
    requires so_far { AreJudged outline.now.uses.items entries.now group.from kinds.old.items }
    ensures { OnOk result (AreJudged outline.now.uses.items entries.now group.to kinds.new.items) }
{
    users_into(entries, group, &mut room.users)?;
    room.holders.find(outline, index, group.seg)?;
    room.sides
        .add_kinds(&room.users, &room.holders.members, kinds)?;
    Ok(())
}
