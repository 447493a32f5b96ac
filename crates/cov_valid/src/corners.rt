ghost use Rattle.std.specs.Prelude.{◌≡◌, ℕ, ◌<◌, ◌↔◌, true, false, IfOk, IsTrue, Contains, None, Some, Option, length, slice_index_or};
ghost use Rattle.cov_types.specs.Coverage.{AllInRange};
ghost use Rattle.cov_types.specs.Uses.{uses_of};
ghost use Rattle.cov_types.specs.declared.edge_use.EdgeUse.{EdgeUse};
ghost use Rattle.cov_valid.specs.Corners.{AreAlone, AreCornersFaultless, AreFirstFaultless, HasTwo, IsFaultlessSegment};
ghost use Rattle.cov_valid.specs.Entries.{AreTogether};
ghost use Rattle.cov_valid.specs.Groups.{IsGroup};
ghost use Rattle.cov_valid.specs.Judged.{AreGroups, AreSorted};
ghost use Rattle.cov_valid.specs.Kinds.{AreFaultless, HasBadContact};
ghost use Rattle.cov_valid.specs.RunIndex.{IsIndexed, IsInOrder};
ghost use Rattle.cov_valid.specs.declared.mark.Kind.{Kind};

use crate::among::Sides;
use crate::contacts::contacts;
use crate::entry::{Entry, sorted_entries};
use crate::group::{Group, groups_of};
use crate::holders::Holders;
use crate::mark::Kind;
use crate::run_index::RunIndex;
use crate::users::users_into;
use cov_types::{Coverage, NoMemory, Outline, Seg};
use std::alloc::Global;

/// Whether no segment is met badly or repeated, and of the segments that begin at one vertex all but one are faultless: then the
/// coverage is valid. Takes the time and the memory of `marks`, but asks who holds a midpoint of those segments alone.
pub fn are_corners_faultless(alloc: Global, c: &Coverage) -> Result<bool, NoMemory>
    requires in_range { AllInRange c.now }
    ensures faultless { IfOk result (λ told. IsTrue told → AreCornersFaultless (uses_of c.now)) }
    ensures fault { IfOk result (λ told. told ≡ false → ¬ AreFaultless (uses_of c.now)) }
{
    let outline = Outline::build(alloc, c)?;
    are_outlined_faultless(alloc, &outline)
}

// The same of an outline's uses.
fn are_outlined_faultless(alloc: Global, outline: &Outline) -> Result<bool, NoMemory>
    requires { IsInOrder outline.now }
    ensures faultless { IfOk result (λ told. IsTrue told → AreCornersFaultless outline.now.uses.items) }
    ensures fault { IfOk result (λ told. told ≡ false → ¬ AreFaultless outline.now.uses.items) }
{
    let entries = sorted_entries(alloc, &outline.uses)?;
    if has_two(&entries) {
        return Ok(false);
    }
    let groups = groups_of(alloc, &entries)?;
    let met = contacts(alloc, &groups)?;
    if has_true(&met) {
        return Ok(false);
    }
    are_first_faultless(alloc, outline, &entries, &groups)
}

// Whether two entries are of one member and one segment.
fn has_two(entries: &[Entry]) -> bool
    requires { AreTogether entries.now }
    ensures two { IsTrue result → HasTwo entries.now }
    ensures alone { result ≡ false → AreAlone entries.now }
{
    for k in 1..entries.len() {
        if are_alike(entries[k - 1], entries[k]) {
            return true;
        }
    }
    false
}

fn are_alike(a: Entry, b: Entry) -> bool
    ensures { IsTrue result ↔ ((a.member ≡ b.member) × (a.seg ≡ b.seg)) }
{
    a.member == b.member && a.seg.is_same(b.seg)
}

// Whether one of them is true.
fn has_true(flags: &[bool]) -> bool
    ensures one { IsTrue result → (k : ℕ) × ((k < length flags.now) × (slice_index_or flags.now k false ≡ true)) }
    ensures none { result ≡ false → (k : ℕ) → k < length flags.now → slice_index_or flags.now k true ≡ false }
{
    for flag in flags {
        if *flag {
            return true;
        }
    }
    false
}

// Whether each segment is faultless after which one stands that begins at the same vertex.
fn are_first_faultless(
    alloc: Global,
    outline: &Outline,
    entries: &[Entry],
    groups: &[Group],
) -> Result<bool, NoMemory>
    requires in_order { IsInOrder outline.now }
    requires sorted { AreSorted outline.now.uses.items entries.now }
    requires grouped { AreGroups entries.now groups.now }
    requires unmet { (u : EdgeUse) → Contains outline.now.uses.items u → ¬ HasBadContact outline.now.uses.items u.seg }
    ensures faultless { IfOk result (λ told. IsTrue told → AreFirstFaultless outline.now.uses.items groups.now (length groups.now)) }
    ensures fault { IfOk result (λ told. told ≡ false → ¬ AreFaultless outline.now.uses.items) }
{
    let index = RunIndex::build(alloc, outline)?;
    let mut room = Room {
        users: Vec::new(alloc),
        holders: Holders::new(alloc),
        sides: Sides::new(alloc),
        kinds: Vec::new(alloc),
    };
    for k in 1..groups.len() {
        if !is_last_or_faultless(
            outline,
            &index,
            entries,
            groups[k - 1],
            groups[k],
            &mut room,
        )? {
            return Ok(false);
        }
    }
    Ok(true)
}

/// The users of a segment, the members that hold its midpoint, and the kinds of the users' faults.
#[derive(Drop)]
struct Room {
    users: Vec<u32>,
    holders: Holders,
    sides: Sides,
    kinds: Vec<Option<Kind>>,
}

// Whether the segment of a group is faultless, or that of the next one begins at another vertex.
fn is_last_or_faultless(
    outline: &Outline,
    index: &RunIndex,
    entries: &[Entry],
    group: Group,
    next: Group,
    room: &mut Room,
) -> Result<bool, NoMemory>
    requires in_order { IsInOrder outline.now }
    requires indexed { IsIndexed outline.now index.now }
    requires sorted { AreSorted outline.now.uses.items entries.now }
    requires group { IsGroup entries.now group }
    requires unmet { ¬ HasBadContact outline.now.uses.items group.seg }
    ensures faultless { IfOk result (λ told. IsTrue told → group.seg.lo ≡ next.seg.lo → IsFaultlessSegment outline.now.uses.items group.seg) }
    ensures fault { IfOk result (λ told. told ≡ false → ¬ IsFaultlessSegment outline.now.uses.items group.seg) }
{
    if begin_alike(group.seg, next.seg) {
        is_faultless(outline, index, entries, group, room)
    } else {
        Ok(true)
    }
}

fn begin_alike(s: Seg, t: Seg) -> bool
    ensures { IsTrue result ↔ (s.lo ≡ t.lo) }
{
    s.lo == t.lo
}

// Whether no user of a group's segment, which nothing meets badly, is at fault.
fn is_faultless(
    outline: &Outline,
    index: &RunIndex,
    entries: &[Entry],
    group: Group,
    room: &mut Room,
) -> Result<bool, NoMemory>
    requires in_order { IsInOrder outline.now }
    requires indexed { IsIndexed outline.now index.now }
    requires sorted { AreSorted outline.now.uses.items entries.now }
    requires group { IsGroup entries.now group }
    requires unmet { ¬ HasBadContact outline.now.uses.items group.seg }
    ensures faultless { IfOk result (λ told. IsTrue told → IsFaultlessSegment outline.now.uses.items group.seg) }
    ensures fault { IfOk result (λ told. told ≡ false → ¬ IsFaultlessSegment outline.now.uses.items group.seg) }
{
    users_into(entries, group, &mut room.users)?;
    room.holders.find(outline, index, group.seg)?;
    room.kinds.clear();
    room.sides
        .add_kinds(&room.users, &room.holders.members, &mut room.kinds)?;
    Ok(are_none(&room.kinds))
}

// Whether there is no kind of a fault.
fn are_none(kinds: &[Option<Kind>]) -> bool
    ensures none { IsTrue result → (k : ℕ) (o : Option Kind) → k < length kinds.now → slice_index_or kinds.now k o ≡ None }
    ensures some { result ≡ false → (k : ℕ) × ((kind : Kind) × ((k < length kinds.now) × ((o : Option Kind) → slice_index_or kinds.now k o ≡ Some kind))) }
{
    for kind in kinds {
        if kind.is_some() {
            return false;
        }
    }
    true
}
