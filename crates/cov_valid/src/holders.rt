ghost use Rattle.std.specs.Prelude.{◌≡◌, ◌<◌, ◌≤◌, ◌-◌, ◌↔◌, OnOk, All, AllPairs, IsTrue, Some, length, slice_get};
ghost use Rattle.box_tree.specs.Places.{places};
ghost use Rattle.box_tree.specs.Rect.{box_of_segment, is_touching};
ghost use Rattle.cov_types.specs.Range.{IsSegInRange};
ghost use Rattle.cov_valid.specs.Holders.{AreHolders, IsMemberToggled};
ghost use Rattle.cov_valid.specs.RunIndex.{IsIndexed, IsInOrder};
ghost use Rattle.plane.specs.Segment.{midpoint};

use crate::run::run_holds;
use crate::run_index::RunIndex;
use box_tree::Rect;
use cov_types::{NoMemory, Outline, Seg};
use std::alloc::Global;

/// The members that hold a midpoint, and room for the search that finds them. It keeps its memory from one search to the next.
#[derive(Drop)]
pub struct Holders {
    pub members: Vec<u32>,
    rings: Vec<usize>,
    spare: Vec<usize>,
}

impl Holders {
    /// No member.
    pub fn new(alloc: Global) -> Holders {
        Holders {
            members: Vec::new(alloc),
            rings: Vec::new(alloc),
            spare: Vec::new(alloc),
        }
    }

    /// The members that hold the midpoint of the segment, ascending. Only the rings whose boxes touch that of the segment are looked
    /// at: no other ring is round the midpoint.
    pub fn find(&mut self, outline: &Outline, index: &RunIndex, s: Seg) -> Result<(), NoMemory>
        requires in_order { IsInOrder outline.now }
        requires indexed { IsIndexed outline.now index.now }
        requires in_range { IsSegInRange s }
        ensures { OnOk result (AreHolders outline.now.uses.items (midpoint s) self.new.members.items) }
    {
        let own = Rect::of_segment(s);
        index
            .rings
            .meeting_into(own, &mut self.rings, &mut self.spare)?;
        members_into(outline, index, &self.rings, s, &mut self.members)
    }
}

// The members that hold the midpoint of the segment, where the places are those of the rings whose boxes touch that of the segment.
fn members_into(
    outline: &Outline,
    index: &RunIndex,
    rings: &[usize],
    s: Seg,
    members: &mut Vec<u32>,
) -> Result<(), NoMemory>
    requires in_order { IsInOrder outline.now }
    requires indexed { IsIndexed outline.now index.now }
    requires in_range { IsSegInRange s }
    requires found { rings.now ≡ places (is_touching (box_of_segment s)) 0 index.now.rings }
    ensures { OnOk result (AreHolders outline.now.uses.items (midpoint s) members.new.items) }
{
    members.clear();
    for k in rings {
        let run = outline.rings[*k];
        if run_holds(outline, &index.levels, run, s) {
            toggle(members, run.member)?;
        }
    }
    Ok(())
}

// Puts a member at the end of the list where it is not there, and takes it away where it is.
fn toggle(members: &mut Vec<u32>, member: u32) -> Result<(), NoMemory>
    requires ascending { AllPairs (λ i j. i < j) members.old.items }
    requires at_most { All (λ m. m ≤ member) members.old.items }
    ensures { OnOk result (IsMemberToggled members.old.items member members.new.items) }
{
    if is_last(members, member) {
        let _ = members.pop();
    } else {
        members.push(member)?;
    }
    Ok(())
}

// Whether the list ends with the member.
fn is_last(members: &[u32], member: u32) -> bool
    ensures { IsTrue result ↔ (slice_get members.now (length members.now - 1) ≡ Some member) }
{
    match members.last() {
        Some(last) => *last == member,
        None => false,
    }
}
