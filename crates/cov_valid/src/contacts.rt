ghost use Rattle.std.specs.Prelude.{◌≡◌, ◌<◌, ◌≤◌, IsTrue, ◌↔◌, IfOk, OnOk, All, length};
ghost use Rattle.cov_types.specs.Range.{IsSegInRange};
ghost use Rattle.cov_valid.specs.Contacts.{boxes_of, AreContacts, IsMetAt};

use crate::group::Group;
use box_tree::{BoxTree, Probe, Rect, hull_of, narrow_into};
use cov_types::{NoMemory, Seg};
use grid_pred::meets_badly;
use std::alloc::Global;

/// For each group, whether the segment of another meets its segment badly.
pub fn contacts(alloc: Global, groups: &[Group]) -> Result<Vec<bool>, NoMemory>
    requires { All (λ group. IsSegInRange group.seg) groups.now }
    ensures { IfOk result (λ met. AreContacts groups.now (length groups.now) met.items) }
{
    let tree = BoxTree::build(alloc, boxes_of(alloc, groups)?)?;
    let mut near = Near {
        wide: Vec::new(alloc),
        spare: Vec::new(alloc),
        own: Vec::new(alloc),
    };
    let mut met = Vec::with_capacity(alloc, groups.len())?;
    'next_block: while met.len() < groups.len() {
        add_block(groups, &tree, &mut near, &mut met)?;
    }
    Ok(met)
}

/// The places of near boxes: of a whole block, and of one of its segments.
#[derive(Drop)]
struct Near {
    wide: Vec<usize>,
    spare: Vec<usize>,
    own: Vec<usize>,
}

fn boxes_of(alloc: Global, groups: &[Group]) -> Result<Vec<Rect>, NoMemory>
    ensures { IfOk result (λ boxes. boxes.items ≡ boxes_of groups.now) }
{
    let boxes = groups
        .iter()
        .map(|group| Rect::of_segment(group.seg))
        .collect(alloc)?;
    Ok(boxes)
}

// How many segments that are neighbours in the order of the groups ask the tree together.
const BLOCK: usize = 8;

// The same of the next block of groups.
fn add_block(
    groups: &[Group],
    tree: &BoxTree,
    near: &mut Near,
    met: &mut Vec<bool>,
) -> Result<(), NoMemory>
    requires in_range { All (λ group. IsSegInRange group.seg) groups.now }
    requires boxed { tree.now ≡ boxes_of groups.now }
    requires some { length met.old.items < length groups.now }
    requires so_far { AreContacts groups.now (length met.old.items) met.old.items }
    ensures so_far { OnOk result (AreContacts groups.now (length met.new.items) met.new.items) }
    ensures more { OnOk result (length met.old.items < length met.new.items) }
    ensures within { OnOk result (length met.new.items ≤ length groups.now) }
{
    let from = met.len();
    let to = (from + BLOCK).min(groups.len());
    let boxes = tree.boxes();
    let round = hull_of(&boxes[from..to]);
    tree.meeting_into(&Probe::Box(round), &mut near.wide, &mut near.spare)?;
    for k in from..to {
        narrow_into(boxes, round, &near.wide, boxes[k], &mut near.own)?;
        met.push(is_met_at(groups, groups[k].seg, &near.own))?;
    }
    Ok(())
}

// Whether the segment of a group at one of the places meets s badly.
fn is_met_at(groups: &[Group], s: Seg, places: &[usize]) -> bool
    requires in_range { All (λ group. IsSegInRange group.seg) groups.now }
    requires segment_in_range { IsSegInRange s }
    requires within { All (λ k. k < length groups.now) places.now }
    ensures { IsTrue result ↔ IsMetAt groups.now places.now s }
{
    for k in places {
        if meets_badly(s, groups[*k].seg) {
            return true;
        }
    }
    false
}
