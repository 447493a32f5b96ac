ghost use Rattle.std.specs.Prelude.{◌≡◌, ◌<◌, ◌≤◌, ◌++◌, All, length, slice_range, OnOk};
ghost use Rattle.owner_label.specs.Members.{IsFrom, IsToggledOnto, members_at};

use arrangement::OddUse;
use cov_types::NoMemory;

/// A part of a list, from a place up to another.
#[derive(Clone, Copy)]
pub struct Span {
    pub from: usize,
    pub to: usize,
}

/// Appends the label that stands at the span, with the members of these odd pairs toggled: the members that just one of the two has.
/// Both ascend. Takes time in proportion to them.
pub fn append_toggled(
    list: &mut Vec<u32>,
    label: Span,
    odd: &[OddUse],
    places: &[usize],
) -> Result<(), NoMemory>
    requires rises { label.from ≤ label.to }
    requires within { label.to ≤ length list.old.items }
    requires places { All (λ n. n < length odd.now) places.now }
    requires label { IsFrom 0 (slice_range list.old.items label.from label.to) }
    requires members { IsFrom 0 (members_at odd.now places.now) }
    ensures toggled { OnOk result (IsToggledOnto list.old.items (slice_range list.old.items label.from label.to) (members_at odd.now places.now) list.new.items) }
    ensures longer { length list.old.items ≤ length list.new.items }
{
    let mut i = label.from;
    let mut j = 0;
    while i < label.to && j < places.len() {
        let held = list[i];
        let member = odd[places[j]].member;
        if held < member {
            list.push(held)?;
            i += 1;
        } else if member < held {
            list.push(member)?;
            j += 1;
        } else {
            i += 1;
            j += 1;
        }
    }
    append_part(list, i, label.to)?;
    append_members(list, odd, &places[j..])
}

// Appends a part of the list to itself.
fn append_part(list: &mut Vec<u32>, from: usize, to: usize) -> Result<(), NoMemory>
    requires rises { from ≤ to }
    requires within { to ≤ length list.old.items }
    ensures appended { OnOk result (list.new.items ≡ list.old.items ++ slice_range list.old.items from to) }
    ensures longer { length list.old.items ≤ length list.new.items }
{
    for place in from..to {
        let member = list[place];
        list.push(member)?;
    }
    Ok(())
}

// Appends the members of these odd pairs.
fn append_members(list: &mut Vec<u32>, odd: &[OddUse], places: &[usize]) -> Result<(), NoMemory>
    requires places { All (λ n. n < length odd.now) places.now }
    ensures appended { OnOk result (list.new.items ≡ list.old.items ++ members_at odd.now places.now) }
    ensures longer { length list.old.items ≤ length list.new.items }
{
    for place in places {
        list.push(odd[*place].member)?;
    }
    Ok(())
}
