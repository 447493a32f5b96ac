ghost use Rattle.std.specs.Prelude.{◌≡◌, ◌+◌, ◌<◌, ◌^◌, ◌++◌, OnOk, length};
ghost use Rattle.box_tree.specs.Probe.{IsProbeInRange, reaches};
ghost use Rattle.box_tree.specs.Places.{places};

use crate::probe::Probe;
use crate::rect::Rect;
use cov_types::NoMemory;

/// Adds the places of the boxes that the probe reaches, where the first of them stands at the place `first`.
pub(crate) fn add_places(
    boxes: &[Rect],
    first: usize,
    probe: &Probe,
    found: &mut Vec<usize>,
) -> Result<(), NoMemory>
    requires in_range { IsProbeInRange probe.now }
    requires fits { first + length boxes.now < 2 ^ 64 }
    ensures { OnOk result (found.new.items ≡ found.old.items ++ places (reaches probe.now) first boxes.now) }
{
    // A copy, since the loop writes through another reference: so its numbers stay where they are.
    let probe = *probe;
    for (i, b) in boxes.iter().enumerate() {
        if probe.reaches(*b) {
            found.push(first + i)?;
        }
    }
    Ok(())
}
