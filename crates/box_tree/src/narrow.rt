ghost use Rattle.std.specs.Prelude.{◌≡◌, IsTrue, OnOk};
ghost use Rattle.box_tree.specs.Rect.{IsInside, is_touching};
ghost use Rattle.box_tree.specs.Places.{places};

use crate::rect::Rect;
use cov_types::NoMemory;

/// The numbers of the boxes that `own` touches, ascending, written over `found`: they are among those of the boxes that a box
/// `round` about it touches. So neighbours are asked of a tree with one query about their hull, and each still gets its exact answer.
/// Linear in the length of `wide`. After an error `found` is of no use.
pub fn narrow_into(
    boxes: &[Rect],
    round: Rect,
    wide: &[usize],
    own: Rect,
    found: &mut Vec<usize>,
) -> Result<(), NoMemory>
    requires about { IsInside own round }
    requires all { wide.now ≡ places (is_touching round) 0 boxes.now }
    ensures { OnOk result (found.new.items ≡ places (is_touching own) 0 boxes.now) }
{
    found.clear();
    for k in wide {
        if own.touches(boxes[*k]) {
            found.push(*k)?;
        }
    }
    Ok(())
}
