ghost use Rattle.std.specs.Prelude.{◌≡◌, ◌≤◌, ◌<◌, ◌+◌, ◌*◌, ◌/◌, All, List, length};
ghost use Rattle.box_tree.specs.declared.rect.Rect.{Rect};
ghost use Rattle.cov_locate.specs.Levels.{IsLevel};
ghost use Rattle.box_tree.specs.Rect.{IsInside, box_of_point};
ghost use Rattle.cov_types.specs.declared.coord.Coord.{Coord};
ghost use Rattle.cov_locate.specs.Blocks.{IsBlock, IsPlacedAbout, is_near};

use crate::level::Level;
use box_tree::Rect;

/// Where a box lies about a point, or about all points of another box.
#[derive(Clone, Copy)]
pub enum Placed {
    /// Left, right or below: the point is outside it, and no edge in it is over the point.
    Beside,
    /// Strictly above: the edges of a path in it count by its ends.
    Higher,
    /// The point is in it.
    Near,
}

/// Where the box lies about the points of another one.
pub fn place_of(b: Rect, round: Rect) -> Placed
    ensures { IsPlacedAbout b round result }
{
    if round.hi.x < b.lo.x || b.hi.x < round.lo.x || b.hi.y < round.lo.y {
        Placed::Beside
    } else if round.hi.y < b.lo.y {
        Placed::Higher
    } else {
        Placed::Near
    }
}

/// Boxes of a list from some place on: where they end, and where all of them lie about the points of a box.
#[derive(Clone, Copy)]
pub struct Block {
    pub to: usize,
    pub placed: Placed,
}

/// The widest block of boxes from a place on that lies beside or above the points of the box `round` as a whole; the one box there, where
/// it is near.
pub fn widest_block(levels: &[Level], from: usize, end: usize, round: Rect) -> Block
    requires some { from < end }
    requires levels { (boxes : List Rect) × (All (IsLevel boxes) levels.now × (end ≤ length boxes)) }
    ensures some { from < result.to }
    ensures ends { result.to ≤ end }
    ensures one { result.placed ≡ Placed.Near → result.to ≡ from + 1 }
    ensures block { (boxes : List Rect) (p : Coord) → All (IsLevel boxes) levels.now → end ≤ length boxes → IsInside (box_of_point p) round → IsBlock boxes from end p result }
{
    let mut block = Block {
        to: from + 1,
        placed: Placed::Near,
    };
    for level in levels {
        let placed = place_of(level.hulls[from / level.width], round);
        if is_near(placed) {
            return block;
        }
        let to = end_of_block(level.width, from, end);
        block = Block { to, placed };
    }
    block
}

fn is_near(placed: Placed) -> bool
    ensures { result ≡ is_near placed }
{
    matches!(placed, Placed::Near)
}

// The end of the block of so many boxes that a place is in, or of the list where that comes first.
fn end_of_block(width: usize, from: usize, end: usize) -> usize
    requires width { 0 < width }
    requires some { from < end }
    ensures begins { from < result }
    ensures within { result ≤ end }
    ensures block { result ≤ (from / width) * width + width }
{
    let left = width - from % width;
    if left < end - from { from + left } else { end }
}
