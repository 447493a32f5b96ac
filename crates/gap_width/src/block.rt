ghost use Rattle.std.specs.Prelude.{◌≡◌, ◌+◌, ◌*◌, ◌^◌, ◌≤◌, ◌<◌, ◌+ℤ◌, ◌-ℤ◌, ◌*ℤ◌, ◌≤ℤ◌, ◌<ℤ◌, pos, ℕ, List, false, length, All, IfSome};
ghost use Rattle.integer_laws.specs.Bound.{IsWithin};
ghost use Rattle.cov_types.specs.Range.{IsInRange};
ghost use Rattle.cov_types.specs.declared.coord.Coord.{Coord};
ghost use Rattle.clearance_laws.specs.Block.{centre};
ghost use Rattle.cov_types.specs.declared.seg.Seg.{Seg};
ghost use Rattle.plane.specs.Point.{at_coord};
ghost use Rattle.box_tree.specs.Rect.{IsInside, box_of_segment};
ghost use Rattle.region_owners.specs.Box.{IsInBoxOf};
ghost use Rattle.grid_pred.specs.Half.{IsHalfInRange};
ghost use Rattle.gap_width.specs.Own.{IsSmallEdge, AreOwn};
ghost use Rattle.gap_width.specs.Search.{IsBlock, size, AreHalves, IsInSome};

use crate::own::OwnEdge;
use box_tree::Rect;
use cov_types::Coord;
use grid_pred::root;

/// A block of grid points: its least and its greatest corner, and whether it is known to be inside the region.
#[derive(Clone, Copy)]
pub struct Block {
    pub lo: Coord,
    pub hi: Coord,
    pub inside: bool,
}

impl Block {
    /// The centre, in doubled coordinates.
    pub fn centre(self) -> Coord
        requires { IsBlock self }
        ensures exact { result ≡ centre self.lo self.hi }
        ensures in_range { IsHalfInRange result }
    {
        Coord {
            x: self.lo.x + self.hi.x,
            y: self.lo.y + self.hi.y,
        }
    }

    /// How far it is from the least corner to the greatest along the axes: 0 for a single grid point.
    pub fn size(self) -> u32
        requires { IsBlock self }
        ensures { result ≡ size self }
    {
        length_between(self.lo.x, self.hi.x) + length_between(self.lo.y, self.hi.y)
    }

    /// At least half a diagonal, in half grid units, and exactly that where the block is one row or one column.
    pub fn half_diagonal(self) -> u32
        requires { IsBlock self }
        ensures reaches { (((self.hi.x -ℤ self.lo.x) *ℤ (self.hi.x -ℤ self.lo.x)) +ℤ ((self.hi.y -ℤ self.lo.y) *ℤ (self.hi.y -ℤ self.lo.y))) ≤ℤ pos (result * result) }
        ensures none { size self ≡ 0 → result ≡ 0 }
        ensures small { result ≤ 2 ^ 30 }
    {
        diagonal(
            length_between(self.lo.x, self.hi.x),
            length_between(self.lo.y, self.hi.y),
        )
    }

    /// The two halves of a block of more than one grid point, across where it is no higher than wide.
    pub fn halves(self) -> (Block, Block)
        requires block { IsBlock self }
        requires several { 0 < size self }
        ensures first { IsBlock result.0 }
        ensures second { IsBlock result.1 }
        ensures halves { AreHalves self result.0 result.1 }
    {
        let across = length_between(self.lo.x, self.hi.x);
        let upwards = length_between(self.lo.y, self.hi.y);
        if upwards <= across {
            self.parted_across(middle(self.lo.x, self.hi.x))
        } else {
            self.parted_upwards(middle(self.lo.y, self.hi.y))
        }
    }

    // Its columns up to one of them, and the others.
    fn parted_across(self, middle: i32) -> (Block, Block)
        requires block { IsBlock self }
        requires from { self.lo.x ≤ℤ middle }
        requires before { middle <ℤ self.hi.x }
        ensures first { IsBlock result.0 }
        ensures second { IsBlock result.1 }
        ensures halves { AreHalves self result.0 result.1 }
    {
        let hi = Coord {
            x: middle,
            y: self.hi.y,
        };
        let lo = Coord {
            x: middle + 1,
            y: self.lo.y,
        };
        (Block { hi, ..self }, Block { lo, ..self })
    }

    // Its rows up to one of them, and the others.
    fn parted_upwards(self, middle: i32) -> (Block, Block)
        requires block { IsBlock self }
        requires from { self.lo.y ≤ℤ middle }
        requires before { middle <ℤ self.hi.y }
        ensures first { IsBlock result.0 }
        ensures second { IsBlock result.1 }
        ensures halves { AreHalves self result.0 result.1 }
    {
        let hi = Coord {
            x: self.hi.x,
            y: middle,
        };
        let lo = Coord {
            x: self.lo.x,
            y: middle + 1,
        };
        (Block { hi, ..self }, Block { lo, ..self })
    }
}

// A number from one to before another.
fn middle(from: i32, to: i32) -> i32
    requires from { IsWithin (2 ^ 28) from }
    requires to { IsWithin (2 ^ 28) to }
    requires order { from <ℤ to }
    ensures from { from ≤ℤ result }
    ensures before { result <ℤ to }
{
    from + (length_between(from, to) / 2) as i32
}

// At least half the diagonal of two lengths, in half units, and exactly that where one of them is 0.
fn diagonal(across: u32, upwards: u32) -> u32
    requires across { across ≤ 2 ^ 29 }
    requires upwards { upwards ≤ 2 ^ 29 }
    ensures reaches { (across * across) + (upwards * upwards) ≤ result * result }
    ensures none { across + upwards ≡ 0 → result ≡ 0 }
    ensures small { result ≤ 2 ^ 30 }
{
    if across == 0 || upwards == 0 {
        return across + upwards;
    }
    let squares = across as u128 * across as u128 + upwards as u128 * upwards as u128;
    root(squares) as u32 + 1
}

/// The block of all grid points strictly inside the box of these edges, where there is one.
pub fn block_inside(own: &[OwnEdge]) -> Option<Block>
    requires edges { All IsSmallEdge own.now }
    requires some { 0 < length own.now }
    ensures block { IfSome result IsBlock }
    ensures unknown { IfSome result (λ b. b.inside ≡ false) }
    ensures wide { (edges : List Seg) (r : ℕ) → AreOwn edges r own.now → (q : Coord) → IsInBoxOf edges r (at_coord q) → IsInSome result q }
{
    let hull = hull_of_edges(own);
    if length_between(hull.lo.x, hull.hi.x) < 2 || length_between(hull.lo.y, hull.hi.y) < 2 {
        return None;
    }
    Some(Block {
        lo: Coord {
            x: hull.lo.x + 1,
            y: hull.lo.y + 1,
        },
        hi: Coord {
            x: hull.hi.x - 1,
            y: hull.hi.y - 1,
        },
        inside: false,
    })
}

// A box that has all these edges, in range.
fn hull_of_edges(own: &[OwnEdge]) -> Rect
    requires edges { All IsSmallEdge own.now }
    requires some { 0 < length own.now }
    ensures each { All (λ o. IsInside (box_of_segment o.edge) result) own.now }
    ensures lower { IsInRange result.lo }
    ensures upper { IsInRange result.hi }
{
    let mut hull = Rect::of_segment(own[0].edge);
    for o in own {
        hull = hull.hull(Rect::of_segment(o.edge));
    }
    hull
}

// How far it is from one number to another that is not less.
fn length_between(from: i32, to: i32) -> u32
    requires from { IsWithin (2 ^ 28) from }
    requires to { IsWithin (2 ^ 28) to }
    requires order { from ≤ℤ to }
    ensures { pos result ≡ to -ℤ from }
{
    (to - from) as u32
}
