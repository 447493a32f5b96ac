ghost use Rattle.std.specs.Prelude.{◌≡◌, if◌then◌else◌};
ghost use Rattle.cov_types.specs.Range.{IsInRange};
ghost use Rattle.cov_locate.specs.Rings.{IsRingIndex};
ghost use Rattle.cov_locate.specs.Where.{IsWhere};

use crate::next_ring::next_ring;
use crate::place::Where;
use crate::ring_index::RingIndex;
use cov_types::Coord;

/// Where the point lies: the rings that hold it, by ascending members, and of each member whether their number is odd.
pub fn place_in(index: &RingIndex, p: Coord) -> Where
    requires index { IsRingIndex index.now }
    requires point { IsInRange p }
    ensures { IsWhere index.now.outline.uses.items p result }
{
    let rings = index.outline.rings.as_slice();
    let mut member = 0;
    let mut odd = false;
    let mut passed = 0;
    loop {
        let number = match next_ring(index, passed, p) {
            Some(number) => number,
            None => return Where::Edge,
        };
        if number == rings.len() {
            return settled(member, odd);
        }
        let owner = rings[number].member;
        if odd && owner != member {
            return Where::Member(member);
        }
        odd = owner != member || !odd;
        member = owner;
        passed = number + 1;
    }
}

/// The member, where it holds the point.
pub fn settled(member: u32, odd: bool) -> Where
    ensures { result ≡ (if odd then Where.Member member else Where.Nowhere) }
{
    if odd {
        Where::Member(member)
    } else {
        Where::Nowhere
    }
}
