ghost use Rattle.std.specs.Prelude.{◌≡◌, ◌⊎◌, ◌<◌, ◌^◌, All, length, slice_index, slice_set, IfOk};
ghost use Rattle.owner_label.specs.OwnedSides.{owned_length};
ghost use Rattle.cov_clean.specs.Longest.{IsLongest, IsNoShorter, AreClear, AreLengths};

use cov_types::NoMemory;
use owner_label::OwnedSide;
use std::alloc::Global;

/// For each member a length, in 1/256 units: while a region is looked at, that of its owned border with the member, and otherwise 0.
#[derive(Drop)]
pub struct Borders {
    pub lengths: Vec<u128>,
}

impl Borders {
    /// Of so many members, all 0. Takes time and memory in proportion to these.
    pub fn build(alloc: Global, members: u32) -> Result<Borders, NoMemory>
        ensures clear { IfOk result (λ b. AreClear b.lengths.items) }
        ensures long { IfOk result (λ b. length b.lengths.items ≡ members) }
    {
        let lengths = vec![in alloc; 0; members as usize]?;
        Ok(Borders { lengths })
    }

    /// The member with the longest sides in all, of several the least; None where there is no side. Afterwards all lengths are 0 again.
    /// Takes time in proportion to the sides.
    pub fn longest(&mut self, sides: &[OwnedSide]) -> Option<u32>
        requires members { All (λ s. s.member < length self.old.lengths.items) sides.now }
        requires long { All (λ s. 0 < s.length) sides.now }
        requires short { All (λ s. s.length < 2 ^ 64) sides.now }
        requires clear { AreClear self.old.lengths.items }
        ensures longest { IsLongest (owned_length sides.now) result }
        ensures clear { AreClear self.new.lengths.items }
        ensures count { length self.new.lengths.items ≡ length self.old.lengths.items }
    {
        self.add(sides);
        self.take_longest(sides)
    }

    // Adds up the lengths by member.
    fn add(&mut self, sides: &[OwnedSide])
        requires members { All (λ s. s.member < length self.old.lengths.items) sides.now }
        requires short { All (λ s. s.length < 2 ^ 64) sides.now }
        requires clear { AreClear self.old.lengths.items }
        ensures lengths { AreLengths (owned_length sides.now) self.new.lengths.items }
        ensures count { length self.new.lengths.items ≡ length self.old.lengths.items }
    {
        for side in sides {
            self.lengths[side.member as usize] += side.length;
        }
    }

    // The member with the greatest length. The length of each is 0 once it was looked at.
    fn take_longest(&mut self, sides: &[OwnedSide]) -> Option<u32>
        requires members { All (λ s. s.member < length self.old.lengths.items) sides.now }
        requires long { All (λ s. 0 < s.length) sides.now }
        requires lengths { AreLengths (owned_length sides.now) self.old.lengths.items }
        ensures longest { IsLongest (owned_length sides.now) result }
        ensures clear { AreClear self.new.lengths.items }
        ensures count { length self.new.lengths.items ≡ length self.old.lengths.items }
    {
        let mut best = OwnedSide {
            member: 0,
            length: 0,
        };
        for side in sides {
            best = longer(best, self.take(side.member));
        }
        if best.length == 0 {
            None
        } else {
            Some(best.member)
        }
    }

    // The member with its length, which is 0 from then on.
    fn take(&mut self, member: u32) -> OwnedSide
        requires { member < length self.old.lengths.items }
        ensures member { result.member ≡ member }
        ensures length { result.length ≡ slice_index self.old.lengths.items member }
        ensures lengths { self.new.lengths.items ≡ slice_set self.old.lengths.items member 0 }
    {
        let length = self.lengths[member as usize];
        self.lengths[member as usize] = 0;
        OwnedSide { member, length }
    }
}

// The longer of the two, and of two as long the one of the lesser member.
fn longer(best: OwnedSide, other: OwnedSide) -> OwnedSide
    ensures one { (result ≡ best) ⊎ (result ≡ other) }
    ensures best { IsNoShorter result best }
    ensures other { IsNoShorter result other }
{
    if best.length < other.length || (best.length == other.length && other.member < best.member) {
        other
    } else {
        best
    }
}
