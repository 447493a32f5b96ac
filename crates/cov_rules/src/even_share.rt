ghost use Rattle.std.specs.Prelude.{◌≡◌, ◌<◌, [], length};
ghost use Rattle.region_owners.specs.Owner.{first_best};
ghost use Rattle.cov_rules.specs.EvenShare.{share_of, got_less, with_area};

use crate::rule::LiveRule;
use cov_types::NoMemory;
use merge_rule::{Candidate, Facts};
use std::alloc::Global;
use std::marker::Model;

/// Gives each region to the candidate that got the least so far, of several to the least index. It keeps for each member what it got, in
/// doubled square grid units; a sum stays within 128 bits. A contract sees it as the list of these numbers.
#[derive(Debug, Drop)]
pub struct EvenShare {
    shares: Vec<i128>,
}

impl Model for EvenShare {
    ghost use Rattle.std.specs.Prelude.{List, ℤ};

    ghost Value = { List ℤ };

    ghost view = { λ s. s.shares.items };
}

impl EvenShare {
    /// A share that keeps nothing yet. It takes no memory.
    pub fn new(alloc: Global) -> EvenShare
        ensures { result ≡ [] }
    {
        EvenShare {
            shares: Vec::new(alloc),
        }
    }

    /// How many numbers it keeps.
    pub(crate) fn count(&self) -> usize
        ensures { result ≡ length self.now }
    {
        self.shares.len()
    }

    // What the member got; one past the end got nothing.
    fn share(&self, member: u32) -> i128
        ensures { result ≡ share_of self.now member }
    {
        self.shares.get(member as usize).copied().unwrap_or(0)
    }

    // The first candidate got less than the second.
    fn got_less(&self, first: Candidate, second: Candidate) -> bool
        ensures { result ≡ got_less self.now first second }
    {
        self.share(first.member) < self.share(second.member)
    }

    // The place of the first candidate that got the least.
    fn least(&self, candidates: &[Candidate]) -> usize
        requires some { 0 < length candidates.now }
        ensures place { result < length candidates.now }
        ensures least { result ≡ first_best (got_less self.now) candidates.now }
    {
        let mut best = 0;
        for i in 1..candidates.len() {
            if self.got_less(candidates[i], candidates[best]) {
                best = i;
            }
        }
        best
    }

    // The member gets the area too.
    fn add(&mut self, member: u32, area2: i128)
        ensures { self.new ≡ with_area self.old member area2 }
    {
        let place = member as usize;
        if place < self.shares.len() {
            self.shares[place] = self.shares[place].saturating_add(area2);
        }
    }
}

impl LiveRule for EvenShare {
    ghost use Rattle.std.specs.Prelude.{pos, ◌∷◌};

    ghost fixed = { λ _. pos 1 ∷ [] };

    ghost kept = { λ s. s };

    /// Takes time and memory in proportion to the members.
    fn prepare(&mut self, members: u32) -> Result<(), NoMemory> {
        let members = members as usize;
        if self.shares.len() < members {
            self.shares.resize(members, 0)?;
        }
        Ok(())
    }

    /// Takes time in proportion to the candidates.
    fn ask(&mut self, facts: &Facts) -> Option<usize> {
        let place = self.least(&facts.candidates);
        self.add(facts.candidates[place].member, facts.region_area2);
        Some(place)
    }

    /// Takes time and memory in proportion to the members.
    fn tally(&self, out: &mut Vec<i128>) -> Result<(), NoMemory> {
        out.extend_from_slice(&self.shares)?;
        Ok(())
    }
}
