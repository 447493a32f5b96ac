ghost use Rattle.std.specs.Prelude.{◌≡◌, pos, position, map};
ghost use Rattle.cov_rules.specs.Priority.{is_member, priority_pick};

use crate::rule::LiveRule;
use cov_types::NoMemory;
use merge_rule::Facts;
use std::marker::Model;

/// Gives each region to the candidate that stands first in an order of members, and abstains where none stands there. It keeps nothing. A
/// contract sees it as the order.
#[derive(Debug, Drop)]
pub struct Priority {
    order: Vec<u32>,
}

impl Model for Priority {
    ghost use Rattle.std.specs.Prelude.{List, ℕ};

    ghost Value = { List ℕ };

    ghost view = { λ p. p.order.items };
}

impl Priority {
    /// The priority by this order of members. It takes no memory.
    pub fn new(order: Vec<u32>) -> Priority
        ensures { result ≡ order.items }
    {
        Priority { order }
    }
}

impl LiveRule for Priority {
    ghost use Rattle.std.specs.Prelude.{[], ◌∷◌};

    ghost fixed = { λ order. pos 2 ∷ map pos order };

    ghost kept = { λ _. [] };

    fn prepare(&mut self, _members: u32) -> Result<(), NoMemory> {
        Ok(())
    }

    /// Takes time in proportion to the order times the candidates.
    fn ask(&mut self, facts: &Facts) -> Option<usize> {
        first_of(&self.order, facts)
    }

    fn tally(&self, _out: &mut Vec<i128>) -> Result<(), NoMemory> {
        Ok(())
    }
}

// The place of the candidate that stands first in the order.
fn first_of(order: &[u32], facts: &Facts) -> Option<usize>
    ensures { result ≡ priority_pick (map pos order.now) facts.now }
{
    for member in order {
        let place = place_of(*member, facts);
        if place.is_some() {
            return place;
        }
    }
    None
}

// The place of the member among the candidates.
fn place_of(member: u32, facts: &Facts) -> Option<usize>
    ensures { result ≡ position (is_member (pos member)) facts.now.candidates }
{
    facts.candidates.iter().position(|c| c.member == member)
}
