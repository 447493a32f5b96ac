ghost use Rattle.std.specs.Prelude.{◌≡◌};
ghost use Rattle.cov_rules.specs.ClearBorder.{is_clear};

use crate::rule::LiveRule;
use cov_types::NoMemory;
use merge_rule::{Candidate, Facts, LongestBorder, MergeRule};

/// Gives each region to the candidate with a longer border than each other has, and abstains where there is none. It keeps nothing.
#[derive(Clone, Copy, Debug)]
pub struct ClearBorder;

impl ClearBorder {
    /// The rule, which takes no memory.
    pub fn new() -> ClearBorder {
        ClearBorder
    }
}

impl LiveRule for ClearBorder {
    ghost use Rattle.std.specs.Prelude.{[], ◌∷◌, pos};

    ghost fixed = { λ _. pos 3 ∷ [] };

    ghost kept = { λ _. [] };

    fn prepare(&mut self, _members: u32) -> Result<(), NoMemory> {
        Ok(())
    }

    /// Takes time in proportion to the candidates.
    fn ask(&mut self, facts: &Facts) -> Option<usize> {
        let place = LongestBorder.choose(facts);
        if is_alone(&facts.candidates, facts.candidates[place]) {
            Some(place)
        } else {
            None
        }
    }

    fn tally(&self, _out: &mut Vec<i128>) -> Result<(), NoMemory> {
        Ok(())
    }
}

// Every other member among the candidates has a shorter border.
fn is_alone(candidates: &[Candidate], first: Candidate) -> bool
    ensures { result ≡ is_clear candidates.now first }
{
    candidates
        .iter()
        .all(|c| (c.member == first.member) | (c.border < first.border))
}
