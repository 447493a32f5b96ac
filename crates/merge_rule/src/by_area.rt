ghost use Rattle.region_owners.specs.Owner.{rule_by, greatest_area, least_area};
ghost use Rattle.merge_rule.specs.RuleState.{no_state};

use crate::rule::MergeRule;
use region_owners::Facts;

/// Picks the member with the greatest area, of several the least index. It takes no memory, and time by the count of candidates.
#[derive(Clone, Copy, Debug)]
pub struct GreatestArea;

/// Picks the member with the least area, of several the least index. It takes no memory, and time by the count of candidates.
#[derive(Clone, Copy, Debug)]
pub struct LeastArea;

impl MergeRule for GreatestArea {
    ghost use Rattle.region_owners.proofs.Held.{lawful as lawful_rules};

    ghost state = { λ _. no_state };

    ghost rule = { rule_by greatest_area };

    fn choose(&mut self, facts: &Facts) -> usize {
        let candidates = facts.candidates.as_slice();
        let mut best = 0;
        for i in 1..candidates.len() {
            if candidates[i].area2 > candidates[best].area2 {
                best = i;
            }
        }
        best
    }

    ghost lawful = { lawful_rules.greatest };
}

impl MergeRule for LeastArea {
    ghost use Rattle.region_owners.proofs.Held.{lawful as lawful_rules};

    ghost state = { λ _. no_state };

    ghost rule = { rule_by least_area };

    fn choose(&mut self, facts: &Facts) -> usize {
        let candidates = facts.candidates.as_slice();
        let mut best = 0;
        for i in 1..candidates.len() {
            if candidates[i].area2 < candidates[best].area2 {
                best = i;
            }
        }
        best
    }

    ghost lawful = { lawful_rules.least };
}
