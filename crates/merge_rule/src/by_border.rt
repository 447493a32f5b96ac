ghost use Rattle.region_owners.specs.Owner.{rule_by, longest_border};
ghost use Rattle.merge_rule.specs.RuleState.{no_state};

use crate::rule::MergeRule;
use region_owners::Facts;

/// Picks the member with the longest border with the region, of several the least index. It takes no memory, and time by the count of candidates.
#[derive(Clone, Copy, Debug)]
pub struct LongestBorder;

impl MergeRule for LongestBorder {
    ghost use Rattle.region_owners.proofs.Held.{lawful as lawful_rules};

    ghost state = { λ _. no_state };

    ghost rule = { rule_by longest_border };

    fn choose(&mut self, facts: &Facts) -> usize {
        let candidates = facts.candidates.as_slice();
        let mut best = 0;
        for i in 1..candidates.len() {
            if candidates[i].border > candidates[best].border {
                best = i;
            }
        }
        best
    }

    ghost lawful = { lawful_rules.longest };
}
