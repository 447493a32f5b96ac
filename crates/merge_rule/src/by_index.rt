ghost use Rattle.region_owners.specs.Owner.{rule_by, least_index};
ghost use Rattle.merge_rule.specs.RuleState.{no_state};

use crate::rule::MergeRule;
use region_owners::Facts;

/// Picks the member with the least index. It takes no memory, and constant time.
#[derive(Clone, Copy, Debug)]
pub struct LeastIndex;

impl MergeRule for LeastIndex {
    ghost use Rattle.region_owners.proofs.Held.{lawful as lawful_rules};

    ghost state = { λ _. no_state };

    ghost rule = { rule_by least_index };

    fn choose(&mut self, _facts: &Facts) -> usize {
        0
    }

    ghost lawful = { lawful_rules.index };
}
