ghost use Rattle.std.specs.Prelude.{◌≡◌, ◌<◌, length};
ghost use Rattle.region_owners.specs.Owner.{Rule, IsLawful};
ghost use Rattle.merge_rule.specs.RuleState.{RuleState};

use region_owners::Facts;

/// A rule that gives each shared region to one of its candidates, and may keep numbers from region to region.
///
/// Its meanings are the state that it has now, and what it picks and which state it has next, by a state and facts alone.
/// Its law: of a candidate or more it picks one, in every state.
pub trait MergeRule {
    ghost state: { Self → RuleState };

    ghost rule: { Rule RuleState };

    /// Picks a candidate by its place in the facts, and takes the state for the next region.
    fn choose(&mut self, facts: &Facts) -> usize
        requires some { 0 < length facts.now.candidates }
        ensures picked { result ≡ rule.pick (state self.old) facts.now }
        ensures next { state self.new ≡ rule.next (state self.old) facts.now };

    ghost lawful: { IsLawful rule };
}
