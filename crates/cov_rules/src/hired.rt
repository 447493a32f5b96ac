ghost use Rattle.std.specs.Prelude.{◌≡◌, ◌++◌, OnOk, OnErr};
ghost use Rattle.cov_rules.specs.Kinds.{room, IsPartlyPrepared};

use crate::rule::LiveRule;
use cov_types::NoMemory;
use merge_rule::{Facts, MergeRule};

/// A handed-in rule as a merge rule: where it abstains, the first candidate gets the region.
#[derive(Drop)]
pub struct Hired {
    /// The rule.
    pub rule: Box<dyn LiveRule>,
}

/// A handed-in rule with the name that the words call it by.
#[derive(Drop)]
pub struct NamedRule {
    /// Its name.
    pub name: String,
    /// The rule.
    pub rule: Hired,
}

impl Hired {
    /// Takes the rule in. It takes no memory.
    pub fn new(rule: Box<dyn LiveRule>) -> Hired
        ensures { result.rule ≡ rule }
    {
        Hired { rule }
    }

    /// Makes room for so many members. Without memory a chain has prepared its first parts, be it none, and another rule is as it was.
    pub fn prepare(&mut self, members: u32) -> Result<(), NoMemory>
        ensures kind { fixed self.new.rule ≡ fixed self.old.rule }
        ensures room { OnOk result (kept self.new.rule ≡ room (fixed self.old.rule) (kept self.old.rule) members) }
        ensures no_memory { OnErr result (IsPartlyPrepared (fixed self.old.rule) (kept self.old.rule) members (kept self.new.rule)) }
    {
        self.rule.prepare(members)
    }

    /// Appends the numbers that the rule keeps. Without memory the list is as before.
    pub fn tally(&self, out: &mut Vec<i128>) -> Result<(), NoMemory>
        ensures kept { OnOk result (out.new.items ≡ out.old.items ++ kept self.now.rule) }
        ensures no_memory { OnErr result (out.new.items ≡ out.old.items) }
    {
        self.rule.tally(out)
    }

    /// Hands the rule back. It takes no memory.
    pub fn into_rule(self) -> Box<dyn LiveRule>
        ensures { result ≡ self.rule }
    {
        let Hired { rule } = self;
        rule
    }
}

impl MergeRule for Hired {
    ghost use Rattle.cov_rules.specs.Hired.{by_kind};
    ghost use Rattle.cov_rules.specs.Places.{lawful as lawful_rule};

    ghost state = { λ h. ((LiveRule-box h.rule).fixed h.rule.value, (LiveRule-box h.rule).kept h.rule.value) };

    ghost rule = { by_kind };

    fn choose(&mut self, facts: &Facts) -> usize {
        self.rule.ask(facts).unwrap_or(0)
    }

    ghost lawful = { lawful_rule };
}
