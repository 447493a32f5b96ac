ghost use Rattle.std.specs.Prelude.{◌≡◌, ◌<◌, ◌++◌, length, OnOk, OnErr};
ghost use Rattle.cov_rules.specs.Simple.{simple_room, simple_pick, simple_next};
ghost use Rattle.cov_rules.specs.Parts.{state_of};

use crate::clear_border::ClearBorder;
use crate::even_share::EvenShare;
use crate::priority::Priority;
use crate::rule::LiveRule;
use cov_types::NoMemory;
use merge_rule::Facts;

/// A rule that is part of a chain.
#[derive(Debug, Drop)]
pub enum Part {
    /// An even share.
    Even(EvenShare),
    /// A priority.
    First(Priority),
    /// A clear border.
    Clear(ClearBorder),
}

impl Part {
    /// Prepares the rule. Without memory nothing has changed.
    pub(crate) fn prepare(&mut self, members: u32) -> Result<(), NoMemory>
        ensures room { OnOk result (state_of self.new ≡ ((state_of self.old).0, simple_room (state_of self.old) members)) }
        ensures no_memory { OnErr result (state_of self.new ≡ state_of self.old) }
    {
        match self {
            Part::Even(rule) => rule.prepare(members),
            Part::First(rule) => rule.prepare(members),
            Part::Clear(rule) => rule.prepare(members),
        }
    }

    /// Asks the rule.
    pub(crate) fn ask(&mut self, facts: &Facts) -> Option<usize>
        requires some { 0 < length facts.now.candidates }
        ensures picked { result ≡ simple_pick (state_of self.old) facts.now }
        ensures next { state_of self.new ≡ ((state_of self.old).0, simple_next (state_of self.old) facts.now) }
    {
        match self {
            Part::Even(rule) => rule.ask(facts),
            Part::First(rule) => rule.ask(facts),
            Part::Clear(rule) => rule.ask(facts),
        }
    }

    /// Appends the numbers that the rule keeps. Without memory the list is as before.
    pub(crate) fn tally(&self, out: &mut Vec<i128>) -> Result<(), NoMemory>
        ensures kept { OnOk result (out.new.items ≡ out.old.items ++ (state_of self.now).1) }
        ensures no_memory { OnErr result (out.new.items ≡ out.old.items) }
    {
        match self {
            Part::Even(rule) => rule.tally(out),
            Part::First(rule) => rule.tally(out),
            Part::Clear(rule) => rule.tally(out),
        }
    }

    /// How many numbers the rule keeps.
    pub(crate) fn count(&self) -> usize
        ensures { result ≡ length (state_of self.now).1 }
    {
        match self {
            Part::Even(rule) => rule.count(),
            Part::First(_) | Part::Clear(_) => 0,
        }
    }
}
