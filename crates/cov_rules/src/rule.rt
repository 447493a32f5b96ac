ghost use Rattle.std.specs.Prelude.{◌≡◌, ◌<◌, ◌++◌, ℤ, List, length, OnOk, OnErr};
ghost use Rattle.cov_rules.specs.Kinds.{room, pick, next, IsPartlyPrepared};

use cov_types::NoMemory;
use merge_rule::Facts;

/// A rule that keeps numbers from region to region, and may abstain.
///
/// Its meanings are two lists of whole numbers: what is fixed, which no call changes, and what it keeps. What it picks and what it keeps
/// then are a function of these by its kind, which is the first number of what is fixed.
pub trait LiveRule: Drop {
    ghost fixed: { Self → List ℤ };

    ghost kept: { Self → List ℤ };

    /// Makes room for so many members. Without memory a chain has prepared its first parts, be it none, and another rule is as it was.
    fn prepare(&mut self, members: u32) -> Result<(), NoMemory>
        ensures kind { fixed self.new ≡ fixed self.old }
        ensures room { OnOk result (kept self.new ≡ room (fixed self.old) (kept self.old) members) }
        ensures no_memory { OnErr result (IsPartlyPrepared (fixed self.old) (kept self.old) members (kept self.new)) };

    /// Picks a candidate by its place in the facts, or none. It takes no memory.
    fn ask(&mut self, facts: &Facts) -> Option<usize>
        requires some { 0 < length facts.now.candidates }
        ensures kind { fixed self.new ≡ fixed self.old }
        ensures picked { result ≡ pick (fixed self.old) (kept self.old) facts.now }
        ensures next { kept self.new ≡ next (fixed self.old) (kept self.old) facts.now };

    /// Appends the numbers that it keeps. Without memory the list is as before.
    fn tally(&self, out: &mut Vec<i128>) -> Result<(), NoMemory>
        ensures kept { OnOk result (out.new.items ≡ out.old.items ++ kept self.now) }
        ensures no_memory { OnErr result (out.new.items ≡ out.old.items) };
}
