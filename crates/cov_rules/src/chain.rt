ghost use Rattle.std.specs.Prelude.{◌≡◌, ◌++◌, ◌<◌, length, take, OnOk, OnErr};
ghost use Rattle.cov_rules.specs.Kinds.{room, pick, next, IsPartlyPrepared};
ghost use Rattle.cov_rules.specs.Parts.{chain_fixed, chain_kept};

use crate::part::Part;
use crate::rule::LiveRule;
use cov_types::NoMemory;
use merge_rule::Facts;
use std::marker::Model;

/// Asks its parts one after the other, up to the first that picks, and abstains where none does. It keeps what they keep, each behind its
/// length. A contract sees it as the list of its parts.
#[derive(Debug, Drop)]
pub struct Chain {
    parts: Vec<Part>,
}

impl Model for Chain {
    ghost use Rattle.std.specs.Prelude.{List};
    ghost use Rattle.cov_rules.specs.declared.part.Part.{Part};

    ghost Value = { List Part };

    ghost view = { λ c. c.parts.items };
}

impl Chain {
    /// The chain of these parts. It takes no memory.
    pub fn new(parts: Vec<Part>) -> Chain
        ensures { result ≡ parts.items }
    {
        Chain { parts }
    }

    /// Its parts, in order. It takes no memory.
    pub fn into_parts(self) -> Vec<Part>
        ensures { result.items ≡ self }
    {
        let Chain { parts } = self;
        parts
    }
}

impl LiveRule for Chain {
    ghost fixed = { chain_fixed };

    ghost kept = { chain_kept };

    /// Prepares the parts in order.
    fn prepare(&mut self, members: u32) -> Result<(), NoMemory> {
        prepare_parts(&mut self.parts, members)
    }

    /// Takes the time of the parts that are asked.
    fn ask(&mut self, facts: &Facts) -> Option<usize> {
        ask_parts(&mut self.parts, facts)
    }

    /// Takes time and memory in proportion to the parts and what they keep.
    fn tally(&self, out: &mut Vec<i128>) -> Result<(), NoMemory> {
        let before = out.len();
        let told = tally_parts(&self.parts, out);
        if told.is_err() {
            out.truncate(before);
        }
        told
    }
}

// Prepares the parts in order. Without memory the first ones are prepared, be it none.
fn prepare_parts(parts: &mut [Part], members: u32) -> Result<(), NoMemory>
    ensures kind { chain_fixed parts.new ≡ chain_fixed parts.old }
    ensures room { OnOk result (chain_kept parts.new ≡ room (chain_fixed parts.old) (chain_kept parts.old) members) }
    ensures no_memory { OnErr result (IsPartlyPrepared (chain_fixed parts.old) (chain_kept parts.old) members (chain_kept parts.new)) }
{
    for part in parts.iter_mut() {
        part.prepare(members)?;
    }
    Ok(())
}

// Asks the parts in order, up to the first that picks.
fn ask_parts(parts: &mut [Part], facts: &Facts) -> Option<usize>
    requires some { 0 < length facts.now.candidates }
    ensures kind { chain_fixed parts.new ≡ chain_fixed parts.old }
    ensures picked { result ≡ pick (chain_fixed parts.old) (chain_kept parts.old) facts.now }
    ensures next { chain_kept parts.new ≡ next (chain_fixed parts.old) (chain_kept parts.old) facts.now }
{
    for part in parts.iter_mut() {
        let place = part.ask(facts);
        if place.is_some() {
            return place;
        }
    }
    None
}

// Appends what the parts keep, each behind its length. Without memory some of it may be there.
fn tally_parts(parts: &[Part], out: &mut Vec<i128>) -> Result<(), NoMemory>
    ensures kept { OnOk result (out.new.items ≡ out.old.items ++ chain_kept parts.now) }
    ensures no_memory { OnErr result (take (length out.old.items) out.new.items ≡ out.old.items) }
{
    for part in parts {
        out.push(part.count() as i128)?;
        part.tally(out)?;
    }
    Ok(())
}
