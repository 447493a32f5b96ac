ghost use Rattle.std.specs.Prelude.{◌≡◌, ◌++◌, map, option_map, IfOk, OnOk};
ghost use Rattle.std.specs.String.{string_bytes};
ghost use Rattle.cover_cli.specs.Closing.{closing_text, numbers_text, tallies_of};

use crate::outcome::{Outcome, message};
use cov_rules::{Hired, NamedRule};
use cov_types::NoMemory;
use merge_rule::MergeRule;
use std::alloc::Global;

/// What a call of `cover_with` came to.
#[derive(Drop)]
pub struct Report {
    /// The outcome.
    pub outcome: Outcome,
    /// The rules that were handed in, in their order.
    pub rules: Vec<NamedRule>,
    /// The place of the rule that the words name, if they name one.
    pub used: Option<usize>,
}

// The numbers that the rule at the place keeps, where there is one.
fn tallies(alloc: Global, report: &Report) -> Result<Option<Vec<i128>>, NoMemory>
    ensures { IfOk result (λ t. option_map (λ v. v.items) t
        ≡ tallies_of report.now.outcome report.now.used (map (λ r. ⟦<Hired as MergeRule>⟧.state r.rule) report.now.rules.items)) }
{
    if report.outcome != Outcome::Done {
        return Ok(None);
    }
    let Some(place) = report.used else {
        return Ok(None);
    };
    let Some(named) = report.rules.get(place) else {
        return Ok(None);
    };
    let mut numbers = Vec::new(alloc);
    named.rule.tally(&mut numbers)?;
    Ok(Some(numbers))
}

// Appends each number behind a space.
fn append_numbers(alloc: Global, text: &mut String, numbers: &[i128]) -> Result<(), NoMemory>
    ensures { OnOk result (string_bytes text.new ≡ string_bytes text.old ++ numbers_text numbers.now) }
{
    for number in numbers {
        let piece = format!(in alloc; " {number}")?;
        text.push_str(&piece)?;
    }
    Ok(())
}

/// The lines that the program prints, without the last line end: the message of the outcome and, where the outcome is Done and a rule
/// was used, a second line with the numbers that this rule keeps then. It lets all rules go, also where there is no memory.
///
/// Takes time and memory in proportion to the numbers that the used rule keeps.
pub fn closing(alloc: Global, report: Report) -> Result<String, NoMemory>
    ensures { IfOk result (λ text. string_bytes text
        ≡ closing_text report.outcome report.used (map (λ r. ⟦<Hired as MergeRule>⟧.state r.rule) report.rules.items)) }
{
    let mut text = message(alloc, &report.outcome)?;
    if let Some(numbers) = tallies(alloc, &report)? {
        text.push_str("\ntallies")?;
        append_numbers(alloc, &mut text, &numbers)?;
    }
    Ok(text)
}
