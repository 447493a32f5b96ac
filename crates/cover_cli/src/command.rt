ghost use Rattle.std.specs.Prelude.{◌≡◌, ◌⊎◌, [], length, map, None, IfOk, IfSome};
ghost use Rattle.std.specs.String.{string_bytes};
ghost use Rattle.cover_cli.specs.Answers.{IsAnswer};
ghost use Rattle.cover_cli.specs.Handed.{used_by, used_place, AreRulesLeft};
ghost use Rattle.cover_cli.specs.Task.{task_of};
ghost use Rattle.cover_words.specs.Named.{named, IsNamed};
ghost use Rattle.cover_words.specs.Words.{IsWithinLimit, mapping_of, operation_of};

use crate::input::read_inputs;
use crate::making::make;
use crate::outcome::Outcome;
use crate::output::written;
use crate::report::Report;
use cov_io::Files;
use cov_rules::{Hired, NamedRule};
use cov_types::NoMemory;
use cover_words::{Operation, RuleChoice, mapping_named, operation_named, validation_words};
use merge_rule::MergeRule;
use std::alloc::Global;

// Reads what the operation reads, makes its whole text in memory, and then writes it.
fn run<F: Files>(
    alloc: Global,
    operation: &Operation,
    files: &mut F,
    rules: &mut [NamedRule],
) -> Outcome
    requires { IsWithinLimit (length rules.old) (named operation.now) }
    ensures answer { IsAnswer (task_of (map (λ r. ⟦<Hired as MergeRule>⟧.state r.rule) rules.old) (named operation.now))
        (F.state files.old) (F.state files.new) result }
    ensures names { map (λ r. string_bytes r.name) rules.new ≡ map (λ r. string_bytes r.name) rules.old }
    ensures left { AreRulesLeft (named operation.now) (F.state files.old) result
        (map (λ r. ⟦<Hired as MergeRule>⟧.state r.rule) rules.old) (map (λ r. ⟦<Hired as MergeRule>⟧.state r.rule) rules.new) }
{
    let inputs = match read_inputs(alloc, files, operation.inputs()) {
        Ok(inputs) => inputs,
        Err(refusal) => return refusal,
    };
    match make(alloc, operation, inputs, rules) {
        Ok(made) => written(files, operation.output(), made),
        Err(refusal) => refusal,
    }
}

// The names of the rules, in their order.
fn names_of(alloc: Global, rules: &[NamedRule]) -> Result<Vec<&str>, NoMemory>
    ensures { IfOk result (λ names. map (λ n. n.now) names.items ≡ map (λ r. string_bytes r.name) rules.now) }
{
    let mut names = Vec::new(alloc);
    for rule in rules {
        names.push(rule.name.as_str())?;
    }
    Ok(names)
}

// The operation that the words name where these rules are handed in, or None where they are not accepted.
fn operation_with<'a>(
    alloc: Global,
    words: &'a [String],
    rules: &[NamedRule],
) -> Result<Option<Operation<'a>>, NoMemory>
    ensures named { IfOk result (IsNamed (operation_of (map (λ r. string_bytes r.name) rules.now) (map string_bytes words.now))) }
    ensures within { IfOk result (λ o. IfSome o (λ operation. IsWithinLimit (length rules.now) (named operation))) }
{
    let names = names_of(alloc, rules)?;
    operation_named(alloc, words, &names)
}

// The place of the handed-in rule that the operation goes by, if it goes by one.
fn place_of(operation: &Operation) -> Option<usize>
    ensures { result ≡ used_place (named operation.now) }
{
    match operation {
        Operation::Clean {
            rule: RuleChoice::Handed(place),
            ..
        } => Some(*place),
        _ => None,
    }
}

/// Does all that the program does, with rules that the caller hands in. `words` are the words after the program's name; in them the
/// rule of `clean` may also be one of the handed-in ones, by its name: the names are to differ, and of equal ones the first counts. One
/// of the four words always means its own rule.
///
/// The rules come back in their order, under their names. A rule that is used is prepared for the number of members that were read, and
/// then asked; every other rule comes back as it was. So do all where nothing was cleaned. After `NoMemory` the used rule is as it was, or
/// as its `prepare` leaves it without memory, or it was asked for the first regions. What is said of contents holds over a files object
/// that tells them. Memory may run out as in [`cover`].
pub fn cover_with<F: Files>(
    alloc: Global,
    words: &[String],
    files: &mut F,
    mut rules: Vec<NamedRule>,
) -> Report
    ensures usage { result.outcome ≡ Outcome.Usage → operation_of (map (λ r. string_bytes r.name) rules.items) (map string_bytes words.now) ≡ None }
    ensures unaccepted { operation_of (map (λ r. string_bytes r.name) rules.items) (map string_bytes words.now) ≡ None
        → ((result.outcome ≡ Outcome.Usage) ⊎ (result.outcome ≡ Outcome.NoMemory)) × (F.state files.new ≡ F.state files.old) }
    // Each other answer comes for its cause; `IsAnswer` says it answer by answer.
    ensures answered { IfSome (operation_of (map (λ r. string_bytes r.name) rules.items) (map string_bytes words.now)) (λ operation.
        IsAnswer (task_of (map (λ r. ⟦<Hired as MergeRule>⟧.state r.rule) rules.items) operation) (F.state files.old) (F.state files.new) result.outcome) }

    // The used rule is the one that the words name; where memory runs out while they are read, there is none.
    ensures used { (result.used ≡ used_by (operation_of (map (λ r. string_bytes r.name) rules.items) (map string_bytes words.now)))
        ⊎ ((result.used ≡ None) × (result.outcome ≡ Outcome.NoMemory)) }
    // The rules come back in their order, under their names; where none is used, as they were, and else all but that one.
    ensures names { map (λ r. string_bytes r.name) result.rules.items ≡ map (λ r. string_bytes r.name) rules.items }
    ensures unused { result.used ≡ None
        → map (λ r. ⟦<Hired as MergeRule>⟧.state r.rule) result.rules.items ≡ map (λ r. ⟦<Hired as MergeRule>⟧.state r.rule) rules.items }
    ensures left { IfSome (operation_of (map (λ r. string_bytes r.name) rules.items) (map string_bytes words.now)) (λ operation.
        result.used ≡ used_place operation → AreRulesLeft operation (F.state files.old) result.outcome
        (map (λ r. ⟦<Hired as MergeRule>⟧.state r.rule) rules.items) (map (λ r. ⟦<Hired as MergeRule>⟧.state r.rule) result.rules.items)) }
{
    match operation_with(alloc, words, &rules) {
        Ok(None) => Report {
            outcome: Outcome::Usage,
            rules,
            used: None,
        },
        Ok(Some(operation)) => {
            let outcome = run(alloc, &operation, files, &mut rules);
            let used = place_of(&operation);
            Report {
                outcome,
                rules,
                used,
            }
        }
        Err(NoMemory) => Report {
            outcome: Outcome::NoMemory,
            rules,
            used: None,
        },
    }
}

/// Does all that the program does, with no rules handed in. `words` are the words after the program's name.
///
/// What is said of contents holds over a files object that tells them. Memory may run out at any point before the
/// output is created, and at none after it; while the words are read too, whether they are accepted or not.
///
/// Takes n log n time for ordinary files of n segments, and memory in proportion to the input and the output; the calls that make each
/// operation's text say what the rest depends on.
pub fn cover<F: Files>(alloc: Global, words: &[String], files: &mut F) -> Outcome
    ensures usage { result ≡ Outcome.Usage → operation_of [] (map string_bytes words.now) ≡ None }
    ensures unaccepted { operation_of [] (map string_bytes words.now) ≡ None
        → ((result ≡ Outcome.Usage) ⊎ (result ≡ Outcome.NoMemory)) × (F.state files.new ≡ F.state files.old) }
    // Each other answer comes for its cause; `IsAnswer` says it answer by answer.
    ensures answered { IfSome (operation_of [] (map string_bytes words.now)) (λ operation.
        IsAnswer (task_of [] operation) (F.state files.old) (F.state files.new) result) }
{
    let report = cover_with(alloc, words, files, Vec::new(alloc));
    report.outcome
}

/// Does all that the program `cover_faults` does. `words` are the words after the program's name: those of `cover validate` without the
/// first. The output is the map of the faults, as GeoJSON whatever its name; the input is read, and refused, as by `cover validate`.
///
/// What is said of contents holds over a files object that tells them. Memory may run out as in [`cover`].
///
/// Takes the time and memory of `fault_map::fault_map`, and time and memory in proportion to the input and the output.
pub fn map_faults<F: Files>(alloc: Global, words: &[String], files: &mut F) -> Outcome
    ensures usage { result ≡ Outcome.Usage → mapping_of (map string_bytes words.now) ≡ None }
    ensures unaccepted { mapping_of (map string_bytes words.now) ≡ None
        → ((result ≡ Outcome.Usage) ⊎ (result ≡ Outcome.NoMemory)) × (F.state files.new ≡ F.state files.old) }
    // Each other answer comes for its cause; `IsAnswer` says it answer by answer.
    ensures answered { IfSome (mapping_of (map string_bytes words.now)) (λ operation.
        IsAnswer (task_of [] operation) (F.state files.old) (F.state files.new) result) }
{
    let words = match validation_words(alloc, words) {
        Ok(words) => words,
        Err(NoMemory) => return Outcome::NoMemory,
    };
    match mapping_named(alloc, &words) {
        Ok(Some(operation)) => run(alloc, &operation, files, &mut []),
        Ok(None) => Outcome::Usage,
        Err(NoMemory) => Outcome::NoMemory,
    }
}
