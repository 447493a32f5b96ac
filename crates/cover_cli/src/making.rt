ghost use Rattle.std.specs.Prelude.{◌≡◌, ◌≤◌, length, map, All, IfOk, IfErr};
ghost use Rattle.std.specs.String.{string_bytes};
ghost use Rattle.geo_text.specs.declared.reader.TheConstants.{LONGEST_INPUT};
ghost use Rattle.cover_cli.specs.Handed.{used_place, AreHandedBack, IsRuleMade, IsRuleUnmade};
ghost use Rattle.cover_cli.specs.Made.{Makes, Refuses};
ghost use Rattle.cover_cli.specs.Task.{task_of};
ghost use Rattle.cover_words.specs.Named.{named};
ghost use Rattle.cover_cli.specs.Refusal.{IsRefusedFor};
ghost use Rattle.cover_words.specs.Words.{IsWithinLimit, inputs_of};

use crate::clean::CleanWay;
use crate::outcome::Outcome;
use crate::{clean, locate, mapping, node, overlay, regions, sample, simplify, union, validate};
use cov_rules::{Hired, NamedRule};
use cover_words::Operation;
use merge_rule::MergeRule;
use std::alloc::Global;

/// What an operation made: the outcome, should the text be written whole, and that text.
#[derive(Drop)]
pub struct Made {
    pub outcome: Outcome,
    pub text: Vec<u8>,
}

/// Makes all that the operation writes of the inputs that it read. An error is the outcome that refuses them. Of the handed-in rules
/// at most the one that the operation goes by is asked.
pub fn make(
    alloc: Global,
    operation: &Operation,
    mut inputs: Vec<Vec<u8>>,
    rules: &mut [NamedRule],
) -> Result<Made, Outcome>
    requires count { length inputs.items ≡ length (inputs_of (named operation.now)) }
    requires limits { IsWithinLimit (length rules.old) (named operation.now) }
    requires within { All (λ i. length i.items ≤ LONGEST_INPUT) inputs.items }
    ensures made { IfOk result (λ made. Makes (task_of (map (λ r. ⟦<Hired as MergeRule>⟧.state r.rule) rules.old) (named operation.now))
        (map (λ i. i.items) inputs.items) made.outcome made.text.items) }
    ensures refused { IfErr result (IsRefusedFor
        (Refuses (task_of (map (λ r. ⟦<Hired as MergeRule>⟧.state r.rule) rules.old) (named operation.now)) (map (λ i. i.items) inputs.items))) }
    ensures names { map (λ r. string_bytes r.name) rules.new ≡ map (λ r. string_bytes r.name) rules.old }
    ensures asked { IfOk result (λ _. AreHandedBack (IsRuleMade (named operation.now) (map (λ i. i.items) inputs.items)) (used_place (named operation.now))
        (map (λ r. ⟦<Hired as MergeRule>⟧.state r.rule) rules.old) (map (λ r. ⟦<Hired as MergeRule>⟧.state r.rule) rules.new)) }
    ensures unasked { IfErr result (λ o. AreHandedBack (IsRuleUnmade (named operation.now) (map (λ i. i.items) inputs.items) o) (used_place (named operation.now))
        (map (λ r. ⟦<Hired as MergeRule>⟧.state r.rule) rules.old) (map (λ r. ⟦<Hired as MergeRule>⟧.state r.rule) rules.new)) }
{
    match operation {
        Operation::Validate {
            gap,
            scale,
            from,
            ..
        } => validate::make(alloc, *gap, *scale, from, inputs.remove(0)),
        Operation::MapFaults {
            gap,
            scale,
            from,
            ..
        } => mapping::make(alloc, *gap, *scale, from, inputs.remove(0)),
        Operation::Clean {
            rule,
            gap,
            gaps_too,
            scale,
            from,
            to,
        } => {
            let way = CleanWay {
                gap: *gap,
                gaps_too: *gaps_too,
                scale: *scale,
                from,
                to,
            };
            clean::make(alloc, &way, *rule, rules, inputs.remove(0))
        }
        Operation::Simplify {
            tolerance,
            inner,
            scale,
            from,
            to,
        } => simplify::make(
            alloc,
            *tolerance,
            *inner,
            *scale,
            from,
            to,
            inputs.remove(0),
        ),
        Operation::Union { scale, from, to } => union::make(
            alloc,
            *scale,
            from,
            to,
            inputs.remove(0),
        ),
        Operation::Node { scale, from, .. } => node::make(alloc, *scale, from, inputs.remove(0)),
        Operation::Regions { scale, from, .. } => regions::make(
            alloc,
            *scale,
            from,
            inputs.remove(0),
        ),
        Operation::Sample { side, seed, to } => Ok(sample::make(alloc, *side, *seed, to)?),
        Operation::Locate { from, .. } => {
            let file = inputs.remove(1);
            locate::make(alloc, from, inputs.remove(0), file)
        }
        Operation::Overlay { first, second, to } => {
            let b = inputs.remove(1);
            overlay::make(alloc, first, second, to, inputs.remove(0), b)
        }
    }
}
