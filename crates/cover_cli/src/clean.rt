ghost use Rattle.std.specs.Prelude.{◌≡◌, ◌≤◌, ◌<◌, ◌^◌, length, map, IfOk, IfErr};
ghost use Rattle.std.specs.String.{string_bytes};
ghost use Rattle.cov_types.specs.Coverage.{AllInRange, IsFormed};
ghost use Rattle.gap_replay.specs.Cleaned.{IsCleanedBy};
ghost use Rattle.merge_rule.specs.RuleState.{no_state};
ghost use Rattle.cover_cli.specs.Clean.{rule_of, IsCleanedFor, IsCleaning};
ghost use Rattle.cov_rules.specs.Asked.{IsAskedAll, IsAskedUntil};
ghost use Rattle.cover_cli.specs.Handed.{chosen_place, AreHandedBack, IsMadeAsked, IsUnmadeAsked};
ghost use Rattle.cover_cli.specs.Task.{told_rule};
ghost use Rattle.cover_words.specs.Words.{IsPlaceBelow};
ghost use Rattle.geo_json.specs.Reading.{held};
ghost use Rattle.geo_text.specs.Decimal.{IsScale};
ghost use Rattle.geo_text.specs.declared.reader.TheConstants.{LONGEST_INPUT};
ghost use Rattle.cover_cli.specs.Refusal.{IsRefusedFor};
ghost use Rattle.cover_cli.specs.Text.{IsReadAnd, RefusesInput};

use crate::making::Made;
use crate::outcome::Outcome;
use crate::text::features_of;
use cov_rules::{Hired, NamedRule, cleaned_by, cleaned_by_hired};
use cov_types::{Coverage, NoMemory};
use cover_words::{RuleChoice, RuleName};
use feature_files::text_for;
use geo_json::Features;
use merge_rule::{GreatestArea, LeastArea, LeastIndex, LongestBorder, MergeRule};
use std::alloc::Global;

/// How features are cleaned, beside the rule.
#[derive(Clone, Copy)]
pub struct CleanWay<'a> {
    /// The gap width, in grid units.
    pub gap: u32,
    /// Whether the rule is asked for narrow gaps too.
    pub gaps_too: bool,
    /// The scale of texts.
    pub scale: Option<u8>,
    /// The name of the input.
    pub from: &'a str,
    /// The name of the output.
    pub to: &'a str,
}

/// The coverage, cleaned by the rule of the name at the gap width, which is asked for narrow gaps too where that is said.
pub fn cleaned(
    alloc: Global,
    c: &Coverage,
    rule: RuleName,
    gap: u32,
    gaps_too: bool,
) -> Result<Coverage, NoMemory>
    requires in_range { AllInRange c.now }
    requires gap { gap ≤ 2 ^ 30 }
    ensures cleaned { IfOk result (λ out. IsCleanedBy gaps_too c.now (rule_of rule) no_state gap out) }
    ensures formed { IfOk result IsFormed }
{
    match rule {
        RuleName::LeastIndex => cleaned_by(alloc, c, &mut LeastIndex, gap, gaps_too),
        RuleName::GreatestArea => cleaned_by(alloc, c, &mut GreatestArea, gap, gaps_too),
        RuleName::LeastArea => cleaned_by(alloc, c, &mut LeastArea, gap, gaps_too),
        RuleName::LongestBorder => cleaned_by(alloc, c, &mut LongestBorder, gap, gaps_too),
    }
}

// The coverage, cleaned by the handed-in rule at the place.
fn cleaned_by_handed(
    alloc: Global,
    c: &Coverage,
    rules: &mut [NamedRule],
    place: usize,
    gap: u32,
    gaps_too: bool,
) -> Result<Coverage, NoMemory>
    requires in_range { AllInRange c.now }
    requires gap { gap ≤ 2 ^ 30 }
    requires place { place < length rules.old }
    ensures cleaned { IfOk result (λ out. IsCleanedFor (told_rule (map (λ r. ⟦<Hired as MergeRule>⟧.state r.rule) rules.old) (RuleChoice.Handed place)) gap gaps_too c.now out) }
    ensures formed { IfOk result IsFormed }
    ensures names { map (λ r. string_bytes r.name) rules.new ≡ map (λ r. string_bytes r.name) rules.old }
    ensures asked { IfOk result (λ _. AreHandedBack (IsAskedAll c.now gap gaps_too) (Some place)
        (map (λ r. ⟦<Hired as MergeRule>⟧.state r.rule) rules.old) (map (λ r. ⟦<Hired as MergeRule>⟧.state r.rule) rules.new)) }
    ensures no_memory { IfErr result (λ _. AreHandedBack (IsAskedUntil c.now gap gaps_too) (Some place)
        (map (λ r. ⟦<Hired as MergeRule>⟧.state r.rule) rules.old) (map (λ r. ⟦<Hired as MergeRule>⟧.state r.rule) rules.new)) }
{
    cleaned_by_hired(alloc, c, &mut rules[place].rule, gap, gaps_too)
}

// The coverage, cleaned by the chosen rule.
fn cleaned_for(
    alloc: Global,
    c: &Coverage,
    rule: RuleChoice,
    rules: &mut [NamedRule],
    gap: u32,
    gaps_too: bool,
) -> Result<Coverage, NoMemory>
    requires in_range { AllInRange c.now }
    requires gap { gap ≤ 2 ^ 30 }
    requires place { IsPlaceBelow (length rules.old) rule }
    ensures cleaned { IfOk result (λ out. IsCleanedFor (told_rule (map (λ r. ⟦<Hired as MergeRule>⟧.state r.rule) rules.old) rule) gap gaps_too c.now out) }
    ensures formed { IfOk result IsFormed }
    ensures names { map (λ r. string_bytes r.name) rules.new ≡ map (λ r. string_bytes r.name) rules.old }
    ensures asked { IfOk result (λ _. AreHandedBack (IsAskedAll c.now gap gaps_too) (chosen_place rule)
        (map (λ r. ⟦<Hired as MergeRule>⟧.state r.rule) rules.old) (map (λ r. ⟦<Hired as MergeRule>⟧.state r.rule) rules.new)) }
    ensures no_memory { IfErr result (λ _. AreHandedBack (IsAskedUntil c.now gap gaps_too) (chosen_place rule)
        (map (λ r. ⟦<Hired as MergeRule>⟧.state r.rule) rules.old) (map (λ r. ⟦<Hired as MergeRule>⟧.state r.rule) rules.new)) }
{
    match rule {
        RuleChoice::Own(name) => cleaned(alloc, c, name, gap, gaps_too),
        RuleChoice::Handed(place) => cleaned_by_handed(alloc, c, rules, place, gap, gaps_too),
    }
}

// The text of the cleaned features.
fn cleaning(
    alloc: Global,
    f: Features,
    way: &CleanWay,
    rule: RuleChoice,
    rules: &mut [NamedRule],
) -> Result<Made, NoMemory>
    requires in_range { AllInRange f.coverage }
    requires gap { way.now.gap ≤ 2 ^ 30 }
    requires scale { IsScale way.now.scale }
    requires place { IsPlaceBelow (length rules.old) rule }
    ensures made { IfOk result (λ made. IsCleaning (told_rule (map (λ r. ⟦<Hired as MergeRule>⟧.state r.rule) rules.old) rule)
        way.now.gap way.now.gaps_too way.now.scale way.now.to.now (held f) made.outcome made.text.items) }
    ensures names { map (λ r. string_bytes r.name) rules.new ≡ map (λ r. string_bytes r.name) rules.old }
    ensures asked { IfOk result (λ _. AreHandedBack (IsAskedAll f.coverage way.now.gap way.now.gaps_too) (chosen_place rule)
        (map (λ r. ⟦<Hired as MergeRule>⟧.state r.rule) rules.old) (map (λ r. ⟦<Hired as MergeRule>⟧.state r.rule) rules.new)) }
    ensures no_memory { IfErr result (λ _. AreHandedBack (IsAskedUntil f.coverage way.now.gap way.now.gaps_too) (chosen_place rule)
        (map (λ r. ⟦<Hired as MergeRule>⟧.state r.rule) rules.old) (map (λ r. ⟦<Hired as MergeRule>⟧.state r.rule) rules.new)) }
{
    let coverage = cleaned_for(alloc, &f.coverage, rule, rules, way.gap, way.gaps_too)?;
    let features = Features {
        coverage,
        properties: f.properties,
        ids: f.ids,
    };
    let text = text_for(alloc, way.to, way.scale, &features)?;
    Ok(Made {
        outcome: Outcome::Done,
        text,
    })
}

/// Cleans the features that the input is read as, by the chosen rule. The names of the input and of the output say which of the two
/// is GeoJSON; the numbers of text are read and written at the scale. A handed-in rule is prepared for the members that were read and
/// then asked; where the input is refused, no rule has changed.
pub fn make(
    alloc: Global,
    way: &CleanWay,
    rule: RuleChoice,
    rules: &mut [NamedRule],
    input: Vec<u8>,
) -> Result<Made, Outcome>
    requires length { length input.items ≤ LONGEST_INPUT }
    requires gap { way.now.gap ≤ 2 ^ 30 }
    requires scale { IsScale way.now.scale }
    requires place { IsPlaceBelow (length rules.old) rule }
    ensures made { IfOk result (λ made. IsReadAnd way.now.from.now way.now.scale input.items (λ r.
        IsCleaning (told_rule (map (λ r. ⟦<Hired as MergeRule>⟧.state r.rule) rules.old) rule) way.now.gap way.now.gaps_too way.now.scale way.now.to.now r made.outcome made.text.items)) }
    ensures refused { IfErr result (IsRefusedFor (RefusesInput way.now.from.now way.now.scale input.items)) }
    ensures names { map (λ r. string_bytes r.name) rules.new ≡ map (λ r. string_bytes r.name) rules.old }
    ensures asked { IfOk result (λ _. AreHandedBack (IsMadeAsked way.now.from.now way.now.scale input.items way.now.gap way.now.gaps_too) (chosen_place rule)
        (map (λ r. ⟦<Hired as MergeRule>⟧.state r.rule) rules.old) (map (λ r. ⟦<Hired as MergeRule>⟧.state r.rule) rules.new)) }
    ensures unasked { IfErr result (λ o. AreHandedBack (IsUnmadeAsked way.now.from.now way.now.scale input.items way.now.gap way.now.gaps_too o) (chosen_place rule)
        (map (λ r. ⟦<Hired as MergeRule>⟧.state r.rule) rules.old) (map (λ r. ⟦<Hired as MergeRule>⟧.state r.rule) rules.new)) }
{
    let features = features_of(alloc, way.from, way.scale, input)?;
    Ok(cleaning(alloc, features, way, rule, rules)?)
}
