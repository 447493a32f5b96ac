ghost use Rattle.std.specs.Prelude.{◌≡◌, map, position};
ghost use Rattle.std.specs.Str.{bytes_eq};
ghost use Rattle.cover_words.specs.Words.{rule_chosen as choice_of_word};

use crate::rule_name::{RuleName, rule_named};

/// The rule that a cleaning goes by.
#[derive(Clone, Copy, Debug, PartialEq, Eq)]
pub enum RuleChoice {
    /// One of the four.
    Own(RuleName),
    /// A handed-in rule, by its place in the list of these.
    Handed(usize),
}

/// The rule that the word chooses where rules of these names are handed in: that of the four which it names, or else the first
/// handed-in one of its name. Takes time in proportion to the names.
pub fn rule_chosen(word: &str, names: &[&str]) -> Option<RuleChoice>
    ensures { result ≡ choice_of_word (map (λ n. n.now) names.now) word.now }
{
    if let Some(name) = rule_named(word) {
        return Some(RuleChoice::Own(name));
    }
    let place = place_of(word, names)?;
    Some(RuleChoice::Handed(place))
}

// The first place at which the word stands.
fn place_of(word: &str, names: &[&str]) -> Option<usize>
    ensures { result ≡ position (λ name. bytes_eq name word.now) (map (λ n. n.now) names.now) }
{
    place_among(word, names)
}

// The same, of the names as they are borrowed.
fn place_among(word: &str, names: &[&str]) -> Option<usize>
    ensures { result ≡ position (λ name. bytes_eq name.now word.now) names.now }
{
    names.iter().position(|name| *name == word)
}
