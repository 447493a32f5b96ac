ghost use Rattle.std.specs.Prelude.{◌≡◌};
ghost use Rattle.cover_words.specs.Words.{rule_named as rule_of_word};

/// A merge rule by its name.
#[derive(Clone, Copy, Debug, PartialEq, Eq)]
pub enum RuleName {
    LeastIndex,
    GreatestArea,
    LeastArea,
    LongestBorder,
}

/// The rule that the word names, if it is one of the four. Takes constant time.
pub fn rule_named(word: &str) -> Option<RuleName>
    ensures { result ≡ rule_of_word word.now }
{
    if word == "least-index" {
        return Some(RuleName::LeastIndex);
    }
    if word == "greatest-area" {
        return Some(RuleName::GreatestArea);
    }
    if word == "least-area" {
        return Some(RuleName::LeastArea);
    }
    if word == "longest-border" {
        return Some(RuleName::LongestBorder);
    }
    None
}
