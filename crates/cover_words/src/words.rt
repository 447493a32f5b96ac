ghost use Rattle.std.specs.Prelude.{◌≡◌, IfOk, IfSome, is_some, length, map};
ghost use Rattle.std.specs.String.{string_bytes};
ghost use Rattle.cover_words.specs.Accepted.{is_accepted};
ghost use Rattle.cover_words.specs.Named.{IsNamed, named};
ghost use Rattle.cover_words.specs.Words.{IsWithinLimit, operation_by as operation_by_word, operation_of};

use crate::clean::clean_named;
use crate::locate::locate_named;
use crate::node::node_named;
use crate::operation::Operation;
use crate::overlay::overlay_named;
use crate::regions::regions_named;
use crate::sample::sample_named;
use crate::simplify::simplify_named;
use crate::union::union_named;
use crate::validate::validate_named;
use cov_types::NoMemory;
use std::alloc::Global;

// The operation of this word that the words name, where rules of these names are handed in.
fn operation_by<'a>(
    alloc: Global,
    word: &str,
    words: &'a [String],
    names: &[&str],
) -> Result<Option<Operation<'a>>, NoMemory>
    ensures { IfOk result (IsNamed (operation_by_word (map (λ n. n.now) names.now) word.now (map string_bytes words.now))) }
{
    if word == "validate" {
        return validate_named(alloc, words);
    }
    if word == "clean" {
        return clean_named(alloc, words, names);
    }
    if word == "simplify" {
        return simplify_named(alloc, words);
    }
    if word == "union" {
        return union_named(alloc, words);
    }
    if word == "node" {
        return node_named(alloc, words);
    }
    if word == "regions" {
        return regions_named(alloc, words);
    }
    if word == "sample" {
        return sample_named(alloc, words);
    }
    if word == "locate" {
        return locate_named(alloc, words);
    }
    if word == "overlay" {
        return overlay_named(alloc, words);
    }
    Ok(None)
}

/// The operation that the words name, or None where they are not accepted. The first word is the operation's, as in
/// `clean IN OUT --rule R`. `names` are those of the rules that are handed in, which R may name beside the four: one of the four
/// words always means its own rule, and of equal names the first counts.
///
/// Takes memory and time in proportion to the words, and time in proportion to the names. The error says that there was no memory.
pub fn operation_named<'a>(
    alloc: Global,
    words: &'a [String],
    names: &[&str],
) -> Result<Option<Operation<'a>>, NoMemory>
    ensures named { IfOk result (IsNamed (operation_of (map (λ n. n.now) names.now) (map string_bytes words.now))) }
    // An operation is named exactly where the words are accepted.
    ensures accepted { IfOk result (λ o. is_some o ≡ is_accepted (map (λ n. n.now) names.now) (map string_bytes words.now)) }
    ensures within { IfOk result (λ o. IfSome o (λ operation. IsWithinLimit (length names.now) (named operation))) }
{
    match words {
        [word, ..] => operation_by(alloc, word, words, names),
        [] => Ok(None),
    }
}
