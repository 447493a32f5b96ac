ghost use Rattle.std.specs.Prelude.{◌≡◌, [], IfOk, IfSome, map, option_and_then};
ghost use Rattle.std.specs.String.{string_bytes};
ghost use Rattle.cover_words.specs.Named.{IsNamed, named};
ghost use Rattle.cover_words.specs.Words.{IsWithinLimit, map_of, operation_of, validation_of};

use crate::operation::Operation;
use crate::words::operation_named;
use cov_types::NoMemory;
use std::alloc::Global;

/// The words of `cover validate` in the place of those of `cover_faults`: the word `validate`, and then these. Takes time and memory in
/// proportion to the words. The error says that there was no memory.
pub fn validation_words(alloc: Global, words: &[String]) -> Result<Vec<String>, NoMemory>
    ensures { IfOk result (λ all. map string_bytes all.items ≡ validation_of (map string_bytes words.now)) }
{
    let mut all = Vec::new(alloc);
    all.push(String::from_str(alloc, "validate")?)?;
    for word in words {
        all.push(word.clone()?)?;
    }
    Ok(all)
}

/// The mapping with the values and files of the validation that the words name, which are those of `cover` as [`validation_words`] makes
/// them, or None where they name no validation or are not accepted.
///
/// Takes memory and time in proportion to the words. The error says that there was no memory.
pub fn mapping_named(alloc: Global, words: &[String]) -> Result<Option<Operation<'_>>, NoMemory>
    ensures named { IfOk result (IsNamed (option_and_then map_of (operation_of [] (map string_bytes words.now)))) }
    ensures within { IfOk result (λ o. IfSome o (λ operation. IsWithinLimit 0 (named operation))) }
{
    match operation_named(alloc, words, &[])? {
        Some(
            Operation::Validate {
                gap,
                scale,
                from,
                to,
            },
        ) => Ok(Some(Operation::MapFaults {
            gap,
            scale,
            from,
            to,
        })),
        _ => Ok(None),
    }
}
