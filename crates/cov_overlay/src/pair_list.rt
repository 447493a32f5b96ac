ghost use Rattle.std.specs.Prelude.{◌≡◌, ◌<◌, ◌^◌, ◌↔◌, All, AllPairs, Contains, IsTrue, IfOk, IfSome, Some, length, slice_get};
ghost use Rattle.std.specs.List.{filter_map};
ghost use Rattle.overlaid_laws.specs.declared.pair.Pair.{Pair};
ghost use Rattle.overlaid_laws.specs.Pairs.{is_pair_before};
ghost use Rattle.cov_overlay.specs.Places.{IsPlace, ArePlaces};

use cov_types::NoMemory;
use overlaid_laws::Pair;
use std::alloc::Global;

/// The pairs of all sides, each once, ascending. Takes n log n time.
pub fn distinct_pairs(alloc: Global, by_side: &[Option<Pair>]) -> Result<Vec<Pair>, NoMemory>
    ensures ascending { IfOk result (λ v. AllPairs (λ p q. IsTrue (is_pair_before p q)) v.items) }
    ensures exact { IfOk result (λ v. (pair : Pair) → Contains v.items pair ↔ Contains by_side.now (Some pair)) }
{
    let mut pairs = pairs_of_all(alloc, by_side)?;
    pairs.sort_unstable();
    pairs.dedup();
    Ok(pairs)
}

// The pairs of those sides that have one, in the order of the sides.
fn pairs_of_all(alloc: Global, by_side: &[Option<Pair>]) -> Result<Vec<Pair>, NoMemory>
    ensures { IfOk result (λ v. v.items ≡ filter_map (λ pair. pair) by_side.now) }
{
    let pairs = by_side.iter().filter_map(|pair| *pair).collect(alloc)?;
    Ok(pairs)
}

/// For each side the place of its pair in the list, if it has one. Takes n log n time.
pub fn places_of(
    alloc: Global,
    by_side: &[Option<Pair>],
    pairs: &[Pair],
) -> Result<Vec<Option<u32>>, NoMemory>
    requires ascending { AllPairs (λ p q. IsTrue (is_pair_before p q)) pairs.now }
    requires few { length pairs.now < 2 ^ 32 }
    requires among { All (λ pair. IfSome pair (Contains pairs.now)) by_side.now }
    ensures { IfOk result (λ v. ArePlaces pairs.now by_side.now v.items) }
{
    let mut places = Vec::new(alloc);
    for pair in by_side {
        places.push(place_if_some(pairs, *pair))?;
    }
    Ok(places)
}

// The place of the pair, if there is one.
fn place_if_some(pairs: &[Pair], pair: Option<Pair>) -> Option<u32>
    requires ascending { AllPairs (λ p q. IsTrue (is_pair_before p q)) pairs.now }
    requires few { length pairs.now < 2 ^ 32 }
    requires among { IfSome pair (Contains pairs.now) }
    ensures { IsPlace pairs.now pair result }
{
    match pair {
        Some(pair) => Some(place_of(pairs, pair)),
        None => None,
    }
}

// The place of a pair of the list. Takes time in proportion to the logarithm of the pairs.
fn place_of(pairs: &[Pair], pair: Pair) -> u32
    requires ascending { AllPairs (λ p q. IsTrue (is_pair_before p q)) pairs.now }
    requires few { length pairs.now < 2 ^ 32 }
    requires among { Contains pairs.now pair }
    ensures { slice_get pairs.now result ≡ Some pair }
{
    pairs.partition_point(|other| other.cmp(&pair).is_lt()) as u32
}
