ghost use Rattle.std.specs.Prelude.{◌<◌, ◌+◌, ◌^◌, All, IsPermutation, IfOk};
ghost use Rattle.std.specs.List.Sorted.{IsNonDecreasingBy};
ghost use Rattle.owner_label.specs.OwnedSides.{owned_length};
ghost use Rattle.cov_clean.specs.Runs.{AreRuns, IsAdded};

use cov_types::NoMemory;
use owner_label::OwnedSide;
use std::alloc::Global;

/// The sides as one for each member, ascending by member, with the length of all its sides, in 1/256 units. Takes n log n time in the
/// sides, and memory in proportion to them.
pub fn runs_by_member(alloc: Global, sides: Vec<OwnedSide>) -> Result<Vec<OwnedSide>, NoMemory>
    requires long { All (λ s. 0 < s.length) sides.items }
    requires short { All (λ s. s.length < 2 ^ 64) sides.items }
    ensures { IfOk result (λ runs. AreRuns (owned_length sides.items) runs.items) }
{
    let sorted = sorted_by_member(sides);
    runs_of(alloc, &sorted)
}

// The sides, ascending by member.
fn sorted_by_member(mut sides: Vec<OwnedSide>) -> Vec<OwnedSide>
    ensures all { IsPermutation sides.items result.items }
    ensures ascending { IsNonDecreasingBy (λ s. s.member) result.items }
{
    sides.sort_unstable_by_key(|side| side.member);
    sides
}

// Sides that ascend by member, as one for each member.
fn runs_of(alloc: Global, sides: &[OwnedSide]) -> Result<Vec<OwnedSide>, NoMemory>
    requires ascending { IsNonDecreasingBy (λ s. s.member) sides.now }
    requires long { All (λ s. 0 < s.length) sides.now }
    requires short { All (λ s. s.length < 2 ^ 64) sides.now }
    ensures { IfOk result (λ runs. AreRuns (owned_length sides.now) runs.items) }
{
    let mut runs = Vec::new(alloc);
    for side in sides {
        add_side(&mut runs, *side)?;
    }
    Ok(runs)
}

// Makes the last run longer by the side where it is of the side's member, and else adds the side as a run.
fn add_side(runs: &mut Vec<OwnedSide>, side: OwnedSide) -> Result<(), NoMemory>
    requires short { All (λ run. run.length + side.length < 2 ^ 128) runs.old.items }
    ensures { IfOk result (λ _. IsAdded runs.old.items side runs.new.items) }
{
    let count = runs.len();
    if count == 0 || runs[count - 1].member != side.member {
        runs.push(side)?;
        return Ok(());
    }
    runs[count - 1].length += side.length;
    Ok(())
}
