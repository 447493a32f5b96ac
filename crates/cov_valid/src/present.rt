ghost use Rattle.std.specs.Prelude.{◌≡◌, ℕ, ◌<◌, ◌≤◌, ◌↔◌, OnOk, AllPairs, IsTrue, Some, length, slice_get, slice_index_or};
ghost use Rattle.cov_valid.specs.Among.{ArePresent};

use cov_types::NoMemory;

/// For each of the numbers, whether it is in the list. Linear in both.
pub fn present_into(numbers: &[u32], list: &[u32], present: &mut Vec<bool>) -> Result<(), NoMemory>
    requires numbers_ascend { AllPairs (λ i j. i ≤ j) numbers.now }
    requires list_ascends { AllPairs (λ i j. i ≤ j) list.now }
    ensures { OnOk result (ArePresent numbers.now list.now present.new.items) }
{
    present.clear();
    let mut at = 0;
    for n in numbers {
        at = place_from(list, at, *n);
        present.push(is_at(list, at, *n))?;
    }
    Ok(())
}

// The first place from a place on whose number is not below n.
fn place_from(list: &[u32], from: usize, n: u32) -> usize
    requires within { from ≤ length list.now }
    requires below { (k : ℕ) (d : ℕ) → k < from → slice_index_or list.now k d < n }
    ensures within { result ≤ length list.now }
    ensures below { (k : ℕ) (d : ℕ) → k < result → slice_index_or list.now k d < n }
    ensures found { (d : ℕ) → result < length list.now → n ≤ slice_index_or list.now result d }
{
    let mut at = from;
    while at < list.len() {
        if list[at] >= n {
            return at;
        }
        at += 1;
    }
    at
}

/// Whether the number stands at the place.
pub fn is_at(list: &[u32], at: usize, n: u32) -> bool
    ensures { IsTrue result ↔ (slice_get list.now at ≡ Some n) }
{
    if at < list.len() {
        list[at] == n
    } else {
        false
    }
}
