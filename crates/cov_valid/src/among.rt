ghost use Rattle.std.specs.Prelude.{◌≡◌, ℕ, ◌<◌, ◌≤◌, ◌↔◌, OnOk, AllPairs, IsTrue, List, Some, false, length, slice_get, slice_index_or};
ghost use Rattle.cov_valid.specs.Among.{AddsKinds, AreFaults, ArePresent, AreTwo, IsKindAmong, IsTwice};

use crate::mark::Kind;
use crate::present::{is_at, present_into};
use cov_types::NoMemory;
use std::alloc::Global;

/// Room for what is known of the users and the holders of one segment. It keeps its memory from one segment to the next.
#[derive(Drop)]
pub struct Sides {
    // For each user, whether it holds the midpoint.
    held: Vec<bool>,
    // For each holder, whether it is a user.
    used: Vec<bool>,
}

impl Sides {
    pub fn new(alloc: Global) -> Sides {
        Sides {
            held: Vec::new(alloc),
            used: Vec::new(alloc),
        }
    }

    /// Puts the kinds of the users' faults behind the others. Linear in the users and the holders.
    pub fn add_kinds(
        &mut self,
        users: &[u32],
        holders: &[u32],
        kinds: &mut Vec<Option<Kind>>,
    ) -> Result<(), NoMemory>
        requires users_ascend { AllPairs (λ i j. i ≤ j) users.now }
        requires holders_ascend { AllPairs (λ i j. i ≤ j) holders.now }
        ensures { OnOk result (AddsKinds users.now holders.now kinds.old.items kinds.new.items) }
    {
        present_into(users, holders, &mut self.held)?;
        present_into(holders, users, &mut self.used)?;
        let faults = Faults {
            inner: has_two(users, &self.held, true),
            outer: has_two(users, &self.held, false),
            guest: has_absent(&self.used),
        };
        for k in 0..users.len() {
            kinds.push(kind_at(users, &self.held, faults, k))?;
        }
        Ok(())
    }
}

// What is at fault among the users of a segment: two of them hold its midpoint, two don't, or a member that is no user holds it.
#[derive(Clone, Copy)]
pub struct Faults {
    pub inner: bool,
    pub outer: bool,
    pub guest: bool,
}

// The kind of the fault of the user at a place.
fn kind_at(users: &[u32], held: &[bool], faults: Faults, k: usize) -> Option<Kind>
    requires ascending { AllPairs (λ i j. i ≤ j) users.now }
    requires count { length held.now ≡ length users.now }
    requires within { k < length users.now }
    ensures { (holders : List ℕ) (m : ℕ) → ArePresent users.now holders held.now → AreFaults users.now holders held.now faults
        → IsKindAmong users.now holders (slice_index_or users.now k m) result }
{
    if is_twice(users, k) {
        return Some(Kind::Repeated);
    }
    let shared = if held[k] { faults.inner } else { faults.outer };
    if shared {
        return Some(Kind::SameSide);
    }
    if faults.guest {
        return Some(Kind::Inside);
    }
    None
}

// Whether the user at a place stands at another place too: beside it.
fn is_twice(users: &[u32], k: usize) -> bool
    requires ascending { AllPairs (λ i j. i ≤ j) users.now }
    requires within { k < length users.now }
    ensures { (m : ℕ) → IsTrue result ↔ IsTwice users.now (slice_index_or users.now k m) }
{
    let member = users[k];
    if k > 0 {
        if is_at(users, k - 1, member) {
            return true;
        }
    }
    is_at(users, k + 1, member)
}

// Whether two different users are on this side.
fn has_two(users: &[u32], held: &[bool], side: bool) -> bool
    requires { length held.now ≡ length users.now }
    ensures { IsTrue result ↔ AreTwo users.now held.now side }
{
    let mut first = None;
    for (k, member) in users.iter().enumerate() {
        if held[k] == side {
            match first {
                None => first = Some(*member),
                Some(one) => {
                    if one != *member {
                        return true;
                    }
                }
            }
        }
    }
    false
}

// Whether one of them is absent.
fn has_absent(present: &[bool]) -> bool
    ensures { IsTrue result ↔ ((k : ℕ) × (slice_get present.now k ≡ Some false)) }
{
    for is_present in present {
        if !*is_present {
            return true;
        }
    }
    false
}
