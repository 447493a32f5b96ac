ghost use Rattle.std.specs.Prelude.{◌≡◌, ◌<◌, length, IsTrue, IfOk};
ghost use Rattle.region_owners.specs.Candidates.{ascend};

use cov_rules::{Chain, ClearBorder, EvenShare, Hired, LiveRule, Part, Priority};
use merge_rule::{Candidate, Facts, MergeRule};
use std::alloc::Global;
use std::process::Abort;
use std::test::Fail;

const fn candidate(member: u32, area2: i128, border: u128) -> Candidate
    ensures { result ≡ record { member = member; area2 = area2; border = border } }
{
    Candidate {
        member,
        area2,
        border,
    }
}

/// The facts of a region of doubled area 100.
fn facts_of(alloc: Global, candidates: &[Candidate]) -> Result<Facts, Fail>
    requires { IsTrue (ascend candidates.now) }
    ensures { IfOk result (λ facts. facts.candidates ≡ candidates.now) }
{
    Ok(Facts {
        candidates: candidates.to_vec(alloc)?,
        region_area2: 100,
    })
}

/// The rule, asked twice about the facts after room was made for two members, picks these places, and then keeps these numbers.
fn expect_asked(
    alloc: Global,
    rt: &impl Abort,
    rule: Box<dyn LiveRule>,
    facts: &Facts,
    places: [usize; 2],
    tally: &[i128],
) -> Result<(), Fail>
    requires { 0 < length facts.now.candidates }
{
    let mut hired = Hired::new(rule);
    hired.prepare(2)?;
    assert_eq!(rt; hired.choose(facts), places[0]);
    assert_eq!(rt; hired.choose(facts), places[1]);
    let mut out = Vec::new(alloc);
    hired.tally(&mut out)?;
    assert_eq!(rt; out.as_slice(), tally);
    let _rule = hired.into_rule();
    Ok(())
}

#[test]
fn an_even_share_gives_two_overlaps_to_one_member_each(rt: HostRuntime) -> Result<(), Fail> {
    let alloc = rt.alloc();
    let facts = facts_of(alloc, &[candidate(0, 600, 3840), candidate(1, 400, 2560)])?;
    let share = Box::new(alloc, EvenShare::new(alloc))?;
    expect_asked(alloc, &rt, share, &facts, [0, 1], &[100, 100])
}

#[test]
fn a_priority_gives_them_to_the_first_of_its_order_or_abstains(
    rt: HostRuntime,
) -> Result<(), Fail> {
    let alloc = rt.alloc();
    let facts = facts_of(alloc, &[candidate(0, 600, 3840), candidate(1, 400, 2560)])?;
    let mine = Box::new(alloc, Priority::new(vec![in alloc; 1]?))?;
    expect_asked(alloc, &rt, mine, &facts, [1, 1], &[])?;
    let other = Box::new(alloc, Priority::new(vec![in alloc; 7]?))?;
    expect_asked(alloc, &rt, other, &facts, [0, 0], &[])
}

/// A chain of a clear border and an even share.
fn border_then_share(alloc: Global) -> Result<Chain, Fail> {
    let mut parts = Vec::new(alloc);
    parts.push(Part::Clear(ClearBorder::new()))?;
    parts.push(Part::Even(EvenShare::new(alloc)))?;
    Ok(Chain::new(parts))
}

#[test]
fn a_chain_asks_up_to_the_part_that_picks(rt: HostRuntime) -> Result<(), Fail> {
    let alloc = rt.alloc();
    let clear = facts_of(alloc, &[candidate(0, 600, 3840), candidate(1, 400, 2560)])?;
    let chain = Box::new(alloc, border_then_share(alloc)?)?;
    expect_asked(alloc, &rt, chain, &clear, [0, 0], &[0, 2, 0, 0])?;
    let tied = facts_of(alloc, &[candidate(0, 600, 2560), candidate(1, 400, 2560)])?;
    let chain = Box::new(alloc, border_then_share(alloc)?)?;
    expect_asked(alloc, &rt, chain, &tied, [0, 1], &[0, 2, 100, 100])?;
    let empty = Box::new(alloc, Chain::new(Vec::new(alloc)))?;
    expect_asked(alloc, &rt, empty, &tied, [0, 0], &[])
}

#[test]
fn a_chain_hands_its_parts_back(rt: HostRuntime) -> Result<(), Fail> {
    let parts = border_then_share(rt.alloc())?.into_parts();
    assert_eq!(rt; parts.len(), 2);
    Ok(())
}
