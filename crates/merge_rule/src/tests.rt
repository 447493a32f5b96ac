ghost use Rattle.std.specs.Prelude.{◌≡◌, ◌<◌, length, IsTrue, IfOk};
ghost use Rattle.region_owners.specs.Candidates.{ascend};
ghost use Rattle.merge_rule.specs.InTurn.{calls_of, counted, in_turn};

use crate::{Candidate, Facts, GreatestArea, LeastArea, LeastIndex, LongestBorder, MergeRule};
use std::alloc::Global;
use std::test::Fail;

/// Takes the candidates in turn, by the count of its calls.
#[derive(Clone, Copy)]
struct InTurn {
    calls: usize,
}

impl MergeRule for InTurn {
    ghost use Rattle.std.proofs.Math.Nat.{mod-lt};

    ghost state = { λ r. counted r.calls };

    ghost rule = { in_turn };

    fn choose(&mut self, facts: &Facts) -> usize {
        let place = self.calls % facts.candidates.len();
        self.calls = self.calls.wrapping_add(1);
        place
    }

    ghost lawful = { λ state _ some. mod-lt (calls_of state) some };
}

/// The place that the rule picks, which is one of the candidates.
fn ask<R: MergeRule>(rule: &mut R, facts: &Facts) -> usize
    requires some { 0 < length facts.now.candidates }
    ensures picked { result ≡ R.rule.pick (R.state rule.old) facts.now }
    ensures next { R.state rule.new ≡ R.rule.next (R.state rule.old) facts.now }
    ensures place { result < length facts.now.candidates }
{
    rule.choose(facts)
}

const fn candidate(member: u32, area2: i128, border: u128) -> Candidate
    ensures { result ≡ record { member = member; area2 = area2; border = border } }
{
    Candidate {
        member,
        area2,
        border,
    }
}

fn facts_of(alloc: Global, candidates: &[Candidate]) -> Result<Facts, Fail>
    requires { IsTrue (ascend candidates.now) }
    ensures { IfOk result (λ facts. facts.candidates ≡ candidates.now) }
{
    Ok(Facts {
        candidates: candidates.to_vec(alloc)?,
        region_area2: 0,
    })
}

#[test]
fn each_rule_picks_the_first_that_is_best(rt: HostRuntime) -> Result<(), Fail> {
    let three = [
        candidate(2, 200, 0),
        candidate(4, 500, 7),
        candidate(7, 500, 7),
    ];
    let facts = facts_of(rt.alloc(), &three)?;
    assert_eq!(rt; ask(&mut LeastIndex, &facts), 0);
    assert_eq!(rt; ask(&mut GreatestArea, &facts), 1);
    assert_eq!(rt; ask(&mut LeastArea, &facts), 0);
    assert_eq!(rt; ask(&mut LongestBorder, &facts), 1);
    Ok(())
}

#[test]
fn of_all_alike_or_of_one_it_is_the_first(rt: HostRuntime) -> Result<(), Fail> {
    let alike = [candidate(0, -4, 9), candidate(1, -4, 9)];
    let facts = facts_of(rt.alloc(), &alike)?;
    assert_eq!(rt; LeastIndex.choose(&facts), 0);
    assert_eq!(rt; GreatestArea.choose(&facts), 0);
    assert_eq!(rt; LeastArea.choose(&facts), 0);
    assert_eq!(rt; LongestBorder.choose(&facts), 0);
    let facts = facts_of(rt.alloc(), &[candidate(5, 2, 0)])?;
    assert_eq!(rt; GreatestArea.choose(&facts), 0);
    assert_eq!(rt; LeastArea.choose(&facts), 0);
    assert_eq!(rt; LongestBorder.choose(&facts), 0);
    Ok(())
}

#[test]
fn a_rule_with_a_state_takes_the_candidates_in_turn(rt: HostRuntime) -> Result<(), Fail> {
    let facts = facts_of(rt.alloc(), &[candidate(0, 2, 0), candidate(3, 2, 0)])?;
    let mut rule = InTurn { calls: 0 };
    assert_eq!(rt; ask(&mut rule, &facts), 0);
    assert_eq!(rt; ask(&mut rule, &facts), 1);
    assert_eq!(rt; ask(&mut rule, &facts), 0);
    Ok(())
}
