ghost use Rattle.std.specs.Prelude.{◌≡◌, ◌≤◌, ◌^◌, length, IfOk, IfErr};
ghost use Rattle.cov_types.specs.Coverage.{AllInRange, IsFormed};
ghost use Rattle.cov_types.specs.Uses.{uses_of};
ghost use Rattle.arrangement.specs.Overlay.{Overlay, IsSnappedOverlay};
ghost use Rattle.gap_replay.specs.Cleaned.{IsCleanedBy};
ghost use Rattle.gap_replay.specs.Replay.{HasLastState, HasAskedSome};
ghost use Rattle.cov_rules.specs.Asked.{prepared, IsAskedAll, IsAskedUntil};
ghost use Rattle.cov_rules.specs.Hired.{by_kind};

use crate::hired::Hired;
use cov_clean::{clean, clean_with_gaps};
use cov_types::{Coverage, NoMemory};
use merge_rule::MergeRule;
use std::alloc::Global;

/// The coverage, cleaned by the rule at the gap width, in grid units; the rule is asked for narrow gaps too where that is said. Takes time
/// and memory as `clean` and `clean_with_gaps` do.
pub fn cleaned_by<R: MergeRule>(
    alloc: Global,
    c: &Coverage,
    rule: &mut R,
    gap: u32,
    gaps_too: bool,
) -> Result<Coverage, NoMemory>
    requires in_range { AllInRange c.now }
    requires gap { gap ≤ 2 ^ 30 }
    ensures cleaned { IfOk result (λ out. IsCleanedBy gaps_too c.now R.rule (R.state rule.old) gap out) }
    ensures formed { IfOk result IsFormed }
    ensures asked { IfOk result (λ _. (o : Overlay) → IsSnappedOverlay (uses_of c.now) (length c.now) o
        → HasLastState gaps_too R.rule (R.state rule.old) o gap (R.state rule.new)) }
    ensures no_memory { IfErr result (λ _. (o : Overlay) → IsSnappedOverlay (uses_of c.now) (length c.now) o
        → HasAskedSome gaps_too R.rule (R.state rule.old) o gap (R.state rule.new)) }
{
    if gaps_too {
        clean_with_gaps(alloc, c, rule, gap)
    } else {
        clean(alloc, c, rule, gap)
    }
}

/// The coverage, cleaned by a handed-in rule, which is prepared for the members first. Without memory the rule is partly prepared, or was
/// asked for the first regions.
pub fn cleaned_by_hired(
    alloc: Global,
    c: &Coverage,
    rule: &mut Hired,
    gap: u32,
    gaps_too: bool,
) -> Result<Coverage, NoMemory>
    requires in_range { AllInRange c.now }
    requires gap { gap ≤ 2 ^ 30 }
    ensures cleaned { IfOk result (λ out. IsCleanedBy gaps_too c.now by_kind (prepared (⟦<Hired as MergeRule>⟧.state rule.old) (length c.now)) gap out) }
    ensures formed { IfOk result IsFormed }
    ensures asked { IfOk result (λ _. IsAskedAll c.now gap gaps_too (⟦<Hired as MergeRule>⟧.state rule.old) (⟦<Hired as MergeRule>⟧.state rule.new)) }
    ensures no_memory { IfErr result (λ _. IsAskedUntil c.now gap gaps_too (⟦<Hired as MergeRule>⟧.state rule.old) (⟦<Hired as MergeRule>⟧.state rule.new)) }
{
    rule.prepare(c.members.len() as u32)?;
    cleaned_by(alloc, c, rule, gap, gaps_too)
}
