ghost use Rattle.std.specs.Prelude.{◌≡◌, IfOk, length};
ghost use Rattle.cov_valid.specs.Entries.{AreEntries};
ghost use Rattle.cov_valid.specs.Judged.{AreJudged, AreKinds};

use crate::entry::Entry;
use crate::mark::Kind;
use cov_types::{EdgeUse, NoMemory};
use std::alloc::Global;

/// The kinds of the uses' faults, in the order of the uses, from those of the entries.
pub fn by_place(
    alloc: Global,
    uses: &[EdgeUse],
    entries: &[Entry],
    kinds: &[Option<Kind>],
) -> Result<Vec<Option<Kind>>, NoMemory>
    requires entries { AreEntries uses.now entries.now }
    requires judged { AreJudged uses.now entries.now (length entries.now) kinds.now }
    ensures { IfOk result (λ table. AreKinds uses.now table.items) }
{
    let mut table = vec![in alloc; None; uses.len()]?;
    for (k, entry) in entries.iter().enumerate() {
        table[entry.place] = kinds[k];
    }
    Ok(table)
}
