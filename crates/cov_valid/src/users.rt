ghost use Rattle.std.specs.Prelude.{◌≤◌, OnOk, length};
ghost use Rattle.cov_valid.specs.Groups.{AreMembers};

use crate::entry::Entry;
use crate::group::Group;
use cov_types::NoMemory;

/// The members of a group's entries, in their order, written over `users`.
pub fn users_into(entries: &[Entry], group: Group, users: &mut Vec<u32>) -> Result<(), NoMemory>
    requires begins { group.from ≤ group.to }
    requires within { group.to ≤ length entries.now }
    ensures { OnOk result (AreMembers entries.now group.from group.to users.new.items) }
{
    users.clear();
    for k in group.from..group.to {
        users.push(entries[k].member)?;
    }
    Ok(())
}
