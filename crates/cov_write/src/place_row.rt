ghost use Rattle.std.specs.Prelude.{◌≡◌, ◌++◌, OnOk};
ghost use Rattle.cov_write.specs.Places.{edge_row, member_row, none_row};

use crate::number::append_number;
use cov_types::NoMemory;

/// Appends the row of a point on an edge. After an error some of it may be there. Takes constant time.
pub fn append_edge_row(out: &mut Vec<u8>) -> Result<(), NoMemory>
    ensures { OnOk result (out.new.items ≡ out.old.items ++ edge_row) }
{
    out.extend_from_slice(b"edge\n")?;
    Ok(())
}

/// Appends the row of a point in a member, by the member's number. After an error some of it may be there. Takes constant time.
pub fn append_member_row(out: &mut Vec<u8>, member: u32) -> Result<(), NoMemory>
    ensures { OnOk result (out.new.items ≡ out.old.items ++ member_row member) }
{
    append_number(out, member)?;
    out.push(b'\n')?;
    Ok(())
}

/// Appends the row of a point in no member. After an error some of it may be there. Takes constant time.
pub fn append_none_row(out: &mut Vec<u8>) -> Result<(), NoMemory>
    ensures { OnOk result (out.new.items ≡ out.old.items ++ none_row) }
{
    out.extend_from_slice(b"none\n")?;
    Ok(())
}
