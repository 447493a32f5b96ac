ghost use Rattle.std.specs.Prelude.{◌≡◌, ◌++◌, None, OnOk};
ghost use Rattle.fault_text.specs.MapText.{kind_word, members_text, marked_properties, overlap_properties, gap_properties};

use crate::written::append_separated;
use cov_types::NoMemory;
use cov_valid::Kind;
use cov_write::append_number;

// The word of a kind.
fn word_of(kind: Kind) -> &'static [u8]
    ensures { result.now ≡ kind_word kind }
{
    match kind {
        Kind::Meets => b"meets",
        Kind::Repeated => b"repeated",
        Kind::SameSide => b"same side",
        Kind::Inside => b"inside",
        Kind::NarrowGap => b"narrow gap",
    }
}

// Appends the numbers of members, as an array.
fn append_members(out: &mut Vec<u8>, members: &[u32]) -> Result<(), NoMemory>
    ensures { OnOk result (out.new.items ≡ out.old.items ++ members_text members.now) }
{
    out.push(b'[')?;
    append_separated(out, members, None)?;
    out.push(b']')?;
    Ok(())
}

/// Appends the properties of a segment that is marked.
pub(crate) fn append_marked(
    out: &mut Vec<u8>,
    kind: Kind,
    member: u32,
    place: u64,
) -> Result<(), NoMemory>
    ensures { OnOk result (out.new.items ≡ out.old.items ++ marked_properties kind member place) }
{
    out.extend_from_slice(b"{\"kind\":\"")?;
    out.extend_from_slice(word_of(kind))?;
    out.extend_from_slice(b"\",\"member\":")?;
    append_number(out, member)?;
    out.extend_from_slice(b",\"place\":")?;
    append_number(out, place)?;
    out.push(b'}')?;
    Ok(())
}

/// Appends the properties of a region that several members hold.
pub(crate) fn append_overlap(
    out: &mut Vec<u8>,
    members: &[u32],
    area2: i128,
    region: usize,
) -> Result<(), NoMemory>
    ensures { OnOk result (out.new.items ≡ out.old.items ++ overlap_properties members.now area2 region) }
{
    out.extend_from_slice(b"{\"kind\":\"overlap\",\"members\":")?;
    append_members(out, members)?;
    out.extend_from_slice(b",\"area2\":")?;
    append_number(out, area2)?;
    out.extend_from_slice(b",\"region\":")?;
    append_number(out, region)?;
    out.push(b'}')?;
    Ok(())
}

/// Appends the properties of a gap.
pub(crate) fn append_gap(
    out: &mut Vec<u8>,
    area2: i128,
    clearance: u32,
    region: usize,
    members: &[u32],
) -> Result<(), NoMemory>
    ensures { OnOk result (out.new.items ≡ out.old.items ++ gap_properties area2 clearance region members.now) }
{
    out.extend_from_slice(b"{\"kind\":\"gap\",\"area2\":")?;
    append_number(out, area2)?;
    out.extend_from_slice(b",\"clearance\":")?;
    append_number(out, clearance)?;
    out.extend_from_slice(b",\"region\":")?;
    append_number(out, region)?;
    out.extend_from_slice(b",\"members\":")?;
    append_members(out, members)?;
    out.push(b'}')?;
    Ok(())
}
