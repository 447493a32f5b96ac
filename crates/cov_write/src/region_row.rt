ghost use Rattle.std.specs.Prelude.{◌≡◌, ◌++◌, List, flat_map, codes, OnOk};
ghost use Rattle.std.specs.Fmt.{decimal};
ghost use Rattle.cov_write.specs.Rows.{kind_text, label_text, clearance_text, outer_row, inner_row};

use crate::number::append_number;
use cov_types::NoMemory;

/// Appends the row of the outer region. After an error some of it may be there. Takes constant time.
pub fn append_outer_row(out: &mut Vec<u8>, number: usize) -> Result<(), NoMemory>
    ensures { OnOk result (out.new.items ≡ out.old.items ++ outer_row number) }
{
    append_number(out, number)?;
    out.extend_from_slice(b" outer - - -\n")?;
    Ok(())
}

/// Appends the row of a region that isn't outer, by its label, its doubled area and, of a gap, its clearance. The label is
/// the numbers of the members that hold its points. After an error some of the row may be there. Takes time in proportion to the row.
pub fn append_inner_row(
    out: &mut Vec<u8>,
    number: usize,
    label: &[u32],
    area2: i128,
    clearance: Option<u32>,
) -> Result<(), NoMemory>
    ensures { OnOk result (out.new.items ≡ out.old.items ++ inner_row number label.now area2 clearance) }
{
    append_number(out, number)?;
    out.push(b' ')?;
    out.extend_from_slice(kind_of(label))?;
    out.push(b' ')?;
    append_label(out, label)?;
    out.push(b' ')?;
    append_number(out, area2)?;
    out.push(b' ')?;
    append_clearance(out, clearance)?;
    out.push(b'\n')?;
    Ok(())
}

// The kind that a row names.
fn kind_of(label: &[u32]) -> &'static [u8]
    ensures { result.now ≡ kind_text label.now }
{
    match label {
        [] => b"gap",
        [_] => b"single",
        _ => b"shared",
    }
}

// Appends the members with commas between.
fn append_label(out: &mut Vec<u8>, label: &[u32]) -> Result<(), NoMemory>
    ensures { OnOk result (out.new.items ≡ out.old.items ++ label_text label.now) }
{
    let [first, rest @ ..] = label else {
        out.push(b'-')?;
        return Ok(());
    };
    append_number(out, *first)?;
    for member in rest {
        out.push(b',')?;
        append_number(out, *member)?;
    }
    Ok(())
}

// Appends the clearance, if there is one.
fn append_clearance(out: &mut Vec<u8>, clearance: Option<u32>) -> Result<(), NoMemory>
    ensures { OnOk result (out.new.items ≡ out.old.items ++ clearance_text clearance) }
{
    match clearance {
        Some(clearance) => append_number(out, clearance),
        None => Ok(out.push(b'-')?),
    }
}
