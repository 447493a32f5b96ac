ghost use Rattle.std.specs.Prelude.{◌≡◌, ◌++◌, ◌<◌, ◌^◌, ◌≤◌, OnOk};
ghost use Rattle.geo_text.specs.Decimal.{IsScale};
ghost use Rattle.cov_write.specs.Written.{number_text, sign_text, fraction_text};

use cov_types::NoMemory;
use itoa::{Buffer, Integer};

/// Appends a number in decimal. After an error some of it may be there. Takes constant time.
pub fn append_number<I: Integer>(out: &mut Vec<u8>, number: I) -> Result<(), NoMemory>
    ensures { OnOk result (out.new.items ≡ out.old.items ++ I.text number) }
{
    let mut digits = Buffer::new();
    out.extend_from_slice(digits.format(number).as_bytes())?;
    Ok(())
}

/// Appends a number of the grid; at a scale, from 0 to 7, the decimal that times that power of ten is the number: a number of JSON too.
/// After an error some of it may be there. Takes constant time.
pub fn append_coordinate(out: &mut Vec<u8>, number: i32, scale: Option<u8>) -> Result<(), NoMemory>
    requires { IsScale scale }
    ensures { OnOk result (out.new.items ≡ out.old.items ++ number_text scale number) }
{
    match scale {
        None => append_number(out, number),
        Some(places) => append_scaled(out, number, places),
    }
}

fn append_scaled(out: &mut Vec<u8>, number: i32, places: u8) -> Result<(), NoMemory>
    requires { places ≤ 7 }
    ensures { OnOk result (out.new.items ≡ out.old.items ++ number_text (Some places) number) }
{
    let unit = 10u32.pow(u32::from(places));
    let size = number.unsigned_abs();
    if number < 0 {
        out.push(b'-')?;
    }
    append_number(out, size / unit)?;
    append_fraction(out, size % unit, places)
}

/// Appends what remains of a size by `10^places`.
fn append_fraction(out: &mut Vec<u8>, remainder: u32, places: u8) -> Result<(), NoMemory>
    requires few { places ≤ 7 }
    requires below { remainder < 10 ^ places }
    ensures { OnOk result (out.new.items ≡ out.old.items ++ fraction_text places remainder) }
{
    if remainder == 0 {
        return Ok(());
    }
    out.push(b'.')?;
    let mut rest = remainder;
    let mut left = places;
    while rest > 0 {
        left -= 1;
        let unit = 10u32.pow(u32::from(left));
        out.push(b'0' + (rest / unit) as u8)?;
        rest %= unit;
    }
    Ok(())
}
