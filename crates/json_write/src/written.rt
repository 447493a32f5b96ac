ghost use Rattle.std.specs.Prelude.{◌≡◌, ℕ, List, ◌++◌, OnOk};
ghost use Rattle.std.specs.Fmt.{signed_decimal};
ghost use Rattle.json_write.specs.Text.{separated, position_text};

use cov_types::{Coord, NoMemory};
use itoa::Buffer;

/// What has a written form.
pub(crate) trait Written {
    ghost text: { Self → List ℕ };

    /// Appends the written form; after an error some of it may be there.
    fn append_to(&self, out: &mut Vec<u8>) -> Result<(), NoMemory>
        ensures { OnOk result (out.new.items ≡ out.old.items ++ text self.now) };
}

impl Written for Coord {
    ghost text = { position_text };

    fn append_to(&self, out: &mut Vec<u8>) -> Result<(), NoMemory> {
        out.push(b'[')?;
        append_number(out, self.x)?;
        out.push(b',')?;
        append_number(out, self.y)?;
        out.push(b']')?;
        Ok(())
    }
}

fn append_number(out: &mut Vec<u8>, number: i32) -> Result<(), NoMemory>
    ensures { OnOk result (out.new.items ≡ out.old.items ++ signed_decimal number) }
{
    let mut digits = Buffer::new();
    out.extend_from_slice(digits.format(number).as_bytes())?;
    Ok(())
}

/// Appends the items with commas between them.
pub(crate) fn append_separated<T: Written>(out: &mut Vec<u8>, items: &[T]) -> Result<(), NoMemory>
    ensures { OnOk result (out.new.items ≡ out.old.items ++ separated T.text items.now) }
{
    let [first, rest @ ..] = items else {
        return Ok(());
    };
    first.append_to(out)?;
    for item in rest {
        out.push(b',')?;
        item.append_to(out)?;
    }
    Ok(())
}
