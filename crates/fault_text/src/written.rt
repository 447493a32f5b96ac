ghost use Rattle.std.specs.Prelude.{◌≡◌, ℕ, List, ◌++◌, Option, OnOk};
ghost use Rattle.std.specs.Fmt.{decimal};
ghost use Rattle.geo_text.specs.Decimal.{IsScale};
ghost use Rattle.json_write.specs.Text.{separated};

use cov_types::NoMemory;
use cov_write::append_number;

/// What has a written form, at a scale or without one.
pub(crate) trait Written {
    ghost text: { Option ℕ → Self → List ℕ };

    /// Appends the written form; after an error some of it may be there.
    fn append_to(&self, out: &mut Vec<u8>, scale: Option<u8>) -> Result<(), NoMemory>
        requires { IsScale scale }
        ensures { OnOk result (out.new.items ≡ out.old.items ++ text scale self.now) };
}

/// The number of a member, which has no scale.
impl Written for u32 {
    ghost text = { λ scale member. decimal member };

    fn append_to(&self, out: &mut Vec<u8>, _scale: Option<u8>) -> Result<(), NoMemory> {
        append_number(out, *self)
    }
}

/// Appends the items with commas between them.
pub(crate) fn append_separated<T: Written>(
    out: &mut Vec<u8>,
    items: &[T],
    scale: Option<u8>,
) -> Result<(), NoMemory>
    requires { IsScale scale }
    ensures { OnOk result (out.new.items ≡ out.old.items ++ separated (T.text scale) items.now) }
{
    let [first, rest @ ..] = items else {
        return Ok(());
    };
    first.append_to(out, scale)?;
    for item in rest {
        out.push(b',')?;
        item.append_to(out, scale)?;
    }
    Ok(())
}
