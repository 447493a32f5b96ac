ghost use Rattle.std.specs.Prelude.{◌≡◌, ℕ, List, ◌++◌, Option, OnOk};
ghost use Rattle.geo_text.specs.Decimal.{IsScale};
ghost use Rattle.cov_write.specs.Written.{separated, position_text};

use crate::number::append_coordinate;
use cov_types::{Coord, NoMemory};

/// What has a written form, at a scale or without one.
pub(crate) trait Written {
    ghost text: { Option ℕ → Self → List ℕ };

    /// Appends the written form; after an error some of it may be there.
    fn append_to(&self, out: &mut Vec<u8>, scale: Option<u8>) -> Result<(), NoMemory>
        requires { IsScale scale }
        ensures { OnOk result (out.new.items ≡ out.old.items ++ text scale self.now) };
}

impl Written for Coord {
    ghost text = { position_text };

    fn append_to(&self, out: &mut Vec<u8>, scale: Option<u8>) -> Result<(), NoMemory> {
        append_coordinate(out, self.x, scale)?;
        out.push(b' ')?;
        append_coordinate(out, self.y, scale)
    }
}

/// Appends the items with `, ` between them.
pub(crate) fn append_separated<T: Written>(
    out: &mut Vec<u8>,
    items: &[T],
    scale: Option<u8>,
) -> Result<(), NoMemory>
    requires { IsScale scale }
    ensures { OnOk result (out.new.items ≡ out.old.items ++ separated (T.text scale) items.now) }
{
    let [first, rest @ ..] = items else {
        return Ok(());
    };
    first.append_to(out, scale)?;
    for item in rest {
        out.extend_from_slice(b", ")?;
        item.append_to(out, scale)?;
    }
    Ok(())
}
