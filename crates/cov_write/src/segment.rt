ghost use Rattle.std.specs.Prelude.{◌≡◌, ◌++◌, map, OnOk, IfOk};
ghost use Rattle.geo_text.specs.Decimal.{IsScale};
ghost use Rattle.cov_write.specs.Written.{segment_text, segments_line, lines_text};

use crate::written::{Written, append_separated};
use cov_types::{NoMemory, Seg};
use std::alloc::Global;

impl Written for Seg {
    ghost text = { segment_text };

    fn append_to(&self, out: &mut Vec<u8>, scale: Option<u8>) -> Result<(), NoMemory> {
        out.push(b'(')?;
        self.lo.append_to(out, scale)?;
        out.extend_from_slice(b", ")?;
        self.hi.append_to(out, scale)?;
        out.push(b')')?;
        Ok(())
    }
}

fn append_segments_line(
    out: &mut Vec<u8>,
    segments: &[Seg],
    scale: Option<u8>,
) -> Result<(), NoMemory>
    requires { IsScale scale }
    ensures { OnOk result (out.new.items ≡ out.old.items ++ segments_line scale segments.now) }
{
    if segments.is_empty() {
        out.extend_from_slice(b"MULTILINESTRING EMPTY\n")?;
        return Ok(());
    }
    out.extend_from_slice(b"MULTILINESTRING (")?;
    append_separated(out, segments, scale)?;
    out.extend_from_slice(b")\n")?;
    Ok(())
}

/// One line for each list of segments, which stay in their order, with numbers as in `text_of`.
/// It fails only where memory runs out. Takes time and memory in proportion to the text.
pub fn lines_of(alloc: Global, lists: &[Vec<Seg>], scale: Option<u8>) -> Result<Vec<u8>, NoMemory>
    requires { IsScale scale }
    ensures { IfOk result (λ v. v.items ≡ lines_text scale (map (λ l. l.items) lists.now)) }
{
    let mut out = Vec::new(alloc);
    for segments in lists {
        append_segments_line(&mut out, segments, scale)?;
    }
    Ok(out)
}
