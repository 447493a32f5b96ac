ghost use Rattle.std.specs.Prelude.{◌≡◌, ◌≤◌, IfOk};
ghost use Rattle.cov_io.specs.Entry.{entry_of};
ghost use Rattle.cover_cases.specs.Files.{shelf_of as shelf_with};

use cov_io::{Fail, Shelf, ShelfFile};
use cov_types::NoMemory;
use std::alloc::Global;

/// What `out` holds before the program runs.
pub const BEFORE: &str = "as it was\n";

/// A file of this name that holds the bytes.
pub fn file(alloc: Global, name: &str, bytes: &[u8]) -> Result<ShelfFile, NoMemory>
    ensures { IfOk result (λ f. entry_of f ≡ record { name = name.now; bytes = bytes.now }) }
{
    Ok(ShelfFile {
        name: String::from_str(alloc, name)?,
        bytes: bytes.to_vec(alloc)?,
    })
}

/// A shelf with the file `in`, which holds the input, and the file `out`.
pub fn shelf_of(
    alloc: Global,
    input: &[u8],
    fails: &[Fail],
    piece: usize,
    room: usize,
) -> Result<Shelf, NoMemory>
    requires { 1 ≤ piece }
    ensures { IfOk result (λ shelf. shelf ≡ shelf_with input.now fails.now piece room) }
{
    let mut files = Vec::new(alloc);
    files.push(file(alloc, "in", input)?)?;
    files.push(file(alloc, "out", BEFORE.as_bytes())?)?;
    let fails = fails.to_vec(alloc)?;
    Ok(Shelf::new(alloc, files, fails, piece, room)?)
}
