//! `Disk` over files of the system: one that something else wrote, and some that `Disk` writes itself.
//!
//! It prints each case and whether it went as it should. `data/given` holds 10,000 bytes that another program wrote:
//! the byte at place k is 7·k + k/256, modulo 256.
#![tactic(auto)]

ghost use Rattle.std.specs.Prelude.{◌≤◌, length};

use cov_io::{Disk, SlurpError, slurp, spill};
use std::alloc::Global;
use std::process::ExitCode;
use std::{fs, io};

const GIVEN: usize = 10_000;

type Files = Disk<HostRuntime>;

// The bytes are the first so many of `given`.
fn are_given(bytes: &[u8], count: usize) -> bool
    requires { count ≤ GIVEN }
{
    if bytes.len() != count {
        return false;
    }
    for (place, byte) in bytes.iter().enumerate() {
        if *byte as usize != (7 * place + place / 256) % 256 {
            return false;
        }
    }
    true
}

// The file holds the first so many bytes of `given`, to `slurp`.
fn reads_given(alloc: Global, files: &mut Files, name: &str, count: usize) -> bool
    requires { count ≤ GIVEN }
{
    match slurp(alloc, files, name, GIVEN) {
        Ok(bytes) => are_given(&bytes, count),
        Err(_) => false,
    }
}

// The file holds the first so many bytes of `given`, to std's reader.
fn holds_given(rt: &HostRuntime, name: &str, count: usize) -> bool
    requires { count ≤ GIVEN }
{
    match fs::read(rt, name) {
        Ok(bytes) => are_given(&bytes, count),
        Err(_) => false,
    }
}

fn is_too_long(alloc: Global, files: &mut Files, name: &str, limit: usize) -> bool
    requires { limit ≤ GIVEN }
{
    matches!(slurp(alloc, files, name, limit), Err(SlurpError::TooLong))
}

fn is_read_fault(alloc: Global, files: &mut Files, name: &str) -> bool {
    matches!(
        slurp(alloc, files, name, GIVEN),
        Err(SlurpError::ReadFault),
    )
}

// Prints the case, and whether it went as it should.
fn tell(rt: &HostRuntime, case: &str, went: bool) -> io::Result<()> {
    let word = if went { "yes" } else { "no" };
    println!(rt; "{case}: {word}")
}

// Files that something else wrote.
fn read_cases(rt: &HostRuntime, files: &mut Files) -> io::Result<()> {
    let whole = reads_given(rt.alloc(), files, "given", GIVEN);
    tell(rt, "a file that another program wrote is read whole", whole)?;
    let long = is_too_long(rt.alloc(), files, "given", GIVEN - 1);
    tell(rt, "it is too long for a limit of one byte fewer", long)?;
    fs::write(rt, "other", b"abc")?;
    let short = is_too_long(rt.alloc(), files, "other", 2);
    tell(rt, "a file is read as it is now", short)?;
    let missing = is_read_fault(rt.alloc(), files, "none");
    tell(rt, "a name without a file is a read fault", missing)?;
    let folder = is_read_fault(rt.alloc(), files, ".");
    tell(rt, "a folder is a read fault", folder)
}

// Files that `Disk` writes.
fn write_cases(rt: &HostRuntime, files: &mut Files, given: &[u8]) -> io::Result<()>
    requires { 100 ≤ length given.now }
{
    let written = spill(files, "made", given).is_ok();
    let back = reads_given(rt.alloc(), files, "made", GIVEN);
    tell(rt, "a file that is written is read back", written && back)?;
    let held = holds_given(rt, "made", GIVEN);
    tell(rt, "another reader finds the same bytes", held)?;
    let shorter = spill(files, "made", &given[..100]).is_ok();
    let cut = holds_given(rt, "made", 100);
    tell(
        rt,
        "a shorter text leaves nothing of the longer one",
        shorter && cut,
    )?;
    let emptied = spill(files, "made", b"").is_ok();
    let empty = holds_given(rt, "made", 0);
    tell(rt, "no bytes are an empty file", emptied && empty)?;
    let untouched = holds_given(rt, "given", GIVEN);
    tell(rt, "the file that was read is as it was", untouched)?;
    let folder = spill(files, ".", given).is_err();
    tell(rt, "a folder is a write fault", folder)
}

fn main(rt: HostRuntime) -> io::Result<ExitCode> {
    let mut files = Disk::new(rt.clone()?);
    read_cases(&rt, &mut files)?;
    let Ok(given) = slurp(rt.alloc(), &mut files, "given", GIVEN) else {
        return Ok(ExitCode::FAILURE);
    };
    if given.len() < 100 {
        return Ok(ExitCode::FAILURE);
    }
    write_cases(&rt, &mut files, &given)?;
    Ok(ExitCode::SUCCESS)
}
