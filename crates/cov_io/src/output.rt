ghost use Rattle.std.specs.Prelude.{◌≡◌, ◌≤◌, ℕ, take, true, false, length, IsTrue, IsOk, OnOk, OnErr};
ghost use Rattle.cov_io.specs.Count.{HasCause};
ghost use Rattle.cov_io.specs.Contents.{HoldsNow, HoldsPrefix, Appends};
ghost use Rattle.cov_io.specs.Frame.{KeepsInput};
ghost use Rattle.cov_io.specs.Spill.{HasSpaceFor};
ghost use Rattle.cov_io.specs.Calls.{IsPromised, SameOutput};

use crate::files::{Failed, Files};

/// The file was not written whole; the count of write faults has risen.
#[derive(Clone, Copy, Debug, PartialEq, Eq)]
pub struct WriteFault;

impl From<Failed> for WriteFault {
    fn from(_e: Failed) -> WriteFault {
        WriteFault
    }
}

// Writes all of these bytes at the end of the current output.
fn write_all<F: Files>(files: &mut F, bytes: &[u8]) -> Result<(), WriteFault>
    requires { (F.state files.old).has_output ≡ true }
    ensures all { OnOk result (IsTrue (F.state files.old).tells_files
        → Appends (F.state files.old).output bytes.now (F.state files.old).files (F.state files.new).files) }
    ensures some { IsTrue (F.state files.old).tells_files → (n : ℕ)
        × Appends (F.state files.old).output (take n bytes.now) (F.state files.old).files (F.state files.new).files }
    ensures output { SameOutput (F.state files.old) (F.state files.new) }
    ensures cause { HasCause (F.state files.old).write_faults (F.state files.new).write_faults result }
    ensures kept { KeepsInput (F.state files.old) (F.state files.new) }
    ensures promised { HasSpaceFor (length bytes.now) (F.state files.old) → IsOk result }
{
    let mut done = 0;
    while done < bytes.len() {
        done += files.write(&bytes[done..])?;
    }
    Ok(())
}

/// Writes these bytes over the file of this name. Takes time in proportion to them, and no memory.
pub fn spill<F: Files>(files: &mut F, name: &str, bytes: &[u8]) -> Result<(), WriteFault>
    ensures held { OnOk result (IsTrue (F.state files.old).tells_files
        → HoldsNow name.now bytes.now (F.state files.old).files (F.state files.new).files) }
    ensures left { OnErr result (IsTrue (F.state files.old).tells_files
        → HoldsPrefix name.now bytes.now (F.state files.old).files (F.state files.new).files) }
    ensures closed { (F.state files.new).has_output ≡ false }
    ensures cause { HasCause (F.state files.old).write_faults (F.state files.new).write_faults result }
    ensures kept { KeepsInput (F.state files.old) (F.state files.new) }
    ensures promised { IsPromised name.now (F.state files.old)
        → length bytes.now ≤ (F.state files.old).room → IsOk result }
{
    files.create(name)?;
    let written = write_all(files, bytes);
    files.close()?;
    written
}
