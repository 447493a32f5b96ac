ghost use Rattle.std.specs.Prelude.{◌≡◌, ◌<◌, ◌⊎◌, true, false, length, IsTrue, IsOk, IfOk, OnOk, OnErr, []};
ghost use Rattle.cov_io.specs.State.{State, IsTelling};
ghost use Rattle.cov_io.specs.Count.{HasCause};
ghost use Rattle.cov_io.specs.Contents.{SameFiles};
ghost use Rattle.cov_io.specs.Frame.{KeepsOutput, KeepsInput};
ghost use Rattle.cov_io.specs.Calls.{IsOpened, IsRead, IsCreated, IsWritten, SameOutput, IsPromised, HasSpace};

/// A call of a files object failed; its count of faults has risen.
#[derive(Clone, Copy, Debug, PartialEq, Eq)]
pub struct Failed;

/// Files by name, with one current input and one current output.
///
/// What is said of contents and of the output's name holds where the object tells them. Nothing is said
/// of what the current input has left after a call that failed, a `create` or a `write`.
pub trait Files {
    ghost state: { Self → State };

    /// Makes the file of this name the current input, read from its beginning.
    fn open_input(&mut self, name: &str) -> Result<(), Failed>
        ensures opened { OnOk result (IsOpened name.now (state self.old) (state self.new)) }
        ensures refused { OnErr result ((state self.new).has_input ≡ false) }
        ensures cause { HasCause (state self.old).read_faults (state self.new).read_faults result }
        ensures kept { KeepsOutput (state self.old) (state self.new) }
        ensures promised { IsPromised name.now (state self.old) → IsOk result };

    /// Reads the next bytes of the current input into the front of the buffer, and answers how many.
    fn read(&mut self, buf: &mut [u8]) -> Result<usize, Failed>
        requires some { 0 < length buf.old }
        requires opened { (state self.old).has_input ≡ true }
        ensures read { IfOk result (λ n. IsRead n buf.new (state self.old) (state self.new)) }
        ensures present { (state self.new).has_input ≡ true }
        ensures cause { HasCause (state self.old).read_faults (state self.new).read_faults result }
        ensures kept { KeepsOutput (state self.old) (state self.new) }
        ensures promised { IsTrue (state self.old).tells_room → IsOk result };

    /// Makes the file of this name the current output, and empties it.
    fn create(&mut self, name: &str) -> Result<(), Failed>
        ensures created { OnOk result (IsCreated name.now (state self.old) (state self.new)) }
        ensures refused { OnErr result ((state self.new).has_output ≡ false) }
        ensures left { OnErr result (IsTrue (state self.old).tells_files
            → SameFiles (state self.old).files (state self.new).files) }
        ensures cause { HasCause (state self.old).write_faults (state self.new).write_faults result }
        ensures kept { KeepsInput (state self.old) (state self.new) }
        ensures promised { IsPromised name.now (state self.old) → IsOk result };

    /// Writes the front of the piece at the end of the current output, and answers how many bytes.
    fn write(&mut self, piece: &[u8]) -> Result<usize, Failed>
        requires some { 0 < length piece.now }
        requires created { (state self.old).has_output ≡ true }
        ensures written { IfOk result (λ n. IsWritten n piece.now (state self.old) (state self.new)) }
        ensures output { SameOutput (state self.old) (state self.new) }
        ensures left { OnErr result (IsTrue (state self.old).tells_files
            → SameFiles (state self.old).files (state self.new).files) }
        ensures cause { HasCause (state self.old).write_faults (state self.new).write_faults result }
        ensures kept { KeepsInput (state self.old) (state self.new) }
        ensures promised { HasSpace (state self.old) → IsOk result };

    /// Ends the current output; it is none any more, whatever the answer.
    fn close(&mut self) -> Result<(), Failed>
        requires created { (state self.old).has_output ≡ true }
        ensures closed { (state self.new).has_output ≡ false }
        ensures left { IsTrue (state self.old).tells_files
            → SameFiles (state self.old).files (state self.new).files }
        ensures cause { HasCause (state self.old).write_faults (state self.new).write_faults result }
        ensures kept { KeepsInput (state self.old) (state self.new) }
        ensures promised { IsTrue (state self.old).tells_room → IsOk result };

    ghost telling: { (files : Self) → IsTelling (state files) };
}
