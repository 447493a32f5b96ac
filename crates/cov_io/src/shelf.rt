ghost use Rattle.std.specs.Prelude.{◌≡◌, ◌⊎◌, ◌<◌, ◌≤◌, ◌-◌, ◌||◌, min, true, false, [], map, length, Some, None, IsTrue, IsOk, IfOk, OnOk, OnErr, IfSome, IfNone, is_err, is_none, nat_le, if◌then◌else◌, slice_range, take, drop};
ghost use Rattle.std.specs.Option.{unwrap_or};
ghost use Rattle.cov_io.specs.Count.{HasCause, one_more};
ghost use Rattle.cov_io.specs.Contents.{SameFiles, HoldsNow};
ghost use Rattle.cov_io.specs.Frame.{KeepsOutput, KeepsInput};
ghost use Rattle.cov_io.specs.Calls.{IsOpened, IsRead, IsCreated, IsWritten, SameOutput, IsPromised, HasSpace};
ghost use Rattle.cov_io.specs.Plan.{is_named};
ghost use Rattle.cov_io.specs.Entry.{held, are_distinct, entry_of};
ghost use Rattle.cov_io.specs.Shelf.{shelf_state, output_bytes, IsCall};
ghost use Rattle.cov_io.specs.declared.fail.Call.TheVariants.{OpenInput, Read, Create, Write, Close};

use crate::fail::{Call, Fail};
use crate::faults::raised;
use crate::files::{Failed, Files};
use crate::plan::Plan;
use crate::shelf_file::ShelfFile;
use crate::store::Store;
use cov_types::NoMemory;
use std::alloc::Global;
use std::marker::Model;

// The current input: which file it is, and how many of its bytes were read.
#[derive(Clone, Copy)]
struct Cursor {
    file: usize,
    at: usize,
}

/// Files in memory, for trying a program with every fault in turn.
///
/// It tells what its files hold, and its room where no call is to fail. Each call moves at most `piece` bytes.
#[derive(Drop)]
pub struct Shelf {
    store: Store,
    plan: Plan,
    piece: usize,
    read_faults: u64,
    write_faults: u64,
    input: Option<Cursor>,
    output: Option<usize>,
}

impl Model for Shelf {
    ghost use Rattle.std.specs.Prelude.{◌≤◌, ◌<◌, length, drop};
    ghost use Rattle.std.specs.Option.{option_map, ForSome};
    ghost use Rattle.cov_io.specs.Entry.{entry_at};
    ghost use Rattle.cov_io.specs.Shelf.{Shelved};

    ghost Value = { Shelved };

    ghost view = { λ s. record {
      stored = s.store;
      planned = s.plan;
      piece = s.piece;
      read_faults = s.read_faults;
      write_faults = s.write_faults;
      left = option_map (λ c. drop c.at (entry_at s.store.entries c.file).bytes) s.input;
      output = option_map (λ i. (entry_at s.store.entries i).name) s.output;
    } };

    ghost invariant = { λ s. (1 ≤ s.piece)
        × ForSome s.input (λ c. c.file < length s.store.entries)
        × ForSome s.output (λ i. i < length s.store.entries) };
}

impl Shelf {
    /// A shelf of these files, which takes the memory for `room` bytes in each of them here and no more later.
    pub fn new(
        alloc: Global,
        files: Vec<ShelfFile>,
        fails: Vec<Fail>,
        piece: usize,
        room: usize,
    ) -> Result<Shelf, NoMemory>
        requires distinct { IsTrue (are_distinct (map entry_of files.items)) }
        requires some { 1 ≤ piece }
        ensures { IfOk result (λ shelf. shelf ≡ record {
          stored = record { entries = map entry_of files.items; room = room };
          planned = record { fails = fails.items; opened = 0; read = 0; created = 0; written = 0; closed = 0 };
          piece = piece;
          read_faults = 0;
          write_faults = 0;
          left = None;
          output = None;
        }) }
    {
        Ok(Shelf {
            store: Store::new(alloc, files, room)?,
            plan: Plan::new(fails),
            piece,
            read_faults: 0,
            write_faults: 0,
            input: None,
            output: None,
        })
    }

    /// What the file of this name holds. Takes time in proportion to the files.
    pub fn held(&self, name: &str) -> Option<&[u8]>
        ensures held { IfSome result (λ bytes. held self.now.stored.entries name.now ≡ Some bytes.now) }
        ensures missing { IfNone result (held self.now.stored.entries name.now ≡ None) }
    {
        let file = self.store.find(name)?;
        Some(self.store.bytes(file))
    }
}

// What is left of these bytes after `at` of them.
fn rest(bytes: &[u8], at: usize) -> &[u8]
    ensures { result.now ≡ drop at bytes.now }
{
    if at < bytes.len() { &bytes[at..] } else { &[] }
}

// Copies what fits to the front of the buffer, at most `piece` bytes, and answers how many.
fn copy(left: &[u8], buf: &mut [u8], piece: usize) -> usize
    ensures count { result ≡ min (min (length left.now) (length buf.old)) piece }
    ensures bytes { take result buf.new ≡ take result left.now }
{
    let count = left.len().min(buf.len()).min(piece);
    buf[..count].copy_from_slice(&left[..count]);
    count
}

impl Files for Shelf {
    ghost use Rattle.std.specs.Prelude.{refl};
    ghost use Rattle.cov_io.specs.Shelf.{shelf_state};

    ghost state = { shelf_state };

    fn open_input(&mut self, name: &str) -> Result<(), Failed>
        ensures opened { OnOk result (IsOpened name.now (shelf_state self.old) (shelf_state self.new)) }
        ensures refused { OnErr result ((shelf_state self.new).has_input ≡ false) }
        ensures cause { HasCause (shelf_state self.old).read_faults (shelf_state self.new).read_faults result }
        ensures kept { KeepsOutput (shelf_state self.old) (shelf_state self.new) }
        ensures promised { IsPromised name.now (shelf_state self.old) → IsOk result }
        ensures fails { is_err result ≡ (is_named self.old.planned OpenInput || is_none (held self.old.stored.entries name.now)) }
        ensures counts { self.new.read_faults ≡ (if is_err result then one_more self.old.read_faults else self.old.read_faults) }
        ensures call { IsCall OpenInput self.old self.new }
    {
        let is_failing = self.plan.next(Call::OpenInput);
        match self.store.find(name) {
            Some(file) if !is_failing => {
                self.input = Some(Cursor { file, at: 0 });
                Ok(())
            }
            _ => {
                self.input = None;
                self.read_faults = raised(self.read_faults);
                Err(Failed)
            }
        }
    }

    fn read(&mut self, buf: &mut [u8]) -> Result<usize, Failed>
        requires some { 0 < length buf.old }
        requires opened { (shelf_state self.old).has_input ≡ true }
        ensures read { IfOk result (λ n. IsRead n buf.new (shelf_state self.old) (shelf_state self.new)) }
        ensures present { (shelf_state self.new).has_input ≡ true }
        ensures cause { HasCause (shelf_state self.old).read_faults (shelf_state self.new).read_faults result }
        ensures kept { KeepsOutput (shelf_state self.old) (shelf_state self.new) }
        ensures promised { IsTrue (shelf_state self.old).tells_room → IsOk result }
        ensures fails { is_err result ≡ is_named self.old.planned Read }
        ensures counts { self.new.read_faults ≡ (if is_err result then one_more self.old.read_faults else self.old.read_faults) }
        ensures call { IsCall Read self.old self.new }
        ensures most { IfOk result (λ n. n ≡ min (min (length (unwrap_or self.old.left [])) (length buf.old)) self.old.piece) }
        ensures left { OnErr result (self.new.left ≡ self.old.left) }
    {
        if self.plan.next(Call::Read) {
            self.read_faults = raised(self.read_faults);
            return Err(Failed);
        }
        match self.input {
            Some(Cursor { file, at }) => {
                let count = copy(rest(self.store.bytes(file), at), buf, self.piece);
                self.input = Some(Cursor {
                    file,
                    at: at + count,
                });
                Ok(count)
            }
            None => unreachable!(),
        }
    }

    fn create(&mut self, name: &str) -> Result<(), Failed>
        ensures created { OnOk result (IsCreated name.now (shelf_state self.old) (shelf_state self.new)) }
        ensures refused { OnErr result ((shelf_state self.new).has_output ≡ false) }
        ensures left { OnErr result (SameFiles (shelf_state self.old).files (shelf_state self.new).files) }
        ensures cause { HasCause (shelf_state self.old).write_faults (shelf_state self.new).write_faults result }
        ensures kept { KeepsInput (shelf_state self.old) (shelf_state self.new) }
        ensures promised { IsPromised name.now (shelf_state self.old) → IsOk result }
        ensures fails { is_err result ≡ (is_named self.old.planned Create || is_none (held self.old.stored.entries name.now)) }
        ensures counts { self.new.write_faults ≡ (if is_err result then one_more self.old.write_faults else self.old.write_faults) }
        ensures call { IsCall Create self.old self.new }
    {
        let is_failing = self.plan.next(Call::Create);
        match self.store.find(name) {
            Some(file) if !is_failing => {
                self.store.clear(file);
                self.output = Some(file);
                Ok(())
            }
            _ => {
                self.output = None;
                self.write_faults = raised(self.write_faults);
                Err(Failed)
            }
        }
    }

    fn write(&mut self, piece: &[u8]) -> Result<usize, Failed>
        requires some { 0 < length piece.now }
        requires created { (shelf_state self.old).has_output ≡ true }
        ensures written { IfOk result (λ n. IsWritten n piece.now (shelf_state self.old) (shelf_state self.new)) }
        ensures output { SameOutput (shelf_state self.old) (shelf_state self.new) }
        ensures left { OnErr result (SameFiles (shelf_state self.old).files (shelf_state self.new).files) }
        ensures cause { HasCause (shelf_state self.old).write_faults (shelf_state self.new).write_faults result }
        ensures kept { KeepsInput (shelf_state self.old) (shelf_state self.new) }
        ensures promised { HasSpace (shelf_state self.old) → IsOk result }
        ensures fails { is_err result ≡ (is_named self.old.planned Write || nat_le self.old.stored.room (length (output_bytes self.old))) }
        ensures counts { self.new.write_faults ≡ (if is_err result then one_more self.old.write_faults else self.old.write_faults) }
        ensures call { IsCall Write self.old self.new }
        ensures most { IfOk result (λ n. n ≡ min (min (length piece.now) (self.old.stored.room - length (output_bytes self.old))) self.old.piece) }
    {
        let is_failing = self.plan.next(Call::Write);
        match self.output {
            Some(file) => {
                let free = self.store.free(file);
                if is_failing || free == 0 {
                    self.write_faults = raised(self.write_faults);
                    return Err(Failed);
                }
                let count = piece.len().min(free).min(self.piece);
                self.store.append(file, &piece[..count]);
                Ok(count)
            }
            None => unreachable!(),
        }
    }

    fn close(&mut self) -> Result<(), Failed>
        requires created { (shelf_state self.old).has_output ≡ true }
        ensures closed { (shelf_state self.new).has_output ≡ false }
        ensures left { SameFiles (shelf_state self.old).files (shelf_state self.new).files }
        ensures cause { HasCause (shelf_state self.old).write_faults (shelf_state self.new).write_faults result }
        ensures kept { KeepsInput (shelf_state self.old) (shelf_state self.new) }
        ensures promised { IsTrue (shelf_state self.old).tells_room → IsOk result }
        ensures fails { is_err result ≡ is_named self.old.planned Close }
        ensures counts { self.new.write_faults ≡ (if is_err result then one_more self.old.write_faults else self.old.write_faults) }
        ensures call { IsCall Close self.old self.new }
    {
        self.output = None;
        if self.plan.next(Call::Close) {
            self.write_faults = raised(self.write_faults);
            Err(Failed)
        } else {
            Ok(())
        }
    }

    ghost telling = { λ _. record { output = λ t. t; left = λ t. t; files = λ _. refl } };
}
