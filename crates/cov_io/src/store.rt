ghost use Rattle.std.specs.Prelude.{◌≡◌, ◌<◌, ◌≤◌, ◌+◌, ◌-◌, [], map, length, vec_capacity, Some, None, IsTrue, IfOk, IfSome, IfNone};
ghost use Rattle.cov_io.specs.Contents.{HoldsNow, Appends};
ghost use Rattle.cov_io.specs.Entry.{held, are_distinct, entry_of, entry_at, SameNames};

use crate::shelf_file::ShelfFile;
use std::alloc::{AllocError, Global};
use std::marker::Model;

// Files of distinct names, each with memory for `room` bytes.
#[derive(Drop)]
pub(crate) struct Store {
    files: Vec<ShelfFile>,
    room: usize,
}

impl Model for Store {
    ghost use Rattle.std.specs.Prelude.{◌≤◌, map, vec_capacity, IsTrue, All};
    ghost use Rattle.cov_io.specs.Entry.{Stored, are_distinct, entry_of};

    ghost Value = { Stored };

    ghost view = { λ s. record { entries = map entry_of s.files.items; room = s.room } };

    ghost invariant = { λ s. IsTrue (are_distinct (map entry_of s.files.items)) × All (λ f. s.room ≤ vec_capacity f.bytes) s.files.items };
}

// The file with memory for `room` bytes.
fn with_room(file: ShelfFile, room: usize) -> Result<ShelfFile, AllocError>
    ensures same { IfOk result (λ f. entry_of f ≡ entry_of file) }
    ensures room { IfOk result (λ f. room ≤ vec_capacity f.bytes) }
{
    let ShelfFile { name, mut bytes } = file;
    let missing = room.saturating_sub(bytes.len());
    bytes.reserve(missing)?;
    Ok(ShelfFile { name, bytes })
}

impl Store {
    pub(crate) fn new(
        alloc: Global,
        files: Vec<ShelfFile>,
        room: usize,
    ) -> Result<Store, AllocError>
        requires { IsTrue (are_distinct (map entry_of files.items)) }
        ensures { IfOk result (λ s. s ≡ record { entries = map entry_of files.items; room = room }) }
    {
        let mut roomy = Vec::new(alloc);
        for file in files {
            roomy.push(with_room(file, room)?)?;
        }
        Ok(Store { files: roomy, room })
    }

    pub(crate) fn find(&self, name: &str) -> Option<usize>
        ensures found { IfSome result (λ i. (i < length self.now.entries) × ((entry_at self.now.entries i).name ≡ name.now)) }
        ensures held { IfSome result (λ i. held self.now.entries name.now ≡ Some (entry_at self.now.entries i).bytes) }
        ensures missing { IfNone result (held self.now.entries name.now ≡ None) }
    {
        for i in 0..self.files.len() {
            if self.files[i].name.as_str() == name {
                return Some(i);
            }
        }
        None
    }

    pub(crate) fn bytes(&self, i: usize) -> &[u8]
        requires { i < length self.now.entries }
        ensures value { result.now ≡ (entry_at self.now.entries i).bytes }
        ensures held { held self.now.entries (entry_at self.now.entries i).name ≡ Some (entry_at self.now.entries i).bytes }
    {
        self.files[i].bytes.as_slice()
    }

    // How many bytes the file can take yet.
    pub(crate) fn free(&self, i: usize) -> usize
        requires { i < length self.now.entries }
        ensures count { result ≡ self.now.room - length (entry_at self.now.entries i).bytes }
        ensures held { held self.now.entries (entry_at self.now.entries i).name ≡ Some (entry_at self.now.entries i).bytes }
    {
        self.room.saturating_sub(self.files[i].bytes.len())
    }

    pub(crate) fn clear(&mut self, i: usize)
        requires { i < length self.old.entries }
        ensures emptied { HoldsNow (entry_at self.old.entries i).name [] (held self.old.entries) (held self.new.entries) }
        ensures names { SameNames self.old self.new }
    {
        self.files[i].bytes.clear();
    }

    pub(crate) fn append(&mut self, i: usize, piece: &[u8])
        requires at { i < length self.old.entries }
        requires fits { length (entry_at self.old.entries i).bytes + length piece.now ≤ self.old.room }
        ensures appended { Appends (entry_at self.old.entries i).name piece.now (held self.old.entries) (held self.new.entries) }
        ensures names { SameNames self.old self.new }
    {
        self.files[i].bytes.extend_from_slice(piece).unwrap();
    }
}
