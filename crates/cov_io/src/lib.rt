//! Files and their faults: a trait for what a program does with files, reading a whole file and writing a
//! whole file over it, and two objects that have it, one on disk and one in memory.
//!
//! Its promise: `slurp` and `spill` answer a fault only where its count rose. Over a files object that tells its
//! contents, `slurp` answers all that the file holds, or that it is too long, and `spill` leaves the file with all of
//! the bytes, or at a fault as it was or with the first of them; both leave every other file alone. A `Shelf` tells its
//! contents. `Disk` tells none, so what it does with the files of the system is tested and not proved.
#![tactic(auto)]

mod disk;
mod fail;
mod faults;
mod files;
mod input;
mod output;
mod plan;
mod shelf;
mod shelf_file;
mod store;

pub use disk::Disk;
pub use fail::{Call, Fail};
pub use files::{Failed, Files};
pub use input::{SlurpError, slurp};
pub use output::{WriteFault, spill};
pub use shelf::Shelf;
pub use shelf_file::ShelfFile;

#[cfg(test)]
mod tests;
