ghost use Rattle.std.specs.Prelude.{◌≡◌, false};
ghost use Rattle.cov_io.specs.State.{untold};

use crate::faults::raised;
use crate::files::{Failed, Files};
use std::io::{Read, Write};
use std::{fs, rt};

/// The files of the system, through the runtime that `main` hands in.
///
/// It tells no contents and no room. It counts each error of the system, and a write that takes nothing.
#[derive(Drop)]
pub struct Disk<R: rt::Files + Drop> {
    rt: R,
    input: Option<R::File>,
    output: Option<R::File>,
    read_faults: u64,
    write_faults: u64,
}

impl<R: rt::Files + Drop> Disk<R> {
    /// No file is open yet. Takes constant time.
    pub fn new(rt: R) -> Disk<R>
        ensures { ⟦<Disk<R> as Files>⟧.state result ≡ untold 0 0 false false }
    {
        Disk {
            rt,
            input: None,
            output: None,
            read_faults: 0,
            write_faults: 0,
        }
    }
}

impl<R: rt::Files + Drop> Files for Disk<R> {
    ghost use Rattle.std.specs.Prelude.{is_some};

    ghost state = { λ disk. untold disk.read_faults disk.write_faults (is_some disk.input) (is_some disk.output) };

    fn open_input(&mut self, name: &str) -> Result<(), Failed> {
        if let Ok(file) = fs::open(&self.rt, name) {
            self.input = Some(file);
            Ok(())
        } else {
            self.input = None;
            self.read_faults = raised(self.read_faults);
            Err(Failed)
        }
    }

    fn read(&mut self, buf: &mut [u8]) -> Result<usize, Failed> {
        match &mut self.input {
            Some(file) => {
                if let Ok(got) = file.read(buf) {
                    Ok(got)
                } else {
                    self.read_faults = raised(self.read_faults);
                    Err(Failed)
                }
            }
            None => unreachable!(),
        }
    }

    fn create(&mut self, name: &str) -> Result<(), Failed> {
        if let Ok(file) = fs::create(&self.rt, name) {
            self.output = Some(file);
            Ok(())
        } else {
            self.output = None;
            self.write_faults = raised(self.write_faults);
            Err(Failed)
        }
    }

    fn write(&mut self, piece: &[u8]) -> Result<usize, Failed> {
        match &mut self.output {
            Some(file) => {
                let put = file.write(piece).unwrap_or(0);
                if put > 0 {
                    Ok(put)
                } else {
                    self.write_faults = raised(self.write_faults);
                    Err(Failed)
                }
            }
            None => unreachable!(),
        }
    }

    fn close(&mut self) -> Result<(), Failed> {
        self.output = None;
        Ok(())
    }

    ghost telling = { λ _. record { output = λ t. t; left = λ t. t; files = λ t. t } };
}
