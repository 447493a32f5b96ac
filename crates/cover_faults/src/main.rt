//! The program `cover_faults`: it hands its words and the disk to the call `map_faults`, prints what came of it and ends with its
//! status.
#![tactic(auto)]

use cov_io::Disk;
use cov_types::NoMemory;
use cover_cli::{Outcome, map_faults, message, status};
use std::alloc::{AllocError, Global};
use std::env;
use std::io::{self, ErrorKind};
use std::process::ExitCode;

// The words after the program's name.
fn words(rt: &HostRuntime) -> io::Result<Vec<String>> {
    let mut words = Vec::new(rt.alloc());
    for word in env::args(rt)?.skip(1) {
        words.push(word)?;
    }
    Ok(words)
}

// The line that tells the outcome.
fn line(alloc: Global, outcome: &Outcome) -> Result<String, NoMemory> {
    match outcome {
        Outcome::Usage => Ok(String::from_str(
            alloc,
            "usage: cover_faults IN OUT [--gap W] [--scale K]",
        )?),
        _ => message(alloc, outcome),
    }
}

// Runs the program on its words, and answers its line, if there is memory for it, and its status.
fn run(rt: &HostRuntime, words: &[String]) -> Result<(Option<String>, u8), AllocError> {
    let disk = rt.clone()?;
    let outcome = map_faults(rt.alloc(), words, &mut Disk::new(disk));
    Ok((line(rt.alloc(), &outcome).ok(), status(&outcome)))
}

// The line of the program and its status; a word that is not UTF-8 makes it run on none.
fn ended(rt: &HostRuntime) -> Result<(Option<String>, u8), AllocError> {
    match words(rt) {
        Ok(words) => run(rt, &words),
        Err(e) if e.kind() == ErrorKind::OutOfMemory => Err(AllocError),
        Err(_) => run(rt, &[]),
    }
}

fn main(rt: HostRuntime) -> ExitCode {
    let (line, status) = match ended(&rt) {
        Ok(ended) => ended,
        Err(_) => (None, status(&Outcome::NoMemory)),
    };
    // A print that fails changes no status.
    let _ = match line {
        Some(line) => println!(rt; "{line}"),
        None => println!(rt; "no memory"),
    };
    ExitCode::from(status)
}
