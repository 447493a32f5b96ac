//! The program `cover`: it hands its words, the disk and two rules to the call `cover_with`, prints what came of it and ends
//! with its status. The rules are `even-share` and `border-then-share`.
#![tactic(auto)]

use cov_io::Disk;
use cov_rules::{Chain, ClearBorder, EvenShare, Hired, NamedRule, Part};
use cover_cli::{Outcome, closing, cover_with, status};
use std::alloc::{AllocError, Global};
use std::env;
use std::io::{self, ErrorKind};
use std::process::ExitCode;

// The words after the program's name.
fn words(rt: &HostRuntime) -> io::Result<Vec<String>> {
    let mut words = Vec::new(rt.alloc());
    for word in env::args(rt)?.skip(1) {
        words.push(word)?;
    }
    Ok(words)
}

// A chain of a clear border and an even share.
fn border_then_share(alloc: Global) -> Result<Chain, AllocError> {
    let mut parts = Vec::new(alloc);
    parts.push(Part::Clear(ClearBorder::new()))?;
    parts.push(Part::Even(EvenShare::new(alloc)))?;
    Ok(Chain::new(parts))
}

// Runs the program on its words, with two rules handed in, and answers its lines, if there is memory for them, and its status.
fn run(rt: &HostRuntime, words: &[String]) -> Result<(Option<String>, u8), AllocError> {
    let alloc = rt.alloc();
    let disk = rt.clone()?;
    let mut rules = Vec::new(alloc);
    rules.push(NamedRule {
        name: String::from_str(alloc, "even-share")?,
        rule: Hired::new(Box::new(alloc, EvenShare::new(alloc))?),
    })?;
    rules.push(NamedRule {
        name: String::from_str(alloc, "border-then-share")?,
        rule: Hired::new(Box::new(alloc, border_then_share(alloc)?)?),
    })?;
    let report = cover_with(alloc, words, &mut Disk::new(disk), rules);
    let status = status(&report.outcome);
    Ok((closing(alloc, report).ok(), status))
}

// The lines of the program and its status; a word that is not UTF-8 makes it run on none.
fn ended(rt: &HostRuntime) -> Result<(Option<String>, u8), AllocError> {
    match words(rt) {
        Ok(words) => run(rt, &words),
        Err(e) if e.kind() == ErrorKind::OutOfMemory => Err(AllocError),
        Err(_) => run(rt, &[]),
    }
}

fn main(rt: HostRuntime) -> ExitCode {
    let (lines, status) = match ended(&rt) {
        Ok(ended) => ended,
        Err(_) => (None, status(&Outcome::NoMemory)),
    };
    // A print that fails changes no status.
    let _ = match lines {
        Some(lines) => println!(rt; "{lines}"),
        None => println!(rt; "no memory"),
    };
    ExitCode::from(status)
}
