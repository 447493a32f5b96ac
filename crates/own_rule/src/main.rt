//! An example of a caller with a merge rule of its own. It cleans the file `a` into the file `b`; where members overlap, the second one
//! goes first. It prints the closing lines and ends with the status.
#![tactic(auto)]

use cov_io::Disk;
use cov_rules::{Hired, NamedRule, Priority};
use cover_cli::{Outcome, closing, cover_with, status};
use std::alloc::{AllocError, Global};
use std::process::ExitCode;

// The words, as `cover` takes them.
fn words_of(alloc: Global, words: &[&str]) -> Result<Vec<String>, AllocError> {
    let mut list = Vec::new(alloc);
    for word in words {
        list.push(String::from_str(alloc, word)?)?;
    }
    Ok(list)
}

// Cleans by the rule `mine`, and answers the closing lines, if there is memory for them, and the status.
fn run(rt: &HostRuntime) -> Result<(Option<String>, u8), AllocError> {
    let alloc = rt.alloc();
    let disk = rt.clone()?;
    let words = words_of(alloc, &["clean", "a", "b", "--rule", "mine"])?;
    let mut rules = Vec::new(alloc);
    rules.push(NamedRule {
        name: String::from_str(alloc, "mine")?,
        rule: Hired::new(Box::new(alloc, Priority::new(vec![in alloc; 1]?))?),
    })?;
    let report = cover_with(alloc, &words, &mut Disk::new(disk), rules);
    let status = status(&report.outcome);
    Ok((closing(alloc, report).ok(), status))
}

fn main(rt: HostRuntime) -> ExitCode {
    let (lines, status) = match run(&rt) {
        Ok(ended) => ended,
        Err(_) => (None, status(&Outcome::NoMemory)),
    };
    // A print that fails changes no status.
    let _ = match lines {
        Some(lines) => println!(rt; "{lines}"),
        None => println!(rt; "no memory"),
    };
    ExitCode::from(status)
}
