//! A program for the measurements in `bench/`: `bench_text IN` reads a text of polygons, and `bench_text IN OUT`
//! writes it back in the written form. It ends with status 0 where that was done, and prints nothing.
#![tactic(auto)]

use cov_io::{Disk, slurp, spill};
use cov_write::text_of;
use geo_text::{LONGEST_INPUT, read_text};
use std::process::ExitCode;
use std::{env, io};

// The words after the program's name.
fn words(rt: &HostRuntime) -> io::Result<Vec<String>> {
    let mut words = Vec::new(rt.alloc());
    for word in env::args(rt)?.skip(1) {
        words.push(word)?;
    }
    Ok(words)
}

// Reads the input, and writes it where there is an output; whether that was done.
fn run(rt: &HostRuntime, input: &str, output: Option<&str>) -> bool {
    let Ok(disk) = rt.clone() else {
        return false;
    };
    let mut files = Disk::new(disk);
    let Ok(bytes) = slurp(rt.alloc(), &mut files, input, LONGEST_INPUT) else {
        return false;
    };
    let Ok(coverage) = read_text(rt.alloc(), &bytes, None) else {
        return false;
    };
    let Some(output) = output else {
        return true;
    };
    let Ok(text) = text_of(rt.alloc(), &coverage, None) else {
        return false;
    };
    spill(&mut files, output, &text).is_ok()
}

fn main(rt: HostRuntime) -> ExitCode {
    let Ok(words) = words(&rt) else {
        return ExitCode::FAILURE;
    };
    let done = match words.as_slice() {
        [input] => run(&rt, input.as_str(), None),
        [input, output] => run(&rt, input.as_str(), Some(output.as_str())),
        _ => false,
    };
    if done {
        ExitCode::SUCCESS
    } else {
        ExitCode::FAILURE
    }
}
