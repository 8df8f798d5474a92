//! Porch: compiles, runs, stops and resumes C programs.
//!
//! `main` hands the standard streams, the current folder and the words to the top call of porch_cli, which does the work,
//! and ends with the number of its answer.
#![tactic(auto)]

use porch_cli::{Status, close, number_of_status, porch};
use porch_edge::{DirDisk, StdSink, StdSource};
use std::alloc::Global;
use std::process::ExitCode;
use std::{env, io};

/// The words behind the program's name.
fn words_of(rt: &HostRuntime) -> io::Result<Vec<String>> {
    let mut words = Vec::new(rt.alloc());
    for word in env::args(rt)?.skip(1) {
        words.push(word)?;
    }
    Ok(words)
}

/// What words that can't be had are answered with: one that isn't UTF-8 is in no command.
fn status_without_words(error: io::Error) -> Status {
    if error.kind() == io::ErrorKind::OutOfMemory {
        Status::NoMemory
    } else {
        Status::Usage
    }
}

fn main(rt: HostRuntime) -> ExitCode {
    let mut source = StdSource::new(rt.stdin());
    let mut out = StdSink::new(rt.stdout());
    let mut err = StdSink::new(rt.stderr());
    let alloc: Global = rt.alloc();
    let words = words_of(&rt);
    let mut disk = DirDisk::new(rt);
    let status = match words {
        Ok(words) => porch(
            alloc,
            words.as_slice(),
            &mut source,
            &mut disk,
            &mut out,
            &mut err,
        ),
        Err(error) => close(&[], status_without_words(error), &mut err),
    };
    ExitCode::from(number_of_status(status))
}
