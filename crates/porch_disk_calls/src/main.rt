//! Makes calls on the disk over the current folder, as the lines of its input say, and prints what each answers. So what
//! the system sees of them can be looked at from outside: `.ci/folders` does that.
//!
//! A line `len FILE`, `read FILE`, `write FILE TEXT`, `cut FILE LENGTH` or `sync FILE` makes one call, at the file's begin,
//! where FILE is its name. `commit TIMES` attaches a store, and makes so many commits, each with the next number.
#![tactic(auto)]

ghost use Rattle.std.specs.Prelude.{IsTrue};
ghost use Rattle.porch_store.specs.Stores.{IsBelow};

use byteorder::{BigEndian, ByteOrder};
use porch_edge::{DirDisk, Disk, Failed, FileName};
use porch_store::{Newest, Store};
use std::fs::File;
use std::io;
use std::rt::Runtime;

/// Makes the calls, and answers `ok` with a number, `failed`, or `unknown` for a line that says no call.
fn main(rt: HostRuntime) -> io::Result<()> {
    let mut disk = DirDisk::new(rt.clone()?);
    for line in rt.lines(rt.alloc()) {
        match answer_of(&mut disk, line?.as_str()) {
            Some(Ok(number)) => println!(rt; "ok {number}")?,
            Some(Err(Failed)) => println!(rt; "failed")?,
            None => println!(rt; "unknown")?,
        }
    }
    Ok(())
}

// What the call of a line answers. Where it is no number, that is 0.
fn answer_of<R: Runtime<File = File>>(
    disk: &mut DirDisk<R>,
    line: &str,
) -> Option<Result<u64, Failed>> {
    let mut words = line.split(' ');
    let call = words.next()?;
    let word = words.next()?;
    if call == "commit" {
        return Some(commit_times(disk, word.parse::<u64>().ok()?));
    }
    let file = file_of_name(word)?;
    match call {
        "len" => Some(disk.len(file)),
        "read" => {
            let mut buf = [0; 64];
            Some(disk.read(file, 0, &mut buf).map(|count| count as u64))
        }
        "write" => Some(disk.write_at(file, 0, words.next()?.as_bytes()).map(|()| 0)),
        "cut" => Some(
            disk.cut(file, words.next()?.parse::<u64>().ok()?)
                .map(|()| 0),
        ),
        "sync" => Some(disk.sync(file).map(|()| 0)),
        _ => None,
    }
}

const FILES: [FileName; 6] = [
    FileName::Program,
    FileName::Output,
    FileName::CkA,
    FileName::CkB,
    FileName::Layouts,
    FileName::Input,
];

fn file_of_name(name: &str) -> Option<FileName> {
    for file in FILES {
        if file.name() == name {
            return Some(file);
        }
    }
    None
}

// Commits so often, and answers the last number.
fn commit_times<R: Runtime<File = File>>(disk: &mut DirDisk<R>, times: u64) -> Result<u64, Failed> {
    let mut store = Store::attach(disk)?;
    let mut number = store.number().unwrap_or(0);
    for _ in 0..times {
        number = number.saturating_add(1);
        commit_once(&mut store, disk, &body_of(number))?;
    }
    Ok(number)
}

// A checkpoint without its first byte, with the number at its place.
fn body_of(number: u64) -> [u8; 199] {
    let mut bytes = [b'.'; 199];
    bytes[15..23].copy_from_slice(&number.to_be_bytes());
    bytes
}

// One commit, where the store takes it.
fn commit_once<R: Runtime<File = File>>(
    store: &mut Store,
    disk: &mut DirDisk<R>,
    body: &[u8],
) -> Result<(), Failed> {
    if body.len() < 127 || !store.is_idle() || matches!(store.newest(), Newest::Tie) {
        return Err(Failed);
    }
    let number = BigEndian::read_u64(&body[15..]);
    if !is_below(store.number(), number) {
        return Err(Failed);
    }
    store.commit(disk, body, number)?;
    Ok(())
}

fn is_below(known: Option<u64>, number: u64) -> bool
    ensures { IsTrue result → IsBelow known number }
{
    match known {
        None => true,
        Some(known) => known < number,
    }
}
