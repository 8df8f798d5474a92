//! What no clause says of the store and the output over a real folder: that calls succeed, and that the files hold what
//! was committed and put. Each test has a folder of its own, and compares after it has taken that away, so that one that
//! fails leaves nothing behind.

use crate::checkpoint::image;
use crate::commit::commit_to;
use porch_edge::{DirDisk, Disk, Failed, FileName};
use porch_output::Output;
use porch_store::{Ack, load_file};
use std::fs::File;
use std::os::unix::fs::symlink;
use std::rt::Runtime;
use std::test::Fail;
use std::{env, fs, io};

// Makes a folder of this name and goes into it. The one that tests run in may be under the lock of what runs them.
fn enter(rt: &HostRuntime, folder: &str) -> io::Result<()> {
    let _ = fs::remove_dir_all(rt, folder);
    fs::create_dir(rt, folder)?;
    env::set_current_dir(rt, folder)
}

// Goes out of that folder, and takes it away.
fn leave(rt: &HostRuntime, folder: &str) -> io::Result<()> {
    env::set_current_dir(rt, "..")?;
    fs::remove_dir_all(rt, folder)
}

// What commits to a real folder answer: where a folder stands in the place of a file, where a file would have to be made
// behind a link that leads nowhere, and three that are made, each with whether the file holds it.
type Answers = (
    [Result<Option<Ack>, Failed>; 2],
    [(Result<Option<Ack>, Failed>, bool); 3],
);

fn answers_of(rt: &HostRuntime) -> io::Result<Answers> {
    fs::create_dir(rt, "ck.b")?;
    let no_file = commit_to(&mut DirDisk::new(rt.clone()?), &image(1)[1..]);
    fs::remove_dir(rt, "ck.b")?;
    symlink(rt, "nothing", "ck.a")?;
    let no_target = commit_to(&mut DirDisk::new(rt.clone()?), &image(1)[1..]);
    fs::remove_file(rt, "ck.a")?;
    let mut disk = DirDisk::new(rt.clone()?);
    let mut made = [(Err(Failed), false); 3];
    for number in 1..=3 {
        let answer = commit_to(&mut disk, &image(number)[1..]);
        let held = holds(rt, &mut disk, file_of_number(number), &image(number));
        made[number as usize - 1] = (answer, held);
    }
    Ok(([no_file, no_target], made))
}

fn holds<D: Disk>(rt: &HostRuntime, disk: &mut D, file: FileName, bytes: &[u8]) -> bool {
    match load_file(rt.alloc(), disk, file) {
        Ok(whole) => whole.as_slice() == bytes,
        Err(_) => false,
    }
}

// The file that this commit takes, of those that begin in an empty folder.
fn file_of_number(number: u64) -> FileName {
    if number % 2 == 1 {
        FileName::CkA
    } else {
        FileName::CkB
    }
}

#[test]
fn commits_go_to_a_real_folder(rt: HostRuntime) -> Result<(), Fail> {
    enter(&rt, "commits")?;
    let found = answers_of(&rt);
    leave(&rt, "commits")?;
    let (refused, made) = found?;
    assert_eq!(rt; refused, [Err(Failed); 2]);
    for number in 1..=3 {
        let file = file_of_number(number);
        let ack = Ack { file, number };
        assert_eq!(rt; made[number as usize - 1], (Ok(Some(ack)), true));
    }
    Ok(())
}

// Puts a piece that is longer than the buffer.
fn put_long<R: Runtime<File = File>>(disk: &mut DirDisk<R>) -> Result<(), Failed> {
    let mut output = Output::attach(disk)?;
    output.put(disk, &[b'o'; 10_000])?;
    output.flush(disk)
}

// Cuts the output back to half of it, and puts a short piece.
fn put_short<R: Runtime<File = File>>(disk: &mut DirDisk<R>) -> Result<(), Failed> {
    let mut output = Output::attach(disk)?;
    if output.len() < 5000 {
        return Err(Failed);
    }
    output.cut_back(disk, 5000)?;
    output.put(disk, b"end")?;
    output.flush(disk)
}

// Whether both succeed, and what stands in the file after each.
fn outputs_of(rt: &HostRuntime) -> io::Result<([Result<(), Failed>; 2], [Vec<u8>; 2])> {
    let mut disk = DirDisk::new(rt.clone()?);
    let long = put_long(&mut disk);
    let first = fs::read(rt, "output")?;
    let short = put_short(&mut disk);
    Ok(([long, short], [first, fs::read(rt, "output")?]))
}

#[test]
fn an_output_goes_to_a_real_folder(rt: HostRuntime) -> Result<(), Fail> {
    enter(&rt, "output")?;
    let found = outputs_of(&rt);
    leave(&rt, "output")?;
    let (answers, [first, second]) = found?;
    assert_eq!(rt; answers, [Ok(()); 2]);
    assert_eq!(rt; first.as_slice(), [b'o'; 10_000].as_slice());
    assert_eq!(rt; second.len(), 5003);
    assert_eq!(rt; &second[4997..], b"oooend".as_slice());
    Ok(())
}

// The length that a file says, and how many bytes of it are loaded.
fn lengths_of(rt: &HostRuntime) -> io::Result<(Result<u64, Failed>, Option<usize>)> {
    // The system says 4,096 for it, and gives the few bytes of a number.
    symlink(rt, "/sys/kernel/uevent_seqnum", "layouts.toml")?;
    let mut disk = DirDisk::new(rt.clone()?);
    let said = disk.len(FileName::Layouts);
    let loaded = load_file(rt.alloc(), &mut disk, FileName::Layouts);
    Ok((said, loaded.ok().map(|bytes| bytes.len())))
}

#[test]
fn a_file_that_ends_early_is_loaded_as_it_reads(rt: HostRuntime) -> Result<(), Fail> {
    enter(&rt, "early")?;
    let found = lengths_of(&rt);
    leave(&rt, "early")?;
    let (said, loaded) = found?;
    assert_eq!(rt; said, Ok(4096));
    assert_eq!(rt; loaded.is_some_and(|n| 0 < n && n < 100), true);
    Ok(())
}
