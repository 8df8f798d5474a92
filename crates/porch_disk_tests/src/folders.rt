//! What no clause says of the disk over a real folder: that calls succeed, that each file is the one of its name, that only
//! plain files count, and that one disk at a time changes the folder. Each test has a folder of its own, and compares after
//! it has taken that away, so that one that fails leaves nothing behind.

use porch_edge::{DirDisk, Disk, Failed, FileName};
use std::io::PipeReader;
use std::os::fd::AsRawFd;
use std::os::unix::fs::symlink;
use std::test::Fail;
use std::{env, fs, io};

const NAMES: [(FileName, &str); 6] = [
    (FileName::Program, "program.ft.c"),
    (FileName::Output, "output"),
    (FileName::CkA, "ck.a"),
    (FileName::CkB, "ck.b"),
    (FileName::Layouts, "layouts.toml"),
    (FileName::Input, "input"),
];

// Makes a folder of this name and goes into it. The one that tests run in may be under the lock of what runs them.
fn enter(rt: &HostRuntime, folder: &str) -> io::Result<()> {
    let _ = fs::remove_dir_all(rt, folder);
    fs::create_dir(rt, folder)?;
    env::set_current_dir(rt, folder)
}

// Goes out of that folder, and takes it away.
fn leave(rt: &HostRuntime, folder: &str) -> io::Result<()> {
    env::set_current_dir(rt, "..")?;
    fs::remove_dir_all(rt, folder)
}

// Whether each file has what was written to it through the disk.
fn are_found(rt: &HostRuntime) -> io::Result<bool> {
    let mut disk = DirDisk::new(rt.clone()?);
    for (file, name) in NAMES {
        if disk.write_at(file, 0, name.as_bytes()).is_err() {
            return Ok(false);
        }
    }
    for (_, name) in NAMES {
        if fs::read(rt, name)?.as_slice() != name.as_bytes() {
            return Ok(false);
        }
    }
    Ok(true)
}

#[test]
fn each_file_has_its_name(rt: HostRuntime) -> Result<(), Fail> {
    enter(&rt, "named")?;
    let found = are_found(&rt);
    leave(&rt, "named")?;
    assert_eq!(rt; found?, true);
    Ok(())
}

// What calls on a file answer: the length and the counts of bytes read, where they answer `Ok`, and else only that.
fn answers_of<D: Disk>(disk: &mut D, buf: &mut [u8]) -> [Option<u64>; 11] {
    let file = FileName::CkA;
    [
        disk.len(file).ok(),
        disk.read(file, 0, buf).ok().map(|n| n as u64),
        disk.cut(file, 5).ok().map(|()| 0),
        disk.sync(file).ok().map(|()| 0),
        disk.write_at(file, 2, b"abc").ok().map(|()| 0),
        disk.cut(file, 9).ok().map(|()| 0),
        disk.len(file).ok(),
        disk.cut(file, 4).ok().map(|()| 0),
        disk.sync(file).ok().map(|()| 0),
        disk.len(file).ok(),
        disk.read(file, 1, buf).ok().map(|n| n as u64),
    ]
}

#[test]
fn a_folder_keeps_its_files(rt: HostRuntime) -> Result<(), Fail> {
    let mut disk = DirDisk::new(rt.clone()?);
    let mut buf = [b'.'; 8];
    enter(&rt, "kept")?;
    let found = answers_of(&mut disk, &mut buf);
    leave(&rt, "kept")?;
    let ok = Some(0);
    let want = [ok, ok, ok, ok, ok, ok, Some(5), ok, ok, Some(4), Some(3)];
    assert_eq!(rt; found, want);
    assert_eq!(rt; buf.as_slice(), b"\0ab.....".as_slice());
    Ok(())
}

// The place of the last byte of a file that is longer than memory.
const FAR: u64 = 3 << 30;

// What the length answers after a byte was written there, and how many bytes are read from the place before it.
fn lengths_of<D: Disk>(disk: &mut D, buf: &mut [u8]) -> Result<(u64, usize), Failed> {
    disk.write_at(FileName::Layouts, FAR, b"!")?;
    disk.sync(FileName::Layouts)?;
    let len = disk.len(FileName::Layouts)?;
    Ok((len, disk.read(FileName::Layouts, FAR - 1, buf)?))
}

#[test]
fn a_file_may_be_longer_than_memory(rt: HostRuntime) -> Result<(), Fail> {
    let mut disk = DirDisk::new(rt.clone()?);
    let mut buf = [b'.'; 4];
    enter(&rt, "long")?;
    let found = lengths_of(&mut disk, &mut buf);
    leave(&rt, "long")?;
    assert_eq!(rt; found, Ok((FAR + 1, 2)));
    assert_eq!(rt; buf.as_slice(), b"\0!..".as_slice());
    Ok(())
}

// Whether the length, a read, a write, a cut and a sync of `ck.a` fail.
fn faults_of<D: Disk>(disk: &mut D) -> [bool; 5] {
    let file = FileName::CkA;
    let mut one = [0];
    let len = disk.len(file).is_err();
    let read = disk.read(file, 0, &mut one).is_err();
    let write = disk.write_at(file, 0, b"0").is_err();
    let cut = disk.cut(file, 0).is_err();
    let sync = disk.sync(file).is_err();
    [len, read, write, cut, sync]
}

// The same twice with one disk, where `ck.a` is a link that leads there. A second time after nothing stands there.
fn faults_behind(rt: &HostRuntime, target: &str) -> io::Result<[[bool; 5]; 3]> {
    let mut disk = DirDisk::new(rt.clone()?);
    symlink(rt, target, "ck.a")?;
    let first = faults_of(&mut disk);
    let second = faults_of(&mut disk);
    fs::remove_file(rt, "ck.a")?;
    Ok([first, second, faults_of(&mut disk)])
}

// A pipe that nobody writes, as a link can name it.
fn pipe_text(rt: &HostRuntime, pipe: &PipeReader) -> io::Result<String> {
    Ok(format!(in rt.alloc(); "/proc/self/fd/{}", pipe.as_raw_fd())?)
}

#[test]
fn a_file_that_fails_is_answered_so(rt: HostRuntime) -> Result<(), Fail> {
    let (pipe, _) = io::pipe(&rt)?;
    let pipe = pipe_text(&rt, &pipe)?;
    let rows = [
        // A link to itself.
        ("ck.a", [true; 5]),
        // What is no file.
        (".", [true; 5]),
        ("/dev/null", [true; 5]),
        (pipe.as_str(), [true; 5]),
        // A file that can't be synced.
        (
            "/proc/self/coredump_filter",
            [false, false, false, false, true],
        ),
        // A file that not even the machine's owner may write.
        (
            "/sys/kernel/uevent_seqnum",
            [false, false, true, true, false],
        ),
        // A link that leads nowhere, where a file could be made.
        ("nothing", [false, false, true, false, false]),
    ];
    for (target, want) in rows {
        enter(&rt, "failing")?;
        let found = faults_behind(&rt, target);
        leave(&rt, "failing")?;
        let [first, second, third] = found?;
        assert_eq!(rt; first, want, "at {target}");
        // After a sync that failed no call succeeds, not even where nothing stands any more.
        let again = if want[4] { [true; 5] } else { want };
        assert_eq!(rt; second, again, "at {target}, again");
        assert_eq!(rt; third == [true; 5], want[4], "at {target}, without it");
    }
    Ok(())
}

// What stands in `ck.a` after a second disk has tried to change it, and whether its calls failed. Then whether those of a
// third disk fail, once there is no other.
fn changed_by_two(rt: &HostRuntime) -> io::Result<(Vec<u8>, [bool; 5], [bool; 5])> {
    let (kept, found) = changed_beside(rt)?;
    let mut third = DirDisk::new(rt.clone()?);
    Ok((kept, found, faults_of(&mut third)))
}

fn changed_beside(rt: &HostRuntime) -> io::Result<(Vec<u8>, [bool; 5])> {
    fs::write(rt, "ck.a", "kept")?;
    let mut first = DirDisk::new(rt.clone()?);
    let mut second = DirDisk::new(rt.clone()?);
    if first.sync(FileName::Output).is_err() {
        return Ok((Vec::new(rt.alloc()), [false; 5]));
    }
    let found = faults_of(&mut second);
    Ok((fs::read(rt, "ck.a")?, found))
}

#[test]
fn one_disk_changes_a_folder(rt: HostRuntime) -> Result<(), Fail> {
    enter(&rt, "shared")?;
    let found = changed_by_two(&rt);
    leave(&rt, "shared")?;
    let (kept, second, third) = found?;
    assert_eq!(rt; kept.as_slice(), b"kept".as_slice());
    assert_eq!(rt; second, [false, false, true, true, true]);
    assert_eq!(rt; third, [false; 5]);
    Ok(())
}

// Whether a sync fails in a folder that can't be synced, and then that of another file, in a folder that can.
fn sync_faults(rt: &HostRuntime) -> io::Result<[bool; 2]> {
    let mut disk = DirDisk::new(rt.clone()?);
    let home = env::current_dir(rt)?;
    env::set_current_dir(rt, "/proc/self")?;
    let first = disk.sync(FileName::CkA).is_err();
    env::set_current_dir(rt, home.as_path())?;
    Ok([first, disk.sync(FileName::CkB).is_err()])
}

#[test]
fn a_folder_that_cannot_be_synced_is_answered_so(rt: HostRuntime) -> Result<(), Fail> {
    enter(&rt, "unsynced")?;
    let found = sync_faults(&rt);
    leave(&rt, "unsynced")?;
    assert_eq!(rt; found?, [true; 2]);
    Ok(())
}

// Whether a write and a sync succeed, and the same once the file has lost its name, or its name leads to another one.
fn answers_without_name(rt: &HostRuntime, replaced: bool) -> io::Result<[bool; 4]> {
    let mut disk = DirDisk::new(rt.clone()?);
    let written = disk.write_at(FileName::CkA, 0, b"one").is_ok();
    let synced = disk.sync(FileName::CkA).is_ok();
    fs::remove_file(rt, "ck.a")?;
    if replaced {
        fs::write(rt, "ck.a", "other")?;
    }
    let written_again = disk.write_at(FileName::CkA, 0, b"two").is_ok();
    let synced_again = disk.sync(FileName::CkA).is_ok();
    Ok([written, synced, written_again, synced_again])
}

#[test]
fn a_file_without_its_name_is_not_synced(rt: HostRuntime) -> Result<(), Fail> {
    for replaced in [false, true] {
        enter(&rt, "renamed")?;
        let found = answers_without_name(&rt, replaced);
        leave(&rt, "renamed")?;
        assert_eq!(rt; found?, [true, true, true, false]);
    }
    Ok(())
}
