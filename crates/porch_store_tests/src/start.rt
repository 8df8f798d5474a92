//! What no clause says of a store to start with: that it succeeds, by which calls, and what a crash at each leaves.

use crate::checkpoint::{image, newest_of};
use crate::quiet::Quiet;
use porch_edge::{Failed, FileName, MemDisk, Pick, Stop};
use porch_store::{Ack, Newest, Store};
use std::alloc::{AllocError, Global};
use std::test::Fail;

// A checkpoint file: its first byte, its length, and how many calls it takes to close it.
type Kind = (u8, usize, u64);

// Open, closed, with another letter, too short, empty.
const KINDS: [Kind; 5] = [
    (b'P', 200, 3),
    (0, 200, 1),
    (b'x', 128, 1),
    (b'P', 127, 3),
    (b'P', 0, 3),
];

fn bytes_of(kind: Kind) -> [u8; 200] {
    let (first, _, _) = kind;
    let mut bytes = image(7);
    bytes[0] = first;
    bytes
}

fn put_kind(disk: &mut MemDisk, file: FileName, kind: Kind) -> Result<(), AllocError> {
    let (_, len, _) = kind;
    disk.put(file, &bytes_of(kind)[..len.min(200)])
}

// A disk with these two files.
fn disk_with(alloc: Global, a: Kind, b: Kind) -> Result<MemDisk, AllocError> {
    let mut disk = MemDisk::new(alloc);
    put_kind(&mut disk, FileName::CkA, a)?;
    put_kind(&mut disk, FileName::CkB, b)?;
    Ok(disk)
}

// Whether a file has the bytes that it had, or is closed.
fn is_old_or_shut(bytes: &[u8], kind: Kind) -> bool {
    let (_, len, _) = kind;
    bytes == &bytes_of(kind)[..len.min(200)] || bytes.len() < 128 || bytes[0] != b'P'
}

// Whether a start that is stopped there leaves each file old or closed, and both closed where it is made; it is made
// where the stop is beyond its last call.
fn is_right(alloc: Global, a: Kind, b: Kind, stop: Stop) -> Result<bool, AllocError> {
    let mut disk = disk_with(alloc, a, b)?;
    disk.stop_at(stop);
    let is_made = Store::start(&mut disk).is_ok();
    let mut disk = disk.revive();
    let (_, _, first) = a;
    let (_, _, second) = b;
    let is_beyond = stop.call > first.saturating_add(second).saturating_add(2);
    let old_or_shut = is_old_or_shut(disk.file(FileName::CkA), a)
        && is_old_or_shut(disk.file(FileName::CkB), b);
    let is_shut = newest_of(&mut disk) == Ok(Newest::Neither);
    Ok(is_made == is_beyond && old_or_shut && (is_shut || !is_made))
}

#[test]
fn a_crash_in_a_start_leaves_each_file_old_or_closed(rt: HostRuntime) -> Result<(), Fail> {
    let alloc = rt.alloc();
    for a in KINDS {
        for b in KINDS {
            for call in 1..=9 {
                for pick in [Pick::Old, Pick::New, Pick::Fill(0), Pick::Fill(80)] {
                    let stop = Stop { call, pick };
                    assert_eq!(rt; is_right(alloc, a, b, stop)?, true);
                }
            }
        }
    }
    Ok(())
}

// Starts a store and commits checkpoint 1 to it. It says what was begun and what was finished.
fn start_and_commit(disk: &mut Quiet) -> Result<(bool, Ack, Store), Failed> {
    let mut store = Store::start(disk)?;
    store.begin(disk, 1)?;
    let is_filling = store.is_filling() && !store.is_spent();
    store.append(disk, &image(1)[1..])?;
    let ack = store.finish(disk)?;
    Ok((is_filling, ack, store))
}

// Whether that goes as it should over two open files.
fn is_committed(quiet: &mut Quiet) -> bool {
    let file = FileName::CkA;
    match start_and_commit(quiet) {
        Ok((is_filling, ack, store)) => {
            is_filling
                && ack == Ack { file, number: 1 }
                && store.is_idle()
                && store.newest() == Newest::One { file }
                && quiet.disk.file(file) == image(1).as_slice()
        }
        Err(_) => false,
    }
}

#[test]
fn a_store_that_starts_goes_on(rt: HostRuntime) -> Result<(), Fail> {
    let mut quiet = Quiet::over(disk_with(rt.alloc(), KINDS[0], KINDS[0])?);
    assert_eq!(rt; is_committed(&mut quiet), true);
    Ok(())
}
