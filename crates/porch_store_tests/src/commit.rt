//! What no clause says of commits: that they succeed, what a crash at each call leaves, and how many calls they cost.
ghost use Rattle.std.specs.Prelude.{◌≤◌, IsTrue, OnOk};
ghost use Rattle.porch_store.specs.Stores.{IsBelow, IsFilling, length_appended};

use crate::checkpoint::{disk_of, image, newest_of};
use crate::counting::Counting;
use crate::quiet::Quiet;
use byteorder::{BigEndian, ByteOrder};
use porch_edge::{Disk, Failed, FileName, MemDisk, Pick, Stop};
use porch_store::{Ack, Newest, Store};
use std::alloc::{AllocError, Global};
use std::test::Fail;

fn is_below(known: Option<u64>, number: u64) -> bool
    ensures { IsTrue result → IsBelow known number }
{
    match known {
        None => true,
        Some(known) => known < number,
    }
}

/// Attaches a store and commits to it, where the number is beyond those that are there.
pub fn commit_to<D: Disk>(disk: &mut D, bytes: &[u8]) -> Result<Option<Ack>, Failed> {
    let mut store = Store::attach(disk)?;
    if bytes.len() < 127 || matches!(store.newest(), Newest::Tie) {
        return Ok(None);
    }
    let number = BigEndian::read_u64(&bytes[15..]);
    if !is_below(store.number(), number) {
        return Ok(None);
    }
    Ok(Some(store.commit(disk, bytes, number)?))
}

// The same in pieces of 1, 50 and 148 bytes.
fn commit_in_pieces(disk: &mut Quiet, bytes: &[u8; 199]) -> Result<Option<Ack>, Failed> {
    let mut store = Store::attach(disk)?;
    let number = BigEndian::read_u64(&bytes[15..]);
    if matches!(store.newest(), Newest::Tie) || !is_below(store.number(), number) {
        return Ok(None);
    }
    store.begin(disk, number)?;
    store.append(disk, &bytes[..1])?;
    store.append(disk, &bytes[1..51])?;
    store.append(disk, &bytes[51..])?;
    Ok(Some(store.finish(disk)?))
}

// Commits checkpoint 300, at once or in pieces.
fn commit_300(disk: &mut Quiet, in_pieces: bool) -> Result<Option<Ack>, Failed> {
    let mut bytes = [0; 199];
    bytes.copy_from_slice(&image(300)[1..]);
    if in_pieces {
        commit_in_pieces(disk, &bytes)
    } else {
        commit_to(disk, &bytes)
    }
}

// The checkpoints that are there, the newest of them, the file that a commit takes, and the number of the call that
// writes its gate.
type Start = (Option<u64>, Option<u64>, Newest, FileName, u8);

const STARTS: [Start; 4] = [
    (None, None, Newest::Neither, FileName::CkA, 11),
    (
        Some(1),
        None,
        Newest::One {
            file: FileName::CkA,
        },
        FileName::CkB,
        13,
    ),
    (
        Some(1),
        Some(2),
        Newest::One {
            file: FileName::CkB,
        },
        FileName::CkA,
        15,
    ),
    (
        Some(256),
        Some(255),
        Newest::One {
            file: FileName::CkA,
        },
        FileName::CkB,
        15,
    ),
];

// How many calls more a commit in pieces makes.
const MORE_CALLS: u64 = 2;

// The number of the call that writes the gate.
fn gate_call(start: Start, in_pieces: bool) -> u64
    ensures { result ≤ 257 }
{
    let (_, _, _, _, gate) = start;
    if in_pieces {
        u64::from(gate) + MORE_CALLS
    } else {
        u64::from(gate)
    }
}

// Whether the newest file is this one and has these bytes, or there is none as there should be.
fn is_newest(disk: &mut MemDisk, newest: Newest, bytes: &[u8]) -> bool {
    if newest_of(disk) != Ok(newest) {
        return false;
    }
    match newest {
        Newest::One { file } => disk.file(file) == bytes,
        _ => true,
    }
}

// The same of the newest file of a start.
fn is_old(disk: &mut MemDisk, alloc: Global, start: Start) -> Result<bool, AllocError> {
    let (in_a, in_b, newest, _, _) = start;
    let old = disk_of(alloc, in_a, in_b)?;
    Ok(match newest {
        Newest::One { file } => is_newest(disk, newest, old.file(file)),
        _ => is_newest(disk, newest, &[]),
    })
}

// Whether a commit that is stopped there is made, and the disk after the crash.
fn stopped(
    alloc: Global,
    start: Start,
    stop: Stop,
    in_pieces: bool,
) -> Result<(bool, MemDisk), AllocError> {
    let (in_a, in_b, _, _, _) = start;
    let mut disk = disk_of(alloc, in_a, in_b)?;
    disk.stop_at(stop);
    let mut quiet = Quiet::over(disk);
    let done = commit_300(&mut quiet, in_pieces).is_ok();
    let Quiet { disk, .. } = quiet;
    Ok((done, disk.revive()))
}

// Whether a commit that is stopped there leaves the old checkpoint or the new one, as it should.
fn leaves_one(
    alloc: Global,
    start: Start,
    stop: Stop,
    in_pieces: bool,
) -> Result<bool, AllocError> {
    let (_, _, _, file, _) = start;
    let gate = gate_call(start, in_pieces);
    let is_made = stop.call > gate + 1;
    let letter_left = matches!(stop.pick, Pick::New | Pick::Fill(80));
    let (done, mut disk) = stopped(alloc, start, stop, in_pieces)?;
    let is_right = if is_made || stop.call >= gate && letter_left {
        is_newest(&mut disk, Newest::One { file }, &image(300))
    } else {
        is_old(&mut disk, alloc, start)?
    };
    Ok(is_right && done == is_made)
}

const PICKS: [Pick; 5] = [
    Pick::Old,
    Pick::New,
    Pick::Fill(0),
    Pick::Fill(80),
    Pick::Fill(255),
];

#[test]
fn a_crash_in_a_commit_leaves_the_old_or_the_new(rt: HostRuntime) -> Result<(), Fail> {
    let alloc = rt.alloc();
    for start in STARTS {
        for in_pieces in [false, true] {
            for call in 1..=gate_call(start, in_pieces) + 2 {
                for pick in PICKS {
                    let stop = Stop { call, pick };
                    assert_eq!(rt; leaves_one(alloc, start, stop, in_pieces)?, true);
                }
            }
        }
    }
    Ok(())
}

// Whether a commit that fails at this call leaves what it should, and is made again by a new store.
fn is_made_again(
    alloc: Global,
    start: Start,
    call: u64,
    in_pieces: bool,
) -> Result<bool, AllocError> {
    let (in_a, in_b, old, file, _) = start;
    let mut disk = disk_of(alloc, in_a, in_b)?;
    disk.fail_at(call);
    let mut quiet = Quiet::over(disk);
    let first = commit_300(&mut quiet, in_pieces);
    let between = newest_of(&mut quiet);
    let again = commit_300(&mut quiet, in_pieces).is_ok();
    let Quiet { mut disk, .. } = quiet;
    let new = Newest::One { file };
    // The sync behind the gate's write leaves the file open, as it reads.
    let wanted = if call > gate_call(start, in_pieces) {
        new
    } else {
        old
    };
    let is_right = first == Err(Failed) && between == Ok(wanted) && again;
    Ok(is_right && is_newest(&mut disk, new, &image(300)))
}

#[test]
fn a_commit_that_failed_is_made_again(rt: HostRuntime) -> Result<(), Fail> {
    let alloc = rt.alloc();
    for start in STARTS {
        for in_pieces in [false, true] {
            for call in 1..=gate_call(start, in_pieces) + 1 {
                assert_eq!(rt; is_made_again(alloc, start, call, in_pieces)?, true);
            }
        }
    }
    Ok(())
}

// The newest and its number, over files with these bytes.
fn newest_over(
    alloc: Global,
    in_a: &[u8],
    in_b: &[u8],
) -> Result<(Newest, Option<u64>), AllocError> {
    let mut disk = MemDisk::new(alloc);
    disk.put(FileName::CkA, in_a)?;
    disk.put(FileName::CkB, in_b)?;
    Ok(match Store::attach(&mut disk) {
        Ok(store) => (store.newest(), store.number()),
        Err(_) => (Newest::Neither, Some(0)),
    })
}

#[test]
fn one_number_in_both_is_a_tie(rt: HostRuntime) -> Result<(), Fail> {
    let seven = image(7);
    let tie = newest_over(rt.alloc(), &seven, &seven[..150])?;
    assert_eq!(rt; tie, (Newest::Tie, Some(7)));
    // Too short, and with another letter.
    let none = newest_over(rt.alloc(), &seven[..127], &[b'p'; 200])?;
    assert_eq!(rt; none, (Newest::Neither, None));
    Ok(())
}

// Appends a piece some times.
fn append_often(
    store: &mut Store,
    disk: &mut Counting,
    piece: &[u8],
    times: u64,
) -> Result<(), Failed>
    requires { IsFilling store.old }
    ensures { OnOk result (IsFilling store.new) }
{
    for _i in 0..times {
        store.append(disk, piece)?;
    }
    Ok(())
}

// Commits checkpoint 1 in so many equal pieces, and answers how many bytes they were.
fn commit_often(disk: &mut Counting, piece: &[u8], times: u64) -> Result<u64, Failed> {
    let mut store = Store::attach(disk)?;
    if matches!(store.newest(), Newest::Tie) {
        return Ok(0);
    }
    store.begin(disk, 1)?;
    append_often(&mut store, disk, piece, times)?;
    let bytes = store.appended();
    if bytes < 127 {
        return Ok(0);
    }
    store.finish(disk)?;
    Ok(bytes)
}

#[test]
fn a_large_image_is_held_by_no_one(rt: HostRuntime) -> Result<(), Fail> {
    let mut disk = Counting::new();
    let done = commit_often(&mut disk, &[0; 65536], 4096);
    assert_eq!(rt; done, Ok(268_435_456));
    assert_eq!(rt; (disk.writes, disk.syncs), (4098, 5));
    Ok(())
}
