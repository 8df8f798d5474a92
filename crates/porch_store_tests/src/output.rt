//! What no clause says of outputs: that calls succeed, how many device calls they cost, what a crash at each call leaves.

ghost use Rattle.std.specs.Prelude.{OnOk};
ghost use Rattle.porch_output.specs.Outputs.{IsSpent, IsReady};

use crate::counting::Counting;
use porch_edge::{Disk, Failed, FileName, MemDisk, MemSink, Pick, Stop};
use porch_output::{Output, Shown};
use std::alloc::{AllocError, Global};
use std::test::Fail;

// Puts a piece some times.
fn put_often<D: Disk>(
    output: &mut Output,
    disk: &mut D,
    piece: &[u8],
    times: u64,
) -> Result<(), Failed>
    requires usable { ¬ IsSpent output.old }
    requires ready { IsReady output.old (D.state disk.old) }
    ensures usable { OnOk result (¬ IsSpent output.new) }
    ensures ready { OnOk result (IsReady output.new (D.state disk.new)) }
{
    for _i in 0..times {
        output.put(disk, piece)?;
    }
    Ok(())
}

#[test]
fn a_million_bytes_cost_few_writes(rt: HostRuntime) -> Result<(), Fail> {
    let mut disk = Counting::new();
    let mut output = Output::attach(&mut disk)?;
    put_often(&mut output, &mut disk, b"x", 1_000_000)?;
    assert_eq!(rt; (output.len(), disk.writes), (1_000_000, 244));
    output.flush(&mut disk)?;
    assert_eq!(rt;
        (output.len(), disk.writes, disk.syncs),
        (1_000_000, 245, 2)
    );
    output.flush(&mut disk)?;
    assert_eq!(rt; (disk.writes, disk.syncs), (245, 3));
    Ok(())
}

// Puts one piece of 10,000 bytes, and says the length before the flush.
fn put_long(disk: &mut MemDisk) -> Result<u64, Failed> {
    let mut output = Output::attach(disk)?;
    output.put(disk, &[b'z'; 10_000])?;
    let len = output.len();
    output.flush(disk)?;
    Ok(len)
}

#[test]
fn a_long_piece_is_split(rt: HostRuntime) -> Result<(), Fail> {
    let mut disk = MemDisk::new(rt.alloc());
    assert_eq!(rt; put_long(&mut disk), Ok(10_000));
    assert_eq!(rt; disk.file(FileName::Output), [b'z'; 10_000].as_slice());
    Ok(())
}

// Cuts a file of 6,000 bytes back to 5,000 and adds 4,200 in two pieces, in seven calls.
fn seven_calls(disk: &mut MemDisk) -> Result<u64, Failed> {
    let mut output = Output::attach(disk)?;
    if output.len() < 5000 {
        return Ok(0);
    }
    output.cut_back(disk, 5000)?;
    output.put(disk, &[b'1'; 4000])?;
    output.put(disk, &[b'2'; 200])?;
    output.flush(disk)?;
    Ok(output.len())
}

fn disk_of_6000(alloc: Global) -> Result<MemDisk, AllocError> {
    let mut disk = MemDisk::new(alloc);
    disk.put(FileName::Output, &[b'o'; 6000])?;
    Ok(disk)
}

// Whether a stop there leaves the first 5,000 bytes, and all where the calls were made or what is pending is left.
fn leaves_beginning(alloc: Global, stop: Stop, whole: &[u8; 9200]) -> Result<bool, AllocError> {
    let mut disk = disk_of_6000(alloc)?;
    disk.stop_at(stop);
    let done = seven_calls(&mut disk);
    let disk = disk.revive();
    let left = disk.file(FileName::Output);
    let is_made = stop.call == 8;
    let is_whole = is_made || stop.call >= 6 && matches!(stop.pick, Pick::New);
    let wanted = if is_made { Ok(9200) } else { Err(Failed) };
    let is_left = left.starts_with(&whole[..5000]) && (left == whole.as_slice() || !is_whole);
    Ok(done == wanted && is_left)
}

// Whether a call that fails there leaves them.
fn keeps_beginning(alloc: Global, call: u64, whole: &[u8; 9200]) -> Result<bool, AllocError> {
    let mut disk = disk_of_6000(alloc)?;
    disk.fail_at(call);
    let is_made = seven_calls(&mut disk).is_ok();
    let is_left = disk.file(FileName::Output).starts_with(&whole[..5000]);
    Ok(is_made == (call == 8) && is_left)
}

#[test]
fn a_crash_leaves_the_beginning(rt: HostRuntime) -> Result<(), Fail> {
    let alloc = rt.alloc();
    let mut whole = [b'1'; 9200];
    whole[..5000].copy_from_slice(&[b'o'; 5000]);
    whole[9000..].copy_from_slice(&[b'2'; 200]);
    for call in 1..=8 {
        for pick in [Pick::Old, Pick::New, Pick::Fill(0), Pick::Fill(255)] {
            assert_eq!(rt; leaves_beginning(alloc, Stop { call, pick }, &whole)?, true);
        }
        assert_eq!(rt; keeps_beginning(alloc, call, &whole)?, true);
    }
    Ok(())
}

// Shows 9,001 bytes in three pieces.
fn show_three(out: &mut MemSink) -> Result<(), Failed> {
    let mut shown = Shown::new();
    shown.put(out, b"a")?;
    shown.put(out, &[b'b'; 5000])?;
    shown.put(out, &[b'c'; 4000])?;
    shown.flush(out)
}

#[test]
fn a_sink_gets_what_is_shown(rt: HostRuntime) -> Result<(), Fail> {
    let alloc = rt.alloc();
    let mut whole = [b'b'; 9001];
    whole[0] = b'a';
    whole[5001..].copy_from_slice(&[b'c'; 4000]);
    for (fails, left) in [(1, 0), (2, 4096), (3, 8192), (4, 9001)] {
        let mut out = MemSink::new(alloc, vec![in alloc; fails]?);
        assert_eq!(rt; show_three(&mut out).is_ok(), fails == 4);
        assert_eq!(rt; out.held(), &whole[..left]);
    }
    Ok(())
}
