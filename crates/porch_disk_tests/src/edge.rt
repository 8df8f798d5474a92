//! What no clause says of a disk in memory: that calls succeed, and what a stop leaves.

use porch_edge::{Disk, Failed, FileName, MemDisk, Pick, Stop};
use std::test::Fail;

// Six calls on one file, of which some leave places pending.
fn six_calls(disk: &mut MemDisk) -> Result<(), Failed> {
    disk.write_at(FileName::Output, 0, b"abcd")?;
    disk.sync(FileName::Output)?;
    disk.write_at(FileName::Output, 6, b"xy")?;
    disk.cut(FileName::Output, 3)?;
    disk.write_at(FileName::Output, 1, b"Z")?;
    disk.sync(FileName::Output)
}

#[test]
fn a_stop_leaves_what_the_pick_names(rt: HostRuntime) -> Result<(), Fail> {
    let alloc = rt.alloc();
    let rows: [(u64, Pick, &[u8]); 19] = [
        (1, Pick::Old, b""),
        (1, Pick::New, b"abcd"),
        (1, Pick::Fill(b'7'), b"7777"),
        (2, Pick::Old, b""),
        (2, Pick::New, b"abcd"),
        (2, Pick::Fill(b'7'), b"7777"),
        (3, Pick::Old, b"abcd"),
        (3, Pick::New, b"abcd\0\0xy"),
        (3, Pick::Fill(b'7'), b"abcd7777"),
        (4, Pick::Old, b"abcd"),
        (4, Pick::New, b"abc"),
        (4, Pick::Fill(b'7'), b"abc"),
        (5, Pick::Old, b"abcd"),
        (5, Pick::New, b"aZc"),
        (5, Pick::Fill(b'7'), b"a7c"),
        (6, Pick::Old, b"abcd"),
        (6, Pick::New, b"aZc"),
        (6, Pick::Fill(b'7'), b"a7c"),
        (7, Pick::Old, b"aZc"),
    ];
    for (call, pick, want) in rows {
        let mut disk = MemDisk::new(alloc);
        disk.stop_at(Stop { call, pick });
        assert_eq!(rt; six_calls(&mut disk).is_ok(), call == 7);
        assert_eq!(rt; disk.len(FileName::Input).is_ok(), false);
        let disk = disk.revive();
        assert_eq!(rt; disk.file(FileName::Output), want);
    }
    Ok(())
}

#[test]
fn a_call_fails_without_effect(rt: HostRuntime) -> Result<(), Fail> {
    let mut disk = MemDisk::new(rt.alloc());
    disk.put(FileName::Output, b"old")?;
    disk.fail_at(2);
    disk.fail_at(1);
    assert_eq!(rt; disk.write_at(FileName::Output, 0, b"new"), Err(Failed));
    assert_eq!(rt; disk.file(FileName::Output), b"old".as_slice());
    assert_eq!(rt; disk.write_at(FileName::Output, 0, b"new"), Ok(()));
    assert_eq!(rt; disk.write_at(FileName::Output, 1 << 62, b"!"), Err(Failed));
    let mut two = [b'.'; 2];
    assert_eq!(rt; disk.read(FileName::Output, 2, &mut two), Ok(1));
    assert_eq!(rt; two.as_slice(), b"w.".as_slice());
    Ok(())
}
