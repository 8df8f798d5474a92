//! What no clause says of gates: that each call succeeds.

use crate::quiet::Quiet;
use porch_edge::{Failed, FileName, MemDisk};
use porch_gate::{close, fill, is_open, open_gate, seal, write_behind};
use porch_store::checkpoint;
use std::test::Fail;

// Fills a file behind its gate, and then writes another piece. It says whether the file was open before and is now.
fn fill_twice(disk: &mut Quiet) -> Result<(bool, bool), Failed> {
    let file = FileName::Program;
    let gate = checkpoint();
    let before = is_open(disk, file, gate)?;
    close(disk, file, gate)?;
    fill(disk, file, &[b'f'; 150])?;
    write_behind(disk, file, 140, &[b'w'; 60])?;
    seal(disk, file, 180)?;
    open_gate(disk, file, gate)?;
    Ok((before, is_open(disk, file, gate)?))
}

#[test]
fn a_file_is_filled_behind_its_gate(rt: HostRuntime) -> Result<(), Fail> {
    let mut quiet = Quiet::over(MemDisk::new(rt.alloc()));
    assert_eq!(rt; fill_twice(&mut quiet), Ok((false, true)));
    let mut whole = [b'f'; 180];
    whole[0] = b'P';
    whole[140..].copy_from_slice(&[b'w'; 40]);
    assert_eq!(rt; quiet.disk.file(FileName::Program), whole.as_slice());
    Ok(())
}
