//! What no clause says of loads: that they succeed, go on after a short read, and read no more than is asked for.

use crate::checkpoint::disk_of;
use crate::quiet::Quiet;
use porch_edge::{Disk, FileName, MemDisk};
use porch_store::{LoadFault, load_file, load_front};
use std::alloc::{AllocError, Global};
use std::test::Fail;

// Whether a file is loaded with these bytes.
fn loads<D: Disk>(alloc: Global, disk: &mut D, file: FileName, bytes: &[u8]) -> bool {
    match load_file(alloc, disk, file) {
        Ok(whole) => whole.as_slice() == bytes,
        Err(_) => false,
    }
}

// Whether the front of the layouts is loaded with these bytes, and nothing behind them is asked for.
fn loads_front(alloc: Global, disk: &mut Quiet, most: u64, bytes: &[u8]) -> bool {
    disk.furthest = 0;
    match load_front(alloc, disk, FileName::Layouts, most) {
        Ok(front) => front.as_slice() == bytes && disk.furthest <= most,
        Err(_) => false,
    }
}

// A disk with 200 bytes of layouts, which reads so many at once and may say a wrong length.
fn quiet_of(alloc: Global, at_once: usize, said: Option<u16>) -> Result<Quiet, AllocError> {
    let mut disk = MemDisk::new(alloc);
    disk.put(FileName::Layouts, &[b'l'; 200])?;
    Ok(Quiet {
        disk,
        at_once,
        said,
        furthest: 0,
    })
}

#[test]
fn a_file_is_loaded_whole(rt: HostRuntime) -> Result<(), Fail> {
    let alloc = rt.alloc();
    let whole = [b'l'; 200];
    // All at once, after short reads, and to its end where the disk says more than there is.
    for (at_once, said) in [(4096, None), (50, None), (4096, Some(300))] {
        let mut quiet = quiet_of(alloc, at_once, said)?;
        assert_eq!(rt; loads(alloc, &mut quiet, FileName::Layouts, &whole), true);
        for (most, len) in [(0, 0), (100, 100), (200, 200), (250, 200), (1000, 200)] {
            assert_eq!(rt; loads_front(alloc, &mut quiet, most, &whole[..len]), true);
        }
    }
    let mut told = disk_of(alloc, None, None)?;
    assert_eq!(rt; loads(alloc, &mut told, FileName::CkA, &[]), true);
    Ok(())
}

#[test]
fn a_load_fails_where_the_disk_does(rt: HostRuntime) -> Result<(), Fail> {
    let alloc = rt.alloc();
    for call in 1..=2 {
        let mut disk = disk_of(alloc, Some(1), None)?;
        disk.fail_at(call);
        let failed = match load_file(alloc, &mut disk, FileName::CkA) {
            Ok(_) => false,
            Err(fault) => fault == LoadFault::Failed,
        };
        assert_eq!(rt; failed, true);
    }
    Ok(())
}
