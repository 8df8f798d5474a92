//! Checkpoint files to try things on.

use porch_edge::{Disk, Failed, FileName, MemDisk};
use porch_store::{Newest, Store};
use std::alloc::{AllocError, Global};

/// A whole checkpoint of 200 bytes.
pub fn image(number: u64) -> [u8; 200] {
    let mut bytes = [b'.'; 200];
    bytes[0] = b'P';
    bytes[16..24].copy_from_slice(&number.to_be_bytes());
    bytes
}

/// A disk with these checkpoints. That in CkA has more bytes than a new one will have, that in CkB fewer.
pub fn disk_of(alloc: Global, in_a: Option<u64>, in_b: Option<u64>) -> Result<MemDisk, AllocError> {
    let mut disk = MemDisk::new(alloc);
    if let Some(number) = in_a {
        let mut long = [b'a'; 300];
        long[..200].copy_from_slice(&image(number));
        disk.put(FileName::CkA, &long)?;
    }
    if let Some(number) = in_b {
        put_front(&mut disk, FileName::CkB, &image(number), 150)?;
    }
    Ok(disk)
}

/// Which checkpoint is the newest, as a new store sees it.
pub fn newest_of<D: Disk>(disk: &mut D) -> Result<Newest, Failed> {
    Ok(Store::attach(disk)?.newest())
}

// Puts the first bytes of a checkpoint into a file.
fn put_front(
    disk: &mut MemDisk,
    file: FileName,
    image: &[u8],
    count: usize,
) -> Result<(), AllocError> {
    disk.put(file, &image[..count.min(image.len())])
}
