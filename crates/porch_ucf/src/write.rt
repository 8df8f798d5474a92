//! Writing a checkpoint.

ghost use Rattle.std.specs.Prelude.{◌≡◌, ◌≤◌, ◌+◌, ◌*◌, ◌++◌, [], length, vec_capacity};
ghost use Rattle.std.specs.List.{flat_map};
ghost use Rattle.porch_ucf.specs.Files.{frame_bytes, block_bytes, unsealed, sealed, file_of};

use crate::front::ROW_BYTES;
use crate::header::{DIGEST_BYTES, HEADER_BYTES, put_header};
use crate::image::{BlockRow, FrameRow, Image};
use crate::room::{put, put_u32};
use sha2::{Digest, Sha256};

/// How many bytes a file has beside its body: those of its header and of its digest.
pub const SEAL_BYTES: usize = HEADER_BYTES + DIGEST_BYTES;

/// Writes a checkpoint's file into an empty buffer that has room for it. It takes no memory.
pub fn write_image(image: &Image, into: &mut Vec<u8>)
    requires empty { into.old.items ≡ [] }
    requires room { SEAL_BYTES + image.now.header.body ≤ vec_capacity into.old }
    ensures file { into.new.items ≡ file_of image.now }
    ensures length { length into.new.items ≡ SEAL_BYTES + image.now.header.body }
{
    put_header(into, image.header());
    put_frames(into, image.frames());
    put_blocks(into, image.blocks());
    put(into, image.bytes());
    seal(into);
}

fn put_frames(into: &mut Vec<u8>, frames: &[FrameRow])
    requires { length into.old.items + ROW_BYTES * length frames.now ≤ vec_capacity into.old }
    ensures items { into.new.items ≡ into.old.items ++ flat_map frame_bytes frames.now }
    ensures length { length into.new.items
        ≡ length into.old.items + ROW_BYTES * length frames.now }
    ensures room { vec_capacity into.old ≤ vec_capacity into.new }
{
    for frame in frames {
        put_u32(into, frame.function);
        put_u32(into, frame.call);
    }
}

fn put_blocks(into: &mut Vec<u8>, blocks: &[BlockRow])
    requires { length into.old.items + ROW_BYTES * length blocks.now ≤ vec_capacity into.old }
    ensures items { into.new.items ≡ into.old.items ++ flat_map block_bytes blocks.now }
    ensures length { length into.new.items
        ≡ length into.old.items + ROW_BYTES * length blocks.now }
    ensures room { vec_capacity into.old ≤ vec_capacity into.new }
{
    for block in blocks {
        put_u32(into, block.ty);
        put_u32(into, block.count);
    }
}

/// Puts the digest of all but the first byte last.
fn seal(into: &mut Vec<u8>)
    requires some { 1 ≤ length into.old.items }
    requires room { length into.old.items + DIGEST_BYTES ≤ vec_capacity into.old }
    ensures items { into.new.items ≡ sealed into.old.items }
    ensures length { length into.new.items ≡ length into.old.items + DIGEST_BYTES }
{
    let digest = Sha256::digest(&into[1..]);
    put(into, &digest);
}
