//! The rows of a checkpoint file.

ghost use Rattle.std.specs.Prelude.{◌≡◌, ◌≤◌, ◌+◌, ◌*◌, length, IfOk};
ghost use Rattle.porch_ucf.specs.Reading.{row_place, frame_in, block_in, frames_in, blocks_in};

use crate::field::read_u32;
use crate::front::ROW_BYTES;
use crate::header::HEADER_BYTES;
use crate::image::{BlockRow, FrameRow};
use std::alloc::{AllocError, Global};

/// The frames of a file that holds the rows.
pub(crate) fn read_frames(
    alloc: Global,
    text: &[u8],
    frames: usize,
) -> Result<Vec<FrameRow>, AllocError>
    requires { row_place frames ≤ length text.now }
    ensures { IfOk result (λ rows. rows.items ≡ frames_in text.now frames) }
{
    let mut rows = Vec::with_capacity(alloc, frames)?;
    for i in 0..frames {
        rows.push(read_frame(text, i))?;
    }
    Ok(rows)
}

/// The heap blocks of a file that holds the rows.
pub(crate) fn read_blocks(
    alloc: Global,
    text: &[u8],
    frames: usize,
    blocks: usize,
) -> Result<Vec<BlockRow>, AllocError>
    requires { row_place (frames + blocks) ≤ length text.now }
    ensures { IfOk result (λ rows. rows.items ≡ blocks_in text.now frames blocks) }
{
    let mut rows = Vec::with_capacity(alloc, blocks)?;
    for i in 0..blocks {
        rows.push(read_block(text, frames + i))?;
    }
    Ok(rows)
}

fn read_frame(text: &[u8], row: usize) -> FrameRow
    requires { row_place (row + 1) ≤ length text.now }
    ensures { result ≡ frame_in text.now row }
{
    let place = HEADER_BYTES + ROW_BYTES as usize * row;
    FrameRow {
        function: read_u32(text, place),
        call: read_u32(text, place + 4),
    }
}

fn read_block(text: &[u8], row: usize) -> BlockRow
    requires { row_place (row + 1) ≤ length text.now }
    ensures { result ≡ block_in text.now row }
{
    let place = HEADER_BYTES + ROW_BYTES as usize * row;
    BlockRow {
        ty: read_u32(text, place),
        count: read_u32(text, place + 4),
    }
}
