//! Checkpoints as bytes: what a checkpoint file holds, written and read. Start at `Header`.
#![tactic(auto)]

mod body;
mod fault;
mod field;
mod front;
mod header;
mod image;
mod laws;
mod leaf_test;
mod leaves;
mod placing;
mod read;
mod resumable;
mod room;
mod rows;
mod runs;
mod saved;
mod write;

pub use fault::{ImageFault, Reason};
pub use front::{ROW_BYTES, read_front};
pub use header::{
    BLOCKS_AT, BODY_AT, DIGEST_BYTES, FRAMES_AT, HEADER_BYTES, Header, MAGIC_AT, MOST_BLOCKS,
    MOST_TURNS, NUMBER_AT, OUTPUT_AT, PROGRAM_AT, TURNS_AT, VERSION, VERSION_AT, ZERO_AT, ZEROS_AT,
    put_header, read_header,
};
pub use image::{BlockRow, FrameRow, Image};
pub use laws::{files_are_read_back, files_are_spelled, first_flaws_are_one};
pub use read::read_image;
pub use resumable::MOST_COUNT;
pub use write::{SEAL_BYTES, write_image};
