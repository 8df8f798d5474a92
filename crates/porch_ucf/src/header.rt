//! The header of a checkpoint file.

ghost use Rattle.std.specs.Prelude.{◌≡◌, ◌≤◌, ◌+◌, ◌++◌, length, vec_capacity, IfOk, IfErr, OnOk, Some, None};
ghost use Rattle.porch_ucf.specs.Headers.{header_of, header_bytes};
ghost use Rattle.porch_ucf.specs.HeaderFlaws.{magic_flaw, version_flaw, reserved_flaw, counts_flaw, header_flaw};

use crate::fault::{ImageFault, Reason};
use crate::field::{read_digest, read_u32, read_u64};
use crate::room::{put, put_u32, put_u64};

/// Where the name of the format stands, behind the gate.
pub const MAGIC_AT: usize = 1;
/// Where the version stands, in 32 bits. All numbers have their highest byte first.
pub const VERSION_AT: usize = 8;
/// Where the number of frames stands, in 32 bits.
pub const FRAMES_AT: usize = 12;
/// Where the checkpoint's number stands, in 64 bits.
pub const NUMBER_AT: usize = 16;
/// Where the turns stand, in 64 bits.
pub const TURNS_AT: usize = 24;
/// Where the length of the output stands, in 64 bits.
pub const OUTPUT_AT: usize = 32;
/// Where the number of heap blocks stands, in 32 bits.
pub const BLOCKS_AT: usize = 40;
/// Where 32 bits stand that are 0.
pub const ZERO_AT: usize = 44;
/// Where the length of the body stands, in 64 bits.
pub const BODY_AT: usize = 48;
/// Where 64 bits stand that are 0.
pub const ZEROS_AT: usize = 56;
/// Where the digest of the program's text stands, in 32 bytes.
pub const PROGRAM_AT: usize = 64;
/// How many bytes a header has.
pub const HEADER_BYTES: usize = 96;
/// How many bytes a digest has.
pub const DIGEST_BYTES: usize = 32;
/// The version of the format.
pub const VERSION: u32 = 1;
/// The most turns that a run may have made.
pub const MOST_TURNS: u64 = 1 << 62;
/// The most heap blocks that may live.
pub const MOST_BLOCKS: u32 = 65_536;

/// What a checkpoint file says of itself: the checkpoint's number, the turns and the length of the
/// output so far, how many frames and heap blocks there are, the length of the body in bytes, and the
/// digest of the program's text.
#[derive(Clone, Copy, Debug, PartialEq, Eq)]
pub struct Header {
    pub number: u64,
    pub turns: u64,
    pub output: u64,
    pub frames: u32,
    pub blocks: u32,
    pub body: u64,
    pub program: [u8; 32],
}

/// The header of an open checkpoint file, or the first flaw that it has by itself. It takes no memory.
pub fn read_header(text: &[u8]) -> Result<Header, ImageFault>
    requires { HEADER_BYTES ≤ length text.now }
    ensures header { IfOk result (λ header. header ≡ header_of text.now) }
    ensures sound { OnOk result (header_flaw text.now ≡ None) }
    ensures flaw { IfErr result (λ fault. header_flaw text.now ≡ Some fault) }
{
    check_magic(text)?;
    check_version(text)?;
    check_reserved(text)?;
    let header = header_in(text);
    check_counts(&header)?;
    Ok(header)
}

/// Puts a header last, with an open gate. It takes no memory.
pub fn put_header(into: &mut Vec<u8>, header: &Header)
    requires { length into.old.items + HEADER_BYTES ≤ vec_capacity into.old }
    ensures items { into.new.items ≡ into.old.items ++ header_bytes header.now }
    ensures length { length into.new.items ≡ length into.old.items + HEADER_BYTES }
    ensures room { vec_capacity into.old ≤ vec_capacity into.new }
{
    put(into, b"PORCHUCF");
    put_u32(into, VERSION);
    put_u32(into, header.frames);
    put_u64(into, header.number);
    put_u64(into, header.turns);
    put_u64(into, header.output);
    put_u32(into, header.blocks);
    put_u32(into, 0);
    put_u64(into, header.body);
    put_u64(into, 0);
    put(into, &header.program);
}

fn check_magic(text: &[u8]) -> Result<(), ImageFault>
    requires { HEADER_BYTES ≤ length text.now }
    ensures sound { OnOk result (magic_flaw text.now ≡ None) }
    ensures flaw { IfErr result (λ fault. magic_flaw text.now ≡ Some fault) }
{
    if text[MAGIC_AT..VERSION_AT] == b"ORCHUCF"[..] {
        Ok(())
    } else {
        Err(damaged(MAGIC_AT, Reason::Magic))
    }
}

fn check_version(text: &[u8]) -> Result<(), ImageFault>
    requires { HEADER_BYTES ≤ length text.now }
    ensures sound { OnOk result (version_flaw text.now ≡ None) }
    ensures flaw { IfErr result (λ fault. version_flaw text.now ≡ Some fault) }
{
    if read_u32(text, VERSION_AT) == VERSION {
        Ok(())
    } else {
        Err(damaged(VERSION_AT, Reason::Version))
    }
}

fn check_reserved(text: &[u8]) -> Result<(), ImageFault>
    requires { HEADER_BYTES ≤ length text.now }
    ensures sound { OnOk result (reserved_flaw text.now ≡ None) }
    ensures flaw { IfErr result (λ fault. reserved_flaw text.now ≡ Some fault) }
{
    if read_u32(text, ZERO_AT) != 0 {
        Err(damaged(ZERO_AT, Reason::Reserved))
    } else if read_u64(text, ZEROS_AT) != 0 {
        Err(damaged(ZEROS_AT, Reason::Reserved))
    } else {
        Ok(())
    }
}

fn check_counts(header: &Header) -> Result<(), ImageFault>
    ensures sound { OnOk result (counts_flaw header.now ≡ None) }
    ensures flaw { IfErr result (λ fault. counts_flaw header.now ≡ Some fault) }
{
    if header.frames == 0 {
        Err(damaged(FRAMES_AT, Reason::Counts))
    } else if header.number == 0 || header.number > header.turns {
        Err(damaged(NUMBER_AT, Reason::Counts))
    } else if header.turns > MOST_TURNS {
        Err(damaged(TURNS_AT, Reason::Counts))
    } else if header.blocks > MOST_BLOCKS {
        Err(damaged(BLOCKS_AT, Reason::Counts))
    } else {
        Ok(())
    }
}

fn header_in(text: &[u8]) -> Header
    requires { HEADER_BYTES ≤ length text.now }
    ensures { result ≡ header_of text.now }
{
    Header {
        number: read_u64(text, NUMBER_AT),
        turns: read_u64(text, TURNS_AT),
        output: read_u64(text, OUTPUT_AT),
        frames: read_u32(text, FRAMES_AT),
        blocks: read_u32(text, BLOCKS_AT),
        body: read_u64(text, BODY_AT),
        program: read_digest(text, PROGRAM_AT),
    }
}

/// A fault at a place.
pub(crate) fn damaged(place: usize, reason: Reason) -> ImageFault
    ensures { result ≡ ImageFault.Damaged place reason }
{
    ImageFault::Damaged {
        place: place as u64,
        reason,
    }
}
