//! The front of a checkpoint file: what can be told of it before its rows are read.

ghost use Rattle.std.specs.Prelude.{◌≡◌, ◌≤◌, ◌<◌, ◌^◌, ◌+◌, length, IfOk, IfErr, OnOk, Some, None};
ghost use Rattle.porch_ucf.specs.Headers.{header_of};
ghost use Rattle.porch_ucf.specs.FrontFlaws.{length_flaw, digest_flaw, program_flaw, rows_flaw, front_flaw};
ghost use Rattle.porch_ucf.specs.Images.{rows_size};

use crate::fault::{ImageFault, Reason};
use crate::header::{BODY_AT, DIGEST_BYTES, HEADER_BYTES, Header, damaged, read_header};
use crate::write::SEAL_BYTES;
use sha2::{Digest, Sha256};

/// How many bytes a row has: two numbers of 32 bits.
pub const ROW_BYTES: u64 = 8;

/// The header of an open checkpoint file of the program whose text has this digest, or the file's first
/// flaw, as far as it shows before the rows are read. It takes no memory.
pub fn read_front(digest: &[u8; 32], text: &[u8]) -> Result<Header, ImageFault>
    requires { SEAL_BYTES ≤ length text.now }
    ensures header { IfOk result (λ header. header ≡ header_of text.now) }
    ensures sound { OnOk result (front_flaw digest.now text.now ≡ None) }
    ensures flaw { IfErr result (λ fault. front_flaw digest.now text.now ≡ Some fault) }
    ensures whole { IfOk result (λ header. SEAL_BYTES + header.body ≤ length text.now) }
    ensures rows { IfOk result (λ header. rows_size header.frames header.blocks ≤ header.body) }
{
    let header = read_header(text)?;
    check_length(&header, text)?;
    check_digest(&header, text)?;
    check_program(digest, &header)?;
    check_rows(&header)?;
    Ok(header)
}

fn check_length(header: &Header, text: &[u8]) -> Result<(), ImageFault>
    requires { SEAL_BYTES ≤ length text.now }
    ensures sound { OnOk result (length_flaw header.now text.now ≡ None) }
    ensures flaw { IfErr result (λ fault. length_flaw header.now text.now ≡ Some fault) }
    ensures whole { OnOk result (SEAL_BYTES + header.now.body ≤ length text.now) }
{
    if header.body <= (text.len() - SEAL_BYTES) as u64 {
        Ok(())
    } else {
        Err(damaged(BODY_AT, Reason::Length))
    }
}

fn check_digest(header: &Header, text: &[u8]) -> Result<(), ImageFault>
    requires { SEAL_BYTES + header.now.body ≤ length text.now }
    ensures sound { OnOk result (digest_flaw header.now text.now ≡ None) }
    ensures flaw { IfErr result (λ fault. digest_flaw header.now text.now ≡ Some fault) }
{
    let end = HEADER_BYTES + header.body as usize;
    let digest = Sha256::digest(&text[1..end]);
    if text[end..end + DIGEST_BYTES] == digest[..] {
        Ok(())
    } else {
        Err(damaged(end, Reason::Digest))
    }
}

fn check_program(digest: &[u8; 32], header: &Header) -> Result<(), ImageFault>
    ensures sound { OnOk result (program_flaw digest.now header.now ≡ None) }
    ensures flaw { IfErr result (λ fault. program_flaw digest.now header.now ≡ Some fault) }
{
    if header.program == *digest {
        Ok(())
    } else {
        Err(ImageFault::OtherProgram {
            kept: header.program,
            found: *digest,
        })
    }
}

fn check_rows(header: &Header) -> Result<(), ImageFault>
    ensures sound { OnOk result (rows_flaw header.now ≡ None) }
    ensures flaw { IfErr result (λ fault. rows_flaw header.now ≡ Some fault) }
    ensures rows { OnOk result (rows_size header.now.frames header.now.blocks ≤ header.now.body) }
{
    if rows_size(header) <= header.body {
        Ok(())
    } else {
        Err(damaged(BODY_AT, Reason::Rows))
    }
}

/// How many bytes the rows have.
pub(crate) fn rows_size(header: &Header) -> u64
    ensures size { result ≡ rows_size header.now.frames header.now.blocks }
    ensures few { result < 2 ^ 36 }
{
    ROW_BYTES * (u64::from(header.frames) + u64::from(header.blocks))
}
