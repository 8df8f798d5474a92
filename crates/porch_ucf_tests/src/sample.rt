//! A checkpoint file made by hand, its program, and what is done with both.

ghost use Rattle.std.specs.Prelude.{◌≤◌, length};
ghost use Rattle.porch_layout.specs.Layouts.{IsLayout};

use porch_flat::whole::Valid;
use porch_flat_text::parse_flat;
use porch_layout::{Layout, built_in};
use porch_ucf::{Image, ImageFault, Reason, SEAL_BYTES, read_front, read_image, write_image};
use sha2::{Digest, Sha256};
use std::alloc::{AllocError, Global};
use std::process::Abort;
use std::test::Fail;

/// Where the digest of the file stands.
pub(crate) const SEAL_AT: usize = 164;

/// How long the file is.
pub(crate) const LENGTH: usize = 196;

/// `int b[3]; int *e; long s; int f(void){checkpoint();return 0;} int main(void){return f();}`, as it saves and
/// rebuilds its frames.
const PROGRAM: &str = "/* porch flat text, version 1 */
#include \"porch.h\"
ARRAY(8, 4, 3);
POINTER(9, 4);
GLOBAL(0, 8);
GLOBAL(1, 9);
GLOBAL(2, 6);
FUNCTION(0, f, 4, 0);
VAR(0, 4);
BEGIN();
RESTORE(v0);
TABLE(1, 0);
LABEL(0);
CHECKPOINT();
SAVED(1, 1);
RETURN(0);
LABEL(1);
PUSH(v0);
END();
FUNCTION(1, main, 4, 0);
VAR(0, 4);
BEGIN();
RESTORE(v0);
TABLE(1, 0);
LABEL(0);
CALL(v0, 0);
SAVED(1, 1);
RETURN(v0);
LABEL(1);
PUSH(v0);
END();
";

/// The file up to the digest of the program's text: number 2 of 5 turns and 7 bytes of output, 2 frames, 1 block.
static FRONT: [u8; 64] = [
    80, 79, 82, 67, 72, 85, 67, 70, 0, 0, 0, 1, 0, 0, 0, 2, 0, 0, 0, 0, 0, 0, 0, 2, 0, 0, 0, 0, 0,
    0, 0, 5, 0, 0, 0, 0, 0, 0, 0, 7, 0, 0, 0, 1, 0, 0, 0, 0, 0, 0, 0, 0, 0, 0, 0, 68, 0, 0, 0, 0,
    0, 0, 0, 0,
];

/// The body: main at its call 1, f at its call 1, a block of two ints; then `b`, `e` (the end of `b`), `s`, the
/// variables of both frames, and the block.
pub(crate) static BODY: [u8; 68] = [
    0, 0, 0, 1, 0, 0, 0, 1, 0, 0, 0, 0, 0, 0, 0, 1, 0, 0, 0, 4, 0, 0, 0, 2, 0, 0, 0, 1, 0, 0, 0, 2,
    0, 0, 0, 3, 0, 0, 0, 0, 0, 0, 0, 19, 0, 0, 0, 0, 0, 0, 0, 9, 0, 0, 0, 0, 0, 0, 0, 0, 255, 255,
    255, 255, 0, 0, 0, 6,
];

/// What a spoiled file is refused for.
#[derive(Clone, Copy)]
pub(crate) enum Wanted {
    Damaged(u64, Reason),
    OtherProgram,
    TooNarrow(i128, u64),
}

/// The program of the file.
pub(crate) fn program_of(alloc: Global) -> Result<Option<Valid>, AllocError> {
    valid_of(alloc, PROGRAM.as_bytes())
}

/// The program of a flat text. The text is a parameter, so that the prover computes nothing over it.
pub(crate) fn valid_of(alloc: Global, text: &[u8]) -> Result<Option<Valid>, AllocError> {
    match parse_flat(alloc, text) {
        Ok(flat) => match Valid::new(alloc, flat) {
            Ok(valid) => Ok(Some(valid)),
            Err(_) => Ok(None),
        },
        Err(_) => Ok(None),
    }
}

/// The digest of the program's text.
fn digest_of_program() -> [u8; 32] {
    digest_of(PROGRAM.as_bytes())
}

/// The digest of a text.
pub(crate) fn digest_of(text: &[u8]) -> [u8; 32] {
    Sha256::digest(text)
}

/// The file without its digest.
pub(crate) fn unsealed(alloc: Global) -> Result<Vec<u8>, AllocError> {
    let mut text = Vec::new(alloc);
    append(&mut text, &FRONT)?;
    append(&mut text, &digest_of_program())?;
    append(&mut text, &BODY)?;
    Ok(text)
}

/// Puts bytes last.
pub(crate) fn append(text: &mut Vec<u8>, bytes: &[u8]) -> Result<(), AllocError> {
    text.extend_from_slice(bytes)
}

/// Puts the digest of all bytes but the first one behind them.
pub(crate) fn seal(text: &mut Vec<u8>) -> Result<(), AllocError> {
    let digest = digest_of(&text[1.min(text.len())..]);
    append(text, &digest)
}

/// Reads a file of the program under a layout.
pub(crate) fn read(
    rt: &impl Abort,
    alloc: Global,
    program: &Valid,
    text: &[u8],
    layout: &Layout,
) -> Result<Image, ImageFault>
    requires { IsLayout layout.now }
{
    read_under(rt, alloc, program, &digest_of_program(), text, layout)
}

/// Reads a file of the program whose text has this digest.
pub(crate) fn read_under(
    rt: &impl Abort,
    alloc: Global,
    program: &Valid,
    digest: &[u8; 32],
    text: &[u8],
    layout: &Layout,
) -> Result<Image, ImageFault>
    requires { IsLayout layout.now }
{
    assert!(rt; text.len() >= SEAL_BYTES);
    read_image(alloc, program, digest, text, layout)
}

/// Fails unless a file is refused for this, where a long has four bytes.
pub(crate) fn expect_refusal(
    rt: &impl Abort,
    alloc: Global,
    program: &Valid,
    text: &[u8],
    wanted: Wanted,
) -> Result<(), Fail> {
    let le32 = built_in("le32").ok_or("le32")?;
    match read(rt, alloc, program, text, &le32) {
        Ok(_) => Err(Fail::from("a spoiled file is read")),
        Err(fault) => {
            expect_fault(rt, fault, wanted);
            Ok(())
        }
    }
}

/// Fails unless the front of a file is refused for this.
pub(crate) fn expect_front(rt: &impl Abort, text: &[u8], wanted: Wanted) -> Result<(), Fail> {
    assert!(rt; text.len() >= SEAL_BYTES);
    match read_front(&digest_of_program(), text) {
        Ok(_) => Err(Fail::from("a large count is read")),
        Err(fault) => {
            expect_fault(rt, fault, wanted);
            Ok(())
        }
    }
}

/// Stops unless the fault is this.
pub(crate) fn expect_fault(rt: &impl Abort, fault: ImageFault, wanted: Wanted) {
    match wanted {
        Wanted::Damaged(place, reason) => {
            assert!(rt; fault == ImageFault::Damaged { place, reason });
        }
        Wanted::OtherProgram => {
            assert!(rt; matches!(fault, ImageFault::OtherProgram { kept: _, found: _ }));
        }
        Wanted::TooNarrow(value, place) => {
            assert!(rt; fault == ImageFault::TooNarrow { value, place });
        }
    }
}

/// The bytes of a checkpoint.
pub(crate) fn written(
    rt: &impl Abort,
    alloc: Global,
    image: &Image,
) -> Result<Vec<u8>, AllocError> {
    let body = image.header().body as usize;
    assert!(rt; body < 1_000_000);
    let mut text = Vec::with_capacity(alloc, SEAL_BYTES + body)?;
    write_image(image, &mut text);
    Ok(text)
}
