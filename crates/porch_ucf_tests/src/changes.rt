//! A checkpoint file that is read and written again, and files with one byte changed.

ghost use Rattle.porch_layout.specs.Layouts.{IsLayout};

use crate::sample::{BODY, LENGTH, SEAL_AT, program_of, read, seal, unsealed, written};
use porch_flat::whole::Valid;
use porch_layout::{Layout, built_in};
use porch_ucf::{BlockRow, FrameRow, Image};
use std::alloc::Global;
use std::process::Abort;
use std::test::Fail;

/// What is tried with the program.
#[derive(Clone, Copy)]
enum Trial {
    Unchanged,
    UnderNewDigest,
    UnderOldDigest,
}

/// The program is dropped here alone: a drop of all that it holds is long.
fn attempt(rt: &impl Abort, alloc: Global, trial: Trial) -> Result<(), Fail> {
    let program = program_of(alloc)?.ok_or("no program")?;
    tried(rt, alloc, &program, trial)
}

fn tried(rt: &impl Abort, alloc: Global, program: &Valid, trial: Trial) -> Result<(), Fail> {
    match trial {
        Trial::Unchanged => unchanged(rt, alloc, program),
        Trial::UnderNewDigest => under_new_digest(rt, alloc, program),
        Trial::UnderOldDigest => under_old_digest(rt, alloc, program),
    }
}

#[test]
fn a_file_is_read_and_written_again(rt: HostRuntime) -> Result<(), Fail> {
    attempt(&rt, rt.alloc(), Trial::Unchanged)
}

/// A byte is changed at each place, and the digest made for it.
#[test]
fn no_changed_file_is_taken_for_another(rt: HostRuntime) -> Result<(), Fail> {
    attempt(&rt, rt.alloc(), Trial::UnderNewDigest)
}

/// A byte is changed at each place under the old digest.
#[test]
fn no_changed_file_has_the_digest(rt: HostRuntime) -> Result<(), Fail> {
    attempt(&rt, rt.alloc(), Trial::UnderOldDigest)
}

fn unchanged(rt: &impl Abort, alloc: Global, program: &Valid) -> Result<(), Fail> {
    let le32 = built_in("le32").ok_or("le32")?;
    let mut text = unsealed(alloc)?;
    seal(&mut text)?;
    assert_eq!(rt; text.len(), LENGTH);
    let image = read(rt, alloc, program, text.as_slice(), &le32)?;
    expect_content(rt, &image);
    expect_written(rt, alloc, &image, text.as_slice())
}

fn expect_content(rt: &impl Abort, image: &Image) {
    assert_eq!(rt; image.header().number, 2);
    assert_eq!(rt; image.header().turns, 5);
    assert_eq!(rt; image.header().output, 7);
    let frames = [
        FrameRow {
            function: 1,
            call: 1,
        },
        FrameRow {
            function: 0,
            call: 1,
        },
    ];
    assert!(rt; image.frames() == frames.as_slice());
    let blocks = [BlockRow { ty: 4, count: 2 }];
    assert!(rt; image.blocks() == blocks.as_slice());
    assert!(rt; image.bytes() == &BODY[24..]);
}

fn expect_written(rt: &impl Abort, alloc: Global, image: &Image, text: &[u8]) -> Result<(), Fail> {
    let again = written(rt, alloc, image)?;
    assert!(rt; again.as_slice() == text);
    Ok(())
}

/// Changes the byte at a place.
fn change(rt: &impl Abort, text: &mut Vec<u8>, place: usize) {
    assert!(rt; place < text.len());
    text[place] = text[place].wrapping_add(1);
}

/// Whether a file is refused, or is that of the checkpoint that is read.
fn is_refused_or_one(
    rt: &impl Abort,
    alloc: Global,
    program: &Valid,
    text: &[u8],
    layout: &Layout,
) -> Result<bool, Fail>
    requires { IsLayout layout.now }
{
    match read(rt, alloc, program, text, layout) {
        Err(_) => Ok(true),
        Ok(image) => {
            let again = written(rt, alloc, &image)?;
            Ok(again.as_slice() == text)
        }
    }
}

fn under_new_digest(rt: &impl Abort, alloc: Global, program: &Valid) -> Result<(), Fail> {
    let le64 = built_in("le64").ok_or("le64")?;
    for place in 1..SEAL_AT {
        let mut text = unsealed(alloc)?;
        change(rt, &mut text, place);
        seal(&mut text)?;
        assert!(rt; is_refused_or_one(rt, alloc, program, text.as_slice(), &le64)?);
    }
    Ok(())
}

fn under_old_digest(rt: &impl Abort, alloc: Global, program: &Valid) -> Result<(), Fail> {
    let le64 = built_in("le64").ok_or("le64")?;
    for place in 1..LENGTH {
        let mut text = unsealed(alloc)?;
        seal(&mut text)?;
        change(rt, &mut text, place);
        assert!(rt; read(rt, alloc, program, text.as_slice(), &le64).is_err());
    }
    Ok(())
}
