//! Each flaw of a checkpoint file alone, and with each other one.

use crate::sample::{SEAL_AT, Wanted, expect_front, expect_refusal, program_of, seal, unsealed};
use porch_flat::whole::Valid;
use porch_ucf::Reason;
use std::alloc::{AllocError, Global};
use std::process::Abort;
use std::test::Fail;

/// Bits of one byte that are changed, and what the file is then refused for. The digest is made for the
/// changed bytes before it.
struct Flaw {
    place: usize,
    mask: u8,
    wanted: Wanted,
}

/// In the order in which flaws are looked for. None undoes another.
static FLAWS: [Flaw; 21] = [
    // another name
    Flaw {
        place: 3,
        mask: 1,
        wanted: Wanted::Damaged(1, Reason::Magic),
    },
    // version 2
    Flaw {
        place: 11,
        mask: 3,
        wanted: Wanted::Damaged(8, Reason::Version),
    },
    Flaw {
        place: 47,
        mask: 1,
        wanted: Wanted::Damaged(44, Reason::Reserved),
    },
    Flaw {
        place: 56,
        mask: 1,
        wanted: Wanted::Damaged(56, Reason::Reserved),
    },
    // no frame
    Flaw {
        place: 15,
        mask: 2,
        wanted: Wanted::Damaged(12, Reason::Counts),
    },
    // number 0
    Flaw {
        place: 23,
        mask: 2,
        wanted: Wanted::Damaged(16, Reason::Counts),
    },
    // a number above the turns, and above 2^62
    Flaw {
        place: 16,
        mask: 255,
        wanted: Wanted::Damaged(16, Reason::Counts),
    },
    // turns above 2^62
    Flaw {
        place: 24,
        mask: 65,
        wanted: Wanted::Damaged(24, Reason::Counts),
    },
    // more than 65,536 blocks
    Flaw {
        place: 41,
        mask: 1,
        wanted: Wanted::Damaged(40, Reason::Counts),
    },
    // a body of 324 bytes
    Flaw {
        place: 54,
        mask: 1,
        wanted: Wanted::Damaged(48, Reason::Length),
    },
    Flaw {
        place: SEAL_AT,
        mask: 1,
        wanted: Wanted::Damaged(164, Reason::Digest),
    },
    Flaw {
        place: 64,
        mask: 1,
        wanted: Wanted::OtherProgram,
    },
    // 257 blocks, for whose rows the body is too short
    Flaw {
        place: 42,
        mask: 1,
        wanted: Wanted::Damaged(48, Reason::Rows),
    },
    // a frame of f first
    Flaw {
        place: 99,
        mask: 1,
        wanted: Wanted::Damaged(96, Reason::Frame),
    },
    // call 3 of f
    Flaw {
        place: 111,
        mask: 2,
        wanted: Wanted::Damaged(104, Reason::Frame),
    },
    // a block of no type
    Flaw {
        place: 112,
        mask: 1,
        wanted: Wanted::Damaged(112, Reason::Block),
    },
    // a block of 2^31 elements and more
    Flaw {
        place: 116,
        mask: 128,
        wanted: Wanted::Damaged(112, Reason::Block),
    },
    // a block of two elements of 2 bytes
    Flaw {
        place: 115,
        mask: 6,
        wanted: Wanted::Damaged(48, Reason::Size),
    },
    // a block of 258 elements
    Flaw {
        place: 118,
        mask: 1,
        wanted: Wanted::Damaged(48, Reason::Size),
    },
    // the word 15
    Flaw {
        place: 139,
        mask: 28,
        wanted: Wanted::Damaged(132, Reason::Word),
    },
    Flaw {
        place: 143,
        mask: 1,
        wanted: Wanted::TooNarrow(4_294_967_305, 140),
    },
];

/// A number of 32 bits with all bits set, at a place of the header, and what the file is refused for.
struct Claim {
    place: usize,
    wanted: Wanted,
}

/// Frames, blocks, and the two halves of the body's length.
static CLAIMS: [Claim; 4] = [
    Claim {
        place: 12,
        wanted: Wanted::Damaged(48, Reason::Rows),
    },
    Claim {
        place: 40,
        wanted: Wanted::Damaged(40, Reason::Counts),
    },
    Claim {
        place: 48,
        wanted: Wanted::Damaged(48, Reason::Length),
    },
    Claim {
        place: 52,
        wanted: Wanted::Damaged(48, Reason::Length),
    },
];

/// What is tried with the program.
#[derive(Clone, Copy)]
enum Trial {
    Alone,
    InPairs,
    ManyClaimed,
}

#[test]
fn each_flaw_is_named(rt: HostRuntime) -> Result<(), Fail> {
    attempt(&rt, rt.alloc(), Trial::Alone)
}

#[test]
fn of_two_flaws_the_first_is_named(rt: HostRuntime) -> Result<(), Fail> {
    attempt(&rt, rt.alloc(), Trial::InPairs)
}

/// `read_front` has no allocator, so what it refuses is refused before memory is taken.
#[test]
fn large_counts_are_refused_before_memory_is_taken(rt: HostRuntime) -> Result<(), Fail> {
    attempt(&rt, rt.alloc(), Trial::ManyClaimed)
}

/// The program is dropped here alone: a drop of all that it holds is long.
fn attempt(rt: &impl Abort, alloc: Global, trial: Trial) -> Result<(), Fail> {
    let program = program_of(alloc)?.ok_or("no program")?;
    tried(rt, alloc, &program, trial)
}

fn tried(rt: &impl Abort, alloc: Global, program: &Valid, trial: Trial) -> Result<(), Fail> {
    match trial {
        Trial::Alone => each_alone(rt, alloc, program),
        Trial::InPairs => each_pair(rt, alloc, program),
        Trial::ManyClaimed => each_claim(rt, alloc, program),
    }
}

fn each_alone(rt: &impl Abort, alloc: Global, program: &Valid) -> Result<(), Fail> {
    for (rank, flaw) in FLAWS.iter().enumerate() {
        let text = spoiled(alloc, rank, rank)?;
        expect_refusal(rt, alloc, program, text.as_slice(), flaw.wanted)?;
    }
    Ok(())
}

fn each_pair(rt: &impl Abort, alloc: Global, program: &Valid) -> Result<(), Fail> {
    for (rank, flaw) in FLAWS.iter().enumerate() {
        each_later(rt, alloc, program, rank, flaw.wanted)?;
    }
    Ok(())
}

fn each_later(
    rt: &impl Abort,
    alloc: Global,
    program: &Valid,
    first: usize,
    wanted: Wanted,
) -> Result<(), Fail> {
    for second in first..FLAWS.len() {
        let text = spoiled(alloc, first, second)?;
        expect_refusal(rt, alloc, program, text.as_slice(), wanted)?;
    }
    Ok(())
}

/// The file with the flaws of two numbers.
fn spoiled(alloc: Global, first: usize, second: usize) -> Result<Vec<u8>, AllocError> {
    let mut text = unsealed(alloc)?;
    change(&mut text, first, second, 0);
    seal(&mut text)?;
    change(&mut text, first, second, SEAL_AT);
    Ok(text)
}

/// Changes what the flaws of two numbers change of the bytes that are there, from a place on.
fn change(text: &mut Vec<u8>, first: usize, second: usize, from: usize) {
    for (rank, flaw) in FLAWS.iter().enumerate() {
        let is_one = rank == first || rank == second;
        if is_one && from <= flaw.place && flaw.place < text.len() {
            text[flaw.place] ^= flaw.mask;
        }
    }
}

fn each_claim(rt: &impl Abort, alloc: Global, program: &Valid) -> Result<(), Fail> {
    for claim in &CLAIMS {
        let text = claiming(rt, alloc, claim.place)?;
        expect_front(rt, text.as_slice(), claim.wanted)?;
        expect_refusal(rt, alloc, program, text.as_slice(), claim.wanted)?;
    }
    Ok(())
}

/// The file with all bits set at a place of its header.
fn claiming(rt: &impl Abort, alloc: Global, place: usize) -> Result<Vec<u8>, AllocError> {
    let mut text = unsealed(alloc)?;
    assert!(rt; place < 100 && 104 <= text.len());
    text[place..place + 4].copy_from_slice(&[255, 255, 255, 255]);
    seal(&mut text)?;
    Ok(text)
}
