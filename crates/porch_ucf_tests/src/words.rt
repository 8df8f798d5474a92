//! An array, a pointer to its elements, and the words that the pointer may have in a checkpoint file.

use crate::sample::{Wanted, append, digest_of, expect_fault, read_under, seal, valid_of};
use porch_flat::whole::Valid;
use porch_layout::built_in;
use porch_ucf::Reason;
use std::alloc::{AllocError, Global};
use std::process::Abort;
use std::test::Fail;

/// `int b[3]; int *e; int main(void){int *p; checkpoint(); return 0;}`, as it saves and rebuilds its frame.
const PROGRAM: &str = "/* porch flat text, version 1 */
#include \"porch.h\"
ARRAY(8, 4, 3);
POINTER(9, 4);
GLOBAL(0, 8);
GLOBAL(1, 9);
FUNCTION(0, main, 4, 0);
VAR(0, 4);
VAR(1, 9);
BEGIN();
RESTORE(v0, v1);
TABLE(1, 0);
LABEL(0);
CHECKPOINT();
SAVED(1, 1);
RETURN(0);
LABEL(1);
PUSH(v0, v1);
END();
";

/// The file up to the digest of the program's text: number 1 of 1 turn, no output, 1 frame, no block.
static FRONT: [u8; 64] = [
    80, 79, 82, 67, 72, 85, 67, 70, 0, 0, 0, 1, 0, 0, 0, 1, 0, 0, 0, 0, 0, 0, 0, 1, 0, 0, 0, 0, 0,
    0, 0, 1, 0, 0, 0, 0, 0, 0, 0, 0, 0, 0, 0, 0, 0, 0, 0, 0, 0, 0, 0, 0, 0, 0, 0, 40, 0, 0, 0, 0,
    0, 0, 0, 0,
];

/// The body up to the word of `e`: main at its call 1, and `b`.
static BEFORE: [u8; 20] = [0, 0, 0, 0, 0, 0, 0, 1, 0, 0, 0, 0, 0, 0, 0, 0, 0, 0, 0, 0];

/// The body behind the word of `e`: main's variables.
static AFTER: [u8; 12] = [0; 12];

/// Where the word of `e` stands.
const WORD_AT: u64 = 116;

/// A word, and whether it names something that `e` can point to.
struct Word {
    word: u64,
    is_name: bool,
}

/// `b` stands at 0 of the data, `e` at 12, and main's variables at 20 and 24.
static WORDS: [Word; 16] = [
    // the end of b
    Word {
        word: 19,
        is_name: true,
    },
    // b[0], b[1], b[2]
    Word {
        word: 2,
        is_name: true,
    },
    Word {
        word: 10,
        is_name: true,
    },
    Word {
        word: 18,
        is_name: true,
    },
    // null, and dead
    Word {
        word: 0,
        is_name: true,
    },
    Word {
        word: u64::MAX,
        is_name: true,
    },
    // main's int and its end
    Word {
        word: 42,
        is_name: true,
    },
    Word {
        word: 43,
        is_name: true,
    },
    // the end of a subobject at 6, where none begins
    Word {
        word: 15,
        is_name: false,
    },
    // the ends of b[0] and b[1], where the next ones begin
    Word {
        word: 3,
        is_name: false,
    },
    Word {
        word: 11,
        is_name: false,
    },
    // the end of nothing
    Word {
        word: 1,
        is_name: false,
    },
    // between elements
    Word {
        word: 12,
        is_name: false,
    },
    // where e begins, which is no int
    Word {
        word: 26,
        is_name: false,
    },
    // behind the data
    Word {
        word: 66,
        is_name: false,
    },
    Word {
        word: u64::MAX - 1,
        is_name: false,
    },
];

/// The program is dropped here alone: a drop of all that it holds is long.
#[test]
fn words_that_name_something_are_read(rt: HostRuntime) -> Result<(), Fail> {
    let alloc = rt.alloc();
    let program = valid_of(alloc, PROGRAM.as_bytes())?.ok_or("no program")?;
    each_word(&rt, alloc, &program)
}

fn each_word(rt: &impl Abort, alloc: Global, program: &Valid) -> Result<(), Fail> {
    for word in &WORDS {
        expect_word(rt, alloc, program, word)?;
    }
    Ok(())
}

fn expect_word(rt: &impl Abort, alloc: Global, program: &Valid, word: &Word) -> Result<(), Fail> {
    let le32 = built_in("le32").ok_or("le32")?;
    let digest = digest_of(PROGRAM.as_bytes());
    let text = pointing(alloc, digest, word.word)?;
    match read_under(rt, alloc, program, &digest, text.as_slice(), &le32) {
        Ok(image) => {
            assert!(rt; word.is_name);
            assert!(rt; text.len() > 144);
            assert!(rt; image.bytes() == &text[104..136]);
        }
        Err(fault) => {
            assert!(rt; !word.is_name);
            expect_fault(rt, fault, Wanted::Damaged(WORD_AT, Reason::Word));
        }
    }
    Ok(())
}

/// The file with a word for `e`.
fn pointing(alloc: Global, digest: [u8; 32], word: u64) -> Result<Vec<u8>, AllocError> {
    let mut text = Vec::new(alloc);
    append(&mut text, &FRONT)?;
    append(&mut text, &digest)?;
    append(&mut text, &BEFORE)?;
    append(&mut text, &word.to_be_bytes())?;
    append(&mut text, &AFTER)?;
    seal(&mut text)?;
    Ok(text)
}
