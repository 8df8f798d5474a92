//! Texts of plain programs, and the texts that rewriting makes of them.

use porch_flat::whole::{Plain, Valid, ValidFault};
use porch_flat_text::{FlatFault, parse_flat, print_flat};
use porch_rewrite::{has_room, rewrite};
use std::alloc::{AllocError, Global};
use std::process::Abort;
use std::test::Fail;

/// A program, and what is made of it.
struct Row {
    plain: &'static str,
    rewritten: &'static str,
}

const HEAD: &str = "/* porch flat text, version 1 */
#include \"porch.h\"
";

static ROWS: [Row; 3] = [
    // A checkpoint and a character.
    Row {
        plain: "FUNCTION(0, main, 4, 0);
VAR(0, 4);
BEGIN();
CHECKPOINT();
CHAR(v0, 65);
RETURN(0);
END();
",
        rewritten: "FUNCTION(0, main, 4, 0);
VAR(0, 4);
BEGIN();
RESTORE(v0);
TABLE(1, 1073741824);
LABEL(1073741824);
CHECKPOINT();
SAVED(1, 1073741825);
CHAR(v0, 65);
RETURN(0);
LABEL(1073741825);
PUSH(v0);
END();
",
    },
    // Nothing reaches a checkpoint.
    Row {
        plain: "FUNCTION(0, main, 4, 0);
VAR(0, 4);
BEGIN();
CHAR(v0, 65);
RETURN(0);
END();
",
        rewritten: "FUNCTION(0, main, 4, 0);
VAR(0, 4);
BEGIN();
CHAR(v0, 65);
RETURN(0);
END();
",
    },
    // Two functions call each other, and one of them reaches a checkpoint; a third one shows a character.
    Row {
        plain: "FUNCTION(0, even, void, 1);
VAR(0, 4);
BEGIN();
IF(v0, 7);
RETURN();
LABEL(7);
CALL(_, 1, v0);
END();
FUNCTION(1, odd, void, 1);
VAR(0, 4);
VAR(1, 4);
BEGIN();
CALL(_, 2);
SUB(v1, v0, 1);
CALL(_, 0, v1);
CHECKPOINT();
END();
FUNCTION(2, show, void, 0);
VAR(0, 4);
BEGIN();
CHAR(v0, 66);
END();
FUNCTION(3, main, 4, 0);
BEGIN();
CALL(_, 0, 2);
RETURN(0);
END();
",
        rewritten: "FUNCTION(0, even, void, 1);
VAR(0, 4);
BEGIN();
RESTORE(v0);
TABLE(1, 1073741824);
IF(v0, 7);
RETURN();
LABEL(7);
LABEL(1073741824);
CALL(_, 1, v0);
SAVED(1, 1073741825);
LABEL(1073741825);
PUSH(v0);
END();
FUNCTION(1, odd, void, 1);
VAR(0, 4);
VAR(1, 4);
BEGIN();
RESTORE(v0, v1);
TABLE(1, 1073741824);
TABLE(2, 1073741825);
CALL(_, 2);
SUB(v1, v0, 1);
LABEL(1073741824);
CALL(_, 0, v1);
SAVED(1, 1073741826);
LABEL(1073741825);
CHECKPOINT();
SAVED(2, 1073741826);
LABEL(1073741826);
PUSH(v0, v1);
END();
FUNCTION(2, show, void, 0);
VAR(0, 4);
BEGIN();
CHAR(v0, 66);
END();
FUNCTION(3, main, 4, 0);
BEGIN();
RESTORE();
TABLE(1, 1073741824);
LABEL(1073741824);
CALL(_, 0, 2);
SAVED(1, 1073741825);
RETURN(0);
LABEL(1073741825);
PUSH();
END();
",
    },
];

/// A label that leaves no room for those that are added.
const NO_ROOM: &str = "FUNCTION(0, main, 4, 0);
BEGIN();
LABEL(1073741824);
RETURN(0);
END();
";

fn whole_text(alloc: Global, functions: &str) -> Result<Vec<u8>, AllocError> {
    let mut text = Vec::new(alloc);
    text.extend_from_slice(HEAD.as_bytes())?;
    text.extend_from_slice(functions.as_bytes())?;
    Ok(text)
}

// The program of a text, where there is one that breaks no rule.
fn plain_of(alloc: Global, functions: &str) -> Result<Option<Plain>, AllocError> {
    let text = whole_text(alloc, functions)?;
    match parse_flat(alloc, text.as_slice()) {
        Ok(flat) => match Plain::new(alloc, flat) {
            Ok(plain) => Ok(Some(plain)),
            Err(ValidFault::NotValid { line: _, rule: _ }) => Ok(None),
            Err(ValidFault::NoMemory) => Err(AllocError),
        },
        Err(FlatFault::FlatSyntax { line: _ }) => Ok(None),
        Err(FlatFault::NoMemory) => Err(AllocError),
    }
}

fn rewritten_of(alloc: Global, functions: &str) -> Result<Option<Valid>, AllocError> {
    match plain_of(alloc, functions)? {
        Some(plain) if has_room(plain.flat()) => Ok(Some(rewrite(alloc, plain)?)),
        _ => Ok(None),
    }
}

// The text of what is made of a program, and that of a copy of it.
fn texts_of(alloc: Global, functions: &str) -> Result<Option<(Vec<u8>, Vec<u8>)>, AllocError> {
    match rewritten_of(alloc, functions)? {
        Some(valid) => {
            let copy = valid.copy(alloc)?;
            let text = print_flat(alloc, valid.flat())?;
            let text_of_copy = print_flat(alloc, copy.flat())?;
            Ok(Some((text, text_of_copy)))
        }
        None => Ok(None),
    }
}

fn expect_text(rt: &impl Abort, alloc: Global, row: &Row) -> Result<(), Fail> {
    let wanted = whole_text(alloc, row.rewritten)?;
    match texts_of(alloc, row.plain)? {
        Some((text, text_of_copy)) => {
            assert!(rt; text.as_slice() == wanted.as_slice());
            assert!(rt; text_of_copy.as_slice() == wanted.as_slice());
        }
        None => assert!(rt; false),
    }
    Ok(())
}

#[test]
fn programs_are_rewritten_so(rt: HostRuntime) -> Result<(), Fail> {
    for row in &ROWS {
        expect_text(&rt, rt.alloc(), row)?;
    }
    Ok(())
}

#[test]
fn a_great_label_leaves_no_room(rt: HostRuntime) -> Result<(), Fail> {
    let plain = plain_of(rt.alloc(), NO_ROOM)?;
    match plain {
        Some(plain) => assert!(rt; !has_room(plain.flat())),
        None => assert!(rt; false),
    }
    Ok(())
}
