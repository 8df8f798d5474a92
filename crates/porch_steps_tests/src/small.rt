//! Small programs, each of which shows a rule or two of the abstract machine.
//! The programs are texts without their head lines. A blank or a newline stands between two lines.

use crate::ends::{End, Program, Start};
use porch_flat::whole::FlatRule;
use porch_values::Act;

/// Types, globals, a function that adds and the variables of `main`.
pub(crate) const SHAPES: &str =
    "POINTER(8, 4); STRUCT(9, 0, 4, 8); POINTER(10, 9); ARRAY(11, 0, 5); POINTER(12, 0); GLOBAL(0, 11);
INIT(0, 0, 104); INIT(0, 1, 105); GLOBAL(1, 8); INITA(1, 0, 2, 0); GLOBAL(2, 4); INIT(2, 0, 7);
FUNCTION(0, add, 4, 2); VAR(0, 4); VAR(1, 4); BEGIN(); ADD(v0, v0, v1); RETURN(v0); END();
FUNCTION(1, main, 4, 0); VAR(0, 4); VAR(1, 6); VAR(2, 8); VAR(3, 9); VAR(4, 10); VAR(5, 12);
VAR(6, 5); VAR(7, 7); VAR(8, 9); VAR(9, 10); VAR(10, 2); BEGIN();";

/// A variable of each of some kinds, a struct and pointers, and a function that gives what it never set.
pub(crate) const KINDS: &str =
    "POINTER(8, 4); STRUCT(9, 4, 6); POINTER(10, 9); POINTER(11, 0); GLOBAL(0, 9); INIT(0, 0, 5);
GLOBAL(1, 8); INITA(1, 0, 0, 0); FUNCTION(0, f, 6, 2); VAR(0, 4); VAR(1, 8); VAR(2, 6); BEGIN();
RETURN(v2); END(); FUNCTION(1, main, 4, 0); VAR(0, 4); VAR(1, 6); VAR(2, 8); VAR(3, 9);
VAR(4, 10); VAR(5, 0); VAR(6, 5); VAR(7, 7); BEGIN();";

/// The programs, with how they end.
pub(crate) static SMALL: [Program; 46] = [
    // a step out of the row, by more elements than 64 bits count
    Program {
        start: Start::Nothing,
        rest: "POINTER(8, 6); FUNCTION(0, main, 4, 0); VAR(0, 6); VAR(1, 6); VAR(2, 8); VAR(3, 4); BEGIN();
MOVE(v0, 7); MOVE(v1, 1073741824); MUL(v1, v1, v1); ADD(v1, v1, v1); LOCAL(v2, v0, 0);
STEP(v2, v2, v1); STEP(v2, v2, v1); LOAD(v0, v2); DEC(v3, v0); RETURN(0); END();",
        plain: None,
        end: End::Met(Act::Row),
        turns: 1,
        output: "",
    },
    // conversions to each kind of the program
    Program {
        start: Start::Shapes,
        rest: "MOVE(v1, 70000); CAST(v0, v1); DEC(v0, v0); CAST(v10, v1); CAST(v0, v10); DEC(v0, v0);
CAST(v6, v1); HEX(v0, v6); CAST(v7, v6); DEC(v0, v7); RETURN(0); END();",
        plain: None,
        end: End::Done(0),
        turns: 1,
        output: "7000044641117070000",
    },
    // a long past 2^31
    Program {
        start: Start::Shapes,
        rest: "MOVE(v1, 2147483647); ADD(v1, v1, 1); DEC(v0, v1); RETURN(0); END();",
        plain: None,
        end: End::Done(0),
        turns: 1,
        output: "2147483648",
    },
    // an unsigned long below 0 goes round
    Program {
        start: Start::Shapes,
        rest: "MOVE(v7, 0); SUB(v7, v7, 1); DEC(v0, v7); RETURN(0); END();",
        plain: None,
        end: End::Done(0),
        turns: 1,
        output: "18446744073709551615",
    },
    // quotient, remainder and shifts of -7
    Program {
        start: Start::Shapes,
        rest: "MOVE(v0, -7); DIV(v0, v0, 2); DEC(v0, v0); MOVE(v0, -7); REM(v0, v0, 2); DEC(v0, v0);
MOVE(v0, -7); SHR(v0, v0, 1); DEC(v0, v0); MOVE(v0, -7); SHL(v0, v0, 1); DEC(v0, v0); RETURN(0);
END();",
        plain: None,
        end: End::Done(0),
        turns: 1,
        output: "-3-1-4-14",
    },
    // and, or, xor and the complement
    Program {
        start: Start::Shapes,
        rest: "MOVE(v6, 12); AND(v6, v6, 10); HEX(v0, v6); OR(v6, v6, 3); HEX(v0, v6); XOR(v6, v6, 255);
HEX(v0, v6); NOT(v6, v6); HEX(v0, v6); RETURN(0); END();",
        plain: None,
        end: End::Done(0),
        turns: 1,
        output: "8bf4ffffff0b",
    },
    // a shift past int
    Program {
        start: Start::Shapes,
        rest: "MOVE(v0, 1); SHL(v0, v0, 31); DEC(v0, v0); RETURN(0); END();",
        plain: None,
        end: End::Met(Act::Overflow),
        turns: 1,
        output: "",
    },
    // a long has 64 bits
    Program {
        start: Start::Shapes,
        rest: "MOVE(v1, 1); SHR(v1, v1, 32); DEC(v0, v1); RETURN(0); END();",
        plain: None,
        end: End::Done(0),
        turns: 1,
        output: "0",
    },
    // the least int has no opposite
    Program {
        start: Start::Shapes,
        rest: "MOVE(v0, -2147483648); DIV(v0, v0, -1); RETURN(0); END();",
        plain: None,
        end: End::Met(Act::Overflow),
        turns: 1,
        output: "",
    },
    // each printing command gives the count of its bytes
    Program {
        start: Start::Shapes,
        rest: "GLOBALA(v5, 0, 0); TEXT(v0, v5); DEC(v0, v0); DEC(v0, -100); DEC(v0, v0); HEX(v0, 4096);
DEC(v0, v0); CHAR(v0, 321); DEC(v0, v0); RETURN(0); END();",
        plain: None,
        end: End::Done(0),
        turns: 1,
        output: "hi2-100410004A1",
    },
    // a text whose array has no byte 0
    Program {
        start: Start::Shapes,
        rest: "GLOBALA(v5, 0, 0); STEP(v5, v5, 2); STORE(v5, 106); STEP(v5, v5, 1); STORE(v5, 107);
STEP(v5, v5, 1); STORE(v5, 108); GLOBALA(v5, 0, 0); TEXT(v0, v5); RETURN(0); END();",
        plain: None,
        end: End::Met(Act::Access),
        turns: 1,
        output: "",
    },
    // a struct's members, written through pointers and copied whole
    Program {
        start: Start::Shapes,
        rest: "LOCAL(v4, v3, 0); MEMBER(v5, v4, 0); STORE(v5, 97); MEMBER(v2, v4, 1); STORE(v2, 5);
LOCAL(v9, v8, 0); COPY(v9, v4); MEMBER(v2, v9, 1); LOAD(v0, v2); DEC(v0, v0); RETURN(0); END();",
        plain: None,
        end: End::Done(0),
        turns: 1,
        output: "5",
    },
    // a copy keeps a member indeterminate
    Program {
        start: Start::Shapes,
        rest: "LOCAL(v4, v3, 0); MEMBER(v5, v4, 0); STORE(v5, 97); LOCAL(v9, v8, 0); COPY(v9, v4); CHAR(v0, 99);
MEMBER(v2, v9, 1); LOAD(v0, v2); RETURN(0); END();",
        plain: None,
        end: End::Met(Act::Indeterminate),
        turns: 1,
        output: "c",
    },
    // a variable that was given no value
    Program {
        start: Start::Shapes,
        rest: "ADD(v0, v0, 1); DEC(v0, v0); RETURN(0); END();",
        plain: None,
        end: End::Met(Act::Indeterminate),
        turns: 1,
        output: "",
    },
    // a variable whose value was taken
    Program {
        start: Start::Shapes,
        rest: "MOVE(v0, 5); KILL(v0); DEC(v0, v0); RETURN(0); END();",
        plain: None,
        end: End::Met(Act::Indeterminate),
        turns: 1,
        output: "",
    },
    // a global's address in another global
    Program {
        start: Start::Shapes,
        rest: "GLOBALA(v2, 2, 0); LOAD(v0, v2); DEC(v0, v0); GLOBALA(v2, 2, 0); EQ(v0, v2, 0); DEC(v0, v0);
RETURN(0); END();",
        plain: None,
        end: End::Done(0),
        turns: 1,
        output: "70",
    },
    // steps in an array, and no distance
    Program {
        start: Start::Shapes,
        rest: "GLOBALA(v5, 0, 0); STEP(v5, v5, 5); BACK(v5, v5, 4); DEC(v0, 9); MOVE(v1, 0); DIFF(v1, v5, v5);
DEC(v0, v1); RETURN(0); END();",
        plain: None,
        end: End::Done(0),
        turns: 1,
        output: "90",
    },
    // one step too far
    Program {
        start: Start::Shapes,
        rest: "GLOBALA(v5, 0, 0); STEP(v5, v5, 6); CHAR(v0, 65); RETURN(0); END();",
        plain: None,
        end: End::Met(Act::Row),
        turns: 1,
        output: "",
    },
    // far too many steps
    Program {
        start: Start::Shapes,
        rest: "GLOBALA(v5, 0, 0); STEP(v5, v5, 2147483647); CHAR(v0, 65); RETURN(0); END();",
        plain: None,
        end: End::Met(Act::Row),
        turns: 1,
        output: "",
    },
    // steps before the first element
    Program {
        start: Start::Shapes,
        rest: "GLOBALA(v5, 0, 0); BACK(v5, v5, 100); CHAR(v0, 65); RETURN(0); END();",
        plain: None,
        end: End::Met(Act::Row),
        turns: 1,
        output: "",
    },
    // null names no object
    Program {
        start: Start::Shapes,
        rest: "MOVE(v2, 0); LOAD(v0, v2); CHAR(v0, 65); RETURN(0); END();",
        plain: None,
        end: End::Met(Act::Access),
        turns: 1,
        output: "",
    },
    // null has no members
    Program {
        start: Start::Shapes,
        rest: "MOVE(v4, 0); MEMBER(v2, v4, 1); CHAR(v0, 77); LOAD(v0, v2); RETURN(0); END();",
        plain: None,
        end: End::Met(Act::Access),
        turns: 1,
        output: "",
    },
    // the comparisons of a pointer with itself and with null
    Program {
        start: Start::Shapes,
        rest: "GLOBALA(v2, 2, 0); EQ(v0, v2, v2); DEC(v0, v0); NE(v0, v2, 0); DEC(v0, v0); LE(v0, v2, v2);
DEC(v0, v0); LT(v0, v2, v2); DEC(v0, v0); RETURN(0); END();",
        plain: None,
        end: End::Done(0),
        turns: 1,
        output: "1110",
    },
    // two blocks of structs, one after the other
    Program {
        start: Start::Shapes,
        rest: "ALLOC(v4, 3); MEMBER(v2, v4, 1); STORE(v2, 9); FREE(v4); CALLOC(v9, 3); MEMBER(v2, v9, 1);
LOAD(v0, v2); DEC(v0, v0); FREE(v9); RETURN(0); END();",
        plain: None,
        end: End::Done(0),
        turns: 1,
        output: "0",
    },
    // the second element of a new block has no value
    Program {
        start: Start::Shapes,
        rest: "ALLOC(v2, 2); STORE(v2, 4); LOAD(v0, v2); DEC(v0, v0); STEP(v2, v2, 1); LOAD(v0, v2); DEC(v0, v0);
RETURN(0); END();",
        plain: None,
        end: End::Met(Act::Indeterminate),
        turns: 1,
        output: "4",
    },
    // null is freed as often as one likes, a block once
    Program {
        start: Start::Shapes,
        rest: "MOVE(v2, 0); FREE(v2); ALLOC(v2, 1); FREE(v2); CHAR(v0, 102); FREE(v2); RETURN(0); END();",
        plain: None,
        end: End::Met(Act::Indeterminate),
        turns: 1,
        output: "f",
    },
    // only a block's beginning is freed
    Program {
        start: Start::Shapes,
        rest: "ALLOC(v2, 2); STEP(v2, v2, 1); FREE(v2); RETURN(0); END();",
        plain: None,
        end: End::Met(Act::Free),
        turns: 1,
        output: "",
    },
    // no block of 0 elements
    Program {
        start: Start::Shapes,
        rest: "MOVE(v0, 0); ALLOC(v2, v0); RETURN(0); END();",
        plain: None,
        end: End::Met(Act::Count),
        turns: 1,
        output: "",
    },
    // a call's value is used, or left; a sum past int in the callee
    Program {
        start: Start::Shapes,
        rest: "CALL(v0, 0, 3, 4); DEC(v0, v0); CALL(_, 0, 1, 2); CALL(v0, 0, v0, 2147483647); DEC(v0, v0);
RETURN(0); END();",
        plain: None,
        end: End::Met(Act::Overflow),
        turns: 4,
        output: "7",
    },
    // a loop that begins at its test
    Program {
        start: Start::Shapes,
        rest: "MOVE(v0, 3); JUMP(2); LABEL(1); TURN(); SUB(v0, v0, 1); LABEL(2); IF(v0, 1); CHAR(v0, 101);
RETURN(0); END();",
        plain: None,
        end: End::Done(0),
        turns: 4,
        output: "e",
    },
    // more turns than a run may take
    Program {
        start: Start::Shapes,
        rest: "LABEL(1); TURN(); MOVE(v0, 1); JUMP(1); RETURN(0); END();",
        plain: None,
        end: End::Paused,
        turns: 100_000,
        output: "",
    },
    Program {
        start: Start::Kinds,
        rest: "MOVE(v0, 2147483647); RETURN(0); END();",
        plain: None,
        end: End::Done(0),
        turns: 1,
        output: "",
    },
    Program {
        start: Start::Kinds,
        rest: "CAST(v0, v5); RETURN(0); END();",
        plain: None,
        end: End::Met(Act::Indeterminate),
        turns: 1,
        output: "",
    },
    Program {
        start: Start::Kinds,
        rest: "EQ(v0, v6, 4294967295); RETURN(0); END();",
        plain: None,
        end: End::Met(Act::Indeterminate),
        turns: 1,
        output: "",
    },
    Program {
        start: Start::Kinds,
        rest: "LOCAL(v4, v3, 0); RETURN(0); END();",
        plain: None,
        end: End::Done(0),
        turns: 1,
        output: "",
    },
    Program {
        start: Start::Kinds,
        rest: "GLOBALA(v2, 0, 0); RETURN(0); END();",
        plain: None,
        end: End::Done(0),
        turns: 1,
        output: "",
    },
    Program {
        start: Start::Kinds,
        rest: "STEP(v2, v2, v6); RETURN(0); END();",
        plain: None,
        end: End::Met(Act::Indeterminate),
        turns: 1,
        output: "",
    },
    Program {
        start: Start::Kinds,
        rest: "STORE(v2, v0); RETURN(0); END();",
        plain: None,
        end: End::Met(Act::Indeterminate),
        turns: 1,
        output: "",
    },
    Program {
        start: Start::Kinds,
        rest: "KILL(v3); RETURN(0); END();",
        plain: None,
        end: End::Done(0),
        turns: 1,
        output: "",
    },
    Program {
        start: Start::Kinds,
        rest: "FREE(v4); RETURN(0); END();",
        plain: None,
        end: End::Met(Act::Indeterminate),
        turns: 1,
        output: "",
    },
    Program {
        start: Start::Kinds,
        rest: "CHAR(v0, v0); RETURN(0); END();",
        plain: None,
        end: End::Met(Act::Indeterminate),
        turns: 1,
        output: "",
    },
    Program {
        start: Start::Kinds,
        rest: "HEX(v0, 4294967295); RETURN(0); END();",
        plain: None,
        end: End::Done(0),
        turns: 1,
        output: "ffffffff",
    },
    Program {
        start: Start::Kinds,
        rest: "LABEL(2147483647); RETURN(0); END();",
        plain: None,
        end: End::Done(0),
        turns: 1,
        output: "",
    },
    Program {
        start: Start::Kinds,
        rest: "CALL(v1, 0, v0, v2); RETURN(0); END();",
        plain: None,
        end: End::Met(Act::Indeterminate),
        turns: 1,
        output: "",
    },
    Program {
        start: Start::Kinds,
        rest: "CALL(_, 0, 1, 0); RETURN(0); END();",
        plain: None,
        end: End::Met(Act::Indeterminate),
        turns: 2,
        output: "",
    },
    // a jump to the label of a checkpoint
    Program {
        start: Start::Nothing,
        rest: "FUNCTION(0, main, 4, 0); VAR(0, 4); BEGIN(); RESTORE(v0); TABLE(1, 0); LABEL(0); CHECKPOINT();
SAVED(1, 1); CHAR(v0, 65); MOVE(v0, 0); IF(v0, 1); RETURN(0); LABEL(1); PUSH(v0); END();",
        plain: Some((3, FlatRule::Modes)),
        end: End::Done(0),
        turns: 1,
        output: "A",
    },
];
