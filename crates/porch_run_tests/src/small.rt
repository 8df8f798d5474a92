//! Small programs, each of which shows what a command or two do to bytes.
//! The programs are texts without their head lines. A blank or a newline stands between two lines.

use crate::ends::{End, Outcome, Program, Start};
use porch_values::Act;

/// Types, globals, a function that adds and the variables of `main`.
pub(crate) const SHAPES: &str =
    "POINTER(8, 4); STRUCT(9, 0, 4, 8); POINTER(10, 9); ARRAY(11, 0, 5); POINTER(12, 0); GLOBAL(0, 11);
INIT(0, 0, 104); INIT(0, 1, 105); GLOBAL(1, 8); INITA(1, 0, 2, 0); GLOBAL(2, 4); INIT(2, 0, 7);
FUNCTION(0, add, 4, 2); VAR(0, 4); VAR(1, 4); BEGIN(); ADD(v0, v0, v1); RETURN(v0); END();
FUNCTION(1, main, 4, 0); VAR(0, 4); VAR(1, 6); VAR(2, 8); VAR(3, 9); VAR(4, 10); VAR(5, 12);
VAR(6, 5); VAR(7, 7); VAR(8, 9); VAR(9, 10); VAR(10, 2); BEGIN();";

/// A variable of each of some kinds, a struct and pointers, and a function that gives what it never set.
pub(crate) const KINDS: &str =
    "POINTER(8, 4); STRUCT(9, 4, 6); POINTER(10, 9); POINTER(11, 0); GLOBAL(0, 9); INIT(0, 0, 5);
GLOBAL(1, 8); INITA(1, 0, 0, 0); FUNCTION(0, f, 6, 2); VAR(0, 4); VAR(1, 8); VAR(2, 6); BEGIN();
RETURN(v2); END(); FUNCTION(1, main, 4, 0); VAR(0, 4); VAR(1, 6); VAR(2, 8); VAR(3, 9);
VAR(4, 10); VAR(5, 0); VAR(6, 5); VAR(7, 7); BEGIN();";

/// The programs, with how their runs end.
pub(crate) static SMALL: [Program; 15] = [
    // steps whose sum leaves 64 bits
    Program {
        start: Start::Nothing,
        rest: "POINTER(8, 6); FUNCTION(0, main, 4, 0); VAR(0, 6); VAR(1, 6); VAR(2, 8); VAR(3, 4); BEGIN();
MOVE(v0, 7); MOVE(v1, 1073741824); MUL(v1, v1, v1); ADD(v1, v1, v1); LOCAL(v2, v0, 0);
STEP(v2, v2, v1); STEP(v2, v2, v1); LOAD(v0, v2); DEC(v3, v0); RETURN(0); END();",
        le64: Outcome {
            end: End::Trap(Act::Address),
            turns: 1,
            output: "",
        },
        be32: Outcome {
            end: End::Trap(Act::Overflow),
            turns: 1,
            output: "",
        },
        be32p: Outcome {
            end: End::Trap(Act::Overflow),
            turns: 1,
            output: "",
        },
    },
    // CAST to each kind of a program, and DEC
    Program {
        start: Start::Shapes,
        rest: "MOVE(v1, 70000); CAST(v0, v1); DEC(v0, v0); CAST(v10, v1); CAST(v0, v10); DEC(v0, v0);
CAST(v6, v1); HEX(v0, v6); CAST(v7, v6); DEC(v0, v7); RETURN(0); END();",
        le64: Outcome {
            end: End::Done(0),
            turns: 1,
            output: "7000044641117070000",
        },
        be32: Outcome {
            end: End::Done(0),
            turns: 1,
            output: "7000044641117070000",
        },
        be32p: Outcome {
            end: End::Done(0),
            turns: 1,
            output: "7000044641117070000",
        },
    },
    // a long that only the wider layout holds
    Program {
        start: Start::Shapes,
        rest: "MOVE(v1, 2147483647); ADD(v1, v1, 1); DEC(v0, v1); RETURN(0); END();",
        le64: Outcome {
            end: End::Done(0),
            turns: 1,
            output: "2147483648",
        },
        be32: Outcome {
            end: End::Trap(Act::Overflow),
            turns: 1,
            output: "",
        },
        be32p: Outcome {
            end: End::Trap(Act::Overflow),
            turns: 1,
            output: "",
        },
    },
    // an unsigned long, reduced by each layout's width
    Program {
        start: Start::Shapes,
        rest: "MOVE(v7, 0); SUB(v7, v7, 1); DEC(v0, v7); RETURN(0); END();",
        le64: Outcome {
            end: End::Done(0),
            turns: 1,
            output: "18446744073709551615",
        },
        be32: Outcome {
            end: End::Done(0),
            turns: 1,
            output: "4294967295",
        },
        be32p: Outcome {
            end: End::Done(0),
            turns: 1,
            output: "4294967295",
        },
    },
    // division and remainder towards zero, shifts of negatives
    Program {
        start: Start::Shapes,
        rest: "MOVE(v0, -7); DIV(v0, v0, 2); DEC(v0, v0); MOVE(v0, -7); REM(v0, v0, 2); DEC(v0, v0);
MOVE(v0, -7); SHR(v0, v0, 1); DEC(v0, v0); MOVE(v0, -7); SHL(v0, v0, 1); DEC(v0, v0); RETURN(0);
END();",
        le64: Outcome {
            end: End::Done(0),
            turns: 1,
            output: "-3-1-4-14",
        },
        be32: Outcome {
            end: End::Done(0),
            turns: 1,
            output: "-3-1-4-14",
        },
        be32p: Outcome {
            end: End::Done(0),
            turns: 1,
            output: "-3-1-4-14",
        },
    },
    // the bits of unsigned int
    Program {
        start: Start::Shapes,
        rest: "MOVE(v6, 12); AND(v6, v6, 10); HEX(v0, v6); OR(v6, v6, 3); HEX(v0, v6); XOR(v6, v6, 255);
HEX(v0, v6); NOT(v6, v6); HEX(v0, v6); RETURN(0); END();",
        le64: Outcome {
            end: End::Done(0),
            turns: 1,
            output: "8bf4ffffff0b",
        },
        be32: Outcome {
            end: End::Done(0),
            turns: 1,
            output: "8bf4ffffff0b",
        },
        be32p: Outcome {
            end: End::Done(0),
            turns: 1,
            output: "8bf4ffffff0b",
        },
    },
    // a power of two past int
    Program {
        start: Start::Shapes,
        rest: "MOVE(v0, 1); SHL(v0, v0, 31); DEC(v0, v0); RETURN(0); END();",
        le64: Outcome {
            end: End::Trap(Act::Overflow),
            turns: 1,
            output: "",
        },
        be32: Outcome {
            end: End::Trap(Act::Overflow),
            turns: 1,
            output: "",
        },
        be32p: Outcome {
            end: End::Trap(Act::Overflow),
            turns: 1,
            output: "",
        },
    },
    // a shift's count at the width
    Program {
        start: Start::Shapes,
        rest: "MOVE(v1, 1); SHR(v1, v1, 32); DEC(v0, v1); RETURN(0); END();",
        le64: Outcome {
            end: End::Done(0),
            turns: 1,
            output: "0",
        },
        be32: Outcome {
            end: End::Trap(Act::Shift),
            turns: 1,
            output: "",
        },
        be32p: Outcome {
            end: End::Trap(Act::Shift),
            turns: 1,
            output: "",
        },
    },
    // the least int by -1
    Program {
        start: Start::Shapes,
        rest: "MOVE(v0, -2147483648); DIV(v0, v0, -1); RETURN(0); END();",
        le64: Outcome {
            end: End::Trap(Act::Overflow),
            turns: 1,
            output: "",
        },
        be32: Outcome {
            end: End::Trap(Act::Overflow),
            turns: 1,
            output: "",
        },
        be32p: Outcome {
            end: End::Trap(Act::Overflow),
            turns: 1,
            output: "",
        },
    },
    // the number of bytes in CHAR, DEC, HEX and TEXT
    Program {
        start: Start::Shapes,
        rest: "GLOBALA(v5, 0, 0); TEXT(v0, v5); DEC(v0, v0); DEC(v0, -100); DEC(v0, v0); HEX(v0, 4096);
DEC(v0, v0); CHAR(v0, 321); DEC(v0, v0); RETURN(0); END();",
        le64: Outcome {
            end: End::Done(0),
            turns: 1,
            output: "hi2-100410004A1",
        },
        be32: Outcome {
            end: End::Done(0),
            turns: 1,
            output: "hi2-100410004A1",
        },
        be32p: Outcome {
            end: End::Done(0),
            turns: 1,
            output: "hi2-100410004A1",
        },
    },
    // TEXT without an end in its array goes on over the gap in the machine
    Program {
        start: Start::Shapes,
        rest: "GLOBALA(v5, 0, 0); STEP(v5, v5, 2); STORE(v5, 106); STEP(v5, v5, 1); STORE(v5, 107);
STEP(v5, v5, 1); STORE(v5, 108); GLOBALA(v5, 0, 0); TEXT(v0, v5); RETURN(0); END();",
        le64: Outcome {
            end: End::Done(0),
            turns: 1,
            output: "hijkl",
        },
        be32: Outcome {
            end: End::Done(0),
            turns: 1,
            output: "hijkl",
        },
        be32p: Outcome {
            end: End::Done(0),
            turns: 1,
            output: "hijkl",
        },
    },
    // LOCAL, MEMBER, STORE, LOAD and COPY of a struct
    Program {
        start: Start::Shapes,
        rest: "LOCAL(v4, v3, 0); MEMBER(v5, v4, 0); STORE(v5, 97); MEMBER(v2, v4, 1); STORE(v2, 5);
LOCAL(v9, v8, 0); COPY(v9, v4); MEMBER(v2, v9, 1); LOAD(v0, v2); DEC(v0, v0); RETURN(0); END();",
        le64: Outcome {
            end: End::Done(0),
            turns: 1,
            output: "5",
        },
        be32: Outcome {
            end: End::Done(0),
            turns: 1,
            output: "5",
        },
        be32p: Outcome {
            end: End::Done(0),
            turns: 1,
            output: "5",
        },
    },
    // COPY hands on what has no value
    Program {
        start: Start::Shapes,
        rest: "LOCAL(v4, v3, 0); MEMBER(v5, v4, 0); STORE(v5, 97); LOCAL(v9, v8, 0); COPY(v9, v4);
CHAR(v0, 99); MEMBER(v2, v9, 1); LOAD(v0, v2); RETURN(0); END();",
        le64: Outcome {
            end: End::Done(0),
            turns: 1,
            output: "c",
        },
        be32: Outcome {
            end: End::Done(0),
            turns: 1,
            output: "c",
        },
        be32p: Outcome {
            end: End::Done(0),
            turns: 1,
            output: "c",
        },
    },
    // a variable without a value: the machine has a 0 there
    Program {
        start: Start::Shapes,
        rest: "ADD(v0, v0, 1); DEC(v0, v0); RETURN(0); END();",
        le64: Outcome {
            end: End::Done(0),
            turns: 1,
            output: "1",
        },
        be32: Outcome {
            end: End::Done(0),
            turns: 1,
            output: "1",
        },
        be32p: Outcome {
            end: End::Done(0),
            turns: 1,
            output: "1",
        },
    },
    // KILL takes the value in the abstract machine alone
    Program {
        start: Start::Shapes,
        rest: "MOVE(v0, 5); KILL(v0); DEC(v0, v0); RETURN(0); END();",
        le64: Outcome {
            end: End::Done(0),
            turns: 1,
            output: "5",
        },
        be32: Outcome {
            end: End::Done(0),
            turns: 1,
            output: "5",
        },
        be32p: Outcome {
            end: End::Done(0),
            turns: 1,
            output: "5",
        },
    },
];
