//! Programs with pointers, blocks, calls and jumps.
//! The programs are texts without their head lines. A blank or a newline stands between two lines.

use crate::ends::{End, Outcome, Program, Start};
use porch_heap::HeapFull;
use porch_values::Act;

/// The programs, with how their runs end.
pub(crate) static POINTERS: [Program; 18] = [
    // INITA of a later global
    Program {
        start: Start::Shapes,
        rest: "GLOBALA(v2, 2, 0); LOAD(v0, v2); DEC(v0, v0); GLOBALA(v2, 2, 0); EQ(v0, v2, 0); DEC(v0, v0);
RETURN(0); END();",
        le64: Outcome {
            end: End::Done(0),
            turns: 1,
            output: "70",
        },
        be32: Outcome {
            end: End::Done(0),
            turns: 1,
            output: "70",
        },
        be32p: Outcome {
            end: End::Done(0),
            turns: 1,
            output: "70",
        },
    },
    // STEP, BACK and DIFF in an array
    Program {
        start: Start::Shapes,
        rest: "GLOBALA(v5, 0, 0); STEP(v5, v5, 5); BACK(v5, v5, 4); DEC(v0, 9); MOVE(v1, 0); DIFF(v1, v5, v5);
DEC(v0, v1); RETURN(0); END();",
        le64: Outcome {
            end: End::Done(0),
            turns: 1,
            output: "90",
        },
        be32: Outcome {
            end: End::Done(0),
            turns: 1,
            output: "90",
        },
        be32p: Outcome {
            end: End::Done(0),
            turns: 1,
            output: "90",
        },
    },
    // a step past the end is an act, and an address in the machine
    Program {
        start: Start::Shapes,
        rest: "GLOBALA(v5, 0, 0); STEP(v5, v5, 6); CHAR(v0, 65); RETURN(0); END();",
        le64: Outcome {
            end: End::Done(0),
            turns: 1,
            output: "A",
        },
        be32: Outcome {
            end: End::Done(0),
            turns: 1,
            output: "A",
        },
        be32p: Outcome {
            end: End::Done(0),
            turns: 1,
            output: "A",
        },
    },
    // a step far past the memory
    Program {
        start: Start::Shapes,
        rest: "GLOBALA(v5, 0, 0); STEP(v5, v5, 2147483647); CHAR(v0, 65); RETURN(0); END();",
        le64: Outcome {
            end: End::Trap(Act::Address),
            turns: 1,
            output: "",
        },
        be32: Outcome {
            end: End::Trap(Act::Address),
            turns: 1,
            output: "",
        },
        be32p: Outcome {
            end: End::Trap(Act::Address),
            turns: 1,
            output: "",
        },
    },
    // a step before address 0
    Program {
        start: Start::Shapes,
        rest: "GLOBALA(v5, 0, 0); BACK(v5, v5, 100); CHAR(v0, 65); RETURN(0); END();",
        le64: Outcome {
            end: End::Trap(Act::Address),
            turns: 1,
            output: "",
        },
        be32: Outcome {
            end: End::Trap(Act::Address),
            turns: 1,
            output: "",
        },
        be32p: Outcome {
            end: End::Trap(Act::Address),
            turns: 1,
            output: "",
        },
    },
    // reading through null
    Program {
        start: Start::Shapes,
        rest: "MOVE(v2, 0); LOAD(v0, v2); CHAR(v0, 65); RETURN(0); END();",
        le64: Outcome {
            end: End::Trap(Act::Address),
            turns: 1,
            output: "",
        },
        be32: Outcome {
            end: End::Trap(Act::Address),
            turns: 1,
            output: "",
        },
        be32p: Outcome {
            end: End::Trap(Act::Address),
            turns: 1,
            output: "",
        },
    },
    // MEMBER of null is an act, and a small address in the machine
    Program {
        start: Start::Shapes,
        rest: "MOVE(v4, 0); MEMBER(v2, v4, 1); CHAR(v0, 77); LOAD(v0, v2); RETURN(0); END();",
        le64: Outcome {
            end: End::Trap(Act::Address),
            turns: 1,
            output: "M",
        },
        be32: Outcome {
            end: End::Trap(Act::Address),
            turns: 1,
            output: "M",
        },
        be32p: Outcome {
            end: End::Trap(Act::Address),
            turns: 1,
            output: "M",
        },
    },
    // equality and order of pointers
    Program {
        start: Start::Shapes,
        rest: "GLOBALA(v2, 2, 0); EQ(v0, v2, v2); DEC(v0, v0); NE(v0, v2, 0); DEC(v0, v0); LE(v0, v2, v2);
DEC(v0, v0); LT(v0, v2, v2); DEC(v0, v0); RETURN(0); END();",
        le64: Outcome {
            end: End::Done(0),
            turns: 1,
            output: "1110",
        },
        be32: Outcome {
            end: End::Done(0),
            turns: 1,
            output: "1110",
        },
        be32p: Outcome {
            end: End::Done(0),
            turns: 1,
            output: "1110",
        },
    },
    // blocks of structs, freed and made again: their bytes are 0
    Program {
        start: Start::Shapes,
        rest: "ALLOC(v4, 3); MEMBER(v2, v4, 1); STORE(v2, 9); FREE(v4); CALLOC(v9, 3); MEMBER(v2, v9, 1);
LOAD(v0, v2); DEC(v0, v0); FREE(v9); RETURN(0); END();",
        le64: Outcome {
            end: End::Done(0),
            turns: 1,
            output: "0",
        },
        be32: Outcome {
            end: End::Done(0),
            turns: 1,
            output: "0",
        },
        be32p: Outcome {
            end: End::Done(0),
            turns: 1,
            output: "0",
        },
    },
    // ALLOC's leaves have no value
    Program {
        start: Start::Shapes,
        rest: "ALLOC(v2, 2); STORE(v2, 4); LOAD(v0, v2); DEC(v0, v0); STEP(v2, v2, 1); LOAD(v0, v2);
DEC(v0, v0); RETURN(0); END();",
        le64: Outcome {
            end: End::Done(0),
            turns: 1,
            output: "40",
        },
        be32: Outcome {
            end: End::Done(0),
            turns: 1,
            output: "40",
        },
        be32p: Outcome {
            end: End::Done(0),
            turns: 1,
            output: "40",
        },
    },
    // FREE of null, of a block, and twice
    Program {
        start: Start::Shapes,
        rest: "MOVE(v2, 0); FREE(v2); ALLOC(v2, 1); FREE(v2); CHAR(v0, 102); FREE(v2); RETURN(0); END();",
        le64: Outcome {
            end: End::Trap(Act::Free),
            turns: 1,
            output: "f",
        },
        be32: Outcome {
            end: End::Trap(Act::Free),
            turns: 1,
            output: "f",
        },
        be32p: Outcome {
            end: End::Trap(Act::Free),
            turns: 1,
            output: "f",
        },
    },
    // FREE of a block's inside
    Program {
        start: Start::Shapes,
        rest: "ALLOC(v2, 2); STEP(v2, v2, 1); FREE(v2); RETURN(0); END();",
        le64: Outcome {
            end: End::Trap(Act::Free),
            turns: 1,
            output: "",
        },
        be32: Outcome {
            end: End::Trap(Act::Free),
            turns: 1,
            output: "",
        },
        be32p: Outcome {
            end: End::Trap(Act::Free),
            turns: 1,
            output: "",
        },
    },
    // a count of 0
    Program {
        start: Start::Shapes,
        rest: "MOVE(v0, 0); ALLOC(v2, v0); RETURN(0); END();",
        le64: Outcome {
            end: End::Trap(Act::Count),
            turns: 1,
            output: "",
        },
        be32: Outcome {
            end: End::Trap(Act::Count),
            turns: 1,
            output: "",
        },
        be32p: Outcome {
            end: End::Trap(Act::Count),
            turns: 1,
            output: "",
        },
    },
    // a count that is in range and a block that doesn't fit
    Program {
        start: Start::Shapes,
        rest: "ALLOC(v2, 2147483647); CHAR(v0, 65); RETURN(0); END();",
        le64: Outcome {
            end: End::HeapFull(HeapFull {
                asked: 8589934588,
                largest: 65536,
                blocks: 0,
            }),
            turns: 1,
            output: "",
        },
        be32: Outcome {
            end: End::HeapFull(HeapFull {
                asked: 8589934588,
                largest: 65536,
                blocks: 0,
            }),
            turns: 1,
            output: "",
        },
        be32p: Outcome {
            end: End::HeapFull(HeapFull {
                asked: 8589934588,
                largest: 65536,
                blocks: 0,
            }),
            turns: 1,
            output: "",
        },
    },
    // blocks until the heap is full
    Program {
        start: Start::Shapes,
        rest: "MOVE(v0, 0); LABEL(1); TURN(); CALLOC(v2, 4000); ADD(v0, v0, 1); LT(v0, 0, v0); IF(v0, 1);
RETURN(0); END();",
        le64: Outcome {
            end: End::HeapFull(HeapFull {
                asked: 16000,
                largest: 1523,
                blocks: 4,
            }),
            turns: 6,
            output: "",
        },
        be32: Outcome {
            end: End::HeapFull(HeapFull {
                asked: 16000,
                largest: 1523,
                blocks: 4,
            }),
            turns: 6,
            output: "",
        },
        be32p: Outcome {
            end: End::HeapFull(HeapFull {
                asked: 16000,
                largest: 1529,
                blocks: 4,
            }),
            turns: 6,
            output: "",
        },
    },
    // a call's value, and a call whose value is left
    Program {
        start: Start::Shapes,
        rest: "CALL(v0, 0, 3, 4); DEC(v0, v0); CALL(_, 0, 1, 2); CALL(v0, 0, v0, 2147483647); DEC(v0, v0);
RETURN(0); END();",
        le64: Outcome {
            end: End::Trap(Act::Overflow),
            turns: 4,
            output: "7",
        },
        be32: Outcome {
            end: End::Trap(Act::Overflow),
            turns: 4,
            output: "7",
        },
        be32p: Outcome {
            end: End::Trap(Act::Overflow),
            turns: 4,
            output: "7",
        },
    },
    // jumps forward and backward
    Program {
        start: Start::Shapes,
        rest: "MOVE(v0, 3); JUMP(2); LABEL(1); TURN(); SUB(v0, v0, 1); LABEL(2); IF(v0, 1); CHAR(v0, 101);
RETURN(0); END();",
        le64: Outcome {
            end: End::Done(0),
            turns: 4,
            output: "e",
        },
        be32: Outcome {
            end: End::Done(0),
            turns: 4,
            output: "e",
        },
        be32p: Outcome {
            end: End::Done(0),
            turns: 4,
            output: "e",
        },
    },
    // a budget of 100,000 turns
    Program {
        start: Start::Shapes,
        rest: "LABEL(1); TURN(); MOVE(v0, 1); JUMP(1); RETURN(0); END();",
        le64: Outcome {
            end: End::Paused,
            turns: 100000,
            output: "",
        },
        be32: Outcome {
            end: End::Paused,
            turns: 100000,
            output: "",
        },
        be32p: Outcome {
            end: End::Paused,
            turns: 100000,
            output: "",
        },
    },
];
