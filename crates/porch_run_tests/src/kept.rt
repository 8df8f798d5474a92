//! Programs with checkpoints, after which the run goes on.
//! The programs are texts without their head lines. A blank or a newline stands between two lines.

use crate::ends::{End, Outcome, Program, Start};

/// The programs, with how their runs end.
pub(crate) static KEPT: [Program; 7] = [
    // a loop with a checkpoint
    Program {
        start: Start::Nothing,
        rest: "FUNCTION(0, main, 4, 0); VAR(0, 4); VAR(1, 4); BEGIN(); RESTORE(v0, v1); TABLE(1, 2);
MOVE(v0, 0); JUMP(1); LABEL(0); TURN(); LABEL(2); CHECKPOINT(); SAVED(1, 3); ADD(v1, 48, v0);
CHAR(v1, v1); ADD(v0, v0, 1); LABEL(1); LT(v1, v0, 3); IF(v1, 0); RETURN(0); LABEL(3);
PUSH(v0, v1); END();",
        le64: Outcome {
            end: End::Done(0),
            turns: 4,
            output: "012",
        },
        be32: Outcome {
            end: End::Done(0),
            turns: 4,
            output: "012",
        },
        be32p: Outcome {
            end: End::Done(0),
            turns: 4,
            output: "012",
        },
    },
    // a pointer one past its array, set in a call
    Program {
        start: Start::Nothing,
        rest: "ARRAY(8, 4, 3); POINTER(9, 4); POINTER(10, 9); GLOBAL(0, 8); GLOBAL(1, 9); GLOBAL(2, 4);
FUNCTION(0, set, void, 0); VAR(0, 9); VAR(1, 10); BEGIN(); GLOBALA(v1, 1, 0); GLOBALA(v0, 0, 0);
STEP(v0, v0, 3); STORE(v1, v0); END(); FUNCTION(1, main, 4, 0); BEGIN(); RESTORE(); TABLE(1, 0);
CALL(_, 0); LABEL(0); CHECKPOINT(); SAVED(1, 1); RETURN(0); LABEL(1); PUSH(); END();",
        le64: Outcome {
            end: End::Done(0),
            turns: 2,
            output: "",
        },
        be32: Outcome {
            end: End::Done(0),
            turns: 2,
            output: "",
        },
        be32p: Outcome {
            end: End::Done(0),
            turns: 2,
            output: "",
        },
    },
    // a shared end over a checkpoint
    Program {
        start: Start::Nothing,
        rest: "ARRAY(8, 4, 3); STRUCT(9, 4, 6, 8); ARRAY(10, 9, 2); POINTER(11, 4); GLOBAL(0, 10);
FUNCTION(0, main, 4, 0); VAR(0, 11); VAR(1, 11); VAR(2, 4); BEGIN(); RESTORE(v0, v1, v2);
TABLE(1, 1); GLOBALA(v1, 0, 2); STEP(v0, v1, 3); LABEL(1); CHECKPOINT(); SAVED(1, 2);
GLOBALA(v1, 0, 5); EQ(v2, v0, v1); EQ(v2, v2, 0); IF(v2, 0); CHAR(v2, 121); LABEL(0); RETURN(0);
LABEL(2); PUSH(v0, v1, v2); END();",
        le64: Outcome {
            end: End::Done(0),
            turns: 1,
            output: "",
        },
        be32: Outcome {
            end: End::Done(0),
            turns: 1,
            output: "y",
        },
        be32p: Outcome {
            end: End::Done(0),
            turns: 1,
            output: "y",
        },
    },
    // a shared end over a checkpoint that nothing reads
    Program {
        start: Start::Nothing,
        rest: "ARRAY(8, 4, 3); STRUCT(9, 4, 6, 8); ARRAY(10, 9, 2); POINTER(11, 4); GLOBAL(0, 10);
FUNCTION(0, main, 4, 0); VAR(0, 11); VAR(1, 11); VAR(2, 4); BEGIN(); RESTORE(v0, v1, v2);
TABLE(1, 0); GLOBALA(v1, 0, 2); STEP(v0, v1, 3); LABEL(0); CHECKPOINT(); SAVED(1, 1);
GLOBALA(v1, 0, 5); RETURN(0); LABEL(1); PUSH(v0, v1, v2); END();",
        le64: Outcome {
            end: End::Done(0),
            turns: 1,
            output: "",
        },
        be32: Outcome {
            end: End::Done(0),
            turns: 1,
            output: "",
        },
        be32p: Outcome {
            end: End::Done(0),
            turns: 1,
            output: "",
        },
    },
    // the rewritten form of one checkpoint and one character
    Program {
        start: Start::Nothing,
        rest: "FUNCTION(0, main, 4, 0); VAR(0, 4); BEGIN(); RESTORE(v0); TABLE(1, 0); LABEL(0); CHECKPOINT();
SAVED(1, 1); CHAR(v0, 65); RETURN(0); LABEL(1); PUSH(v0); END();",
        le64: Outcome {
            end: End::Done(0),
            turns: 1,
            output: "A",
        },
        be32: Outcome {
            end: End::Done(0),
            turns: 1,
            output: "A",
        },
        be32p: Outcome {
            end: End::Done(0),
            turns: 1,
            output: "A",
        },
    },
    // a pointer into a block, over a checkpoint
    Program {
        start: Start::Nothing,
        rest: "ARRAY(8, 6, 3); STRUCT(9, 0, 8); POINTER(10, 9); POINTER(11, 6); FUNCTION(0, main, 4, 0);
VAR(0, 10); VAR(1, 11); VAR(2, 10); VAR(3, 6); VAR(4, 4); VAR(5, 11); BEGIN();
RESTORE(v0, v1, v2, v3, v4, v5); TABLE(1, 0); KILL(v0); ALLOC(v0, 2); KILL(v1); STEP(v2, v0, 1);
MEMBER(v1, v2, 3); STORE(v1, 7); LABEL(0); CHECKPOINT(); SAVED(1, 1); LOAD(v3, v1);
ADD(v3, v3, 1); STORE(v1, v3); STEP(v2, v0, 1); MEMBER(v5, v2, 3); LOAD(v3, v5); DEC(v4, v3);
RETURN(0); LABEL(1); PUSH(v0, v1, v2, v3, v4, v5); END();",
        le64: Outcome {
            end: End::Done(0),
            turns: 1,
            output: "8",
        },
        be32: Outcome {
            end: End::Done(0),
            turns: 1,
            output: "8",
        },
        be32p: Outcome {
            end: End::Done(0),
            turns: 1,
            output: "8",
        },
    },
    // pointers into a frame from a global and from the caller
    Program {
        start: Start::Nothing,
        rest: "POINTER(8, 4); POINTER(9, 8); GLOBAL(0, 8); FUNCTION(0, deep, 4, 1); VAR(0, 9); VAR(1, 4);
VAR(2, 8); VAR(3, 9); VAR(4, 4); BEGIN(); RESTORE(v0, v1, v2, v3, v4); TABLE(1, 0); KILL(v1);
MOVE(v1, 5); GLOBALA(v3, 0, 0); LOCAL(v2, v1, 0); STORE(v3, v2); LOCAL(v2, v1, 0);
STORE(v0, v2); LABEL(0); CHECKPOINT(); SAVED(1, 1); ADD(v1, v1, 1); GLOBALA(v3, 0, 0);
LOAD(v2, v3); LOAD(v4, v2); RETURN(v4); LABEL(1); PUSH(v0, v1, v2, v3, v4); END();
FUNCTION(1, main, 4, 0); VAR(0, 8); VAR(1, 4); VAR(2, 9); VAR(3, 4); BEGIN();
RESTORE(v0, v1, v2, v3); TABLE(1, 0); KILL(v0); MOVE(v0, 0); KILL(v1); LOCAL(v2, v0, 0);
LABEL(0); CALL(v3, 0, v2); SAVED(1, 1); MOVE(v1, v3); ADD(v3, 48, v1); CHAR(v3, v3); RETURN(0);
LABEL(1); PUSH(v0, v1, v2, v3); END();",
        le64: Outcome {
            end: End::Done(0),
            turns: 2,
            output: "6",
        },
        be32: Outcome {
            end: End::Done(0),
            turns: 2,
            output: "6",
        },
        be32p: Outcome {
            end: End::Done(0),
            turns: 2,
            output: "6",
        },
    },
];
