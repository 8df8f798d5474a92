//! Programs with checkpoints, of which some find pointers past an end that is shared, and three with none.
//! The programs are texts without their head lines. A blank or a newline stands between two lines.

use crate::ends::{End, Program, Start};
use porch_flat::whole::FlatRule;
use porch_values::Act;

/// The programs, with how they end.
pub(crate) static KEPT: [Program; 11] = [
    // a loop with a checkpoint in each turn
    Program {
        start: Start::Nothing,
        rest: "FUNCTION(0, main, 4, 0); VAR(0, 4); VAR(1, 4); BEGIN(); RESTORE(v0, v1); TABLE(1, 2); MOVE(v0, 0);
JUMP(1); LABEL(0); TURN(); LABEL(2); CHECKPOINT(); SAVED(1, 3); ADD(v1, 48, v0); CHAR(v1, v1);
ADD(v0, v0, 1); LABEL(1); LT(v1, v0, 3); IF(v1, 0); RETURN(0); LABEL(3); PUSH(v0, v1); END();",
        plain: Some((3, FlatRule::Modes)),
        end: End::Done(0),
        turns: 4,
        output: "012",
    },
    // a pointer past the last element of an array that another function stored, over a checkpoint
    Program {
        start: Start::Nothing,
        rest: "ARRAY(8, 4, 3); POINTER(9, 4); POINTER(10, 9); GLOBAL(0, 8); GLOBAL(1, 9); GLOBAL(2, 4);
FUNCTION(0, set, void, 0); VAR(0, 9); VAR(1, 10); BEGIN(); GLOBALA(v1, 1, 0); GLOBALA(v0, 0, 0);
STEP(v0, v0, 3); STORE(v1, v0); END(); FUNCTION(1, main, 4, 0); BEGIN(); RESTORE(); TABLE(1, 0);
CALL(_, 0); LABEL(0); CHECKPOINT(); SAVED(1, 1); RETURN(0); LABEL(1); PUSH(); END();",
        plain: Some((18, FlatRule::Modes)),
        end: End::Done(0),
        turns: 2,
        output: "",
    },
    // a shared end is gone behind a checkpoint
    Program {
        start: Start::Nothing,
        rest: "ARRAY(8, 4, 3); STRUCT(9, 4, 6, 8); ARRAY(10, 9, 2); POINTER(11, 4); GLOBAL(0, 10);
FUNCTION(0, main, 4, 0); VAR(0, 11); VAR(1, 11); VAR(2, 4); BEGIN(); RESTORE(v0, v1, v2);
TABLE(1, 1); GLOBALA(v1, 0, 2); STEP(v0, v1, 3); LABEL(1); CHECKPOINT(); SAVED(1, 2);
GLOBALA(v1, 0, 5); EQ(v2, v0, v1); EQ(v2, v2, 0); IF(v2, 0); CHAR(v2, 121); LABEL(0); RETURN(0);
LABEL(2); PUSH(v0, v1, v2); END();",
        plain: Some((8, FlatRule::Modes)),
        end: End::Met(Act::Indeterminate),
        turns: 1,
        output: "",
    },
    // a shared end that nobody reads any more
    Program {
        start: Start::Nothing,
        rest: "ARRAY(8, 4, 3); STRUCT(9, 4, 6, 8); ARRAY(10, 9, 2); POINTER(11, 4); GLOBAL(0, 10);
FUNCTION(0, main, 4, 0); VAR(0, 11); VAR(1, 11); VAR(2, 4); BEGIN(); RESTORE(v0, v1, v2);
TABLE(1, 0); GLOBALA(v1, 0, 2); STEP(v0, v1, 3); LABEL(0); CHECKPOINT(); SAVED(1, 1);
GLOBALA(v1, 0, 5); RETURN(0); LABEL(1); PUSH(v0, v1, v2); END();",
        plain: Some((8, FlatRule::Modes)),
        end: End::Done(0),
        turns: 1,
        output: "",
    },
    // lists in blocks, a sum by recursion, and what is printed of them
    Program {
        start: Start::Nothing,
        rest: "POINTER(8, 11); ARRAY(9, 6, 3); POINTER(10, 6); STRUCT(11, 0, 9, 10, 8); POINTER(12, 0);
POINTER(13, 8); POINTER(14, 10); POINTER(15, 4); POINTER(16, 9); GLOBAL(0, 8); GLOBAL(1, 4);
FUNCTION(0, push, 8, 1); VAR(0, 4); VAR(1, 8); VAR(2, 4); VAR(3, 4); VAR(4, 0); VAR(5, 12);
VAR(6, 16); VAR(7, 10); VAR(8, 6); VAR(9, 14); VAR(10, 10); VAR(11, 6); VAR(12, 4); VAR(13, 13);
VAR(14, 8); VAR(15, 13); VAR(16, 15); BEGIN(); KILL(v1); ALLOC(v1, 1); KILL(v2);
MEMBER(v5, v1, 0); REM(v3, v0, 26); ADD(v3, 97, v3); CAST(v4, v3); STORE(v5, v4); MOVE(v2, 0);
JUMP(1); LABEL(0); TURN(); MEMBER(v6, v1, 1); MEMBER(v7, v6, 0); STEP(v7, v7, v2); ADD(v3, v2, 1);
MUL(v3, v0, v3); REM(v3, v3, 7); CAST(v8, v3); STORE(v7, v8); ADD(v2, v2, 1); LABEL(1);
LT(v12, v2, 3); IF(v12, 0); MEMBER(v9, v1, 4); MEMBER(v6, v1, 1); MEMBER(v7, v6, 0);
STORE(v9, v7); MOVE(v2, 1); JUMP(3); LABEL(2); TURN(); MEMBER(v6, v1, 1); MEMBER(v7, v6, 0);
STEP(v7, v7, v2); LOAD(v8, v7); MEMBER(v9, v1, 4); LOAD(v10, v9); LOAD(v11, v10);
LE(v12, v8, v11); IF(v12, 4); MEMBER(v9, v1, 4); MEMBER(v6, v1, 1); MEMBER(v7, v6, 0);
STEP(v7, v7, v2); STORE(v9, v7); LABEL(4); ADD(v2, v2, 1); LABEL(3); LT(v12, v2, 3); IF(v12, 2);
MEMBER(v13, v1, 5); GLOBALA(v15, 0, 0); LOAD(v14, v15); STORE(v13, v14); GLOBALA(v15, 0, 0);
STORE(v15, v1); GLOBALA(v16, 1, 0); LOAD(v3, v16); ADD(v3, v3, 1); STORE(v16, v3); RETURN(v1);
END(); FUNCTION(1, total, 6, 1); VAR(0, 8); VAR(1, 4); VAR(2, 14); VAR(3, 10); VAR(4, 6);
VAR(5, 13); VAR(6, 8); VAR(7, 6); BEGIN(); RESTORE(v0, v1, v2, v3, v4, v5, v6, v7); TABLE(1, 1);
TABLE(2, 2); NE(v1, v0, 0); IF(v1, 0); LABEL(1); CHECKPOINT(); SAVED(1, 3); RETURN(0); LABEL(0);
MEMBER(v2, v0, 4); LOAD(v3, v2); LOAD(v4, v3); MEMBER(v5, v0, 5); LOAD(v6, v5); LABEL(2);
CALL(v7, 1, v6); SAVED(2, 3); ADD(v4, v4, v7); RETURN(v4); LABEL(3);
PUSH(v0, v1, v2, v3, v4, v5, v6, v7); END(); FUNCTION(2, drop, void, 1); VAR(0, 4); VAR(1, 8);
VAR(2, 4); VAR(3, 13); VAR(4, 8); VAR(5, 13); BEGIN(); JUMP(1); LABEL(0); TURN(); KILL(v1);
GLOBALA(v3, 0, 0); LOAD(v1, v3); MEMBER(v5, v1, 5); LOAD(v4, v5); STORE(v3, v4); FREE(v1);
LABEL(1); MOVE(v2, v0); SUB(v0, v0, 1); LE(v2, v2, 0); IF(v2, 2); GLOBALA(v3, 0, 0); LOAD(v4, v3);
NE(v2, v4, 0); IF(v2, 0); LABEL(2); END(); FUNCTION(3, main, 4, 0); VAR(0, 4); VAR(1, 6);
VAR(2, 8); VAR(3, 4); VAR(4, 13); VAR(5, 6); VAR(6, 8); VAR(7, 12); VAR(8, 0); VAR(9, 4);
VAR(10, 15); BEGIN(); RESTORE(v0, v1, v2, v3, v4, v5, v6, v7, v8, v9, v10); TABLE(1, 3); KILL(v0);
MOVE(v1, 0); MOVE(v0, 0); JUMP(1); LABEL(0); TURN(); CALL(v2, 0, v0); ADD(v3, v0, 3);
CALL(v2, 0, v3); GLOBALA(v4, 0, 0); LOAD(v2, v4); LABEL(3); CALL(v5, 1, v2); SAVED(1, 4);
ADD(v1, v1, v5); REM(v3, v0, 10); NE(v3, v3, 9); IF(v3, 2); GLOBALA(v4, 0, 0); LOAD(v6, v4);
MEMBER(v7, v6, 0); LOAD(v8, v7); CAST(v3, v8); CHAR(v9, 114); CHAR(v9, 111); CHAR(v9, 117);
CHAR(v9, 110); CHAR(v9, 100); CHAR(v9, 32); DEC(v9, v0); CHAR(v9, 32); CHAR(v9, 115);
CHAR(v9, 117); CHAR(v9, 109); CHAR(v9, 32); DEC(v9, v1); CHAR(v9, 32); CHAR(v9, 116);
CHAR(v9, 97); CHAR(v9, 103); CHAR(v9, 32); CHAR(v9, v3); CHAR(v9, 10); CALL(_, 2, 15); LABEL(2);
ADD(v0, v0, 1); LABEL(1); LT(v3, v0, 20); IF(v3, 0); CHAR(v9, 109); CHAR(v9, 97); CHAR(v9, 100);
CHAR(v9, 101); CHAR(v9, 32); GLOBALA(v10, 1, 0); LOAD(v3, v10); DEC(v9, v3); CHAR(v9, 32);
CHAR(v9, 115); CHAR(v9, 117); CHAR(v9, 109); CHAR(v9, 32); DEC(v9, v1); CHAR(v9, 10); RETURN(0);
LABEL(4); PUSH(v0, v1, v2, v3, v4, v5, v6, v7, v8, v9, v10); END();",
        plain: Some((96, FlatRule::Modes)),
        end: End::Done(0),
        turns: 583,
        output: "round 9 sum 467 tag m\nround 19 sum 1154 tag w\nmade 40 sum 1154\n",
    },
    // one checkpoint, and a character behind it
    Program {
        start: Start::Nothing,
        rest: "FUNCTION(0, main, 4, 0); VAR(0, 4); BEGIN(); RESTORE(v0); TABLE(1, 0); LABEL(0); CHECKPOINT();
SAVED(1, 1); CHAR(v0, 65); RETURN(0); LABEL(1); PUSH(v0); END();",
        plain: Some((3, FlatRule::Modes)),
        end: End::Done(0),
        turns: 1,
        output: "A",
    },
    // a pointer into a block outlives a checkpoint
    Program {
        start: Start::Nothing,
        rest: "ARRAY(8, 6, 3); STRUCT(9, 0, 8); POINTER(10, 9); POINTER(11, 6); FUNCTION(0, main, 4, 0);
VAR(0, 10); VAR(1, 11); VAR(2, 10); VAR(3, 6); VAR(4, 4); VAR(5, 11); BEGIN();
RESTORE(v0, v1, v2, v3, v4, v5); TABLE(1, 0); KILL(v0); ALLOC(v0, 2); KILL(v1); STEP(v2, v0, 1);
MEMBER(v1, v2, 3); STORE(v1, 7); LABEL(0); CHECKPOINT(); SAVED(1, 1); LOAD(v3, v1);
ADD(v3, v3, 1); STORE(v1, v3); STEP(v2, v0, 1); MEMBER(v5, v2, 3); LOAD(v3, v5); DEC(v4, v3);
RETURN(0); LABEL(1); PUSH(v0, v1, v2, v3, v4, v5); END();",
        plain: Some((7, FlatRule::Modes)),
        end: End::Done(0),
        turns: 1,
        output: "8",
    },
    // pointers to a variable, in a global and in the caller
    Program {
        start: Start::Nothing,
        rest: "POINTER(8, 4); POINTER(9, 8); GLOBAL(0, 8); FUNCTION(0, deep, 4, 1); VAR(0, 9); VAR(1, 4);
VAR(2, 8); VAR(3, 9); VAR(4, 4); BEGIN(); RESTORE(v0, v1, v2, v3, v4); TABLE(1, 0); KILL(v1);
MOVE(v1, 5); GLOBALA(v3, 0, 0); LOCAL(v2, v1, 0); STORE(v3, v2); LOCAL(v2, v1, 0); STORE(v0, v2);
LABEL(0); CHECKPOINT(); SAVED(1, 1); ADD(v1, v1, 1); GLOBALA(v3, 0, 0); LOAD(v2, v3);
LOAD(v4, v2); RETURN(v4); LABEL(1); PUSH(v0, v1, v2, v3, v4); END(); FUNCTION(1, main, 4, 0);
VAR(0, 8); VAR(1, 4); VAR(2, 9); VAR(3, 4); BEGIN(); RESTORE(v0, v1, v2, v3); TABLE(1, 0);
KILL(v0); MOVE(v0, 0); KILL(v1); LOCAL(v2, v0, 0); LABEL(0); CALL(v3, 0, v2); SAVED(1, 1);
MOVE(v1, v3); ADD(v3, 48, v1); CHAR(v3, v3); RETURN(0); LABEL(1); PUSH(v0, v1, v2, v3); END();",
        plain: Some((6, FlatRule::Modes)),
        end: End::Done(0),
        turns: 2,
        output: "6",
    },
    // a pointer to a type that comes later
    Program {
        start: Start::Nothing,
        rest: "POINTER(8, 11); STRUCT(9, 0, 4, 8); POINTER(10, 9); ARRAY(11, 0, 5); POINTER(12, 0);
GLOBAL(0, 11); INIT(0, 0, 104); INIT(0, 1, 105); GLOBAL(1, 8); INITA(1, 0, 0, 0); GLOBAL(2, 4);
INIT(2, 0, 7); FUNCTION(0, add, 4, 2); VAR(0, 4); VAR(1, 4); BEGIN(); ADD(v0, v0, v1); RETURN(v0);
END(); FUNCTION(1, main, 4, 0); VAR(0, 4); VAR(1, 6); VAR(2, 8); VAR(3, 9); VAR(4, 10);
VAR(5, 12); VAR(6, 5); VAR(7, 7); VAR(8, 9); VAR(9, 10); VAR(10, 2); BEGIN(); TURN(); RETURN(0);
END();",
        plain: None,
        end: End::Done(0),
        turns: 2,
        output: "",
    },
    // a jump over a command, with no turn
    Program {
        start: Start::Nothing,
        rest: "POINTER(8, 4); STRUCT(9, 0, 4, 8); POINTER(10, 9); ARRAY(11, 0, 5); POINTER(12, 0); GLOBAL(0, 11);
INIT(0, 0, 104); INIT(0, 1, 105); GLOBAL(1, 8); INITA(1, 0, 2, 0); GLOBAL(2, 4); INIT(2, 0, 7);
FUNCTION(0, add, 4, 2); VAR(0, 4); VAR(1, 4); BEGIN(); ADD(v0, v0, v1); RETURN(v0); END();
FUNCTION(1, main, 4, 0); VAR(0, 4); VAR(1, 6); VAR(2, 8); VAR(3, 9); VAR(4, 10); VAR(5, 12);
VAR(6, 5); VAR(7, 7); VAR(8, 9); VAR(9, 10); VAR(10, 2); BEGIN(); MOVE(v0, 1); JUMP(4); LABEL(4);
RETURN(0); END();",
        plain: None,
        end: End::Done(0),
        turns: 1,
        output: "",
    },
    // the least constant of a long
    Program {
        start: Start::Nothing,
        rest: "POINTER(8, 4); STRUCT(9, 0, 4, 8); POINTER(10, 9); ARRAY(11, 0, 5); POINTER(12, 0); GLOBAL(0, 11);
INIT(0, 0, 104); INIT(0, 1, 105); GLOBAL(1, 8); INITA(1, 0, 2, 0); GLOBAL(2, 4); INIT(2, 0, 7);
FUNCTION(0, add, 4, 2); VAR(0, 4); VAR(1, 4); BEGIN(); ADD(v0, v0, v1); RETURN(v0); END();
FUNCTION(1, main, 4, 0); VAR(0, 4); VAR(1, 6); VAR(2, 8); VAR(3, 9); VAR(4, 10); VAR(5, 12);
VAR(6, 5); VAR(7, 7); VAR(8, 9); VAR(9, 10); VAR(10, 2); BEGIN(); MOVE(v1, -2147483648);
RETURN(0); END();",
        plain: None,
        end: End::Done(0),
        turns: 1,
        output: "",
    },
];
