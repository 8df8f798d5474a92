//! Long programs that a generator made, with checkpoints, calls, loops and pointers.
//! The programs are texts without their head lines. A blank or a newline stands between two lines.

use crate::ends::{End, Program, Start};
use porch_flat::whole::FlatRule;

/// The programs, with how they end.
pub(crate) static MADE_SEVEN: [Program; 1] = [
    // 237 lines
    Program {
        start: Start::Nothing,
        rest: "POINTER(8, 11); ARRAY(9, 4, 1); ARRAY(10, 5, 2); STRUCT(11, 6, 0, 8, 0); POINTER(12, 6);
ARRAY(13, 3, 3); STRUCT(14, 1, 10, 5); STRUCT(15, 7); POINTER(16, 4); ARRAY(17, 4, 5);
ARRAY(18, 0, 7); POINTER(19, 16); POINTER(20, 2); POINTER(21, 8); POINTER(22, 17); GLOBAL(0, 8);
GLOBAL(1, 12); GLOBAL(2, 16); GLOBAL(3, 16); GLOBAL(4, 12); GLOBAL(5, 8); GLOBAL(6, 4);
INIT(6, 0, 2147483647); GLOBAL(7, 15); INIT(7, 0, 4294967295); GLOBAL(8, 0); GLOBAL(9, 17);
INIT(9, 1, -2147483648); INIT(9, 3, 1); INIT(9, 4, 21); GLOBAL(10, 16); GLOBAL(11, 18);
INIT(11, 0, 121); INIT(11, 1, 99); INIT(11, 2, 112); INIT(11, 3, 118); INIT(11, 4, 98);
INIT(11, 5, 118); FUNCTION(0, f0, 4, 1); VAR(0, 4); VAR(1, 4); VAR(2, 4); VAR(3, 6); VAR(4, 5);
VAR(5, 7); VAR(6, 6); VAR(7, 12); VAR(8, 8); VAR(9, 4); VAR(10, 4); VAR(11, 16); VAR(12, 4);
VAR(13, 16); VAR(14, 19); BEGIN(); MOVE(v1, -2); MOVE(v2, 43); MOVE(v3, -84); MOVE(v4, 19);
MOVE(v5, 70); MOVE(v6, 58); MOVE(v7, 0); MOVE(v8, 0); LE(v9, v0, 0); IF(v9, 0); SUB(v10, v0, 1);
CALL(v1, 0, v10); REM(v1, v1, 97); REM(v2, v2, 7); REM(v3, v3, 65521); REM(v6, v6, 997); LABEL(0);
GLOBALA(v11, 9, 1); LOAD(v12, v11); REM(v9, v12, 997); CAST(v10, v9); MOVE(v1, v10);
LOCAL(v13, v2, 0); GLOBALA(v14, 3, 0); STORE(v14, v13); RETURN(v1); END();
FUNCTION(1, main, 4, 0); VAR(0, 4); VAR(1, 4); VAR(2, 6); VAR(3, 5); VAR(4, 7); VAR(5, 6);
VAR(6, 9); VAR(7, 16); VAR(8, 2); VAR(9, 20); VAR(10, 16); VAR(11, 8); VAR(12, 4); VAR(13, 4);
VAR(14, 4); VAR(15, 16); VAR(16, 6); VAR(17, 16); VAR(18, 21); VAR(19, 8); VAR(20, 8);
VAR(21, 21); VAR(22, 12); VAR(23, 6); VAR(24, 12); VAR(25, 21); VAR(26, 4); VAR(27, 4);
VAR(28, 12); VAR(29, 12); VAR(30, 6); VAR(31, 22); VAR(32, 16); VAR(33, 16); BEGIN();
RESTORE(v0, v1, v2, v3, v4, v5, v6, v7, v8, v9, v10, v11, v12, v13, v14, v15, v16, v17, v18, v19, v20, v21, v22, v23, v24, v25, v26, v27, v28, v29, v30, v31, v32, v33);
TABLE(1, 5); TABLE(2, 6); TABLE(3, 7); MOVE(v0, 23); MOVE(v1, -4); MOVE(v2, -27); MOVE(v3, 10);
MOVE(v4, 65); MOVE(v5, 91); LOCAL(v7, v6, 0); STORE(v7, -6); LOCAL(v9, v8, 0); STORE(v9, -32768);
MOVE(v10, 0); MOVE(v11, 0); MOVE(v0, 3); NE(v12, 481, 638); DEC(v13, v12); GLOBALA(v15, 6, 0);
LOAD(v12, v15); DEC(v14, v12); ADD(v1, v1, v14); REM(v1, v1, 997); EQ(v13, v10, 0); IF(v13, 0);
LOAD(v14, v10); REM(v12, v14, 997); CAST(v16, v12); MOVE(v2, v16); REM(v13, v0, 997);
CAST(v14, v13); STORE(v10, v14); LABEL(0); GLOBALA(v17, 9, 3); LOAD(v13, v17); DEC(v12, v13);
ADD(v1, v1, v12); REM(v1, v1, 7); GLOBALA(v18, 0, 0); LOAD(v19, v18); CALLOC(v11, 2);
STEP(v20, v11, 0); MEMBER(v21, v11, 2); STORE(v21, 0); MEMBER(v22, v11, 0); STORE(v22, 5);
REM(v14, v0, 997); CAST(v23, v14); MEMBER(v24, v20, 0); STORE(v24, v23); MEMBER(v25, v11, 2);
STORE(v25, v19); STORE(v18, v11); MOVE(v26, 0); JUMP(2); LABEL(1); TURN(); KILL(v27);
MOVE(v27, v26); CALLOC(v28, 1); STEP(v29, v28, 0); LOAD(v30, v29); REM(v16, v30, 997);
CAST(v12, v16); MOVE(v0, v12); REM(v23, v5, 997); CAST(v30, v23); STORE(v29, v30); LABEL(5);
CHECKPOINT(); SAVED(1, 8); FREE(v28); XOR(v0, v0, 836); REM(v0, v0, 7); ADD(v26, v26, 1);
LABEL(2); LT(v13, v26, 3); IF(v13, 1); GLOBALA(v7, 9, 0); GLOBALA(v15, 9, 0); DIFF(v16, v7, v15);
DEC(v14, v16); LT(v14, v7, v15); DEC(v12, v14); LABEL(6); CHECKPOINT(); SAVED(2, 8);
GLOBALA(v17, 9, 2); LOCAL(v7, v6, 0); GLOBALA(v15, 9, 4); GLOBALA(v31, 9, 0); MEMBER(v17, v31, 0);
MOVE(v32, v17); STEP(v33, v32, 5); JUMP(4); LABEL(3); TURN(); LOAD(v13, v32); REM(v13, v13, 97);
ADD(v13, v13, 1); STORE(v32, v13); DEC(v14, v13); LABEL(7); CHECKPOINT(); SAVED(3, 8);
STEP(v32, v32, 1); LABEL(4); NE(v12, v32, v33); IF(v12, 3); BACK(v32, v32, 1);
DIFF(v23, v33, v32); DEC(v13, v23); DEC(v14, v0); DEC(v12, v1); RETURN(42); LABEL(8);
PUSH(v0, v1, v2, v3, v4, v5, v6, v7, v8, v9, v10, v11, v12, v13, v14, v15, v16, v17, v18, v19, v20, v21, v22, v23, v24, v25, v26, v27, v28, v29, v30, v31, v32, v33);
END();",
        plain: Some((85, FlatRule::Modes)),
        end: End::Done(42),
        turns: 9,
        output: "121474836471001-651222130",
    },
];
