//! Long programs that a generator made, with checkpoints, calls, loops and pointers.
//! The programs are texts without their head lines. A blank or a newline stands between two lines.

use crate::ends::{End, Program, Start};
use porch_flat::whole::FlatRule;
use porch_values::Act;

/// The programs, with how they end.
pub(crate) static MADE_FOUR: [Program; 2] = [
    // 311 lines
    Program {
        start: Start::Nothing,
        rest: "POINTER(8, 11); ARRAY(9, 7, 3); ARRAY(10, 4, 2); STRUCT(11, 6, 10, 2, 4, 8, 0); ARRAY(12, 0, 3);
POINTER(13, 6); ARRAY(14, 9, 3); ARRAY(15, 6, 3); STRUCT(16, 0, 6, 9); POINTER(17, 4);
ARRAY(18, 4, 3); ARRAY(19, 0, 7); POINTER(20, 7); POINTER(21, 0); POINTER(22, 8); POINTER(23, 17);
POINTER(24, 13); GLOBAL(0, 8); GLOBAL(1, 13); GLOBAL(2, 17); GLOBAL(3, 17); GLOBAL(4, 13);
GLOBAL(5, 8); GLOBAL(6, 12); INIT(6, 1, -5); GLOBAL(7, 0); GLOBAL(8, 18); INIT(8, 1, -10);
GLOBAL(9, 17); GLOBAL(10, 19); INIT(10, 0, 105); INIT(10, 1, 103); INIT(10, 2, 107);
INIT(10, 3, 112); INIT(10, 4, 109); INIT(10, 5, 101); FUNCTION(0, f0, 4, 1); VAR(0, 4); VAR(1, 4);
VAR(2, 4); VAR(3, 6); VAR(4, 5); VAR(5, 7); VAR(6, 6); VAR(7, 14); VAR(8, 20); VAR(9, 20);
VAR(10, 20); VAR(11, 21); VAR(12, 8); VAR(13, 4); VAR(14, 4); VAR(15, 4); VAR(16, 21); VAR(17, 4);
VAR(18, 0); VAR(19, 5); VAR(20, 6); VAR(21, 0); VAR(22, 21); BEGIN(); MOVE(v1, -27); MOVE(v2, 15);
MOVE(v3, -18); MOVE(v4, 60); MOVE(v5, 12); MOVE(v6, 43); LOCAL(v8, v7, 0); STORE(v8, 0);
LOCAL(v9, v7, 1); STORE(v9, 4294967295); LOCAL(v10, v7, 2); STORE(v10, 69); LOCAL(v8, v7, 3);
STORE(v8, 495482029); LOCAL(v9, v7, 4); STORE(v9, 4294967295); LOCAL(v10, v7, 5); STORE(v10, 1);
LOCAL(v8, v7, 6); STORE(v8, 2874213859); LOCAL(v9, v7, 7); STORE(v9, 0); LOCAL(v10, v7, 8);
STORE(v10, 4294967295); MOVE(v11, 0); MOVE(v12, 0); REM(v13, v1, 1000); REM(v14, v1, 1000);
MUL(v2, v13, v14); REM(v2, v2, 997); MOVE(v15, 0); JUMP(1); LABEL(0); TURN(); GLOBALA(v16, 6, 0);
MOVE(v11, v16); EQ(v17, v11, 0); IF(v17, 2); LOAD(v18, v11); CAST(v13, v18); REM(v14, v13, 997);
AND(v14, v14, 1023); CAST(v19, v14); MOVE(v4, v19); REM(v20, v6, 997); CAST(v21, v20);
STORE(v11, v21); LABEL(2); ADD(v15, v15, 1); LABEL(1); LT(v17, v15, 4); IF(v17, 0);
GLOBALA(v22, 6, 1); MOVE(v11, v22); RETURN(v1); END(); FUNCTION(1, f1, 4, 2); VAR(0, 4);
VAR(1, 17); VAR(2, 4); VAR(3, 4); VAR(4, 6); VAR(5, 5); VAR(6, 7); VAR(7, 6); VAR(8, 4);
VAR(9, 17); VAR(10, 21); VAR(11, 8); VAR(12, 4); VAR(13, 21); VAR(14, 17); VAR(15, 17);
VAR(16, 6); VAR(17, 4); VAR(18, 4); VAR(19, 21); VAR(20, 22); VAR(21, 8); VAR(22, 8); VAR(23, 22);
VAR(24, 22); VAR(25, 8); VAR(26, 8); VAR(27, 4); VAR(28, 6); VAR(29, 13); VAR(30, 21); VAR(31, 6);
VAR(32, 0); VAR(33, 23); BEGIN();
RESTORE(v0, v1, v2, v3, v4, v5, v6, v7, v8, v9, v10, v11, v12, v13, v14, v15, v16, v17, v18, v19, v20, v21, v22, v23, v24, v25, v26, v27, v28, v29, v30, v31, v32, v33);
TABLE(1, 3); MOVE(v2, 32); MOVE(v3, 33); MOVE(v4, -63); MOVE(v5, 93); MOVE(v6, 40); MOVE(v7, -75);
LOCAL(v9, v8, 0); STORE(v9, 2147483647); MOVE(v10, 0); MOVE(v11, 0); GLOBALA(v13, 10, 0);
TEXT(v12, v13); ADD(v3, v3, v12); REM(v3, v3, 997); LABEL(3); CHECKPOINT(); SAVED(1, 4);
GLOBALA(v14, 8, 1); GLOBALA(v15, 8, 0); DIFF(v16, v14, v15); DEC(v17, v16); EQ(v17, v14, v15);
DEC(v18, v17); GLOBALA(v19, 6, 0); MOVE(v10, v19); GLOBALA(v20, 0, 0); LOAD(v21, v20);
EQ(v12, v21, 0); IF(v12, 0); MEMBER(v23, v21, 5); LOAD(v22, v23); STORE(v20, v22); FREE(v21);
LABEL(0); GLOBALA(v24, 0, 0); LOAD(v25, v24); MOVE(v26, v25); MOVE(v27, 0); LABEL(1); TURN();
EQ(v17, v26, 0); IF(v17, 2); LT(v17, 6, v27); IF(v17, 2); ADD(v27, v27, 1); MEMBER(v29, v26, 0);
LOAD(v28, v29); ADD(v7, v7, v28); REM(v7, v7, 7); MEMBER(v20, v26, 5); LOAD(v26, v20); JUMP(1);
LABEL(2); MOVE(v26, 0); GLOBALA(v30, 6, 2); REM(v31, v7, 997); CAST(v32, v31); STORE(v30, v32);
LOCAL(v9, v3, 0); GLOBALA(v33, 3, 0); STORE(v33, v9); RETURN(v2); LABEL(4);
PUSH(v0, v1, v2, v3, v4, v5, v6, v7, v8, v9, v10, v11, v12, v13, v14, v15, v16, v17, v18, v19, v20, v21, v22, v23, v24, v25, v26, v27, v28, v29, v30, v31, v32, v33);
END(); FUNCTION(2, main, 4, 0); VAR(0, 4); VAR(1, 4); VAR(2, 6); VAR(3, 5); VAR(4, 7); VAR(5, 4);
VAR(6, 17); VAR(7, 8); VAR(8, 24); VAR(9, 4); VAR(10, 4); VAR(11, 17); VAR(12, 17); VAR(13, 6);
VAR(14, 4); VAR(15, 22); VAR(16, 8); VAR(17, 8); VAR(18, 4); VAR(19, 6); VAR(20, 13); VAR(21, 22);
VAR(22, 17); VAR(23, 23); VAR(24, 23); BEGIN();
RESTORE(v0, v1, v2, v3, v4, v5, v6, v7, v8, v9, v10, v11, v12, v13, v14, v15, v16, v17, v18, v19, v20, v21, v22, v23, v24);
TABLE(1, 2); MOVE(v0, 9); MOVE(v1, -44); MOVE(v2, -7); MOVE(v3, 9); MOVE(v4, 6); MOVE(v5, 22);
MOVE(v6, 0); MOVE(v7, 0); MOVE(v0, 3); ADD(v1, v1, v9); REM(v1, v1, 65521); CHAR(v10, 92);
ADD(v1, v1, v10); REM(v1, v1, 65521); GLOBALA(v11, 8, 2); GLOBALA(v12, 8, 1); DIFF(v13, v11, v12);
DEC(v14, v13); NE(v14, v11, v12); DEC(v9, v14); GLOBALA(v15, 0, 0); LOAD(v16, v15);
MOVE(v17, v16); MOVE(v18, 0); LABEL(0); TURN(); EQ(v10, v17, 0); IF(v10, 1); LT(v10, 6, v18);
IF(v10, 1); ADD(v18, v18, 1); MEMBER(v20, v17, 0); LOAD(v19, v20); ADD(v2, v2, v19);
REM(v2, v2, 997); LABEL(2); CHECKPOINT(); SAVED(1, 3); MEMBER(v21, v17, 5); LOAD(v17, v21);
JUMP(0); LABEL(1); MOVE(v17, 0); GLOBALA(v22, 8, 2); STEP(v11, v22, 1); GLOBALA(v23, 3, 0);
STORE(v23, v11); GLOBALA(v24, 9, 0); LOAD(v22, v24); GLOBALA(v12, 8, 0); STEP(v12, v12, 3);
EQ(v14, v12, v22); DEC(v9, v14); STORE(v24, v12); GLOBALA(v11, 8, 2); MOVE(v6, v11); DEC(v10, v0);
DEC(v14, v1); RETURN(1); LABEL(3);
PUSH(v0, v1, v2, v3, v4, v5, v6, v7, v8, v9, v10, v11, v12, v13, v14, v15, v16, v17, v18, v19, v20, v21, v22, v23, v24);
END();",
        plain: Some((120, FlatRule::Modes)),
        end: End::Met(Act::Indeterminate),
        turns: 1,
        output: "",
    },
    // 320 lines
    Program {
        start: Start::Nothing,
        rest: "POINTER(8, 11); ARRAY(9, 7, 1); ARRAY(10, 1, 3); STRUCT(11, 2, 6, 10, 2, 8, 0); STRUCT(12, 0, 7);
POINTER(13, 6); POINTER(14, 4); ARRAY(15, 6, 5); ARRAY(16, 0, 3); POINTER(17, 0); POINTER(18, 14);
POINTER(19, 13); POINTER(20, 10); POINTER(21, 1); POINTER(22, 8); POINTER(23, 15); GLOBAL(0, 8);
GLOBAL(1, 13); GLOBAL(2, 14); GLOBAL(3, 14); GLOBAL(4, 13); GLOBAL(5, 8); GLOBAL(6, 10);
GLOBAL(7, 0); GLOBAL(8, 4); INIT(8, 0, 13); GLOBAL(9, 15); INIT(9, 0, 1215272061);
INIT(9, 1, 2147483647); INIT(9, 3, 1); GLOBAL(10, 13); GLOBAL(11, 16); INIT(11, 0, 106);
INIT(11, 1, 119); FUNCTION(0, f0, 6, 3); VAR(0, 4); VAR(1, 14); VAR(2, 6); VAR(3, 4); VAR(4, 4);
VAR(5, 6); VAR(6, 5); VAR(7, 7); VAR(8, 6); VAR(9, 4); VAR(10, 14); VAR(11, 13); VAR(12, 8);
VAR(13, 4); VAR(14, 13); VAR(15, 17); VAR(16, 6); VAR(17, 0); VAR(18, 4); VAR(19, 4); VAR(20, 4);
VAR(21, 4); VAR(22, 13); VAR(23, 17); VAR(24, 14); VAR(25, 14); VAR(26, 5); VAR(27, 18);
VAR(28, 13); VAR(29, 19); VAR(30, 18); BEGIN(); MOVE(v3, 99); MOVE(v4, -81); MOVE(v5, -32);
MOVE(v6, 22); MOVE(v7, 62); MOVE(v8, 79); REM(v2, v2, 997); LOCAL(v10, v9, 0); STORE(v10, 48);
MOVE(v11, 0); MOVE(v12, 0); LT(v13, v2, 19); IF(v13, 0); GLOBALA(v14, 9, 1); MOVE(v11, v14);
JUMP(1); LABEL(0); GLOBALA(v15, 7, 0); REM(v16, v8, 997); CAST(v17, v16); STORE(v15, v17);
LABEL(1); LT(v18, v5, 2); IF(v18, 2); MOVE(v19, 0); JUMP(5); LABEL(4); TURN(); ADD(v19, v19, 1);
LABEL(5); LT(v20, v19, 4); IF(v20, 4); MOVE(v21, 0); JUMP(7); LABEL(6); TURN();
GLOBALA(v22, 9, 3); GLOBALA(v23, 7, 0); GLOBALA(v24, 8, 0); LOCAL(v25, v9, 0); LOCAL(v10, v9, 0);
LE(v13, v0, 0); IF(v13, 8); SUB(v18, v0, 1); LOCAL(v24, v9, 0); CALL(v8, 0, v18, v24, v5);
REM(v3, v3, 997); REM(v4, v4, 65521); REM(v5, v5, 97); REM(v8, v8, 997); REM(v2, v2, 97);
LABEL(8); ADD(v21, v21, 1); LABEL(7); LT(v20, v21, 4); IF(v20, 6); JUMP(3); LABEL(2);
REM(v13, v4, 997); AND(v13, v13, 1023); CAST(v26, v13); MOVE(v6, v26); LOCAL(v25, v9, 0);
STEP(v10, v25, 1); GLOBALA(v27, 3, 0); STORE(v27, v10); GLOBALA(v28, 9, 1); STEP(v14, v28, 4);
GLOBALA(v29, 4, 0); STORE(v29, v14); LABEL(3); LOCAL(v24, v9, 0); STORE(v24, 67);
LOCAL(v25, v4, 0); GLOBALA(v30, 3, 0); STORE(v30, v25); RETURN(v5); END();
FUNCTION(1, main, 4, 0); VAR(0, 4); VAR(1, 4); VAR(2, 6); VAR(3, 5); VAR(4, 7); VAR(5, 4);
VAR(6, 13); VAR(7, 8); VAR(8, 19); VAR(9, 13); VAR(10, 13); VAR(11, 4); VAR(12, 4); VAR(13, 20);
VAR(14, 13); VAR(15, 21); VAR(16, 14); VAR(17, 17); VAR(18, 6); VAR(19, 4); VAR(20, 19);
VAR(21, 22); VAR(22, 8); VAR(23, 8); VAR(24, 22); VAR(25, 22); VAR(26, 8); VAR(27, 8); VAR(28, 4);
VAR(29, 6); VAR(30, 5); VAR(31, 6); VAR(32, 4); VAR(33, 4); VAR(34, 23); VAR(35, 19); VAR(36, 4);
BEGIN();
RESTORE(v0, v1, v2, v3, v4, v5, v6, v7, v8, v9, v10, v11, v12, v13, v14, v15, v16, v17, v18, v19, v20, v21, v22, v23, v24, v25, v26, v27, v28, v29, v30, v31, v32, v33, v34, v35, v36);
TABLE(1, 10); MOVE(v0, 88); MOVE(v1, 24); MOVE(v2, -36); MOVE(v3, 99); MOVE(v4, 58); MOVE(v5, 7);
MOVE(v6, 0); MOVE(v7, 0); MOVE(v0, 3); GLOBALA(v8, 10, 0); LOAD(v10, v8); GLOBALA(v9, 9, 0);
STEP(v9, v9, 5); EQ(v11, v9, v10); DEC(v12, v11); STORE(v8, v9); GLOBALA(v13, 6, 0);
GLOBALA(v14, 9, 3); GLOBALA(v15, 6, 0); GLOBALA(v16, 8, 0); GLOBALA(v17, 7, 0); GLOBALA(v9, 9, 1);
GLOBALA(v10, 9, 2); DIFF(v18, v9, v10); DEC(v19, v18); EQ(v19, v9, v10); DEC(v11, v19);
GLOBALA(v20, 10, 0); LOAD(v9, v20); GLOBALA(v14, 9, 0); STEP(v14, v14, 5); EQ(v12, v14, v9);
DEC(v19, v12); STORE(v20, v14); LT(v11, v3, 0); IF(v11, 0); GLOBALA(v21, 0, 0); LOAD(v22, v21);
EQ(v12, v22, 0); IF(v12, 2); MEMBER(v24, v22, 6); LOAD(v23, v24); STORE(v21, v23); FREE(v22);
LABEL(2); JUMP(1); LABEL(0); GLOBALA(v25, 0, 0); LOAD(v26, v25); MOVE(v27, v26); MOVE(v28, 0);
LABEL(3); TURN(); EQ(v19, v27, 0); IF(v19, 4); LT(v19, 6, v28); IF(v19, 4); ADD(v28, v28, 1);
MEMBER(v10, v27, 1); LOAD(v29, v10); ADD(v2, v2, v29); REM(v2, v2, 7); MEMBER(v21, v27, 6);
LOAD(v27, v21); JUMP(3); LABEL(4); MOVE(v27, 0); GLOBALA(v24, 0, 0); LOAD(v22, v24);
CALLOC(v7, 3); STEP(v23, v7, 0); MEMBER(v25, v7, 6); STORE(v25, 0); MEMBER(v14, v7, 1);
STORE(v14, 5); REM(v30, v3, 997); CAST(v31, v30); MEMBER(v9, v23, 1); STORE(v9, v31);
MEMBER(v21, v7, 6); STORE(v21, v22); STORE(v24, v7); LABEL(1); MOVE(v32, 0); JUMP(6); LABEL(5);
TURN(); KILL(v33); MOVE(v33, v32); GLOBALA(v10, 9, 0); GLOBALA(v14, 9, 4); DIFF(v18, v10, v14);
DEC(v11, v18); LE(v11, v10, v14); DEC(v12, v11); GLOBALA(v34, 9, 0); MEMBER(v9, v34, 0);
LOAD(v29, v9); REM(v31, v29, 997); CAST(v19, v31); MOVE(v5, v19); ADD(v32, v32, 1); LABEL(6);
LT(v11, v32, 4); IF(v11, 5); GLOBALA(v24, 0, 0); LOAD(v26, v24); EQ(v12, v26, 0); IF(v12, 7);
MEMBER(v25, v26, 6); LOAD(v22, v25); STORE(v24, v22); GLOBALA(v35, 4, 0); MEMBER(v10, v26, 1);
STORE(v35, v10); FREE(v26); LABEL(7); MOVE(v36, 0); JUMP(9); LABEL(8); TURN(); LABEL(10);
CHECKPOINT(); SAVED(1, 11); ADD(v36, v36, 1); LABEL(9); LT(v19, v36, 1); IF(v19, 8); DEC(v11, v0);
DEC(v12, v1); RETURN(1); LABEL(11);
PUSH(v0, v1, v2, v3, v4, v5, v6, v7, v8, v9, v10, v11, v12, v13, v14, v15, v16, v17, v18, v19, v20, v21, v22, v23, v24, v25, v26, v27, v28, v29, v30, v31, v32, v33, v34, v35, v36);
END();",
        plain: Some((148, FlatRule::Modes)),
        end: End::Done(1),
        turns: 6,
        output: "0-101-41-41-41-41324",
    },
];
