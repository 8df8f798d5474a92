//! Long programs that a generator made, with checkpoints, calls, loops and pointers.
//! The programs are texts without their head lines. A blank or a newline stands between two lines.

use crate::ends::{End, Program, Start};
use porch_flat::whole::FlatRule;

/// The programs, with how they end.
pub(crate) static MADE_TWO: [Program; 3] = [
    // 313 lines
    Program {
        start: Start::Nothing,
        rest: "POINTER(8, 12); ARRAY(9, 7, 2); ARRAY(10, 0, 4); ARRAY(11, 3, 1); STRUCT(12, 2, 11, 6, 8, 0);
POINTER(13, 6); STRUCT(14, 13, 5); STRUCT(15, 1, 1, 10, 0); POINTER(16, 4); ARRAY(17, 4, 3);
ARRAY(18, 0, 6); POINTER(19, 1); POINTER(20, 0); POINTER(21, 8); POINTER(22, 2); POINTER(23, 16);
POINTER(24, 10); GLOBAL(0, 8); GLOBAL(1, 16); GLOBAL(2, 16); GLOBAL(3, 16); GLOBAL(4, 13);
GLOBAL(5, 8); GLOBAL(6, 6); GLOBAL(7, 10); INIT(7, 3, 85); GLOBAL(8, 10); INIT(8, 1, -128);
INIT(8, 2, 11); GLOBAL(9, 6); GLOBAL(10, 17); INIT(10, 1, -14); INIT(10, 2, 82); GLOBAL(11, 16);
GLOBAL(12, 18); INIT(12, 0, 120); INIT(12, 1, 122); INIT(12, 2, 114); INIT(12, 3, 113);
INIT(12, 4, 116); FUNCTION(0, f0, void, 3); VAR(0, 4); VAR(1, 4); VAR(2, 0); VAR(3, 4); VAR(4, 4);
VAR(5, 6); VAR(6, 5); VAR(7, 7); VAR(8, 6); VAR(9, 15); VAR(10, 19); VAR(11, 19); VAR(12, 20);
VAR(13, 20); VAR(14, 20); VAR(15, 20); VAR(16, 8); VAR(17, 21); VAR(18, 8); VAR(19, 8);
VAR(20, 4); VAR(21, 4); VAR(22, 6); VAR(23, 13); VAR(24, 21); VAR(25, 4); VAR(26, 4); VAR(27, 22);
VAR(28, 22); VAR(29, 2); VAR(30, 6); VAR(31, 2); VAR(32, 23); VAR(33, 16); VAR(34, 6); BEGIN();
RESTORE(v0, v1, v2, v3, v4, v5, v6, v7, v8, v9, v10, v11, v12, v13, v14, v15, v16, v17, v18, v19, v20, v21, v22, v23, v24, v25, v26, v27, v28, v29, v30, v31, v32, v33, v34);
TABLE(1, 4); TABLE(2, 5); TABLE(3, 6); MOVE(v3, -59); MOVE(v4, -29); MOVE(v5, 91); MOVE(v6, 20);
MOVE(v7, 29); MOVE(v8, -8); REM(v1, v1, 997); LOCAL(v10, v9, 0); STORE(v10, 1); LOCAL(v11, v9, 1);
STORE(v11, 0); LOCAL(v12, v9, 2); STORE(v12, 127); LOCAL(v13, v9, 3); STORE(v13, 127);
LOCAL(v14, v9, 4); STORE(v14, -128); LOCAL(v12, v9, 5); STORE(v12, 1); LOCAL(v13, v9, 6);
STORE(v13, -108); MOVE(v15, 0); MOVE(v16, 0); GLOBALA(v17, 0, 0); LOAD(v18, v17); MOVE(v19, v18);
MOVE(v20, 0); LABEL(0); TURN(); EQ(v21, v19, 0); IF(v21, 1); LT(v21, 6, v20); IF(v21, 1);
ADD(v20, v20, 1); MEMBER(v23, v19, 2); LOAD(v22, v23); ADD(v5, v5, v22); REM(v5, v5, 97);
LABEL(4); CHECKPOINT(); SAVED(1, 7); MEMBER(v24, v19, 3); LOAD(v19, v24); JUMP(0); LABEL(1);
MOVE(v19, 0); LE(v25, v0, 0); IF(v25, 2); SUB(v26, v0, 1); LABEL(5); CALL(_, 0, v26, v3, 86);
SAVED(2, 7); REM(v3, v3, 7); REM(v4, v4, 997); REM(v5, v5, 65521); REM(v8, v8, 7);
REM(v1, v1, 97); LABEL(2); CALLOC(v27, 4); STEP(v28, v27, 0); LOAD(v29, v28); CAST(v21, v29);
REM(v25, v21, 997); CAST(v26, v25); MOVE(v1, v26); REM(v30, v8, 997); CAST(v31, v30);
STORE(v28, v31); LABEL(6); CHECKPOINT(); SAVED(3, 7); FREE(v27); GLOBALA(v32, 1, 0);
LOAD(v33, v32); EQ(v21, v33, 0); IF(v21, 3); LOAD(v25, v33); REM(v26, v25, 997); CAST(v21, v26);
MOVE(v4, v21); REM(v34, v5, 997); CAST(v25, v34); STORE(v33, v25); LABEL(3); LABEL(7);
PUSH(v0, v1, v2, v3, v4, v5, v6, v7, v8, v9, v10, v11, v12, v13, v14, v15, v16, v17, v18, v19, v20, v21, v22, v23, v24, v25, v26, v27, v28, v29, v30, v31, v32, v33, v34);
END(); FUNCTION(1, main, 4, 0); VAR(0, 4); VAR(1, 4); VAR(2, 6); VAR(3, 5); VAR(4, 7); VAR(5, 4);
VAR(6, 2); VAR(7, 22); VAR(8, 4); VAR(9, 16); VAR(10, 13); VAR(11, 8); VAR(12, 23); VAR(13, 16);
VAR(14, 4); VAR(15, 4); VAR(16, 4); VAR(17, 6); VAR(18, 23); VAR(19, 16); VAR(20, 4); VAR(21, 13);
VAR(22, 21); VAR(23, 8); VAR(24, 8); VAR(25, 21); VAR(26, 21); VAR(27, 24); VAR(28, 20);
VAR(29, 22); VAR(30, 20); VAR(31, 13); VAR(32, 13); VAR(33, 6); VAR(34, 4); VAR(35, 23);
VAR(36, 22); VAR(37, 20); BEGIN();
RESTORE(v0, v1, v2, v3, v4, v5, v6, v7, v8, v9, v10, v11, v12, v13, v14, v15, v16, v17, v18, v19, v20, v21, v22, v23, v24, v25, v26, v27, v28, v29, v30, v31, v32, v33, v34, v35, v36, v37);
TABLE(1, 6); TABLE(2, 7); TABLE(3, 8); MOVE(v0, -13); MOVE(v1, 45); MOVE(v2, 97); MOVE(v3, 0);
MOVE(v4, 67); MOVE(v5, 4); LOCAL(v7, v6, 0); STORE(v7, 1); LOCAL(v9, v8, 0); STORE(v9, 1);
MOVE(v10, 0); MOVE(v11, 0); MOVE(v0, 3); GLOBALA(v12, 1, 0); LOAD(v13, v12); EQ(v14, v13, 0);
IF(v14, 0); LOAD(v15, v13); REM(v16, v15, 997); CAST(v14, v16); MOVE(v1, v14); REM(v17, v2, 997);
CAST(v15, v17); STORE(v13, v15); LABEL(0); LOCAL(v19, v8, 0); MOVE(v20, 0); JUMP(2); LABEL(1);
TURN(); GLOBALA(v21, 9, 0); STORE(v21, 1); GLOBALA(v22, 0, 0); LOAD(v23, v22); EQ(v16, v23, 0);
IF(v16, 3); MEMBER(v25, v23, 3); LOAD(v24, v25); STORE(v22, v24); GLOBALA(v26, 5, 0);
STORE(v26, v23); FREE(v23); LABEL(3); LOCAL(v9, v8, 0); GLOBALA(v27, 7, 0); GLOBALA(v13, 10, 0);
GLOBALA(v28, 8, 2); LOCAL(v29, v6, 0); ADD(v20, v20, 1); LABEL(2); LT(v14, v20, 4); IF(v14, 1);
GLOBALA(v30, 8, 1); GLOBALA(v31, 6, 0); GLOBALA(v19, 10, 1); GLOBALA(v9, 10, 2);
GLOBALA(v32, 9, 0); GLOBALA(v13, 10, 0); GLOBALA(v19, 10, 0); DIFF(v33, v13, v19); DEC(v15, v33);
LE(v15, v13, v19); DEC(v16, v15); LABEL(6); CHECKPOINT(); SAVED(1, 9); DEC(v14, v0);
ADD(v1, v1, v14); REM(v1, v1, 65521); MOVE(v34, 0); JUMP(5); LABEL(4); TURN();
GLOBALA(v35, 11, 0); LOAD(v13, v35); GLOBALA(v9, 10, 0); STEP(v9, v9, 3); EQ(v15, v9, v13);
DEC(v16, v15); STORE(v35, v9); ADD(v34, v34, 1); LABEL(5); LT(v14, v34, 4); IF(v14, 4); LABEL(7);
CHECKPOINT(); SAVED(2, 9); LOCAL(v36, v6, 0); GLOBALA(v37, 7, 2); GLOBALA(v28, 7, 3);
LOCAL(v19, v8, 0); GLOBALA(v30, 7, 3); LABEL(8); CHECKPOINT(); SAVED(3, 9); DEC(v15, v0);
DEC(v16, v1); RETURN(0); LABEL(9);
PUSH(v0, v1, v2, v3, v4, v5, v6, v7, v8, v9, v10, v11, v12, v13, v14, v15, v16, v17, v18, v19, v20, v21, v22, v23, v24, v25, v26, v27, v28, v29, v30, v31, v32, v33, v34, v35, v36, v37);
END();",
        plain: Some((43, FlatRule::Modes)),
        end: End::Done(0),
        turns: 9,
        output: "0130111346",
    },
    // 197 lines
    Program {
        start: Start::Nothing,
        rest: "POINTER(8, 12); ARRAY(9, 2, 1); ARRAY(10, 5, 2); ARRAY(11, 3, 3); STRUCT(12, 4, 6, 6, 8);
STRUCT(13, 5, 5); POINTER(14, 6); STRUCT(15, 0); STRUCT(16, 3, 7, 14); POINTER(17, 4);
ARRAY(18, 2, 2); POINTER(19, 2); ARRAY(20, 0, 3); POINTER(21, 0); POINTER(22, 17); POINTER(23, 9);
GLOBAL(0, 8); GLOBAL(1, 17); GLOBAL(2, 17); GLOBAL(3, 17); GLOBAL(4, 14); GLOBAL(5, 8);
GLOBAL(6, 6); GLOBAL(7, 9); GLOBAL(8, 18); INIT(8, 0, 32767); GLOBAL(9, 19); GLOBAL(10, 20);
INIT(10, 0, 102); INIT(10, 1, 111); FUNCTION(0, f0, void, 3); VAR(0, 4); VAR(1, 4); VAR(2, 4);
VAR(3, 4); VAR(4, 4); VAR(5, 6); VAR(6, 5); VAR(7, 7); VAR(8, 4); VAR(9, 15); VAR(10, 21);
VAR(11, 2); VAR(12, 19); VAR(13, 21); VAR(14, 8); VAR(15, 22); VAR(16, 14); VAR(17, 4);
VAR(18, 6); BEGIN();
RESTORE(v0, v1, v2, v3, v4, v5, v6, v7, v8, v9, v10, v11, v12, v13, v14, v15, v16, v17, v18);
TABLE(1, 0); MOVE(v3, -18); MOVE(v4, -96); MOVE(v5, -45); MOVE(v6, 52); MOVE(v7, 63);
MOVE(v8, -18); REM(v1, v1, 997); REM(v2, v2, 997); LOCAL(v10, v9, 0); STORE(v10, 1);
LOCAL(v12, v11, 0); STORE(v12, 1); MOVE(v13, 0); MOVE(v14, 0); GLOBALA(v16, 6, 0);
REM(v17, v8, 997); CAST(v18, v17); STORE(v16, v18); LABEL(0); CHECKPOINT(); SAVED(1, 1); LABEL(1);
PUSH(v0, v1, v2, v3, v4, v5, v6, v7, v8, v9, v10, v11, v12, v13, v14, v15, v16, v17, v18); END();
FUNCTION(1, main, 4, 0); VAR(0, 4); VAR(1, 4); VAR(2, 6); VAR(3, 5); VAR(4, 7); VAR(5, 6);
VAR(6, 0); VAR(7, 21); VAR(8, 4); VAR(9, 17); VAR(10, 21); VAR(11, 8); VAR(12, 4); VAR(13, 22);
VAR(14, 17); VAR(15, 4); VAR(16, 4); VAR(17, 7); VAR(18, 0); VAR(19, 6); VAR(20, 0); VAR(21, 7);
VAR(22, 7); VAR(23, 23); VAR(24, 23); VAR(25, 19); VAR(26, 2); VAR(27, 4); VAR(28, 5); VAR(29, 5);
BEGIN();
RESTORE(v0, v1, v2, v3, v4, v5, v6, v7, v8, v9, v10, v11, v12, v13, v14, v15, v16, v17, v18, v19, v20, v21, v22, v23, v24, v25, v26, v27, v28, v29);
TABLE(1, 7); TABLE(2, 8); TABLE(3, 9); MOVE(v0, -19); MOVE(v1, -92); MOVE(v2, 37); MOVE(v3, 58);
MOVE(v4, 12); MOVE(v5, 2); LOCAL(v7, v6, 0); STORE(v7, -128); LOCAL(v9, v8, 0); STORE(v9, 1);
MOVE(v10, 0); MOVE(v11, 0); MOVE(v0, 3); LT(v12, v3, 34); IF(v12, 0); GLOBALA(v13, 1, 0);
LOAD(v14, v13); EQ(v15, v14, 0); IF(v15, 2); LOAD(v16, v14); REM(v12, v16, 997);
AND(v12, v12, 1023); CAST(v17, v12); MOVE(v4, v17); REM(v15, v1, 997); CAST(v16, v15);
STORE(v14, v16); LABEL(2); EQ(v12, v10, 0); IF(v12, 3); LOAD(v18, v10); CAST(v15, v18);
REM(v16, v15, 997); CAST(v12, v16); MOVE(v1, v12); REM(v19, v5, 997); CAST(v20, v19);
STORE(v10, v20); LABEL(3); JUMP(1); LABEL(0); REM(v21, v4, 997); CAST(v22, v21); MOVE(v4, v22);
LABEL(1); GLOBALA(v23, 7, 0); MEMBER(v24, v23, 0); MEMBER(v25, v24, 0); REM(v17, v4, 997);
CAST(v26, v17); STORE(v25, v26); LABEL(7); CHECKPOINT(); SAVED(1, 10); MOVE(v27, 0); JUMP(5);
LABEL(4); TURN(); LABEL(8); CALL(_, 0, 0, v0, v1); SAVED(2, 10); REM(v0, v0, 997);
REM(v1, v1, 65521); REM(v2, v2, 997); REM(v5, v5, 7); LABEL(6); REM(v28, v3, 997); CAST(v29, v28);
MOVE(v3, v29); ADD(v27, v27, 1); LABEL(5); LT(v16, v27, 3); IF(v16, 4); LE(v12, v2, v5);
DEC(v15, v12); LABEL(9); CHECKPOINT(); SAVED(3, 10); DEC(v16, v0); DEC(v12, v1); RETURN(42);
LABEL(10);
PUSH(v0, v1, v2, v3, v4, v5, v6, v7, v8, v9, v10, v11, v12, v13, v14, v15, v16, v17, v18, v19, v20, v21, v22, v23, v24, v25, v26, v27, v28, v29);
END();",
        plain: Some((33, FlatRule::Modes)),
        end: End::Done(42),
        turns: 7,
        output: "03-92",
    },
    // 198 lines
    Program {
        start: Start::Nothing,
        rest: "POINTER(8, 10); ARRAY(9, 3, 3); STRUCT(10, 6, 4, 1, 8, 0); POINTER(11, 4); STRUCT(12, 5, 7, 9);
STRUCT(13, 0, 0); STRUCT(14, 9, 3, 0, 1); POINTER(15, 6); ARRAY(16, 2, 4); POINTER(17, 2);
ARRAY(18, 0, 6); POINTER(19, 0); POINTER(20, 8); POINTER(21, 11); POINTER(22, 9); POINTER(23, 3);
POINTER(24, 14); GLOBAL(0, 8); GLOBAL(1, 15); GLOBAL(2, 11); GLOBAL(3, 11); GLOBAL(4, 15);
GLOBAL(5, 8); GLOBAL(6, 14); INIT(6, 3, 1); GLOBAL(7, 14); INIT(7, 0, 65535); INIT(7, 2, 70);
INIT(7, 5, 1); GLOBAL(8, 16); INIT(8, 0, 1); GLOBAL(9, 17); GLOBAL(10, 18); INIT(10, 0, 112);
INIT(10, 1, 122); INIT(10, 2, 116); INIT(10, 3, 116); INIT(10, 4, 107); FUNCTION(0, f0, void, 3);
VAR(0, 4); VAR(1, 0); VAR(2, 11); VAR(3, 4); VAR(4, 4); VAR(5, 6); VAR(6, 5); VAR(7, 7);
VAR(8, 4); VAR(9, 4); VAR(10, 11); VAR(11, 0); VAR(12, 19); VAR(13, 19); VAR(14, 8); VAR(15, 20);
VAR(16, 8); VAR(17, 6); VAR(18, 6); VAR(19, 15); VAR(20, 20); VAR(21, 19); VAR(22, 19);
VAR(23, 11); VAR(24, 21); BEGIN(); MOVE(v3, 22); MOVE(v4, -5); MOVE(v5, 52); MOVE(v6, 5);
MOVE(v7, 21); MOVE(v8, 56); LOCAL(v10, v9, 0); STORE(v10, 10); LOCAL(v12, v11, 0);
STORE(v12, 127); MOVE(v13, 0); MOVE(v14, 0); GLOBALA(v15, 0, 0); LOAD(v16, v15); CALLOC(v14, 1);
REM(v17, v5, 997); CAST(v18, v17); MEMBER(v19, v14, 0); STORE(v19, v18); MEMBER(v20, v14, 3);
STORE(v20, v16); STORE(v15, v14); GLOBALA(v21, 7, 4); MOVE(v13, v21); LOCAL(v22, v11, 0);
MOVE(v13, v22); XOR(v8, v8, v4); REM(v8, v8, 7); LOCAL(v12, v11, 0); STORE(v12, 127);
LOCAL(v23, v4, 0); GLOBALA(v24, 3, 0); STORE(v24, v23); RETURN(); END(); FUNCTION(1, main, 4, 0);
VAR(0, 4); VAR(1, 4); VAR(2, 6); VAR(3, 5); VAR(4, 7); VAR(5, 6); VAR(6, 2); VAR(7, 17);
VAR(8, 19); VAR(9, 8); VAR(10, 20); VAR(11, 8); VAR(12, 8); VAR(13, 4); VAR(14, 4); VAR(15, 6);
VAR(16, 15); VAR(17, 20); VAR(18, 17); VAR(19, 22); VAR(20, 17); VAR(21, 23); VAR(22, 6);
VAR(23, 4); VAR(24, 4); VAR(25, 24); VAR(26, 24); VAR(27, 11); VAR(28, 21); BEGIN();
RESTORE(v0, v1, v2, v3, v4, v5, v6, v7, v8, v9, v10, v11, v12, v13, v14, v15, v16, v17, v18, v19, v20, v21, v22, v23, v24, v25, v26, v27, v28);
TABLE(1, 2); TABLE(2, 3); TABLE(3, 4); MOVE(v0, -83); MOVE(v1, -15); MOVE(v2, 12); MOVE(v3, 94);
MOVE(v4, 90); MOVE(v5, -6); LOCAL(v7, v6, 0); STORE(v7, -32768); MOVE(v8, 0); MOVE(v9, 0);
MOVE(v0, 3); GLOBALA(v10, 0, 0); LOAD(v11, v10); MOVE(v12, v11); MOVE(v13, 0); LABEL(0); TURN();
EQ(v14, v12, 0); IF(v14, 1); LT(v14, 6, v13); IF(v14, 1); ADD(v13, v13, 1); MEMBER(v16, v12, 0);
LOAD(v15, v16); ADD(v5, v5, v15); REM(v5, v5, 65521); LABEL(2); CHECKPOINT(); SAVED(1, 5);
MEMBER(v17, v12, 3); LOAD(v12, v17); JUMP(0); LABEL(1); MOVE(v12, 0); LOCAL(v18, v6, 0);
GLOBALA(v19, 7, 0); LOCAL(v20, v6, 0); LOCAL(v7, v6, 0); GLOBALA(v21, 6, 3); LABEL(3);
CHECKPOINT(); SAVED(2, 5); GLOBALA(v18, 8, 1); GLOBALA(v20, 8, 3); DIFF(v22, v18, v20);
DEC(v23, v22); LT(v23, v18, v20); DEC(v24, v23); GLOBALA(v25, 7, 0); GLOBALA(v26, 6, 0);
COPY(v25, v26); LABEL(4); CHECKPOINT(); SAVED(3, 5); DEC(v14, v0); DEC(v23, v1);
LOCAL(v27, v1, 0); GLOBALA(v28, 3, 0); STORE(v28, v27); RETURN(1); LABEL(5);
PUSH(v0, v1, v2, v3, v4, v5, v6, v7, v8, v9, v10, v11, v12, v13, v14, v15, v16, v17, v18, v19, v20, v21, v22, v23, v24, v25, v26, v27, v28);
END();",
        plain: Some((103, FlatRule::Modes)),
        end: End::Done(1),
        turns: 2,
        output: "-213-15",
    },
];
