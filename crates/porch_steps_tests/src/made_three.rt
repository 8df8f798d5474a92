//! Long programs that a generator made, with checkpoints, calls, loops and pointers.
//! The programs are texts without their head lines. A blank or a newline stands between two lines.

use crate::ends::{End, Program, Start};
use porch_flat::whole::FlatRule;

/// The programs, with how they end.
pub(crate) static MADE_THREE: [Program; 2] = [
    // 289 lines, some of which may meet an act
    Program {
        start: Start::Nothing,
        rest: "POINTER(8, 10); ARRAY(9, 7, 1); STRUCT(10, 1, 6, 8, 0); STRUCT(11, 9, 3, 4, 4);
STRUCT(12, 1, 6, 0); POINTER(13, 6); POINTER(14, 4); ARRAY(15, 2, 4); POINTER(16, 2);
ARRAY(17, 0, 2); POINTER(18, 0); POINTER(19, 16); POINTER(20, 8); POINTER(21, 14); POINTER(22, 7);
POINTER(23, 9); POINTER(24, 13); GLOBAL(0, 8); GLOBAL(1, 13); GLOBAL(2, 14); GLOBAL(3, 14);
GLOBAL(4, 13); GLOBAL(5, 8); GLOBAL(6, 12); INIT(6, 1, 920100856); INIT(6, 2, 1); GLOBAL(7, 12);
INIT(7, 1, 1); GLOBAL(8, 6); INIT(8, 0, 1); GLOBAL(9, 15); INIT(9, 0, 32767); INIT(9, 1, 32767);
INIT(9, 2, 3); INIT(9, 3, 86); GLOBAL(10, 16); GLOBAL(11, 17); INIT(11, 0, 104);
FUNCTION(0, f0, 6, 2); VAR(0, 4); VAR(1, 6); VAR(2, 4); VAR(3, 4); VAR(4, 6); VAR(5, 5);
VAR(6, 7); VAR(7, 4); VAR(8, 18); VAR(9, 8); VAR(10, 16); VAR(11, 16); VAR(12, 6); VAR(13, 4);
VAR(14, 4); VAR(15, 19); VAR(16, 16); VAR(17, 4); VAR(18, 20); VAR(19, 8); VAR(20, 8);
VAR(21, 20); VAR(22, 18); VAR(23, 14); VAR(24, 21); BEGIN(); MOVE(v2, 56); MOVE(v3, 25);
MOVE(v4, -87); MOVE(v5, 83); MOVE(v6, 22); MOVE(v7, 52); REM(v1, v1, 997); MOVE(v8, 0);
MOVE(v9, 0); GLOBALA(v10, 9, 0); GLOBALA(v11, 9, 2); DIFF(v12, v10, v11); DEC(v13, v12);
LT(v13, v10, v11); DEC(v14, v13); GLOBALA(v15, 10, 0); LOAD(v10, v15); GLOBALA(v16, 9, 0);
STEP(v16, v16, 4); EQ(v17, v16, v10); DEC(v13, v17); STORE(v15, v16); GLOBALA(v18, 0, 0);
LOAD(v19, v18); EQ(v14, v19, 0); IF(v14, 0); MEMBER(v21, v19, 2); LOAD(v20, v21); STORE(v18, v20);
FREE(v19); LABEL(0); REM(v17, v2, 997); CAST(v13, v17); MOVE(v3, v13); GLOBALA(v22, 7, 2);
MOVE(v8, v22); LOCAL(v23, v3, 0); GLOBALA(v24, 3, 0); STORE(v24, v23); RETURN(v4); END();
FUNCTION(1, main, 4, 0); VAR(0, 4); VAR(1, 4); VAR(2, 6); VAR(3, 5); VAR(4, 7); VAR(5, 6);
VAR(6, 9); VAR(7, 22); VAR(8, 13); VAR(9, 8); VAR(10, 4); VAR(11, 23); VAR(12, 23); VAR(13, 23);
VAR(14, 22); VAR(15, 24); VAR(16, 13); VAR(17, 4); VAR(18, 6); VAR(19, 6); VAR(20, 6); VAR(21, 7);
VAR(22, 4); VAR(23, 19); VAR(24, 16); VAR(25, 16); VAR(26, 4); VAR(27, 22); VAR(28, 7);
VAR(29, 7); VAR(30, 18); VAR(31, 0); VAR(32, 13); VAR(33, 13); VAR(34, 18); VAR(35, 18);
VAR(36, 0); VAR(37, 0); VAR(38, 5); VAR(39, 24); VAR(40, 24); VAR(41, 16); VAR(42, 16);
VAR(43, 2); VAR(44, 2); BEGIN();
RESTORE(v0, v1, v2, v3, v4, v5, v6, v7, v8, v9, v10, v11, v12, v13, v14, v15, v16, v17, v18, v19, v20, v21, v22, v23, v24, v25, v26, v27, v28, v29, v30, v31, v32, v33, v34, v35, v36, v37, v38, v39, v40, v41, v42, v43, v44);
TABLE(1, 8); TABLE(2, 9); MOVE(v0, 66); MOVE(v1, -74); MOVE(v2, 68); MOVE(v3, 75); MOVE(v4, 22);
MOVE(v5, 5); LOCAL(v7, v6, 0); STORE(v7, 4294967295); MOVE(v8, 0); MOVE(v9, 0); MOVE(v0, 3);
MOVE(v10, 0); JUMP(1); LABEL(0); TURN(); LOCAL(v11, v6, 0); MEMBER(v12, v11, 0);
MEMBER(v13, v12, 0); MEMBER(v11, v13, 0); MEMBER(v14, v11, 0); STORE(v14, 73); GLOBALA(v15, 1, 0);
LOAD(v16, v15); EQ(v17, v16, 0); IF(v17, 2); LOAD(v18, v16); REM(v19, v18, 997); CAST(v20, v19);
MOVE(v2, v20); REM(v21, v4, 997); CAST(v18, v21); STORE(v16, v18); LABEL(2); ADD(v10, v10, 1);
LABEL(1); LT(v22, v10, 1); IF(v22, 0); GLOBALA(v23, 10, 0); LOAD(v25, v23); GLOBALA(v24, 9, 0);
STEP(v24, v24, 4); EQ(v26, v24, v25); DEC(v17, v26); STORE(v23, v24); LOCAL(v12, v6, 0);
MEMBER(v27, v12, 0); LOAD(v28, v27); REM(v29, v28, 997); CAST(v19, v29); MOVE(v5, v19);
REM(v21, v4, 997); CAST(v20, v21); MOVE(v5, v20); GLOBALA(v30, 7, 2); REM(v22, v0, 997);
CAST(v31, v22); STORE(v30, v31); LT(v26, v3, 22); IF(v26, 3); GLOBALA(v32, 6, 1); LOAD(v18, v32);
DEC(v17, v18); ADD(v1, v1, v17); REM(v1, v1, 65521); CALL(v2, 0, 0, v2); REM(v0, v0, 65521);
REM(v1, v1, 997); REM(v2, v2, 97); REM(v5, v5, 65521); LABEL(5); GLOBALA(v33, 6, 1);
REM(v26, v0, 997); CAST(v19, v26); STORE(v33, v19); JUMP(4); LABEL(3); LT(v17, v2, 22);
IF(v17, 6); CALLOC(v34, 5); STEP(v35, v34, 0); LOAD(v36, v35); CAST(v22, v36); REM(v26, v22, 997);
CAST(v20, v26); MOVE(v2, v20); REM(v17, v1, 997); CAST(v37, v17); STORE(v35, v37); LABEL(8);
CHECKPOINT(); SAVED(1, 10); FREE(v34); MOVE(v34, 0); LABEL(9); CHECKPOINT(); SAVED(2, 10);
GLOBALA(v16, 8, 0); REM(v38, v3, 997); CAST(v18, v38); STORE(v16, v18); JUMP(7); LABEL(6);
GLOBALA(v32, 7, 1); GLOBALA(v39, 1, 0); STORE(v39, v32); LABEL(7); GLOBALA(v33, 7, 1);
STEP(v16, v33, 1); GLOBALA(v40, 4, 0); STORE(v40, v16); LABEL(4); GLOBALA(v32, 6, 1);
STEP(v33, v32, 1); GLOBALA(v15, 4, 0); STORE(v15, v33); GLOBALA(v16, 6, 1); MOVE(v8, v16);
CALLOC(v41, 2); STEP(v42, v41, 0); LOAD(v43, v42); CAST(v22, v43); REM(v26, v22, 997);
CAST(v19, v26); MOVE(v5, v19); REM(v28, v4, 997); CAST(v44, v28); STORE(v42, v44); DEC(v17, v0);
DEC(v22, v1); RETURN(42); LABEL(10);
PUSH(v0, v1, v2, v3, v4, v5, v6, v7, v8, v9, v10, v11, v12, v13, v14, v15, v16, v17, v18, v19, v20, v21, v22, v23, v24, v25, v26, v27, v28, v29, v30, v31, v32, v33, v34, v35, v36, v37, v38, v39, v40, v41, v42, v43, v44);
END();",
        plain: Some((109, FlatRule::Modes)),
        end: End::Done(42),
        turns: 3,
        output: "0920100856-2113-65",
    },
    // 266 lines
    Program {
        start: Start::Nothing,
        rest: "POINTER(8, 11); ARRAY(9, 5, 2); ARRAY(10, 3, 4); STRUCT(11, 6, 4, 8); POINTER(12, 6);
STRUCT(13, 6); POINTER(14, 4); ARRAY(15, 2, 5); POINTER(16, 2); ARRAY(17, 0, 5); POINTER(18, 3);
POINTER(19, 8); POINTER(20, 0); POINTER(21, 14); POINTER(22, 9); POINTER(23, 5); GLOBAL(0, 8);
GLOBAL(1, 14); GLOBAL(2, 14); GLOBAL(3, 14); GLOBAL(4, 12); GLOBAL(5, 8); GLOBAL(6, 9);
GLOBAL(7, 4); GLOBAL(8, 15); INIT(8, 2, 21861); INIT(8, 4, -5528); GLOBAL(9, 16); GLOBAL(10, 17);
INIT(10, 0, 111); INIT(10, 1, 117); INIT(10, 2, 99); INIT(10, 3, 117); FUNCTION(0, f0, 4, 1);
VAR(0, 4); VAR(1, 4); VAR(2, 4); VAR(3, 6); VAR(4, 5); VAR(5, 7); VAR(6, 6); VAR(7, 4);
VAR(8, 14); VAR(9, 10); VAR(10, 18); VAR(11, 18); VAR(12, 18); VAR(13, 12); VAR(14, 8);
VAR(15, 4); VAR(16, 6); VAR(17, 19); VAR(18, 8); VAR(19, 8); VAR(20, 19); VAR(21, 12); VAR(22, 4);
VAR(23, 6); VAR(24, 12); VAR(25, 19); VAR(26, 4); BEGIN();
RESTORE(v0, v1, v2, v3, v4, v5, v6, v7, v8, v9, v10, v11, v12, v13, v14, v15, v16, v17, v18, v19, v20, v21, v22, v23, v24, v25, v26);
TABLE(1, 0); MOVE(v1, 2); MOVE(v2, 88); MOVE(v3, -20); MOVE(v4, 41); MOVE(v5, 85); MOVE(v6, 45);
LOCAL(v8, v7, 0); STORE(v8, 2147483647); LOCAL(v10, v9, 0); STORE(v10, 65535); LOCAL(v11, v9, 1);
STORE(v11, 1); LOCAL(v12, v9, 2); STORE(v12, 1); LOCAL(v10, v9, 3); STORE(v10, 0); MOVE(v13, 0);
MOVE(v14, 0); REM(v15, v2, 997); CAST(v16, v15); MOVE(v6, v16); GLOBALA(v17, 0, 0);
LOAD(v18, v17); ALLOC(v14, 3); STEP(v19, v14, 1); MEMBER(v20, v14, 2); STORE(v20, 0);
MEMBER(v21, v14, 0); STORE(v21, 5); REM(v22, v1, 997); CAST(v23, v22); MEMBER(v24, v19, 0);
STORE(v24, v23); MEMBER(v25, v14, 2); STORE(v25, v18); STORE(v17, v14); SUB(v6, v6, v6);
REM(v6, v6, 997); HEX(v26, v4); ADD(v2, v2, v26); REM(v2, v2, 7); SHR(v2, v1, 0);
REM(v2, v2, 997); LABEL(0); CHECKPOINT(); SAVED(1, 1); NOT(v4, v4); REM(v4, v4, 97); RETURN(v1);
LABEL(1);
PUSH(v0, v1, v2, v3, v4, v5, v6, v7, v8, v9, v10, v11, v12, v13, v14, v15, v16, v17, v18, v19, v20, v21, v22, v23, v24, v25, v26);
END(); FUNCTION(1, main, 4, 0); VAR(0, 4); VAR(1, 4); VAR(2, 6); VAR(3, 5); VAR(4, 7); VAR(5, 4);
VAR(6, 0); VAR(7, 20); VAR(8, 14); VAR(9, 8); VAR(10, 19); VAR(11, 8); VAR(12, 8); VAR(13, 19);
VAR(14, 12); VAR(15, 6); VAR(16, 6); VAR(17, 12); VAR(18, 19); VAR(19, 14); VAR(20, 14);
VAR(21, 21); VAR(22, 4); VAR(23, 4); VAR(24, 4); VAR(25, 5); VAR(26, 4); VAR(27, 16); VAR(28, 16);
VAR(29, 2); VAR(30, 2); VAR(31, 8); VAR(32, 20); VAR(33, 0); VAR(34, 22); VAR(35, 23); BEGIN();
RESTORE(v0, v1, v2, v3, v4, v5, v6, v7, v8, v9, v10, v11, v12, v13, v14, v15, v16, v17, v18, v19, v20, v21, v22, v23, v24, v25, v26, v27, v28, v29, v30, v31, v32, v33, v34, v35);
TABLE(1, 5); TABLE(2, 6); MOVE(v0, 31); MOVE(v1, 95); MOVE(v2, 84); MOVE(v3, 57); MOVE(v4, 6);
MOVE(v5, -56); LOCAL(v7, v6, 0); STORE(v7, -45); MOVE(v8, 0); MOVE(v9, 0); MOVE(v0, 3);
GLOBALA(v10, 0, 0); LOAD(v11, v10); ALLOC(v9, 2); STEP(v12, v9, 1); MEMBER(v13, v9, 2);
STORE(v13, 0); MEMBER(v14, v9, 0); STORE(v14, 5); REM(v15, v2, 997); CAST(v16, v15);
MEMBER(v17, v12, 0); STORE(v17, v16); MEMBER(v18, v9, 2); STORE(v18, v11); STORE(v10, v9);
GLOBALA(v19, 7, 0); STEP(v20, v19, 1); GLOBALA(v21, 3, 0); STORE(v21, v20); EQ(v22, v8, 0);
IF(v22, 0); LOAD(v23, v8); REM(v24, v23, 997); CAST(v22, v24); MOVE(v5, v22); REM(v25, v3, 997);
CAST(v23, v25); STORE(v8, v23); LABEL(0); SHL(v2, v2, 1); REM(v2, v2, 7); MOVE(v26, 0); JUMP(2);
LABEL(1); TURN(); CALLOC(v27, 4); STEP(v28, v27, 0); LOAD(v29, v28); CAST(v24, v29);
REM(v22, v24, 997); CAST(v23, v22); MOVE(v1, v23); REM(v24, v1, 997); CAST(v30, v24);
STORE(v28, v30); LABEL(5); CHECKPOINT(); SAVED(1, 7); FREE(v27); GLOBALA(v10, 0, 0);
LOAD(v31, v10); EQ(v22, v31, 0); IF(v22, 3); MEMBER(v13, v31, 2); LOAD(v11, v13); STORE(v10, v11);
GLOBALA(v18, 5, 0); STORE(v18, v31); FREE(v31); LABEL(3); ADD(v26, v26, 1); LABEL(2);
LT(v23, v26, 4); IF(v23, 1); CHAR(v24, 59); ADD(v1, v1, v24); REM(v1, v1, 65521); NE(v22, v5, v5);
DEC(v23, v22); LOCAL(v32, v6, 0); LOAD(v33, v32); CAST(v24, v33); REM(v22, v24, 997);
CAST(v23, v22); MOVE(v5, v23); GLOBALA(v10, 0, 0); LOAD(v12, v10); EQ(v24, v12, 0); IF(v24, 4);
MEMBER(v13, v12, 2); LOAD(v31, v13); STORE(v10, v31); GLOBALA(v18, 5, 0); STORE(v18, v12);
FREE(v12); LABEL(4); LABEL(6); CHECKPOINT(); SAVED(2, 7); GLOBALA(v34, 6, 0); MEMBER(v35, v34, 0);
STORE(v35, 0); DEC(v22, v0); DEC(v23, v1); RETURN(1); LABEL(7);
PUSH(v0, v1, v2, v3, v4, v5, v6, v7, v8, v9, v10, v11, v12, v13, v14, v15, v16, v17, v18, v19, v20, v21, v22, v23, v24, v25, v26, v27, v28, v29, v30, v31, v32, v33, v34, v35);
END();",
        plain: Some((36, FlatRule::Modes)),
        end: End::Done(1),
        turns: 5,
        output: ";031",
    },
];
