//! Larger programs: steps in many kinds, loops and calls.
//! The programs are texts without their head lines. A blank or a newline stands between two lines.

use crate::ends::{End, Outcome, Program, Start};

/// The programs, with how their runs end.
pub(crate) static MADE_TWO: [Program; 6] = [
    // a generated program
    Program {
        start: Start::Nothing,
        rest: "POINTER(8, 12); ARRAY(9, 2, 1); ARRAY(10, 5, 2); ARRAY(11, 3, 3); STRUCT(12, 4, 6, 6, 8);
STRUCT(13, 5, 5); POINTER(14, 6); STRUCT(15, 0); STRUCT(16, 3, 7, 14); POINTER(17, 4);
ARRAY(18, 2, 2); POINTER(19, 2); ARRAY(20, 0, 3); POINTER(21, 0); POINTER(22, 17);
POINTER(23, 9); GLOBAL(0, 8); GLOBAL(1, 17); GLOBAL(2, 17); GLOBAL(3, 17); GLOBAL(4, 14);
GLOBAL(5, 8); GLOBAL(6, 6); GLOBAL(7, 9); GLOBAL(8, 18); INIT(8, 0, 32767); GLOBAL(9, 19);
GLOBAL(10, 20); INIT(10, 0, 102); INIT(10, 1, 111); FUNCTION(0, f0, void, 3); VAR(0, 4);
VAR(1, 4); VAR(2, 4); VAR(3, 4); VAR(4, 4); VAR(5, 6); VAR(6, 5); VAR(7, 7); VAR(8, 4);
VAR(9, 15); VAR(10, 21); VAR(11, 2); VAR(12, 19); VAR(13, 21); VAR(14, 8); VAR(15, 22);
VAR(16, 14); VAR(17, 4); VAR(18, 6); BEGIN();
RESTORE(v0, v1, v2, v3, v4, v5, v6, v7, v8, v9, v10, v11, v12, v13, v14, v15, v16, v17, v18);
TABLE(1, 0); MOVE(v3, -18); MOVE(v4, -96); MOVE(v5, -45); MOVE(v6, 52); MOVE(v7, 63);
MOVE(v8, -18); REM(v1, v1, 997); REM(v2, v2, 997); LOCAL(v10, v9, 0); STORE(v10, 1);
LOCAL(v12, v11, 0); STORE(v12, 1); MOVE(v13, 0); MOVE(v14, 0); GLOBALA(v16, 6, 0);
REM(v17, v8, 997); CAST(v18, v17); STORE(v16, v18); LABEL(0); CHECKPOINT(); SAVED(1, 1);
LABEL(1);
PUSH(v0, v1, v2, v3, v4, v5, v6, v7, v8, v9, v10, v11, v12, v13, v14, v15, v16, v17, v18);
END(); FUNCTION(1, main, 4, 0); VAR(0, 4); VAR(1, 4); VAR(2, 6); VAR(3, 5); VAR(4, 7);
VAR(5, 6); VAR(6, 0); VAR(7, 21); VAR(8, 4); VAR(9, 17); VAR(10, 21); VAR(11, 8); VAR(12, 4);
VAR(13, 22); VAR(14, 17); VAR(15, 4); VAR(16, 4); VAR(17, 7); VAR(18, 0); VAR(19, 6);
VAR(20, 0); VAR(21, 7); VAR(22, 7); VAR(23, 23); VAR(24, 23); VAR(25, 19); VAR(26, 2);
VAR(27, 4); VAR(28, 5); VAR(29, 5); BEGIN();
RESTORE(v0, v1, v2, v3, v4, v5, v6, v7, v8, v9, v10, v11, v12, v13, v14, v15, v16, v17, v18, v19, v20, v21, v22, v23, v24, v25, v26, v27, v28, v29);
TABLE(1, 7); TABLE(2, 8); TABLE(3, 9); MOVE(v0, -19); MOVE(v1, -92); MOVE(v2, 37); MOVE(v3, 58);
MOVE(v4, 12); MOVE(v5, 2); LOCAL(v7, v6, 0); STORE(v7, -128); LOCAL(v9, v8, 0); STORE(v9, 1);
MOVE(v10, 0); MOVE(v11, 0); MOVE(v0, 3); LT(v12, v3, 34); IF(v12, 0); GLOBALA(v13, 1, 0);
LOAD(v14, v13); EQ(v15, v14, 0); IF(v15, 2); LOAD(v16, v14); REM(v12, v16, 997);
AND(v12, v12, 1023); CAST(v17, v12); MOVE(v4, v17); REM(v15, v1, 997); CAST(v16, v15);
STORE(v14, v16); LABEL(2); EQ(v12, v10, 0); IF(v12, 3); LOAD(v18, v10); CAST(v15, v18);
REM(v16, v15, 997); CAST(v12, v16); MOVE(v1, v12); REM(v19, v5, 997); CAST(v20, v19);
STORE(v10, v20); LABEL(3); JUMP(1); LABEL(0); REM(v21, v4, 997); CAST(v22, v21); MOVE(v4, v22);
LABEL(1); GLOBALA(v23, 7, 0); MEMBER(v24, v23, 0); MEMBER(v25, v24, 0); REM(v17, v4, 997);
CAST(v26, v17); STORE(v25, v26); LABEL(7); CHECKPOINT(); SAVED(1, 10); MOVE(v27, 0); JUMP(5);
LABEL(4); TURN(); LABEL(8); CALL(_, 0, 0, v0, v1); SAVED(2, 10); REM(v0, v0, 997);
REM(v1, v1, 65521); REM(v2, v2, 997); REM(v5, v5, 7); LABEL(6); REM(v28, v3, 997);
CAST(v29, v28); MOVE(v3, v29); ADD(v27, v27, 1); LABEL(5); LT(v16, v27, 3); IF(v16, 4);
LE(v12, v2, v5); DEC(v15, v12); LABEL(9); CHECKPOINT(); SAVED(3, 10); DEC(v16, v0);
DEC(v12, v1); RETURN(42); LABEL(10);
PUSH(v0, v1, v2, v3, v4, v5, v6, v7, v8, v9, v10, v11, v12, v13, v14, v15, v16, v17, v18, v19, v20, v21, v22, v23, v24, v25, v26, v27, v28, v29);
END();",
        le64: Outcome {
            end: End::Done(42),
            turns: 7,
            output: "03-92",
        },
        be32: Outcome {
            end: End::Done(42),
            turns: 7,
            output: "03-92",
        },
        be32p: Outcome {
            end: End::Done(42),
            turns: 7,
            output: "03-92",
        },
    },
    // a generated program
    Program {
        start: Start::Nothing,
        rest: "POINTER(8, 10); ARRAY(9, 3, 3); STRUCT(10, 6, 4, 1, 8, 0); POINTER(11, 4); STRUCT(12, 5, 7, 9);
STRUCT(13, 0, 0); STRUCT(14, 9, 3, 0, 1); POINTER(15, 6); ARRAY(16, 2, 4); POINTER(17, 2);
ARRAY(18, 0, 6); POINTER(19, 0); POINTER(20, 8); POINTER(21, 11); POINTER(22, 9);
POINTER(23, 3); POINTER(24, 14); GLOBAL(0, 8); GLOBAL(1, 15); GLOBAL(2, 11); GLOBAL(3, 11);
GLOBAL(4, 15); GLOBAL(5, 8); GLOBAL(6, 14); INIT(6, 3, 1); GLOBAL(7, 14); INIT(7, 0, 65535);
INIT(7, 2, 70); INIT(7, 5, 1); GLOBAL(8, 16); INIT(8, 0, 1); GLOBAL(9, 17); GLOBAL(10, 18);
INIT(10, 0, 112); INIT(10, 1, 122); INIT(10, 2, 116); INIT(10, 3, 116); INIT(10, 4, 107);
FUNCTION(0, f0, void, 3); VAR(0, 4); VAR(1, 0); VAR(2, 11); VAR(3, 4); VAR(4, 4); VAR(5, 6);
VAR(6, 5); VAR(7, 7); VAR(8, 4); VAR(9, 4); VAR(10, 11); VAR(11, 0); VAR(12, 19); VAR(13, 19);
VAR(14, 8); VAR(15, 20); VAR(16, 8); VAR(17, 6); VAR(18, 6); VAR(19, 15); VAR(20, 20);
VAR(21, 19); VAR(22, 19); VAR(23, 11); VAR(24, 21); BEGIN(); MOVE(v3, 22); MOVE(v4, -5);
MOVE(v5, 52); MOVE(v6, 5); MOVE(v7, 21); MOVE(v8, 56); LOCAL(v10, v9, 0); STORE(v10, 10);
LOCAL(v12, v11, 0); STORE(v12, 127); MOVE(v13, 0); MOVE(v14, 0); GLOBALA(v15, 0, 0);
LOAD(v16, v15); CALLOC(v14, 1); REM(v17, v5, 997); CAST(v18, v17); MEMBER(v19, v14, 0);
STORE(v19, v18); MEMBER(v20, v14, 3); STORE(v20, v16); STORE(v15, v14); GLOBALA(v21, 7, 4);
MOVE(v13, v21); LOCAL(v22, v11, 0); MOVE(v13, v22); XOR(v8, v8, v4); REM(v8, v8, 7);
LOCAL(v12, v11, 0); STORE(v12, 127); LOCAL(v23, v4, 0); GLOBALA(v24, 3, 0); STORE(v24, v23);
RETURN(); END(); FUNCTION(1, main, 4, 0); VAR(0, 4); VAR(1, 4); VAR(2, 6); VAR(3, 5); VAR(4, 7);
VAR(5, 6); VAR(6, 2); VAR(7, 17); VAR(8, 19); VAR(9, 8); VAR(10, 20); VAR(11, 8); VAR(12, 8);
VAR(13, 4); VAR(14, 4); VAR(15, 6); VAR(16, 15); VAR(17, 20); VAR(18, 17); VAR(19, 22);
VAR(20, 17); VAR(21, 23); VAR(22, 6); VAR(23, 4); VAR(24, 4); VAR(25, 24); VAR(26, 24);
VAR(27, 11); VAR(28, 21); BEGIN();
RESTORE(v0, v1, v2, v3, v4, v5, v6, v7, v8, v9, v10, v11, v12, v13, v14, v15, v16, v17, v18, v19, v20, v21, v22, v23, v24, v25, v26, v27, v28);
TABLE(1, 2); TABLE(2, 3); TABLE(3, 4); MOVE(v0, -83); MOVE(v1, -15); MOVE(v2, 12); MOVE(v3, 94);
MOVE(v4, 90); MOVE(v5, -6); LOCAL(v7, v6, 0); STORE(v7, -32768); MOVE(v8, 0); MOVE(v9, 0);
MOVE(v0, 3); GLOBALA(v10, 0, 0); LOAD(v11, v10); MOVE(v12, v11); MOVE(v13, 0); LABEL(0); TURN();
EQ(v14, v12, 0); IF(v14, 1); LT(v14, 6, v13); IF(v14, 1); ADD(v13, v13, 1); MEMBER(v16, v12, 0);
LOAD(v15, v16); ADD(v5, v5, v15); REM(v5, v5, 65521); LABEL(2); CHECKPOINT(); SAVED(1, 5);
MEMBER(v17, v12, 3); LOAD(v12, v17); JUMP(0); LABEL(1); MOVE(v12, 0); LOCAL(v18, v6, 0);
GLOBALA(v19, 7, 0); LOCAL(v20, v6, 0); LOCAL(v7, v6, 0); GLOBALA(v21, 6, 3); LABEL(3);
CHECKPOINT(); SAVED(2, 5); GLOBALA(v18, 8, 1); GLOBALA(v20, 8, 3); DIFF(v22, v18, v20);
DEC(v23, v22); LT(v23, v18, v20); DEC(v24, v23); GLOBALA(v25, 7, 0); GLOBALA(v26, 6, 0);
COPY(v25, v26); LABEL(4); CHECKPOINT(); SAVED(3, 5); DEC(v14, v0); DEC(v23, v1);
LOCAL(v27, v1, 0); GLOBALA(v28, 3, 0); STORE(v28, v27); RETURN(1); LABEL(5);
PUSH(v0, v1, v2, v3, v4, v5, v6, v7, v8, v9, v10, v11, v12, v13, v14, v15, v16, v17, v18, v19, v20, v21, v22, v23, v24, v25, v26, v27, v28);
END();",
        le64: Outcome {
            end: End::Done(1),
            turns: 2,
            output: "-213-15",
        },
        be32: Outcome {
            end: End::Done(1),
            turns: 2,
            output: "-213-15",
        },
        be32p: Outcome {
            end: End::Done(1),
            turns: 2,
            output: "-213-15",
        },
    },
    // a generated program with steps that may meet an act
    Program {
        start: Start::Nothing,
        rest: "POINTER(8, 10); ARRAY(9, 7, 1); STRUCT(10, 1, 6, 8, 0); STRUCT(11, 9, 3, 4, 4);
STRUCT(12, 1, 6, 0); POINTER(13, 6); POINTER(14, 4); ARRAY(15, 2, 4); POINTER(16, 2);
ARRAY(17, 0, 2); POINTER(18, 0); POINTER(19, 16); POINTER(20, 8); POINTER(21, 14);
POINTER(22, 7); POINTER(23, 9); POINTER(24, 13); GLOBAL(0, 8); GLOBAL(1, 13); GLOBAL(2, 14);
GLOBAL(3, 14); GLOBAL(4, 13); GLOBAL(5, 8); GLOBAL(6, 12); INIT(6, 1, 920100856); INIT(6, 2, 1);
GLOBAL(7, 12); INIT(7, 1, 1); GLOBAL(8, 6); INIT(8, 0, 1); GLOBAL(9, 15); INIT(9, 0, 32767);
INIT(9, 1, 32767); INIT(9, 2, 3); INIT(9, 3, 86); GLOBAL(10, 16); GLOBAL(11, 17);
INIT(11, 0, 104); FUNCTION(0, f0, 6, 2); VAR(0, 4); VAR(1, 6); VAR(2, 4); VAR(3, 4); VAR(4, 6);
VAR(5, 5); VAR(6, 7); VAR(7, 4); VAR(8, 18); VAR(9, 8); VAR(10, 16); VAR(11, 16); VAR(12, 6);
VAR(13, 4); VAR(14, 4); VAR(15, 19); VAR(16, 16); VAR(17, 4); VAR(18, 20); VAR(19, 8);
VAR(20, 8); VAR(21, 20); VAR(22, 18); VAR(23, 14); VAR(24, 21); BEGIN(); MOVE(v2, 56);
MOVE(v3, 25); MOVE(v4, -87); MOVE(v5, 83); MOVE(v6, 22); MOVE(v7, 52); REM(v1, v1, 997);
MOVE(v8, 0); MOVE(v9, 0); GLOBALA(v10, 9, 0); GLOBALA(v11, 9, 2); DIFF(v12, v10, v11);
DEC(v13, v12); LT(v13, v10, v11); DEC(v14, v13); GLOBALA(v15, 10, 0); LOAD(v10, v15);
GLOBALA(v16, 9, 0); STEP(v16, v16, 4); EQ(v17, v16, v10); DEC(v13, v17); STORE(v15, v16);
GLOBALA(v18, 0, 0); LOAD(v19, v18); EQ(v14, v19, 0); IF(v14, 0); MEMBER(v21, v19, 2);
LOAD(v20, v21); STORE(v18, v20); FREE(v19); LABEL(0); REM(v17, v2, 997); CAST(v13, v17);
MOVE(v3, v13); GLOBALA(v22, 7, 2); MOVE(v8, v22); LOCAL(v23, v3, 0); GLOBALA(v24, 3, 0);
STORE(v24, v23); RETURN(v4); END(); FUNCTION(1, main, 4, 0); VAR(0, 4); VAR(1, 4); VAR(2, 6);
VAR(3, 5); VAR(4, 7); VAR(5, 6); VAR(6, 9); VAR(7, 22); VAR(8, 13); VAR(9, 8); VAR(10, 4);
VAR(11, 23); VAR(12, 23); VAR(13, 23); VAR(14, 22); VAR(15, 24); VAR(16, 13); VAR(17, 4);
VAR(18, 6); VAR(19, 6); VAR(20, 6); VAR(21, 7); VAR(22, 4); VAR(23, 19); VAR(24, 16);
VAR(25, 16); VAR(26, 4); VAR(27, 22); VAR(28, 7); VAR(29, 7); VAR(30, 18); VAR(31, 0);
VAR(32, 13); VAR(33, 13); VAR(34, 18); VAR(35, 18); VAR(36, 0); VAR(37, 0); VAR(38, 5);
VAR(39, 24); VAR(40, 24); VAR(41, 16); VAR(42, 16); VAR(43, 2); VAR(44, 2); BEGIN();
RESTORE(v0, v1, v2, v3, v4, v5, v6, v7, v8, v9, v10, v11, v12, v13, v14, v15, v16, v17, v18, v19, v20, v21, v22, v23, v24, v25, v26, v27, v28, v29, v30, v31, v32, v33, v34, v35, v36, v37, v38, v39, v40, v41, v42, v43, v44);
TABLE(1, 8); TABLE(2, 9); MOVE(v0, 66); MOVE(v1, -74); MOVE(v2, 68); MOVE(v3, 75); MOVE(v4, 22);
MOVE(v5, 5); LOCAL(v7, v6, 0); STORE(v7, 4294967295); MOVE(v8, 0); MOVE(v9, 0); MOVE(v0, 3);
MOVE(v10, 0); JUMP(1); LABEL(0); TURN(); LOCAL(v11, v6, 0); MEMBER(v12, v11, 0);
MEMBER(v13, v12, 0); MEMBER(v11, v13, 0); MEMBER(v14, v11, 0); STORE(v14, 73);
GLOBALA(v15, 1, 0); LOAD(v16, v15); EQ(v17, v16, 0); IF(v17, 2); LOAD(v18, v16);
REM(v19, v18, 997); CAST(v20, v19); MOVE(v2, v20); REM(v21, v4, 997); CAST(v18, v21);
STORE(v16, v18); LABEL(2); ADD(v10, v10, 1); LABEL(1); LT(v22, v10, 1); IF(v22, 0);
GLOBALA(v23, 10, 0); LOAD(v25, v23); GLOBALA(v24, 9, 0); STEP(v24, v24, 4); EQ(v26, v24, v25);
DEC(v17, v26); STORE(v23, v24); LOCAL(v12, v6, 0); MEMBER(v27, v12, 0); LOAD(v28, v27);
REM(v29, v28, 997); CAST(v19, v29); MOVE(v5, v19); REM(v21, v4, 997); CAST(v20, v21);
MOVE(v5, v20); GLOBALA(v30, 7, 2); REM(v22, v0, 997); CAST(v31, v22); STORE(v30, v31);
LT(v26, v3, 22); IF(v26, 3); GLOBALA(v32, 6, 1); LOAD(v18, v32); DEC(v17, v18);
ADD(v1, v1, v17); REM(v1, v1, 65521); CALL(v2, 0, 0, v2); REM(v0, v0, 65521); REM(v1, v1, 997);
REM(v2, v2, 97); REM(v5, v5, 65521); LABEL(5); GLOBALA(v33, 6, 1); REM(v26, v0, 997);
CAST(v19, v26); STORE(v33, v19); JUMP(4); LABEL(3); LT(v17, v2, 22); IF(v17, 6); CALLOC(v34, 5);
STEP(v35, v34, 0); LOAD(v36, v35); CAST(v22, v36); REM(v26, v22, 997); CAST(v20, v26);
MOVE(v2, v20); REM(v17, v1, 997); CAST(v37, v17); STORE(v35, v37); LABEL(8); CHECKPOINT();
SAVED(1, 10); FREE(v34); MOVE(v34, 0); LABEL(9); CHECKPOINT(); SAVED(2, 10); GLOBALA(v16, 8, 0);
REM(v38, v3, 997); CAST(v18, v38); STORE(v16, v18); JUMP(7); LABEL(6); GLOBALA(v32, 7, 1);
GLOBALA(v39, 1, 0); STORE(v39, v32); LABEL(7); GLOBALA(v33, 7, 1); STEP(v16, v33, 1);
GLOBALA(v40, 4, 0); STORE(v40, v16); LABEL(4); GLOBALA(v32, 6, 1); STEP(v33, v32, 1);
GLOBALA(v15, 4, 0); STORE(v15, v33); GLOBALA(v16, 6, 1); MOVE(v8, v16); CALLOC(v41, 2);
STEP(v42, v41, 0); LOAD(v43, v42); CAST(v22, v43); REM(v26, v22, 997); CAST(v19, v26);
MOVE(v5, v19); REM(v28, v4, 997); CAST(v44, v28); STORE(v42, v44); DEC(v17, v0); DEC(v22, v1);
RETURN(42); LABEL(10);
PUSH(v0, v1, v2, v3, v4, v5, v6, v7, v8, v9, v10, v11, v12, v13, v14, v15, v16, v17, v18, v19, v20, v21, v22, v23, v24, v25, v26, v27, v28, v29, v30, v31, v32, v33, v34, v35, v36, v37, v38, v39, v40, v41, v42, v43, v44);
END();",
        le64: Outcome {
            end: End::Done(42),
            turns: 3,
            output: "0920100856-2113-65",
        },
        be32: Outcome {
            end: End::Done(42),
            turns: 3,
            output: "0920100856-2113-65",
        },
        be32p: Outcome {
            end: End::Done(42),
            turns: 3,
            output: "0920100856-2113-65",
        },
    },
    // a generated program
    Program {
        start: Start::Nothing,
        rest: "POINTER(8, 11); ARRAY(9, 5, 2); ARRAY(10, 3, 4); STRUCT(11, 6, 4, 8); POINTER(12, 6);
STRUCT(13, 6); POINTER(14, 4); ARRAY(15, 2, 5); POINTER(16, 2); ARRAY(17, 0, 5); POINTER(18, 3);
POINTER(19, 8); POINTER(20, 0); POINTER(21, 14); POINTER(22, 9); POINTER(23, 5); GLOBAL(0, 8);
GLOBAL(1, 14); GLOBAL(2, 14); GLOBAL(3, 14); GLOBAL(4, 12); GLOBAL(5, 8); GLOBAL(6, 9);
GLOBAL(7, 4); GLOBAL(8, 15); INIT(8, 2, 21861); INIT(8, 4, -5528); GLOBAL(9, 16);
GLOBAL(10, 17); INIT(10, 0, 111); INIT(10, 1, 117); INIT(10, 2, 99); INIT(10, 3, 117);
FUNCTION(0, f0, 4, 1); VAR(0, 4); VAR(1, 4); VAR(2, 4); VAR(3, 6); VAR(4, 5); VAR(5, 7);
VAR(6, 6); VAR(7, 4); VAR(8, 14); VAR(9, 10); VAR(10, 18); VAR(11, 18); VAR(12, 18);
VAR(13, 12); VAR(14, 8); VAR(15, 4); VAR(16, 6); VAR(17, 19); VAR(18, 8); VAR(19, 8);
VAR(20, 19); VAR(21, 12); VAR(22, 4); VAR(23, 6); VAR(24, 12); VAR(25, 19); VAR(26, 4); BEGIN();
RESTORE(v0, v1, v2, v3, v4, v5, v6, v7, v8, v9, v10, v11, v12, v13, v14, v15, v16, v17, v18, v19, v20, v21, v22, v23, v24, v25, v26);
TABLE(1, 0); MOVE(v1, 2); MOVE(v2, 88); MOVE(v3, -20); MOVE(v4, 41); MOVE(v5, 85); MOVE(v6, 45);
LOCAL(v8, v7, 0); STORE(v8, 2147483647); LOCAL(v10, v9, 0); STORE(v10, 65535);
LOCAL(v11, v9, 1); STORE(v11, 1); LOCAL(v12, v9, 2); STORE(v12, 1); LOCAL(v10, v9, 3);
STORE(v10, 0); MOVE(v13, 0); MOVE(v14, 0); REM(v15, v2, 997); CAST(v16, v15); MOVE(v6, v16);
GLOBALA(v17, 0, 0); LOAD(v18, v17); ALLOC(v14, 3); STEP(v19, v14, 1); MEMBER(v20, v14, 2);
STORE(v20, 0); MEMBER(v21, v14, 0); STORE(v21, 5); REM(v22, v1, 997); CAST(v23, v22);
MEMBER(v24, v19, 0); STORE(v24, v23); MEMBER(v25, v14, 2); STORE(v25, v18); STORE(v17, v14);
SUB(v6, v6, v6); REM(v6, v6, 997); HEX(v26, v4); ADD(v2, v2, v26); REM(v2, v2, 7);
SHR(v2, v1, 0); REM(v2, v2, 997); LABEL(0); CHECKPOINT(); SAVED(1, 1); NOT(v4, v4);
REM(v4, v4, 97); RETURN(v1); LABEL(1);
PUSH(v0, v1, v2, v3, v4, v5, v6, v7, v8, v9, v10, v11, v12, v13, v14, v15, v16, v17, v18, v19, v20, v21, v22, v23, v24, v25, v26);
END(); FUNCTION(1, main, 4, 0); VAR(0, 4); VAR(1, 4); VAR(2, 6); VAR(3, 5); VAR(4, 7);
VAR(5, 4); VAR(6, 0); VAR(7, 20); VAR(8, 14); VAR(9, 8); VAR(10, 19); VAR(11, 8); VAR(12, 8);
VAR(13, 19); VAR(14, 12); VAR(15, 6); VAR(16, 6); VAR(17, 12); VAR(18, 19); VAR(19, 14);
VAR(20, 14); VAR(21, 21); VAR(22, 4); VAR(23, 4); VAR(24, 4); VAR(25, 5); VAR(26, 4);
VAR(27, 16); VAR(28, 16); VAR(29, 2); VAR(30, 2); VAR(31, 8); VAR(32, 20); VAR(33, 0);
VAR(34, 22); VAR(35, 23); BEGIN();
RESTORE(v0, v1, v2, v3, v4, v5, v6, v7, v8, v9, v10, v11, v12, v13, v14, v15, v16, v17, v18, v19, v20, v21, v22, v23, v24, v25, v26, v27, v28, v29, v30, v31, v32, v33, v34, v35);
TABLE(1, 5); TABLE(2, 6); MOVE(v0, 31); MOVE(v1, 95); MOVE(v2, 84); MOVE(v3, 57); MOVE(v4, 6);
MOVE(v5, -56); LOCAL(v7, v6, 0); STORE(v7, -45); MOVE(v8, 0); MOVE(v9, 0); MOVE(v0, 3);
GLOBALA(v10, 0, 0); LOAD(v11, v10); ALLOC(v9, 2); STEP(v12, v9, 1); MEMBER(v13, v9, 2);
STORE(v13, 0); MEMBER(v14, v9, 0); STORE(v14, 5); REM(v15, v2, 997); CAST(v16, v15);
MEMBER(v17, v12, 0); STORE(v17, v16); MEMBER(v18, v9, 2); STORE(v18, v11); STORE(v10, v9);
GLOBALA(v19, 7, 0); STEP(v20, v19, 1); GLOBALA(v21, 3, 0); STORE(v21, v20); EQ(v22, v8, 0);
IF(v22, 0); LOAD(v23, v8); REM(v24, v23, 997); CAST(v22, v24); MOVE(v5, v22); REM(v25, v3, 997);
CAST(v23, v25); STORE(v8, v23); LABEL(0); SHL(v2, v2, 1); REM(v2, v2, 7); MOVE(v26, 0); JUMP(2);
LABEL(1); TURN(); CALLOC(v27, 4); STEP(v28, v27, 0); LOAD(v29, v28); CAST(v24, v29);
REM(v22, v24, 997); CAST(v23, v22); MOVE(v1, v23); REM(v24, v1, 997); CAST(v30, v24);
STORE(v28, v30); LABEL(5); CHECKPOINT(); SAVED(1, 7); FREE(v27); GLOBALA(v10, 0, 0);
LOAD(v31, v10); EQ(v22, v31, 0); IF(v22, 3); MEMBER(v13, v31, 2); LOAD(v11, v13);
STORE(v10, v11); GLOBALA(v18, 5, 0); STORE(v18, v31); FREE(v31); LABEL(3); ADD(v26, v26, 1);
LABEL(2); LT(v23, v26, 4); IF(v23, 1); CHAR(v24, 59); ADD(v1, v1, v24); REM(v1, v1, 65521);
NE(v22, v5, v5); DEC(v23, v22); LOCAL(v32, v6, 0); LOAD(v33, v32); CAST(v24, v33);
REM(v22, v24, 997); CAST(v23, v22); MOVE(v5, v23); GLOBALA(v10, 0, 0); LOAD(v12, v10);
EQ(v24, v12, 0); IF(v24, 4); MEMBER(v13, v12, 2); LOAD(v31, v13); STORE(v10, v31);
GLOBALA(v18, 5, 0); STORE(v18, v12); FREE(v12); LABEL(4); LABEL(6); CHECKPOINT(); SAVED(2, 7);
GLOBALA(v34, 6, 0); MEMBER(v35, v34, 0); STORE(v35, 0); DEC(v22, v0); DEC(v23, v1); RETURN(1);
LABEL(7);
PUSH(v0, v1, v2, v3, v4, v5, v6, v7, v8, v9, v10, v11, v12, v13, v14, v15, v16, v17, v18, v19, v20, v21, v22, v23, v24, v25, v26, v27, v28, v29, v30, v31, v32, v33, v34, v35);
END();",
        le64: Outcome {
            end: End::Done(1),
            turns: 5,
            output: ";031",
        },
        be32: Outcome {
            end: End::Done(1),
            turns: 5,
            output: ";031",
        },
        be32p: Outcome {
            end: End::Done(1),
            turns: 5,
            output: ";031",
        },
    },
    // a generated program
    Program {
        start: Start::Nothing,
        rest: "POINTER(8, 11); ARRAY(9, 7, 3); ARRAY(10, 4, 2); STRUCT(11, 6, 10, 2, 4, 8, 0); ARRAY(12, 0, 3);
POINTER(13, 6); ARRAY(14, 9, 3); ARRAY(15, 6, 3); STRUCT(16, 0, 6, 9); POINTER(17, 4);
ARRAY(18, 4, 3); ARRAY(19, 0, 7); POINTER(20, 7); POINTER(21, 0); POINTER(22, 8);
POINTER(23, 17); POINTER(24, 13); GLOBAL(0, 8); GLOBAL(1, 13); GLOBAL(2, 17); GLOBAL(3, 17);
GLOBAL(4, 13); GLOBAL(5, 8); GLOBAL(6, 12); INIT(6, 1, -5); GLOBAL(7, 0); GLOBAL(8, 18);
INIT(8, 1, -10); GLOBAL(9, 17); GLOBAL(10, 19); INIT(10, 0, 105); INIT(10, 1, 103);
INIT(10, 2, 107); INIT(10, 3, 112); INIT(10, 4, 109); INIT(10, 5, 101); FUNCTION(0, f0, 4, 1);
VAR(0, 4); VAR(1, 4); VAR(2, 4); VAR(3, 6); VAR(4, 5); VAR(5, 7); VAR(6, 6); VAR(7, 14);
VAR(8, 20); VAR(9, 20); VAR(10, 20); VAR(11, 21); VAR(12, 8); VAR(13, 4); VAR(14, 4);
VAR(15, 4); VAR(16, 21); VAR(17, 4); VAR(18, 0); VAR(19, 5); VAR(20, 6); VAR(21, 0);
VAR(22, 21); BEGIN(); MOVE(v1, -27); MOVE(v2, 15); MOVE(v3, -18); MOVE(v4, 60); MOVE(v5, 12);
MOVE(v6, 43); LOCAL(v8, v7, 0); STORE(v8, 0); LOCAL(v9, v7, 1); STORE(v9, 4294967295);
LOCAL(v10, v7, 2); STORE(v10, 69); LOCAL(v8, v7, 3); STORE(v8, 495482029); LOCAL(v9, v7, 4);
STORE(v9, 4294967295); LOCAL(v10, v7, 5); STORE(v10, 1); LOCAL(v8, v7, 6);
STORE(v8, 2874213859); LOCAL(v9, v7, 7); STORE(v9, 0); LOCAL(v10, v7, 8);
STORE(v10, 4294967295); MOVE(v11, 0); MOVE(v12, 0); REM(v13, v1, 1000); REM(v14, v1, 1000);
MUL(v2, v13, v14); REM(v2, v2, 997); MOVE(v15, 0); JUMP(1); LABEL(0); TURN();
GLOBALA(v16, 6, 0); MOVE(v11, v16); EQ(v17, v11, 0); IF(v17, 2); LOAD(v18, v11); CAST(v13, v18);
REM(v14, v13, 997); AND(v14, v14, 1023); CAST(v19, v14); MOVE(v4, v19); REM(v20, v6, 997);
CAST(v21, v20); STORE(v11, v21); LABEL(2); ADD(v15, v15, 1); LABEL(1); LT(v17, v15, 4);
IF(v17, 0); GLOBALA(v22, 6, 1); MOVE(v11, v22); RETURN(v1); END(); FUNCTION(1, f1, 4, 2);
VAR(0, 4); VAR(1, 17); VAR(2, 4); VAR(3, 4); VAR(4, 6); VAR(5, 5); VAR(6, 7); VAR(7, 6);
VAR(8, 4); VAR(9, 17); VAR(10, 21); VAR(11, 8); VAR(12, 4); VAR(13, 21); VAR(14, 17);
VAR(15, 17); VAR(16, 6); VAR(17, 4); VAR(18, 4); VAR(19, 21); VAR(20, 22); VAR(21, 8);
VAR(22, 8); VAR(23, 22); VAR(24, 22); VAR(25, 8); VAR(26, 8); VAR(27, 4); VAR(28, 6);
VAR(29, 13); VAR(30, 21); VAR(31, 6); VAR(32, 0); VAR(33, 23); BEGIN();
RESTORE(v0, v1, v2, v3, v4, v5, v6, v7, v8, v9, v10, v11, v12, v13, v14, v15, v16, v17, v18, v19, v20, v21, v22, v23, v24, v25, v26, v27, v28, v29, v30, v31, v32, v33);
TABLE(1, 3); MOVE(v2, 32); MOVE(v3, 33); MOVE(v4, -63); MOVE(v5, 93); MOVE(v6, 40);
MOVE(v7, -75); LOCAL(v9, v8, 0); STORE(v9, 2147483647); MOVE(v10, 0); MOVE(v11, 0);
GLOBALA(v13, 10, 0); TEXT(v12, v13); ADD(v3, v3, v12); REM(v3, v3, 997); LABEL(3); CHECKPOINT();
SAVED(1, 4); GLOBALA(v14, 8, 1); GLOBALA(v15, 8, 0); DIFF(v16, v14, v15); DEC(v17, v16);
EQ(v17, v14, v15); DEC(v18, v17); GLOBALA(v19, 6, 0); MOVE(v10, v19); GLOBALA(v20, 0, 0);
LOAD(v21, v20); EQ(v12, v21, 0); IF(v12, 0); MEMBER(v23, v21, 5); LOAD(v22, v23);
STORE(v20, v22); FREE(v21); LABEL(0); GLOBALA(v24, 0, 0); LOAD(v25, v24); MOVE(v26, v25);
MOVE(v27, 0); LABEL(1); TURN(); EQ(v17, v26, 0); IF(v17, 2); LT(v17, 6, v27); IF(v17, 2);
ADD(v27, v27, 1); MEMBER(v29, v26, 0); LOAD(v28, v29); ADD(v7, v7, v28); REM(v7, v7, 7);
MEMBER(v20, v26, 5); LOAD(v26, v20); JUMP(1); LABEL(2); MOVE(v26, 0); GLOBALA(v30, 6, 2);
REM(v31, v7, 997); CAST(v32, v31); STORE(v30, v32); LOCAL(v9, v3, 0); GLOBALA(v33, 3, 0);
STORE(v33, v9); RETURN(v2); LABEL(4);
PUSH(v0, v1, v2, v3, v4, v5, v6, v7, v8, v9, v10, v11, v12, v13, v14, v15, v16, v17, v18, v19, v20, v21, v22, v23, v24, v25, v26, v27, v28, v29, v30, v31, v32, v33);
END(); FUNCTION(2, main, 4, 0); VAR(0, 4); VAR(1, 4); VAR(2, 6); VAR(3, 5); VAR(4, 7);
VAR(5, 4); VAR(6, 17); VAR(7, 8); VAR(8, 24); VAR(9, 4); VAR(10, 4); VAR(11, 17); VAR(12, 17);
VAR(13, 6); VAR(14, 4); VAR(15, 22); VAR(16, 8); VAR(17, 8); VAR(18, 4); VAR(19, 6);
VAR(20, 13); VAR(21, 22); VAR(22, 17); VAR(23, 23); VAR(24, 23); BEGIN();
RESTORE(v0, v1, v2, v3, v4, v5, v6, v7, v8, v9, v10, v11, v12, v13, v14, v15, v16, v17, v18, v19, v20, v21, v22, v23, v24);
TABLE(1, 2); MOVE(v0, 9); MOVE(v1, -44); MOVE(v2, -7); MOVE(v3, 9); MOVE(v4, 6); MOVE(v5, 22);
MOVE(v6, 0); MOVE(v7, 0); MOVE(v0, 3); ADD(v1, v1, v9); REM(v1, v1, 65521); CHAR(v10, 92);
ADD(v1, v1, v10); REM(v1, v1, 65521); GLOBALA(v11, 8, 2); GLOBALA(v12, 8, 1);
DIFF(v13, v11, v12); DEC(v14, v13); NE(v14, v11, v12); DEC(v9, v14); GLOBALA(v15, 0, 0);
LOAD(v16, v15); MOVE(v17, v16); MOVE(v18, 0); LABEL(0); TURN(); EQ(v10, v17, 0); IF(v10, 1);
LT(v10, 6, v18); IF(v10, 1); ADD(v18, v18, 1); MEMBER(v20, v17, 0); LOAD(v19, v20);
ADD(v2, v2, v19); REM(v2, v2, 997); LABEL(2); CHECKPOINT(); SAVED(1, 3); MEMBER(v21, v17, 5);
LOAD(v17, v21); JUMP(0); LABEL(1); MOVE(v17, 0); GLOBALA(v22, 8, 2); STEP(v11, v22, 1);
GLOBALA(v23, 3, 0); STORE(v23, v11); GLOBALA(v24, 9, 0); LOAD(v22, v24); GLOBALA(v12, 8, 0);
STEP(v12, v12, 3); EQ(v14, v12, v22); DEC(v9, v14); STORE(v24, v12); GLOBALA(v11, 8, 2);
MOVE(v6, v11); DEC(v10, v0); DEC(v14, v1); RETURN(1); LABEL(3);
PUSH(v0, v1, v2, v3, v4, v5, v6, v7, v8, v9, v10, v11, v12, v13, v14, v15, v16, v17, v18, v19, v20, v21, v22, v23, v24);
END();",
        le64: Outcome {
            end: End::Done(1),
            turns: 2,
            output: "\\1103-43",
        },
        be32: Outcome {
            end: End::Done(1),
            turns: 2,
            output: "\\1103-43",
        },
        be32p: Outcome {
            end: End::Done(1),
            turns: 2,
            output: "\\1103-43",
        },
    },
    // a generated program
    Program {
        start: Start::Nothing,
        rest: "POINTER(8, 11); ARRAY(9, 7, 1); ARRAY(10, 1, 3); STRUCT(11, 2, 6, 10, 2, 8, 0);
STRUCT(12, 0, 7); POINTER(13, 6); POINTER(14, 4); ARRAY(15, 6, 5); ARRAY(16, 0, 3);
POINTER(17, 0); POINTER(18, 14); POINTER(19, 13); POINTER(20, 10); POINTER(21, 1);
POINTER(22, 8); POINTER(23, 15); GLOBAL(0, 8); GLOBAL(1, 13); GLOBAL(2, 14); GLOBAL(3, 14);
GLOBAL(4, 13); GLOBAL(5, 8); GLOBAL(6, 10); GLOBAL(7, 0); GLOBAL(8, 4); INIT(8, 0, 13);
GLOBAL(9, 15); INIT(9, 0, 1215272061); INIT(9, 1, 2147483647); INIT(9, 3, 1); GLOBAL(10, 13);
GLOBAL(11, 16); INIT(11, 0, 106); INIT(11, 1, 119); FUNCTION(0, f0, 6, 3); VAR(0, 4);
VAR(1, 14); VAR(2, 6); VAR(3, 4); VAR(4, 4); VAR(5, 6); VAR(6, 5); VAR(7, 7); VAR(8, 6);
VAR(9, 4); VAR(10, 14); VAR(11, 13); VAR(12, 8); VAR(13, 4); VAR(14, 13); VAR(15, 17);
VAR(16, 6); VAR(17, 0); VAR(18, 4); VAR(19, 4); VAR(20, 4); VAR(21, 4); VAR(22, 13);
VAR(23, 17); VAR(24, 14); VAR(25, 14); VAR(26, 5); VAR(27, 18); VAR(28, 13); VAR(29, 19);
VAR(30, 18); BEGIN(); MOVE(v3, 99); MOVE(v4, -81); MOVE(v5, -32); MOVE(v6, 22); MOVE(v7, 62);
MOVE(v8, 79); REM(v2, v2, 997); LOCAL(v10, v9, 0); STORE(v10, 48); MOVE(v11, 0); MOVE(v12, 0);
LT(v13, v2, 19); IF(v13, 0); GLOBALA(v14, 9, 1); MOVE(v11, v14); JUMP(1); LABEL(0);
GLOBALA(v15, 7, 0); REM(v16, v8, 997); CAST(v17, v16); STORE(v15, v17); LABEL(1);
LT(v18, v5, 2); IF(v18, 2); MOVE(v19, 0); JUMP(5); LABEL(4); TURN(); ADD(v19, v19, 1); LABEL(5);
LT(v20, v19, 4); IF(v20, 4); MOVE(v21, 0); JUMP(7); LABEL(6); TURN(); GLOBALA(v22, 9, 3);
GLOBALA(v23, 7, 0); GLOBALA(v24, 8, 0); LOCAL(v25, v9, 0); LOCAL(v10, v9, 0); LE(v13, v0, 0);
IF(v13, 8); SUB(v18, v0, 1); LOCAL(v24, v9, 0); CALL(v8, 0, v18, v24, v5); REM(v3, v3, 997);
REM(v4, v4, 65521); REM(v5, v5, 97); REM(v8, v8, 997); REM(v2, v2, 97); LABEL(8);
ADD(v21, v21, 1); LABEL(7); LT(v20, v21, 4); IF(v20, 6); JUMP(3); LABEL(2); REM(v13, v4, 997);
AND(v13, v13, 1023); CAST(v26, v13); MOVE(v6, v26); LOCAL(v25, v9, 0); STEP(v10, v25, 1);
GLOBALA(v27, 3, 0); STORE(v27, v10); GLOBALA(v28, 9, 1); STEP(v14, v28, 4); GLOBALA(v29, 4, 0);
STORE(v29, v14); LABEL(3); LOCAL(v24, v9, 0); STORE(v24, 67); LOCAL(v25, v4, 0);
GLOBALA(v30, 3, 0); STORE(v30, v25); RETURN(v5); END(); FUNCTION(1, main, 4, 0); VAR(0, 4);
VAR(1, 4); VAR(2, 6); VAR(3, 5); VAR(4, 7); VAR(5, 4); VAR(6, 13); VAR(7, 8); VAR(8, 19);
VAR(9, 13); VAR(10, 13); VAR(11, 4); VAR(12, 4); VAR(13, 20); VAR(14, 13); VAR(15, 21);
VAR(16, 14); VAR(17, 17); VAR(18, 6); VAR(19, 4); VAR(20, 19); VAR(21, 22); VAR(22, 8);
VAR(23, 8); VAR(24, 22); VAR(25, 22); VAR(26, 8); VAR(27, 8); VAR(28, 4); VAR(29, 6);
VAR(30, 5); VAR(31, 6); VAR(32, 4); VAR(33, 4); VAR(34, 23); VAR(35, 19); VAR(36, 4); BEGIN();
RESTORE(v0, v1, v2, v3, v4, v5, v6, v7, v8, v9, v10, v11, v12, v13, v14, v15, v16, v17, v18, v19, v20, v21, v22, v23, v24, v25, v26, v27, v28, v29, v30, v31, v32, v33, v34, v35, v36);
TABLE(1, 10); MOVE(v0, 88); MOVE(v1, 24); MOVE(v2, -36); MOVE(v3, 99); MOVE(v4, 58);
MOVE(v5, 7); MOVE(v6, 0); MOVE(v7, 0); MOVE(v0, 3); GLOBALA(v8, 10, 0); LOAD(v10, v8);
GLOBALA(v9, 9, 0); STEP(v9, v9, 5); EQ(v11, v9, v10); DEC(v12, v11); STORE(v8, v9);
GLOBALA(v13, 6, 0); GLOBALA(v14, 9, 3); GLOBALA(v15, 6, 0); GLOBALA(v16, 8, 0);
GLOBALA(v17, 7, 0); GLOBALA(v9, 9, 1); GLOBALA(v10, 9, 2); DIFF(v18, v9, v10); DEC(v19, v18);
EQ(v19, v9, v10); DEC(v11, v19); GLOBALA(v20, 10, 0); LOAD(v9, v20); GLOBALA(v14, 9, 0);
STEP(v14, v14, 5); EQ(v12, v14, v9); DEC(v19, v12); STORE(v20, v14); LT(v11, v3, 0); IF(v11, 0);
GLOBALA(v21, 0, 0); LOAD(v22, v21); EQ(v12, v22, 0); IF(v12, 2); MEMBER(v24, v22, 6);
LOAD(v23, v24); STORE(v21, v23); FREE(v22); LABEL(2); JUMP(1); LABEL(0); GLOBALA(v25, 0, 0);
LOAD(v26, v25); MOVE(v27, v26); MOVE(v28, 0); LABEL(3); TURN(); EQ(v19, v27, 0); IF(v19, 4);
LT(v19, 6, v28); IF(v19, 4); ADD(v28, v28, 1); MEMBER(v10, v27, 1); LOAD(v29, v10);
ADD(v2, v2, v29); REM(v2, v2, 7); MEMBER(v21, v27, 6); LOAD(v27, v21); JUMP(3); LABEL(4);
MOVE(v27, 0); GLOBALA(v24, 0, 0); LOAD(v22, v24); CALLOC(v7, 3); STEP(v23, v7, 0);
MEMBER(v25, v7, 6); STORE(v25, 0); MEMBER(v14, v7, 1); STORE(v14, 5); REM(v30, v3, 997);
CAST(v31, v30); MEMBER(v9, v23, 1); STORE(v9, v31); MEMBER(v21, v7, 6); STORE(v21, v22);
STORE(v24, v7); LABEL(1); MOVE(v32, 0); JUMP(6); LABEL(5); TURN(); KILL(v33); MOVE(v33, v32);
GLOBALA(v10, 9, 0); GLOBALA(v14, 9, 4); DIFF(v18, v10, v14); DEC(v11, v18); LE(v11, v10, v14);
DEC(v12, v11); GLOBALA(v34, 9, 0); MEMBER(v9, v34, 0); LOAD(v29, v9); REM(v31, v29, 997);
CAST(v19, v31); MOVE(v5, v19); ADD(v32, v32, 1); LABEL(6); LT(v11, v32, 4); IF(v11, 5);
GLOBALA(v24, 0, 0); LOAD(v26, v24); EQ(v12, v26, 0); IF(v12, 7); MEMBER(v25, v26, 6);
LOAD(v22, v25); STORE(v24, v22); GLOBALA(v35, 4, 0); MEMBER(v10, v26, 1); STORE(v35, v10);
FREE(v26); LABEL(7); MOVE(v36, 0); JUMP(9); LABEL(8); TURN(); LABEL(10); CHECKPOINT();
SAVED(1, 11); ADD(v36, v36, 1); LABEL(9); LT(v19, v36, 1); IF(v19, 8); DEC(v11, v0);
DEC(v12, v1); RETURN(1); LABEL(11);
PUSH(v0, v1, v2, v3, v4, v5, v6, v7, v8, v9, v10, v11, v12, v13, v14, v15, v16, v17, v18, v19, v20, v21, v22, v23, v24, v25, v26, v27, v28, v29, v30, v31, v32, v33, v34, v35, v36);
END();",
        le64: Outcome {
            end: End::Done(1),
            turns: 6,
            output: "0-101-41-41-41-41324",
        },
        be32: Outcome {
            end: End::Done(1),
            turns: 6,
            output: "0-101-41-41-41-41324",
        },
        be32p: Outcome {
            end: End::Done(1),
            turns: 6,
            output: "0-101-41-41-41-41324",
        },
    },
];
