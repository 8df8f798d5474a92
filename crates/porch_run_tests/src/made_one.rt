//! Larger programs: lists, calls that call themselves, and steps in many kinds.
//! The programs are texts without their head lines. A blank or a newline stands between two lines.

use crate::ends::{End, Outcome, Program, Start};
use porch_values::Act;

/// The programs, with how their runs end.
pub(crate) static MADE_ONE: [Program; 5] = [
    // the worked program, lowered by hand
    Program {
        start: Start::Nothing,
        rest: "POINTER(8, 11); ARRAY(9, 6, 3); POINTER(10, 6); STRUCT(11, 0, 9, 10, 8); POINTER(12, 0);
POINTER(13, 8); POINTER(14, 10); POINTER(15, 4); POINTER(16, 9); GLOBAL(0, 8); GLOBAL(1, 4);
FUNCTION(0, push, 8, 1); VAR(0, 4); VAR(1, 8); VAR(2, 4); VAR(3, 4); VAR(4, 0); VAR(5, 12);
VAR(6, 16); VAR(7, 10); VAR(8, 6); VAR(9, 14); VAR(10, 10); VAR(11, 6); VAR(12, 4); VAR(13, 13);
VAR(14, 8); VAR(15, 13); VAR(16, 15); BEGIN(); KILL(v1); ALLOC(v1, 1); KILL(v2);
MEMBER(v5, v1, 0); REM(v3, v0, 26); ADD(v3, 97, v3); CAST(v4, v3); STORE(v5, v4); MOVE(v2, 0);
JUMP(1); LABEL(0); TURN(); MEMBER(v6, v1, 1); MEMBER(v7, v6, 0); STEP(v7, v7, v2);
ADD(v3, v2, 1); MUL(v3, v0, v3); REM(v3, v3, 7); CAST(v8, v3); STORE(v7, v8); ADD(v2, v2, 1);
LABEL(1); LT(v12, v2, 3); IF(v12, 0); MEMBER(v9, v1, 4); MEMBER(v6, v1, 1); MEMBER(v7, v6, 0);
STORE(v9, v7); MOVE(v2, 1); JUMP(3); LABEL(2); TURN(); MEMBER(v6, v1, 1); MEMBER(v7, v6, 0);
STEP(v7, v7, v2); LOAD(v8, v7); MEMBER(v9, v1, 4); LOAD(v10, v9); LOAD(v11, v10);
LE(v12, v8, v11); IF(v12, 4); MEMBER(v9, v1, 4); MEMBER(v6, v1, 1); MEMBER(v7, v6, 0);
STEP(v7, v7, v2); STORE(v9, v7); LABEL(4); ADD(v2, v2, 1); LABEL(3); LT(v12, v2, 3); IF(v12, 2);
MEMBER(v13, v1, 5); GLOBALA(v15, 0, 0); LOAD(v14, v15); STORE(v13, v14); GLOBALA(v15, 0, 0);
STORE(v15, v1); GLOBALA(v16, 1, 0); LOAD(v3, v16); ADD(v3, v3, 1); STORE(v16, v3); RETURN(v1);
END(); FUNCTION(1, total, 6, 1); VAR(0, 8); VAR(1, 4); VAR(2, 14); VAR(3, 10); VAR(4, 6);
VAR(5, 13); VAR(6, 8); VAR(7, 6); BEGIN(); RESTORE(v0, v1, v2, v3, v4, v5, v6, v7); TABLE(1, 1);
TABLE(2, 2); NE(v1, v0, 0); IF(v1, 0); LABEL(1); CHECKPOINT(); SAVED(1, 3); RETURN(0); LABEL(0);
MEMBER(v2, v0, 4); LOAD(v3, v2); LOAD(v4, v3); MEMBER(v5, v0, 5); LOAD(v6, v5); LABEL(2);
CALL(v7, 1, v6); SAVED(2, 3); ADD(v4, v4, v7); RETURN(v4); LABEL(3);
PUSH(v0, v1, v2, v3, v4, v5, v6, v7); END(); FUNCTION(2, drop, void, 1); VAR(0, 4); VAR(1, 8);
VAR(2, 4); VAR(3, 13); VAR(4, 8); VAR(5, 13); BEGIN(); JUMP(1); LABEL(0); TURN(); KILL(v1);
GLOBALA(v3, 0, 0); LOAD(v1, v3); MEMBER(v5, v1, 5); LOAD(v4, v5); STORE(v3, v4); FREE(v1);
LABEL(1); MOVE(v2, v0); SUB(v0, v0, 1); LE(v2, v2, 0); IF(v2, 2); GLOBALA(v3, 0, 0);
LOAD(v4, v3); NE(v2, v4, 0); IF(v2, 0); LABEL(2); END(); FUNCTION(3, main, 4, 0); VAR(0, 4);
VAR(1, 6); VAR(2, 8); VAR(3, 4); VAR(4, 13); VAR(5, 6); VAR(6, 8); VAR(7, 12); VAR(8, 0);
VAR(9, 4); VAR(10, 15); BEGIN(); RESTORE(v0, v1, v2, v3, v4, v5, v6, v7, v8, v9, v10);
TABLE(1, 3); KILL(v0); MOVE(v1, 0); MOVE(v0, 0); JUMP(1); LABEL(0); TURN(); CALL(v2, 0, v0);
ADD(v3, v0, 3); CALL(v2, 0, v3); GLOBALA(v4, 0, 0); LOAD(v2, v4); LABEL(3); CALL(v5, 1, v2);
SAVED(1, 4); ADD(v1, v1, v5); REM(v3, v0, 10); NE(v3, v3, 9); IF(v3, 2); GLOBALA(v4, 0, 0);
LOAD(v6, v4); MEMBER(v7, v6, 0); LOAD(v8, v7); CAST(v3, v8); CHAR(v9, 114); CHAR(v9, 111);
CHAR(v9, 117); CHAR(v9, 110); CHAR(v9, 100); CHAR(v9, 32); DEC(v9, v0); CHAR(v9, 32);
CHAR(v9, 115); CHAR(v9, 117); CHAR(v9, 109); CHAR(v9, 32); DEC(v9, v1); CHAR(v9, 32);
CHAR(v9, 116); CHAR(v9, 97); CHAR(v9, 103); CHAR(v9, 32); CHAR(v9, v3); CHAR(v9, 10);
CALL(_, 2, 15); LABEL(2); ADD(v0, v0, 1); LABEL(1); LT(v3, v0, 20); IF(v3, 0); CHAR(v9, 109);
CHAR(v9, 97); CHAR(v9, 100); CHAR(v9, 101); CHAR(v9, 32); GLOBALA(v10, 1, 0); LOAD(v3, v10);
DEC(v9, v3); CHAR(v9, 32); CHAR(v9, 115); CHAR(v9, 117); CHAR(v9, 109); CHAR(v9, 32);
DEC(v9, v1); CHAR(v9, 10); RETURN(0); LABEL(4);
PUSH(v0, v1, v2, v3, v4, v5, v6, v7, v8, v9, v10); END();",
        le64: Outcome {
            end: End::Done(0),
            turns: 583,
            output: "round 9 sum 467 tag m\nround 19 sum 1154 tag w\nmade 40 sum 1154\n",
        },
        be32: Outcome {
            end: End::Done(0),
            turns: 583,
            output: "round 9 sum 467 tag m\nround 19 sum 1154 tag w\nmade 40 sum 1154\n",
        },
        be32p: Outcome {
            end: End::Done(0),
            turns: 583,
            output: "round 9 sum 467 tag m\nround 19 sum 1154 tag w\nmade 40 sum 1154\n",
        },
    },
    // a generated program
    Program {
        start: Start::Nothing,
        rest: "POINTER(8, 11); ARRAY(9, 3, 2); ARRAY(10, 6, 4); STRUCT(11, 2, 6, 6, 6, 8, 0);
STRUCT(12, 7, 7, 9, 10); POINTER(13, 6); STRUCT(14, 9, 3, 3); ARRAY(15, 12, 3); POINTER(16, 4);
ARRAY(17, 6, 5); ARRAY(18, 0, 3); POINTER(19, 8); POINTER(20, 16); POINTER(21, 3);
POINTER(22, 9); POINTER(23, 13); POINTER(24, 0); GLOBAL(0, 8); GLOBAL(1, 13); GLOBAL(2, 16);
GLOBAL(3, 16); GLOBAL(4, 13); GLOBAL(5, 8); GLOBAL(6, 14); INIT(6, 0, 80); INIT(6, 2, 65535);
GLOBAL(7, 9); INIT(7, 0, 76); GLOBAL(8, 17); INIT(8, 2, 82); INIT(8, 3, 1);
INIT(8, 4, -410182415); GLOBAL(9, 13); GLOBAL(10, 18); INIT(10, 0, 113); INIT(10, 1, 117);
FUNCTION(0, f0, void, 3); VAR(0, 4); VAR(1, 16); VAR(2, 6); VAR(3, 4); VAR(4, 4); VAR(5, 6);
VAR(6, 5); VAR(7, 7); VAR(8, 6); VAR(9, 16); VAR(10, 8); VAR(11, 4); VAR(12, 13); VAR(13, 4);
VAR(14, 6); VAR(15, 4); VAR(16, 4); VAR(17, 13); VAR(18, 6); VAR(19, 4); VAR(20, 19);
VAR(21, 8); VAR(22, 6); VAR(23, 13); VAR(24, 19); VAR(25, 20); VAR(26, 16); VAR(27, 19);
VAR(28, 8); VAR(29, 8); BEGIN();
RESTORE(v0, v1, v2, v3, v4, v5, v6, v7, v8, v9, v10, v11, v12, v13, v14, v15, v16, v17, v18, v19, v20, v21, v22, v23, v24, v25, v26, v27, v28, v29);
TABLE(1, 6); MOVE(v3, 39); MOVE(v4, 8); MOVE(v5, 47); MOVE(v6, 25); MOVE(v7, 92); MOVE(v8, -50);
REM(v2, v2, 997); MOVE(v9, 0); MOVE(v10, 0); MOVE(v11, 0); JUMP(1); LABEL(0); TURN();
GLOBALA(v12, 8, 1); REM(v13, v4, 997); CAST(v14, v13); STORE(v12, v14); ADD(v11, v11, 1);
LABEL(1); LT(v15, v11, 1); IF(v15, 0); GLOBALA(v17, 8, 3); LOAD(v18, v17); DEC(v16, v18);
ADD(v4, v4, v16); REM(v4, v4, 7); MOVE(v19, 0); JUMP(3); LABEL(2); TURN(); GLOBALA(v20, 0, 0);
LOAD(v21, v20); CALLOC(v10, 1); REM(v13, v3, 997); CAST(v22, v13); MEMBER(v23, v10, 1);
STORE(v23, v22); MEMBER(v24, v10, 4); STORE(v24, v21); STORE(v20, v10); LABEL(6); CHECKPOINT();
SAVED(1, 7); GLOBALA(v12, 8, 3); LOAD(v14, v12); DEC(v15, v14); ADD(v4, v4, v15);
REM(v4, v4, 65521); ADD(v19, v19, 1); LABEL(3); LT(v16, v19, 3); IF(v16, 2); GLOBALA(v25, 2, 0);
LOAD(v26, v25); EQ(v13, v26, 0); IF(v13, 4); LOAD(v15, v26); REM(v16, v15, 997); CAST(v13, v16);
MOVE(v4, v13); REM(v18, v5, 997); CAST(v15, v18); STORE(v26, v15); LABEL(4); REM(v22, v5, 997);
CAST(v14, v22); MOVE(v2, v14); GLOBALA(v27, 0, 0); LOAD(v28, v27); EQ(v16, v28, 0); IF(v16, 5);
MEMBER(v20, v28, 4); LOAD(v29, v20); STORE(v27, v29); GLOBALA(v24, 5, 0); STORE(v24, v28);
FREE(v28); LABEL(5); SUB(v4, v4, 126); REM(v4, v4, 65521); RETURN(); LABEL(7);
PUSH(v0, v1, v2, v3, v4, v5, v6, v7, v8, v9, v10, v11, v12, v13, v14, v15, v16, v17, v18, v19, v20, v21, v22, v23, v24, v25, v26, v27, v28, v29);
END(); FUNCTION(1, main, 4, 0); VAR(0, 4); VAR(1, 4); VAR(2, 6); VAR(3, 5); VAR(4, 7);
VAR(5, 4); VAR(6, 13); VAR(7, 8); VAR(8, 21); VAR(9, 21); VAR(10, 13); VAR(11, 21); VAR(12, 22);
VAR(13, 19); VAR(14, 8); VAR(15, 4); VAR(16, 8); VAR(17, 19); VAR(18, 19); VAR(19, 23);
VAR(20, 13); VAR(21, 13); VAR(22, 4); VAR(23, 4); VAR(24, 23); VAR(25, 6); VAR(26, 6);
VAR(27, 5); VAR(28, 6); VAR(29, 5); VAR(30, 24); VAR(31, 23); VAR(32, 8); VAR(33, 16); BEGIN();
RESTORE(v0, v1, v2, v3, v4, v5, v6, v7, v8, v9, v10, v11, v12, v13, v14, v15, v16, v17, v18, v19, v20, v21, v22, v23, v24, v25, v26, v27, v28, v29, v30, v31, v32, v33);
TABLE(1, 6); MOVE(v0, -48); MOVE(v1, 66); MOVE(v2, -72); MOVE(v3, 94); MOVE(v4, 63);
MOVE(v5, 58); MOVE(v6, 0); MOVE(v7, 0); MOVE(v0, 3); GLOBALA(v8, 6, 3); GLOBALA(v9, 7, 0);
GLOBALA(v10, 8, 1); GLOBALA(v11, 7, 0); GLOBALA(v12, 7, 0); GLOBALA(v13, 0, 0); LOAD(v14, v13);
EQ(v15, v14, 0); IF(v15, 0); MEMBER(v17, v14, 4); LOAD(v16, v17); STORE(v13, v16);
GLOBALA(v18, 5, 0); STORE(v18, v14); FREE(v14); LABEL(0); GLOBALA(v19, 9, 0); LOAD(v21, v19);
GLOBALA(v20, 8, 0); STEP(v20, v20, 5); EQ(v22, v20, v21); DEC(v23, v22); STORE(v19, v20);
GLOBALA(v24, 1, 0); LOAD(v10, v24); EQ(v15, v10, 0); IF(v15, 1); LOAD(v25, v10);
REM(v26, v25, 997); CAST(v22, v26); MOVE(v5, v22); REM(v27, v3, 997); CAST(v28, v27);
STORE(v10, v28); LABEL(1); EQ(v23, v6, 0); IF(v23, 2); LOAD(v25, v6); REM(v26, v25, 997);
CAST(v15, v26); MOVE(v1, v15); REM(v22, v0, 997); CAST(v28, v22); STORE(v6, v28); LABEL(2);
EQ(v23, v6, 0); IF(v23, 3); LOAD(v25, v6); REM(v26, v25, 997); CAST(v15, v26); MOVE(v1, v15);
REM(v29, v3, 997); CAST(v28, v29); STORE(v6, v28); LABEL(3); GLOBALA(v30, 10, 0);
TEXT(v22, v30); ADD(v1, v1, v22); REM(v1, v1, 997); REM(v23, v1, 997); CAST(v15, v23);
MOVE(v1, v15); GLOBALA(v20, 8, 4); GLOBALA(v31, 1, 0); STORE(v31, v20); GLOBALA(v21, 8, 1);
GLOBALA(v10, 8, 0); DIFF(v25, v21, v10); DEC(v22, v25); NE(v22, v21, v10); DEC(v23, v22);
GLOBALA(v13, 0, 0); LOAD(v32, v13); EQ(v15, v32, 0); IF(v15, 4); MEMBER(v17, v32, 4);
LOAD(v14, v17); STORE(v13, v14); GLOBALA(v19, 4, 0); MEMBER(v20, v32, 1); STORE(v19, v20);
FREE(v32); LABEL(4); LT(v22, v1, 430); DEC(v23, v22); ADD(v3, v3, 190); REM(v3, v3, 7);
LOCAL(v33, v5, 0); LABEL(6); CALL(_, 0, 1, v33, v2); SAVED(1, 7); REM(v0, v0, 65521);
REM(v1, v1, 7); REM(v2, v2, 97); REM(v5, v5, 97); LABEL(5); GLOBALA(v21, 8, 0);
GLOBALA(v24, 1, 0); STORE(v24, v21); GLOBALA(v31, 9, 0); LOAD(v20, v31); GLOBALA(v10, 8, 0);
STEP(v10, v10, 5); EQ(v22, v10, v20); DEC(v23, v22); STORE(v31, v10); DEC(v15, v0);
DEC(v22, v1); RETURN(0); LABEL(7);
PUSH(v0, v1, v2, v3, v4, v5, v6, v7, v8, v9, v10, v11, v12, v13, v14, v15, v16, v17, v18, v19, v20, v21, v22, v23, v24, v25, v26, v27, v28, v29, v30, v31, v32, v33);
END();",
        le64: Outcome {
            end: End::Done(0),
            turns: 6,
            output: "0qu1111111135",
        },
        be32: Outcome {
            end: End::Done(0),
            turns: 6,
            output: "0qu1111111135",
        },
        be32p: Outcome {
            end: End::Done(0),
            turns: 6,
            output: "0qu1111111135",
        },
    },
    // a generated program with steps that may meet an act
    Program {
        start: Start::Nothing,
        rest: "POINTER(8, 11); ARRAY(9, 2, 2); ARRAY(10, 0, 4); STRUCT(11, 10, 6, 8, 0); POINTER(12, 4);
STRUCT(13, 5); POINTER(14, 6); ARRAY(15, 4, 5); ARRAY(16, 0, 2); POINTER(17, 12);
POINTER(18, 8); POINTER(19, 5); POINTER(20, 0); GLOBAL(0, 8); GLOBAL(1, 12); GLOBAL(2, 12);
GLOBAL(3, 12); GLOBAL(4, 14); GLOBAL(5, 8); GLOBAL(6, 6); GLOBAL(7, 4); GLOBAL(8, 4);
GLOBAL(9, 15); INIT(9, 2, 2147483647); GLOBAL(10, 12); GLOBAL(11, 16); INIT(11, 0, 101);
FUNCTION(0, f0, 6, 1); VAR(0, 4); VAR(1, 4); VAR(2, 4); VAR(3, 6); VAR(4, 5); VAR(5, 7);
VAR(6, 4); VAR(7, 12); VAR(8, 8); VAR(9, 17); VAR(10, 12); VAR(11, 18); VAR(12, 8); VAR(13, 8);
VAR(14, 18); VAR(15, 14); VAR(16, 4); VAR(17, 6); VAR(18, 14); VAR(19, 18); VAR(20, 12);
VAR(21, 4); VAR(22, 4); VAR(23, 12); BEGIN(); MOVE(v1, 80); MOVE(v2, 5); MOVE(v3, -2);
MOVE(v4, 93); MOVE(v5, 59); MOVE(v6, -12); MOVE(v7, 0); MOVE(v8, 0); GLOBALA(v10, 9, 4);
GLOBALA(v9, 1, 0); STORE(v9, v10); GLOBALA(v11, 0, 0); LOAD(v12, v11); CALLOC(v8, 2);
STEP(v13, v8, 1); MEMBER(v14, v8, 5); STORE(v14, 0); MEMBER(v15, v8, 4); STORE(v15, 5);
REM(v16, v1, 997); CAST(v17, v16); MEMBER(v18, v13, 4); STORE(v18, v17); MEMBER(v19, v8, 5);
STORE(v19, v12); STORE(v11, v8); GLOBALA(v20, 7, 0); REM(v21, v6, 997); CAST(v22, v21);
STORE(v20, v22); GLOBALA(v23, 9, 1); MOVE(v7, v23); RETURN(v3); END(); FUNCTION(1, main, 4, 0);
VAR(0, 4); VAR(1, 4); VAR(2, 6); VAR(3, 5); VAR(4, 7); VAR(5, 4); VAR(6, 4); VAR(7, 12);
VAR(8, 13); VAR(9, 19); VAR(10, 20); VAR(11, 8); VAR(12, 18); VAR(13, 8); VAR(14, 8);
VAR(15, 4); VAR(16, 4); VAR(17, 6); VAR(18, 14); VAR(19, 18); VAR(20, 6); VAR(21, 7);
VAR(22, 4); VAR(23, 0); VAR(24, 4); VAR(25, 6); VAR(26, 0); VAR(27, 14); VAR(28, 14);
VAR(29, 12); VAR(30, 12); VAR(31, 17); VAR(32, 17); VAR(33, 5); BEGIN();
RESTORE(v0, v1, v2, v3, v4, v5, v6, v7, v8, v9, v10, v11, v12, v13, v14, v15, v16, v17, v18, v19, v20, v21, v22, v23, v24, v25, v26, v27, v28, v29, v30, v31, v32, v33);
TABLE(1, 4); TABLE(2, 5); TABLE(3, 6); MOVE(v0, -91); MOVE(v1, 93); MOVE(v2, -11); MOVE(v3, 90);
MOVE(v4, 15); MOVE(v5, 83); LOCAL(v7, v6, 0); STORE(v7, 65); LOCAL(v9, v8, 0);
STORE(v9, 4294967295); MOVE(v10, 0); MOVE(v11, 0); MOVE(v0, 3); MUL(v0, v5, 358334516);
GLOBALA(v12, 0, 0); LOAD(v13, v12); MOVE(v14, v13); MOVE(v15, 0); LABEL(0); TURN();
EQ(v16, v14, 0); IF(v16, 1); LT(v16, 6, v15); IF(v16, 1); ADD(v15, v15, 1); MEMBER(v18, v14, 4);
LOAD(v17, v18); ADD(v2, v2, v17); REM(v2, v2, 65521); LABEL(4); CHECKPOINT(); SAVED(1, 7);
MEMBER(v19, v14, 5); LOAD(v14, v19); JUMP(0); LABEL(1); MOVE(v14, 0); REM(v20, v2, 997);
AND(v20, v20, 1023); CAST(v21, v20); MOVE(v4, v21); EQ(v22, v10, 0); IF(v22, 2); LOAD(v23, v10);
CAST(v24, v23); REM(v16, v24, 997); CAST(v25, v16); MOVE(v2, v25); REM(v22, v0, 997);
CAST(v26, v22); STORE(v10, v26); LABEL(2); FREE(v11); CALLOC(v27, 1); STEP(v28, v27, 0);
LOAD(v17, v28); REM(v20, v17, 997); CAST(v24, v20); MOVE(v0, v24); REM(v25, v2, 997);
CAST(v17, v25); STORE(v28, v17); LABEL(5); CHECKPOINT(); SAVED(2, 7); FREE(v27);
LOCAL(v29, v6, 0); STEP(v30, v29, 1); GLOBALA(v31, 3, 0); STORE(v31, v30);
MUL(v5, v1, 345742845); GLOBALA(v32, 1, 0); LOAD(v7, v32); EQ(v16, v7, 0); IF(v16, 3);
LOAD(v22, v7); REM(v24, v22, 997); CAST(v16, v24); MOVE(v5, v16); REM(v33, v3, 997);
CAST(v22, v33); STORE(v7, v22); LABEL(3); LABEL(6); CHECKPOINT(); SAVED(3, 7); REM(v0, v5, 22);
REM(v0, v0, 997); DEC(v24, v0); DEC(v16, v1); RETURN(1); LABEL(7);
PUSH(v0, v1, v2, v3, v4, v5, v6, v7, v8, v9, v10, v11, v12, v13, v14, v15, v16, v17, v18, v19, v20, v21, v22, v23, v24, v25, v26, v27, v28, v29, v30, v31, v32, v33);
END();",
        le64: Outcome {
            end: End::Trap(Act::Overflow),
            turns: 1,
            output: "",
        },
        be32: Outcome {
            end: End::Trap(Act::Overflow),
            turns: 1,
            output: "",
        },
        be32p: Outcome {
            end: End::Trap(Act::Overflow),
            turns: 1,
            output: "",
        },
    },
    // a generated program
    Program {
        start: Start::Nothing,
        rest: "POINTER(8, 10); ARRAY(9, 5, 2); STRUCT(10, 2, 6, 0, 0, 8, 0); POINTER(11, 6); ARRAY(12, 6, 3);
ARRAY(13, 5, 2); STRUCT(14, 0, 6, 9); POINTER(15, 4); ARRAY(16, 2, 5); POINTER(17, 2);
ARRAY(18, 0, 4); POINTER(19, 0); POINTER(20, 5); POINTER(21, 17); POINTER(22, 8); GLOBAL(0, 8);
GLOBAL(1, 11); GLOBAL(2, 15); GLOBAL(3, 15); GLOBAL(4, 11); GLOBAL(5, 8); GLOBAL(6, 6);
GLOBAL(7, 4); GLOBAL(8, 16); INIT(8, 0, 85); INIT(8, 3, 4); INIT(8, 4, 1); GLOBAL(9, 17);
GLOBAL(10, 18); INIT(10, 0, 105); INIT(10, 1, 99); INIT(10, 2, 117); FUNCTION(0, f0, 4, 3);
VAR(0, 4); VAR(1, 11); VAR(2, 6); VAR(3, 4); VAR(4, 4); VAR(5, 6); VAR(6, 5); VAR(7, 7);
VAR(8, 4); VAR(9, 14); VAR(10, 19); VAR(11, 11); VAR(12, 20); VAR(13, 20); VAR(14, 15);
VAR(15, 8); VAR(16, 21); VAR(17, 17); VAR(18, 17); VAR(19, 4); VAR(20, 4); VAR(21, 17);
VAR(22, 6); VAR(23, 4); VAR(24, 6); BEGIN(); MOVE(v3, -32); MOVE(v4, -38); MOVE(v5, 97);
MOVE(v6, 64); MOVE(v7, 39); MOVE(v8, 69); REM(v2, v2, 997); LOCAL(v10, v9, 0); STORE(v10, -50);
LOCAL(v11, v9, 1); STORE(v11, 588226456); LOCAL(v12, v9, 2); STORE(v12, 0); LOCAL(v13, v9, 3);
STORE(v13, 4139932230); MOVE(v14, 0); MOVE(v15, 0); GLOBALA(v16, 9, 0); LOAD(v18, v16);
GLOBALA(v17, 8, 0); STEP(v17, v17, 5); EQ(v19, v17, v18); DEC(v20, v19); STORE(v16, v17);
GLOBALA(v21, 8, 3); GLOBALA(v17, 8, 2); DIFF(v22, v21, v17); DEC(v23, v22); EQ(v23, v21, v17);
DEC(v19, v23); REM(v24, v5, 997); CAST(v20, v24); MOVE(v8, v20); RETURN(v3); END();
FUNCTION(1, main, 4, 0); VAR(0, 4); VAR(1, 4); VAR(2, 6); VAR(3, 5); VAR(4, 7); VAR(5, 4);
VAR(6, 4); VAR(7, 15); VAR(8, 15); VAR(9, 8); VAR(10, 4); VAR(11, 4); VAR(12, 4); VAR(13, 7);
VAR(14, 22); VAR(15, 8); VAR(16, 8); VAR(17, 4); VAR(18, 6); VAR(19, 11); VAR(20, 22);
VAR(21, 22); VAR(22, 8); VAR(23, 8); VAR(24, 11); VAR(25, 6); VAR(26, 11); VAR(27, 15); BEGIN();
RESTORE(v0, v1, v2, v3, v4, v5, v6, v7, v8, v9, v10, v11, v12, v13, v14, v15, v16, v17, v18, v19, v20, v21, v22, v23, v24, v25, v26, v27);
TABLE(1, 3); TABLE(2, 4); TABLE(3, 5); MOVE(v0, -22); MOVE(v1, 87); MOVE(v2, 97); MOVE(v3, 77);
MOVE(v4, 27); MOVE(v5, -47); LOCAL(v7, v6, 0); STORE(v7, 73); MOVE(v8, 0); MOVE(v9, 0);
MOVE(v0, 3); EQ(v10, v8, 0); IF(v10, 0); LOAD(v11, v8); REM(v12, v11, 997); CAST(v10, v12);
MOVE(v1, v10); REM(v13, v4, 997); CAST(v11, v13); STORE(v8, v11); LABEL(0); GLOBALA(v14, 0, 0);
LOAD(v15, v14); MOVE(v16, v15); MOVE(v17, 0); LABEL(1); TURN(); EQ(v12, v16, 0); IF(v12, 2);
LT(v12, 6, v17); IF(v12, 2); ADD(v17, v17, 1); MEMBER(v19, v16, 1); LOAD(v18, v19);
ADD(v2, v2, v18); REM(v2, v2, 7); LABEL(3); CHECKPOINT(); SAVED(1, 6); MEMBER(v20, v16, 4);
LOAD(v16, v20); JUMP(1); LABEL(2); MOVE(v16, 0); GLOBALA(v21, 0, 0); LOAD(v22, v21);
ALLOC(v9, 2); STEP(v23, v9, 0); MEMBER(v14, v9, 4); STORE(v14, 0); MEMBER(v24, v9, 1);
STORE(v24, 5); REM(v10, v1, 997); CAST(v25, v10); MEMBER(v26, v23, 1); STORE(v26, v25);
MEMBER(v20, v9, 4); STORE(v20, v22); STORE(v21, v9); LABEL(4); CHECKPOINT(); SAVED(2, 6);
LABEL(5); CHECKPOINT(); SAVED(3, 6); EQ(v11, 616, 530); DEC(v12, v11); LOCAL(v27, v6, 0);
MOVE(v8, v27); HEX(v10, v3); ADD(v1, v1, v10); REM(v1, v1, 97); DEC(v11, v0); DEC(v12, v1);
RETURN(42); LABEL(6);
PUSH(v0, v1, v2, v3, v4, v5, v6, v7, v8, v9, v10, v11, v12, v13, v14, v15, v16, v17, v18, v19, v20, v21, v22, v23, v24, v25, v26, v27);
END();",
        le64: Outcome {
            end: End::Done(42),
            turns: 2,
            output: "04d389",
        },
        be32: Outcome {
            end: End::Done(42),
            turns: 2,
            output: "04d389",
        },
        be32p: Outcome {
            end: End::Done(42),
            turns: 2,
            output: "04d389",
        },
    },
    // a generated program
    Program {
        start: Start::Nothing,
        rest: "POINTER(8, 12); ARRAY(9, 7, 2); ARRAY(10, 0, 4); ARRAY(11, 3, 1); STRUCT(12, 2, 11, 6, 8, 0);
POINTER(13, 6); STRUCT(14, 13, 5); STRUCT(15, 1, 1, 10, 0); POINTER(16, 4); ARRAY(17, 4, 3);
ARRAY(18, 0, 6); POINTER(19, 1); POINTER(20, 0); POINTER(21, 8); POINTER(22, 2);
POINTER(23, 16); POINTER(24, 10); GLOBAL(0, 8); GLOBAL(1, 16); GLOBAL(2, 16); GLOBAL(3, 16);
GLOBAL(4, 13); GLOBAL(5, 8); GLOBAL(6, 6); GLOBAL(7, 10); INIT(7, 3, 85); GLOBAL(8, 10);
INIT(8, 1, -128); INIT(8, 2, 11); GLOBAL(9, 6); GLOBAL(10, 17); INIT(10, 1, -14);
INIT(10, 2, 82); GLOBAL(11, 16); GLOBAL(12, 18); INIT(12, 0, 120); INIT(12, 1, 122);
INIT(12, 2, 114); INIT(12, 3, 113); INIT(12, 4, 116); FUNCTION(0, f0, void, 3); VAR(0, 4);
VAR(1, 4); VAR(2, 0); VAR(3, 4); VAR(4, 4); VAR(5, 6); VAR(6, 5); VAR(7, 7); VAR(8, 6);
VAR(9, 15); VAR(10, 19); VAR(11, 19); VAR(12, 20); VAR(13, 20); VAR(14, 20); VAR(15, 20);
VAR(16, 8); VAR(17, 21); VAR(18, 8); VAR(19, 8); VAR(20, 4); VAR(21, 4); VAR(22, 6);
VAR(23, 13); VAR(24, 21); VAR(25, 4); VAR(26, 4); VAR(27, 22); VAR(28, 22); VAR(29, 2);
VAR(30, 6); VAR(31, 2); VAR(32, 23); VAR(33, 16); VAR(34, 6); BEGIN();
RESTORE(v0, v1, v2, v3, v4, v5, v6, v7, v8, v9, v10, v11, v12, v13, v14, v15, v16, v17, v18, v19, v20, v21, v22, v23, v24, v25, v26, v27, v28, v29, v30, v31, v32, v33, v34);
TABLE(1, 4); TABLE(2, 5); TABLE(3, 6); MOVE(v3, -59); MOVE(v4, -29); MOVE(v5, 91); MOVE(v6, 20);
MOVE(v7, 29); MOVE(v8, -8); REM(v1, v1, 997); LOCAL(v10, v9, 0); STORE(v10, 1);
LOCAL(v11, v9, 1); STORE(v11, 0); LOCAL(v12, v9, 2); STORE(v12, 127); LOCAL(v13, v9, 3);
STORE(v13, 127); LOCAL(v14, v9, 4); STORE(v14, -128); LOCAL(v12, v9, 5); STORE(v12, 1);
LOCAL(v13, v9, 6); STORE(v13, -108); MOVE(v15, 0); MOVE(v16, 0); GLOBALA(v17, 0, 0);
LOAD(v18, v17); MOVE(v19, v18); MOVE(v20, 0); LABEL(0); TURN(); EQ(v21, v19, 0); IF(v21, 1);
LT(v21, 6, v20); IF(v21, 1); ADD(v20, v20, 1); MEMBER(v23, v19, 2); LOAD(v22, v23);
ADD(v5, v5, v22); REM(v5, v5, 97); LABEL(4); CHECKPOINT(); SAVED(1, 7); MEMBER(v24, v19, 3);
LOAD(v19, v24); JUMP(0); LABEL(1); MOVE(v19, 0); LE(v25, v0, 0); IF(v25, 2); SUB(v26, v0, 1);
LABEL(5); CALL(_, 0, v26, v3, 86); SAVED(2, 7); REM(v3, v3, 7); REM(v4, v4, 997);
REM(v5, v5, 65521); REM(v8, v8, 7); REM(v1, v1, 97); LABEL(2); CALLOC(v27, 4);
STEP(v28, v27, 0); LOAD(v29, v28); CAST(v21, v29); REM(v25, v21, 997); CAST(v26, v25);
MOVE(v1, v26); REM(v30, v8, 997); CAST(v31, v30); STORE(v28, v31); LABEL(6); CHECKPOINT();
SAVED(3, 7); FREE(v27); GLOBALA(v32, 1, 0); LOAD(v33, v32); EQ(v21, v33, 0); IF(v21, 3);
LOAD(v25, v33); REM(v26, v25, 997); CAST(v21, v26); MOVE(v4, v21); REM(v34, v5, 997);
CAST(v25, v34); STORE(v33, v25); LABEL(3); LABEL(7);
PUSH(v0, v1, v2, v3, v4, v5, v6, v7, v8, v9, v10, v11, v12, v13, v14, v15, v16, v17, v18, v19, v20, v21, v22, v23, v24, v25, v26, v27, v28, v29, v30, v31, v32, v33, v34);
END(); FUNCTION(1, main, 4, 0); VAR(0, 4); VAR(1, 4); VAR(2, 6); VAR(3, 5); VAR(4, 7);
VAR(5, 4); VAR(6, 2); VAR(7, 22); VAR(8, 4); VAR(9, 16); VAR(10, 13); VAR(11, 8); VAR(12, 23);
VAR(13, 16); VAR(14, 4); VAR(15, 4); VAR(16, 4); VAR(17, 6); VAR(18, 23); VAR(19, 16);
VAR(20, 4); VAR(21, 13); VAR(22, 21); VAR(23, 8); VAR(24, 8); VAR(25, 21); VAR(26, 21);
VAR(27, 24); VAR(28, 20); VAR(29, 22); VAR(30, 20); VAR(31, 13); VAR(32, 13); VAR(33, 6);
VAR(34, 4); VAR(35, 23); VAR(36, 22); VAR(37, 20); BEGIN();
RESTORE(v0, v1, v2, v3, v4, v5, v6, v7, v8, v9, v10, v11, v12, v13, v14, v15, v16, v17, v18, v19, v20, v21, v22, v23, v24, v25, v26, v27, v28, v29, v30, v31, v32, v33, v34, v35, v36, v37);
TABLE(1, 6); TABLE(2, 7); TABLE(3, 8); MOVE(v0, -13); MOVE(v1, 45); MOVE(v2, 97); MOVE(v3, 0);
MOVE(v4, 67); MOVE(v5, 4); LOCAL(v7, v6, 0); STORE(v7, 1); LOCAL(v9, v8, 0); STORE(v9, 1);
MOVE(v10, 0); MOVE(v11, 0); MOVE(v0, 3); GLOBALA(v12, 1, 0); LOAD(v13, v12); EQ(v14, v13, 0);
IF(v14, 0); LOAD(v15, v13); REM(v16, v15, 997); CAST(v14, v16); MOVE(v1, v14);
REM(v17, v2, 997); CAST(v15, v17); STORE(v13, v15); LABEL(0); LOCAL(v19, v8, 0); MOVE(v20, 0);
JUMP(2); LABEL(1); TURN(); GLOBALA(v21, 9, 0); STORE(v21, 1); GLOBALA(v22, 0, 0);
LOAD(v23, v22); EQ(v16, v23, 0); IF(v16, 3); MEMBER(v25, v23, 3); LOAD(v24, v25);
STORE(v22, v24); GLOBALA(v26, 5, 0); STORE(v26, v23); FREE(v23); LABEL(3); LOCAL(v9, v8, 0);
GLOBALA(v27, 7, 0); GLOBALA(v13, 10, 0); GLOBALA(v28, 8, 2); LOCAL(v29, v6, 0);
ADD(v20, v20, 1); LABEL(2); LT(v14, v20, 4); IF(v14, 1); GLOBALA(v30, 8, 1); GLOBALA(v31, 6, 0);
GLOBALA(v19, 10, 1); GLOBALA(v9, 10, 2); GLOBALA(v32, 9, 0); GLOBALA(v13, 10, 0);
GLOBALA(v19, 10, 0); DIFF(v33, v13, v19); DEC(v15, v33); LE(v15, v13, v19); DEC(v16, v15);
LABEL(6); CHECKPOINT(); SAVED(1, 9); DEC(v14, v0); ADD(v1, v1, v14); REM(v1, v1, 65521);
MOVE(v34, 0); JUMP(5); LABEL(4); TURN(); GLOBALA(v35, 11, 0); LOAD(v13, v35);
GLOBALA(v9, 10, 0); STEP(v9, v9, 3); EQ(v15, v9, v13); DEC(v16, v15); STORE(v35, v9);
ADD(v34, v34, 1); LABEL(5); LT(v14, v34, 4); IF(v14, 4); LABEL(7); CHECKPOINT(); SAVED(2, 9);
LOCAL(v36, v6, 0); GLOBALA(v37, 7, 2); GLOBALA(v28, 7, 3); LOCAL(v19, v8, 0);
GLOBALA(v30, 7, 3); LABEL(8); CHECKPOINT(); SAVED(3, 9); DEC(v15, v0); DEC(v16, v1); RETURN(0);
LABEL(9);
PUSH(v0, v1, v2, v3, v4, v5, v6, v7, v8, v9, v10, v11, v12, v13, v14, v15, v16, v17, v18, v19, v20, v21, v22, v23, v24, v25, v26, v27, v28, v29, v30, v31, v32, v33, v34, v35, v36, v37);
END();",
        le64: Outcome {
            end: End::Done(0),
            turns: 9,
            output: "0130111346",
        },
        be32: Outcome {
            end: End::Done(0),
            turns: 9,
            output: "0130111346",
        },
        be32p: Outcome {
            end: End::Done(0),
            turns: 9,
            output: "0130111346",
        },
    },
];
