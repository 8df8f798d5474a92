//! Long programs that a generator made, with checkpoints, calls, loops and pointers.
//! The programs are texts without their head lines. A blank or a newline stands between two lines.

use crate::ends::{End, Program, Start};
use porch_flat::whole::FlatRule;
use porch_values::Act;

/// The programs, with how they end.
pub(crate) static MADE_ONE: [Program; 3] = [
    // 313 lines
    Program {
        start: Start::Nothing,
        rest: "POINTER(8, 11); ARRAY(9, 3, 2); ARRAY(10, 6, 4); STRUCT(11, 2, 6, 6, 6, 8, 0);
STRUCT(12, 7, 7, 9, 10); POINTER(13, 6); STRUCT(14, 9, 3, 3); ARRAY(15, 12, 3); POINTER(16, 4);
ARRAY(17, 6, 5); ARRAY(18, 0, 3); POINTER(19, 8); POINTER(20, 16); POINTER(21, 3); POINTER(22, 9);
POINTER(23, 13); POINTER(24, 0); GLOBAL(0, 8); GLOBAL(1, 13); GLOBAL(2, 16); GLOBAL(3, 16);
GLOBAL(4, 13); GLOBAL(5, 8); GLOBAL(6, 14); INIT(6, 0, 80); INIT(6, 2, 65535); GLOBAL(7, 9);
INIT(7, 0, 76); GLOBAL(8, 17); INIT(8, 2, 82); INIT(8, 3, 1); INIT(8, 4, -410182415);
GLOBAL(9, 13); GLOBAL(10, 18); INIT(10, 0, 113); INIT(10, 1, 117); FUNCTION(0, f0, void, 3);
VAR(0, 4); VAR(1, 16); VAR(2, 6); VAR(3, 4); VAR(4, 4); VAR(5, 6); VAR(6, 5); VAR(7, 7);
VAR(8, 6); VAR(9, 16); VAR(10, 8); VAR(11, 4); VAR(12, 13); VAR(13, 4); VAR(14, 6); VAR(15, 4);
VAR(16, 4); VAR(17, 13); VAR(18, 6); VAR(19, 4); VAR(20, 19); VAR(21, 8); VAR(22, 6); VAR(23, 13);
VAR(24, 19); VAR(25, 20); VAR(26, 16); VAR(27, 19); VAR(28, 8); VAR(29, 8); BEGIN();
RESTORE(v0, v1, v2, v3, v4, v5, v6, v7, v8, v9, v10, v11, v12, v13, v14, v15, v16, v17, v18, v19, v20, v21, v22, v23, v24, v25, v26, v27, v28, v29);
TABLE(1, 6); MOVE(v3, 39); MOVE(v4, 8); MOVE(v5, 47); MOVE(v6, 25); MOVE(v7, 92); MOVE(v8, -50);
REM(v2, v2, 997); MOVE(v9, 0); MOVE(v10, 0); MOVE(v11, 0); JUMP(1); LABEL(0); TURN();
GLOBALA(v12, 8, 1); REM(v13, v4, 997); CAST(v14, v13); STORE(v12, v14); ADD(v11, v11, 1);
LABEL(1); LT(v15, v11, 1); IF(v15, 0); GLOBALA(v17, 8, 3); LOAD(v18, v17); DEC(v16, v18);
ADD(v4, v4, v16); REM(v4, v4, 7); MOVE(v19, 0); JUMP(3); LABEL(2); TURN(); GLOBALA(v20, 0, 0);
LOAD(v21, v20); CALLOC(v10, 1); REM(v13, v3, 997); CAST(v22, v13); MEMBER(v23, v10, 1);
STORE(v23, v22); MEMBER(v24, v10, 4); STORE(v24, v21); STORE(v20, v10); LABEL(6); CHECKPOINT();
SAVED(1, 7); GLOBALA(v12, 8, 3); LOAD(v14, v12); DEC(v15, v14); ADD(v4, v4, v15);
REM(v4, v4, 65521); ADD(v19, v19, 1); LABEL(3); LT(v16, v19, 3); IF(v16, 2); GLOBALA(v25, 2, 0);
LOAD(v26, v25); EQ(v13, v26, 0); IF(v13, 4); LOAD(v15, v26); REM(v16, v15, 997); CAST(v13, v16);
MOVE(v4, v13); REM(v18, v5, 997); CAST(v15, v18); STORE(v26, v15); LABEL(4); REM(v22, v5, 997);
CAST(v14, v22); MOVE(v2, v14); GLOBALA(v27, 0, 0); LOAD(v28, v27); EQ(v16, v28, 0); IF(v16, 5);
MEMBER(v20, v28, 4); LOAD(v29, v20); STORE(v27, v29); GLOBALA(v24, 5, 0); STORE(v24, v28);
FREE(v28); LABEL(5); SUB(v4, v4, 126); REM(v4, v4, 65521); RETURN(); LABEL(7);
PUSH(v0, v1, v2, v3, v4, v5, v6, v7, v8, v9, v10, v11, v12, v13, v14, v15, v16, v17, v18, v19, v20, v21, v22, v23, v24, v25, v26, v27, v28, v29);
END(); FUNCTION(1, main, 4, 0); VAR(0, 4); VAR(1, 4); VAR(2, 6); VAR(3, 5); VAR(4, 7); VAR(5, 4);
VAR(6, 13); VAR(7, 8); VAR(8, 21); VAR(9, 21); VAR(10, 13); VAR(11, 21); VAR(12, 22); VAR(13, 19);
VAR(14, 8); VAR(15, 4); VAR(16, 8); VAR(17, 19); VAR(18, 19); VAR(19, 23); VAR(20, 13);
VAR(21, 13); VAR(22, 4); VAR(23, 4); VAR(24, 23); VAR(25, 6); VAR(26, 6); VAR(27, 5); VAR(28, 6);
VAR(29, 5); VAR(30, 24); VAR(31, 23); VAR(32, 8); VAR(33, 16); BEGIN();
RESTORE(v0, v1, v2, v3, v4, v5, v6, v7, v8, v9, v10, v11, v12, v13, v14, v15, v16, v17, v18, v19, v20, v21, v22, v23, v24, v25, v26, v27, v28, v29, v30, v31, v32, v33);
TABLE(1, 6); MOVE(v0, -48); MOVE(v1, 66); MOVE(v2, -72); MOVE(v3, 94); MOVE(v4, 63); MOVE(v5, 58);
MOVE(v6, 0); MOVE(v7, 0); MOVE(v0, 3); GLOBALA(v8, 6, 3); GLOBALA(v9, 7, 0); GLOBALA(v10, 8, 1);
GLOBALA(v11, 7, 0); GLOBALA(v12, 7, 0); GLOBALA(v13, 0, 0); LOAD(v14, v13); EQ(v15, v14, 0);
IF(v15, 0); MEMBER(v17, v14, 4); LOAD(v16, v17); STORE(v13, v16); GLOBALA(v18, 5, 0);
STORE(v18, v14); FREE(v14); LABEL(0); GLOBALA(v19, 9, 0); LOAD(v21, v19); GLOBALA(v20, 8, 0);
STEP(v20, v20, 5); EQ(v22, v20, v21); DEC(v23, v22); STORE(v19, v20); GLOBALA(v24, 1, 0);
LOAD(v10, v24); EQ(v15, v10, 0); IF(v15, 1); LOAD(v25, v10); REM(v26, v25, 997); CAST(v22, v26);
MOVE(v5, v22); REM(v27, v3, 997); CAST(v28, v27); STORE(v10, v28); LABEL(1); EQ(v23, v6, 0);
IF(v23, 2); LOAD(v25, v6); REM(v26, v25, 997); CAST(v15, v26); MOVE(v1, v15); REM(v22, v0, 997);
CAST(v28, v22); STORE(v6, v28); LABEL(2); EQ(v23, v6, 0); IF(v23, 3); LOAD(v25, v6);
REM(v26, v25, 997); CAST(v15, v26); MOVE(v1, v15); REM(v29, v3, 997); CAST(v28, v29);
STORE(v6, v28); LABEL(3); GLOBALA(v30, 10, 0); TEXT(v22, v30); ADD(v1, v1, v22); REM(v1, v1, 997);
REM(v23, v1, 997); CAST(v15, v23); MOVE(v1, v15); GLOBALA(v20, 8, 4); GLOBALA(v31, 1, 0);
STORE(v31, v20); GLOBALA(v21, 8, 1); GLOBALA(v10, 8, 0); DIFF(v25, v21, v10); DEC(v22, v25);
NE(v22, v21, v10); DEC(v23, v22); GLOBALA(v13, 0, 0); LOAD(v32, v13); EQ(v15, v32, 0); IF(v15, 4);
MEMBER(v17, v32, 4); LOAD(v14, v17); STORE(v13, v14); GLOBALA(v19, 4, 0); MEMBER(v20, v32, 1);
STORE(v19, v20); FREE(v32); LABEL(4); LT(v22, v1, 430); DEC(v23, v22); ADD(v3, v3, 190);
REM(v3, v3, 7); LOCAL(v33, v5, 0); LABEL(6); CALL(_, 0, 1, v33, v2); SAVED(1, 7);
REM(v0, v0, 65521); REM(v1, v1, 7); REM(v2, v2, 97); REM(v5, v5, 97); LABEL(5);
GLOBALA(v21, 8, 0); GLOBALA(v24, 1, 0); STORE(v24, v21); GLOBALA(v31, 9, 0); LOAD(v20, v31);
GLOBALA(v10, 8, 0); STEP(v10, v10, 5); EQ(v22, v10, v20); DEC(v23, v22); STORE(v31, v10);
DEC(v15, v0); DEC(v22, v1); RETURN(0); LABEL(7);
PUSH(v0, v1, v2, v3, v4, v5, v6, v7, v8, v9, v10, v11, v12, v13, v14, v15, v16, v17, v18, v19, v20, v21, v22, v23, v24, v25, v26, v27, v28, v29, v30, v31, v32, v33);
END();",
        plain: Some((39, FlatRule::Modes)),
        end: End::Done(0),
        turns: 6,
        output: "0qu1111111135",
    },
    // 221 lines, some of which may meet an act
    Program {
        start: Start::Nothing,
        rest: "POINTER(8, 11); ARRAY(9, 2, 2); ARRAY(10, 0, 4); STRUCT(11, 10, 6, 8, 0); POINTER(12, 4);
STRUCT(13, 5); POINTER(14, 6); ARRAY(15, 4, 5); ARRAY(16, 0, 2); POINTER(17, 12); POINTER(18, 8);
POINTER(19, 5); POINTER(20, 0); GLOBAL(0, 8); GLOBAL(1, 12); GLOBAL(2, 12); GLOBAL(3, 12);
GLOBAL(4, 14); GLOBAL(5, 8); GLOBAL(6, 6); GLOBAL(7, 4); GLOBAL(8, 4); GLOBAL(9, 15);
INIT(9, 2, 2147483647); GLOBAL(10, 12); GLOBAL(11, 16); INIT(11, 0, 101); FUNCTION(0, f0, 6, 1);
VAR(0, 4); VAR(1, 4); VAR(2, 4); VAR(3, 6); VAR(4, 5); VAR(5, 7); VAR(6, 4); VAR(7, 12);
VAR(8, 8); VAR(9, 17); VAR(10, 12); VAR(11, 18); VAR(12, 8); VAR(13, 8); VAR(14, 18); VAR(15, 14);
VAR(16, 4); VAR(17, 6); VAR(18, 14); VAR(19, 18); VAR(20, 12); VAR(21, 4); VAR(22, 4);
VAR(23, 12); BEGIN(); MOVE(v1, 80); MOVE(v2, 5); MOVE(v3, -2); MOVE(v4, 93); MOVE(v5, 59);
MOVE(v6, -12); MOVE(v7, 0); MOVE(v8, 0); GLOBALA(v10, 9, 4); GLOBALA(v9, 1, 0); STORE(v9, v10);
GLOBALA(v11, 0, 0); LOAD(v12, v11); CALLOC(v8, 2); STEP(v13, v8, 1); MEMBER(v14, v8, 5);
STORE(v14, 0); MEMBER(v15, v8, 4); STORE(v15, 5); REM(v16, v1, 997); CAST(v17, v16);
MEMBER(v18, v13, 4); STORE(v18, v17); MEMBER(v19, v8, 5); STORE(v19, v12); STORE(v11, v8);
GLOBALA(v20, 7, 0); REM(v21, v6, 997); CAST(v22, v21); STORE(v20, v22); GLOBALA(v23, 9, 1);
MOVE(v7, v23); RETURN(v3); END(); FUNCTION(1, main, 4, 0); VAR(0, 4); VAR(1, 4); VAR(2, 6);
VAR(3, 5); VAR(4, 7); VAR(5, 4); VAR(6, 4); VAR(7, 12); VAR(8, 13); VAR(9, 19); VAR(10, 20);
VAR(11, 8); VAR(12, 18); VAR(13, 8); VAR(14, 8); VAR(15, 4); VAR(16, 4); VAR(17, 6); VAR(18, 14);
VAR(19, 18); VAR(20, 6); VAR(21, 7); VAR(22, 4); VAR(23, 0); VAR(24, 4); VAR(25, 6); VAR(26, 0);
VAR(27, 14); VAR(28, 14); VAR(29, 12); VAR(30, 12); VAR(31, 17); VAR(32, 17); VAR(33, 5); BEGIN();
RESTORE(v0, v1, v2, v3, v4, v5, v6, v7, v8, v9, v10, v11, v12, v13, v14, v15, v16, v17, v18, v19, v20, v21, v22, v23, v24, v25, v26, v27, v28, v29, v30, v31, v32, v33);
TABLE(1, 4); TABLE(2, 5); TABLE(3, 6); MOVE(v0, -91); MOVE(v1, 93); MOVE(v2, -11); MOVE(v3, 90);
MOVE(v4, 15); MOVE(v5, 83); LOCAL(v7, v6, 0); STORE(v7, 65); LOCAL(v9, v8, 0);
STORE(v9, 4294967295); MOVE(v10, 0); MOVE(v11, 0); MOVE(v0, 3); MUL(v0, v5, 358334516);
GLOBALA(v12, 0, 0); LOAD(v13, v12); MOVE(v14, v13); MOVE(v15, 0); LABEL(0); TURN();
EQ(v16, v14, 0); IF(v16, 1); LT(v16, 6, v15); IF(v16, 1); ADD(v15, v15, 1); MEMBER(v18, v14, 4);
LOAD(v17, v18); ADD(v2, v2, v17); REM(v2, v2, 65521); LABEL(4); CHECKPOINT(); SAVED(1, 7);
MEMBER(v19, v14, 5); LOAD(v14, v19); JUMP(0); LABEL(1); MOVE(v14, 0); REM(v20, v2, 997);
AND(v20, v20, 1023); CAST(v21, v20); MOVE(v4, v21); EQ(v22, v10, 0); IF(v22, 2); LOAD(v23, v10);
CAST(v24, v23); REM(v16, v24, 997); CAST(v25, v16); MOVE(v2, v25); REM(v22, v0, 997);
CAST(v26, v22); STORE(v10, v26); LABEL(2); FREE(v11); CALLOC(v27, 1); STEP(v28, v27, 0);
LOAD(v17, v28); REM(v20, v17, 997); CAST(v24, v20); MOVE(v0, v24); REM(v25, v2, 997);
CAST(v17, v25); STORE(v28, v17); LABEL(5); CHECKPOINT(); SAVED(2, 7); FREE(v27);
LOCAL(v29, v6, 0); STEP(v30, v29, 1); GLOBALA(v31, 3, 0); STORE(v31, v30); MUL(v5, v1, 345742845);
GLOBALA(v32, 1, 0); LOAD(v7, v32); EQ(v16, v7, 0); IF(v16, 3); LOAD(v22, v7); REM(v24, v22, 997);
CAST(v16, v24); MOVE(v5, v16); REM(v33, v3, 997); CAST(v22, v33); STORE(v7, v22); LABEL(3);
LABEL(6); CHECKPOINT(); SAVED(3, 7); REM(v0, v5, 22); REM(v0, v0, 997); DEC(v24, v0);
DEC(v16, v1); RETURN(1); LABEL(7);
PUSH(v0, v1, v2, v3, v4, v5, v6, v7, v8, v9, v10, v11, v12, v13, v14, v15, v16, v17, v18, v19, v20, v21, v22, v23, v24, v25, v26, v27, v28, v29, v30, v31, v32, v33);
END();",
        plain: Some((90, FlatRule::Modes)),
        end: End::Met(Act::Overflow),
        turns: 1,
        output: "",
    },
    // 206 lines
    Program {
        start: Start::Nothing,
        rest: "POINTER(8, 10); ARRAY(9, 5, 2); STRUCT(10, 2, 6, 0, 0, 8, 0); POINTER(11, 6); ARRAY(12, 6, 3);
ARRAY(13, 5, 2); STRUCT(14, 0, 6, 9); POINTER(15, 4); ARRAY(16, 2, 5); POINTER(17, 2);
ARRAY(18, 0, 4); POINTER(19, 0); POINTER(20, 5); POINTER(21, 17); POINTER(22, 8); GLOBAL(0, 8);
GLOBAL(1, 11); GLOBAL(2, 15); GLOBAL(3, 15); GLOBAL(4, 11); GLOBAL(5, 8); GLOBAL(6, 6);
GLOBAL(7, 4); GLOBAL(8, 16); INIT(8, 0, 85); INIT(8, 3, 4); INIT(8, 4, 1); GLOBAL(9, 17);
GLOBAL(10, 18); INIT(10, 0, 105); INIT(10, 1, 99); INIT(10, 2, 117); FUNCTION(0, f0, 4, 3);
VAR(0, 4); VAR(1, 11); VAR(2, 6); VAR(3, 4); VAR(4, 4); VAR(5, 6); VAR(6, 5); VAR(7, 7);
VAR(8, 4); VAR(9, 14); VAR(10, 19); VAR(11, 11); VAR(12, 20); VAR(13, 20); VAR(14, 15);
VAR(15, 8); VAR(16, 21); VAR(17, 17); VAR(18, 17); VAR(19, 4); VAR(20, 4); VAR(21, 17);
VAR(22, 6); VAR(23, 4); VAR(24, 6); BEGIN(); MOVE(v3, -32); MOVE(v4, -38); MOVE(v5, 97);
MOVE(v6, 64); MOVE(v7, 39); MOVE(v8, 69); REM(v2, v2, 997); LOCAL(v10, v9, 0); STORE(v10, -50);
LOCAL(v11, v9, 1); STORE(v11, 588226456); LOCAL(v12, v9, 2); STORE(v12, 0); LOCAL(v13, v9, 3);
STORE(v13, 4139932230); MOVE(v14, 0); MOVE(v15, 0); GLOBALA(v16, 9, 0); LOAD(v18, v16);
GLOBALA(v17, 8, 0); STEP(v17, v17, 5); EQ(v19, v17, v18); DEC(v20, v19); STORE(v16, v17);
GLOBALA(v21, 8, 3); GLOBALA(v17, 8, 2); DIFF(v22, v21, v17); DEC(v23, v22); EQ(v23, v21, v17);
DEC(v19, v23); REM(v24, v5, 997); CAST(v20, v24); MOVE(v8, v20); RETURN(v3); END();
FUNCTION(1, main, 4, 0); VAR(0, 4); VAR(1, 4); VAR(2, 6); VAR(3, 5); VAR(4, 7); VAR(5, 4);
VAR(6, 4); VAR(7, 15); VAR(8, 15); VAR(9, 8); VAR(10, 4); VAR(11, 4); VAR(12, 4); VAR(13, 7);
VAR(14, 22); VAR(15, 8); VAR(16, 8); VAR(17, 4); VAR(18, 6); VAR(19, 11); VAR(20, 22);
VAR(21, 22); VAR(22, 8); VAR(23, 8); VAR(24, 11); VAR(25, 6); VAR(26, 11); VAR(27, 15); BEGIN();
RESTORE(v0, v1, v2, v3, v4, v5, v6, v7, v8, v9, v10, v11, v12, v13, v14, v15, v16, v17, v18, v19, v20, v21, v22, v23, v24, v25, v26, v27);
TABLE(1, 3); TABLE(2, 4); TABLE(3, 5); MOVE(v0, -22); MOVE(v1, 87); MOVE(v2, 97); MOVE(v3, 77);
MOVE(v4, 27); MOVE(v5, -47); LOCAL(v7, v6, 0); STORE(v7, 73); MOVE(v8, 0); MOVE(v9, 0);
MOVE(v0, 3); EQ(v10, v8, 0); IF(v10, 0); LOAD(v11, v8); REM(v12, v11, 997); CAST(v10, v12);
MOVE(v1, v10); REM(v13, v4, 997); CAST(v11, v13); STORE(v8, v11); LABEL(0); GLOBALA(v14, 0, 0);
LOAD(v15, v14); MOVE(v16, v15); MOVE(v17, 0); LABEL(1); TURN(); EQ(v12, v16, 0); IF(v12, 2);
LT(v12, 6, v17); IF(v12, 2); ADD(v17, v17, 1); MEMBER(v19, v16, 1); LOAD(v18, v19);
ADD(v2, v2, v18); REM(v2, v2, 7); LABEL(3); CHECKPOINT(); SAVED(1, 6); MEMBER(v20, v16, 4);
LOAD(v16, v20); JUMP(1); LABEL(2); MOVE(v16, 0); GLOBALA(v21, 0, 0); LOAD(v22, v21); ALLOC(v9, 2);
STEP(v23, v9, 0); MEMBER(v14, v9, 4); STORE(v14, 0); MEMBER(v24, v9, 1); STORE(v24, 5);
REM(v10, v1, 997); CAST(v25, v10); MEMBER(v26, v23, 1); STORE(v26, v25); MEMBER(v20, v9, 4);
STORE(v20, v22); STORE(v21, v9); LABEL(4); CHECKPOINT(); SAVED(2, 6); LABEL(5); CHECKPOINT();
SAVED(3, 6); EQ(v11, 616, 530); DEC(v12, v11); LOCAL(v27, v6, 0); MOVE(v8, v27); HEX(v10, v3);
ADD(v1, v1, v10); REM(v1, v1, 97); DEC(v11, v0); DEC(v12, v1); RETURN(42); LABEL(6);
PUSH(v0, v1, v2, v3, v4, v5, v6, v7, v8, v9, v10, v11, v12, v13, v14, v15, v16, v17, v18, v19, v20, v21, v22, v23, v24, v25, v26, v27);
END();",
        plain: Some((97, FlatRule::Modes)),
        end: End::Done(42),
        turns: 2,
        output: "04d389",
    },
];
