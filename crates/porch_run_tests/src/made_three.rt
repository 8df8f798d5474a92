//! Larger programs: steps in many kinds, loops and calls.
//! The programs are texts without their head lines. A blank or a newline stands between two lines.

use crate::ends::{End, Outcome, Program, Start};
use porch_values::Act;

/// The programs, with how their runs end.
pub(crate) static MADE_THREE: [Program; 6] = [
    // a generated program with steps that may meet an act
    Program {
        start: Start::Nothing,
        rest: "POINTER(8, 10); ARRAY(9, 2, 2); STRUCT(10, 6, 0, 4, 6, 8, 0); ARRAY(11, 9, 3); STRUCT(12, 5, 5);
POINTER(13, 0); ARRAY(14, 6, 3); POINTER(15, 6); POINTER(16, 4); ARRAY(17, 4, 2);
ARRAY(18, 0, 4); POINTER(19, 2); POINTER(20, 9); POINTER(21, 15); POINTER(22, 16);
POINTER(23, 12); POINTER(24, 5); POINTER(25, 17); GLOBAL(0, 8); GLOBAL(1, 15); GLOBAL(2, 16);
GLOBAL(3, 16); GLOBAL(4, 15); GLOBAL(5, 8); GLOBAL(6, 6); INIT(6, 0, -25); GLOBAL(7, 4);
INIT(7, 0, -15); GLOBAL(8, 12); GLOBAL(9, 17); INIT(9, 1, -20); GLOBAL(10, 16); GLOBAL(11, 18);
INIT(11, 0, 102); INIT(11, 1, 109); INIT(11, 2, 120); FUNCTION(0, f0, 6, 2); VAR(0, 4);
VAR(1, 0); VAR(2, 4); VAR(3, 4); VAR(4, 6); VAR(5, 5); VAR(6, 7); VAR(7, 6); VAR(8, 9);
VAR(9, 19); VAR(10, 19); VAR(11, 11); VAR(12, 19); VAR(13, 15); VAR(14, 8); VAR(15, 20);
VAR(16, 2); VAR(17, 4); VAR(18, 4); VAR(19, 6); VAR(20, 4); VAR(21, 4); VAR(22, 16);
VAR(23, 16); VAR(24, 6); VAR(25, 4); VAR(26, 21); VAR(27, 15); VAR(28, 16); VAR(29, 22);
BEGIN();
RESTORE(v0, v1, v2, v3, v4, v5, v6, v7, v8, v9, v10, v11, v12, v13, v14, v15, v16, v17, v18, v19, v20, v21, v22, v23, v24, v25, v26, v27, v28, v29);
TABLE(1, 5); TABLE(2, 6); MOVE(v2, -41); MOVE(v3, 46); MOVE(v4, 91); MOVE(v5, 44); MOVE(v6, 85);
MOVE(v7, -88); LOCAL(v9, v8, 0); STORE(v9, -27); LOCAL(v10, v8, 1); STORE(v10, 1);
LOCAL(v12, v11, 0); STORE(v12, 74); LOCAL(v9, v11, 1); STORE(v9, -3); LOCAL(v10, v11, 2);
STORE(v10, -23884); LOCAL(v12, v11, 3); STORE(v12, 29092); LOCAL(v9, v11, 4); STORE(v9, 42);
LOCAL(v10, v11, 5); STORE(v10, 87); MOVE(v13, 0); MOVE(v14, 0); LABEL(5); CHECKPOINT();
SAVED(1, 7); LOCAL(v15, v11, 0); MEMBER(v12, v15, 1); LOAD(v16, v12); CAST(v17, v16);
REM(v18, v17, 997); CAST(v19, v18); MOVE(v7, v19); MOVE(v20, 0); JUMP(1); LABEL(0); TURN();
MOVE(v21, 0); JUMP(3); LABEL(2); TURN(); GLOBALA(v22, 9, 0); GLOBALA(v23, 9, 1);
DIFF(v24, v22, v23); DEC(v25, v24); EQ(v25, v22, v23); DEC(v17, v25); LE(v18, v0, 0);
IF(v18, 4); SUB(v25, v0, 1); LABEL(6); CALL(v7, 0, v25, -65); SAVED(2, 7); REM(v2, v2, 65521);
REM(v3, v3, 97); REM(v4, v4, 97); REM(v7, v7, 7); LABEL(4); ADD(v21, v21, 1); LABEL(3);
LT(v17, v21, 2); IF(v17, 2); REM(v18, v2, 997); CAST(v25, v18); MOVE(v3, v25);
GLOBALA(v27, 6, 0); GLOBALA(v26, 1, 0); STORE(v26, v27); ADD(v20, v20, 1); LABEL(1);
LT(v17, v20, 2); IF(v17, 0); LOCAL(v28, v3, 0); GLOBALA(v29, 3, 0); STORE(v29, v28); RETURN(v4);
LABEL(7);
PUSH(v0, v1, v2, v3, v4, v5, v6, v7, v8, v9, v10, v11, v12, v13, v14, v15, v16, v17, v18, v19, v20, v21, v22, v23, v24, v25, v26, v27, v28, v29);
END(); FUNCTION(1, main, 4, 0); VAR(0, 4); VAR(1, 4); VAR(2, 6); VAR(3, 5); VAR(4, 7);
VAR(5, 6); VAR(6, 12); VAR(7, 24); VAR(8, 24); VAR(9, 9); VAR(10, 19); VAR(11, 19); VAR(12, 16);
VAR(13, 8); VAR(14, 16); VAR(15, 16); VAR(16, 22); VAR(17, 15); VAR(18, 15); VAR(19, 21);
VAR(20, 21); VAR(21, 15); VAR(22, 16); VAR(23, 4); VAR(24, 4); VAR(25, 4); VAR(26, 25);
VAR(27, 21); VAR(28, 6); VAR(29, 6); VAR(30, 6); VAR(31, 7); BEGIN(); MOVE(v0, -2);
MOVE(v1, -39); MOVE(v2, 50); MOVE(v3, 64); MOVE(v4, 1); MOVE(v5, -20); LOCAL(v7, v6, 0);
STORE(v7, 4294967295); LOCAL(v8, v6, 1); STORE(v8, 4294967295); LOCAL(v10, v9, 0);
STORE(v10, 32767); LOCAL(v11, v9, 1); STORE(v11, -32768); MOVE(v12, 0); MOVE(v13, 0);
MOVE(v0, 3); GLOBALA(v14, 7, 0); STEP(v15, v14, 1); GLOBALA(v16, 3, 0); STORE(v16, v15);
GLOBALA(v17, 6, 0); STEP(v18, v17, 1); GLOBALA(v19, 4, 0); STORE(v19, v18); GLOBALA(v21, 6, 0);
GLOBALA(v20, 1, 0); STORE(v20, v21); GLOBALA(v22, 7, 0); MOVE(v12, v22); GLOBALA(v14, 9, 0);
STORE(v14, -2147483648); EQ(v23, v12, 0); IF(v23, 0); LOAD(v24, v12); REM(v25, v24, 997);
CAST(v23, v25); MOVE(v1, v23); REM(v24, v0, 997); CAST(v25, v24); STORE(v12, v25); LABEL(0);
GLOBALA(v15, 7, 0); MOVE(v12, v15); GLOBALA(v26, 9, 0); MEMBER(v22, v26, 0); LOAD(v23, v22);
REM(v24, v23, 997); CAST(v25, v24); MOVE(v1, v25); GLOBALA(v27, 1, 0); LOAD(v17, v27);
EQ(v23, v17, 0); IF(v23, 1); LOAD(v28, v17); REM(v29, v28, 997); CAST(v30, v29); MOVE(v2, v30);
REM(v28, v5, 997); CAST(v29, v28); STORE(v17, v29); LABEL(1); GLOBALA(v14, 9, 0);
LOAD(v24, v14); REM(v25, v24, 997); AND(v25, v25, 1023); CAST(v31, v25); MOVE(v4, v31);
DEC(v23, v0); DEC(v24, v1); RETURN(0); END(); FUNCTION(2, f1, 4, 1); VAR(0, 4); VAR(1, 4);
VAR(2, 4); VAR(3, 6); VAR(4, 5); VAR(5, 7); VAR(6, 6); VAR(7, 9); VAR(8, 19); VAR(9, 19);
VAR(10, 15); VAR(11, 8); VAR(12, 23); VAR(13, 16); VAR(14, 15); VAR(15, 20); VAR(16, 16);
VAR(17, 6); VAR(18, 4); VAR(19, 16); VAR(20, 22); BEGIN(); MOVE(v1, -40); MOVE(v2, -15);
MOVE(v3, -38); MOVE(v4, 37); MOVE(v5, 61); MOVE(v6, 79); LOCAL(v8, v7, 0); STORE(v8, -32768);
LOCAL(v9, v7, 1); STORE(v9, -30489); MOVE(v10, 0); MOVE(v11, 0); GLOBALA(v12, 8, 0);
GLOBALA(v13, 7, 0); GLOBALA(v14, 6, 0); LOCAL(v15, v7, 0); GLOBALA(v16, 9, 1);
REM(v17, v3, 997); CAST(v18, v17); MOVE(v1, v18); DIV(v1, 100, v1); LOCAL(v19, v2, 0);
GLOBALA(v20, 3, 0); STORE(v20, v19); RETURN(v1); END();",
        le64: Outcome {
            end: End::Done(0),
            turns: 1,
            output: "3-483",
        },
        be32: Outcome {
            end: End::Done(0),
            turns: 1,
            output: "3-483",
        },
        be32p: Outcome {
            end: End::Done(0),
            turns: 1,
            output: "3-483",
        },
    },
    // a generated program
    Program {
        start: Start::Nothing,
        rest: "POINTER(8, 10); ARRAY(9, 7, 3); STRUCT(10, 9, 6, 6, 8, 0); STRUCT(11, 3); POINTER(12, 4);
ARRAY(13, 7, 3); POINTER(14, 6); ARRAY(15, 6, 3); ARRAY(16, 0, 3); POINTER(17, 0);
POINTER(18, 14); POINTER(19, 12); POINTER(20, 15); POINTER(21, 7); POINTER(22, 11);
POINTER(23, 3); POINTER(24, 8); GLOBAL(0, 8); GLOBAL(1, 14); GLOBAL(2, 12); GLOBAL(3, 12);
GLOBAL(4, 14); GLOBAL(5, 8); GLOBAL(6, 13); GLOBAL(7, 11); GLOBAL(8, 0); INIT(8, 0, 127);
GLOBAL(9, 9); GLOBAL(10, 15); INIT(10, 2, -1115010651); GLOBAL(11, 14); GLOBAL(12, 16);
INIT(12, 0, 115); INIT(12, 1, 121); FUNCTION(0, f0, void, 2); VAR(0, 4); VAR(1, 12); VAR(2, 4);
VAR(3, 4); VAR(4, 6); VAR(5, 5); VAR(6, 7); VAR(7, 6); VAR(8, 17); VAR(9, 8); VAR(10, 4);
VAR(11, 4); VAR(12, 4); VAR(13, 18); VAR(14, 12); VAR(15, 19); BEGIN(); MOVE(v2, 58);
MOVE(v3, -6); MOVE(v4, -71); MOVE(v5, 7); MOVE(v6, 18); MOVE(v7, 4); MOVE(v8, 0); MOVE(v9, 0);
REM(v10, v2, 997); CAST(v11, v10); MOVE(v3, v11); HEX(v12, v5); ADD(v3, v3, v12);
REM(v3, v3, 997); LOCAL(v14, v3, 0); GLOBALA(v15, 3, 0); STORE(v15, v14); RETURN(); END();
FUNCTION(1, main, 4, 0); VAR(0, 4); VAR(1, 4); VAR(2, 6); VAR(3, 5); VAR(4, 7); VAR(5, 4);
VAR(6, 14); VAR(7, 8); VAR(8, 4); VAR(9, 4); VAR(10, 17); VAR(11, 23); VAR(12, 14); VAR(13, 21);
VAR(14, 14); VAR(15, 22); VAR(16, 22); VAR(17, 23); VAR(18, 3); VAR(19, 4); VAR(20, 6);
VAR(21, 22); VAR(22, 18); VAR(23, 14); VAR(24, 24); VAR(25, 8); VAR(26, 8); VAR(27, 4);
VAR(28, 6); VAR(29, 24); BEGIN();
RESTORE(v0, v1, v2, v3, v4, v5, v6, v7, v8, v9, v10, v11, v12, v13, v14, v15, v16, v17, v18, v19, v20, v21, v22, v23, v24, v25, v26, v27, v28, v29);
TABLE(1, 2); TABLE(2, 3); TABLE(3, 4); TABLE(4, 5); MOVE(v0, -61); MOVE(v1, 69); MOVE(v2, 87);
MOVE(v3, 89); MOVE(v4, 93); MOVE(v5, -25); MOVE(v6, 0); MOVE(v7, 0); MOVE(v0, 3);
REM(v8, v1, 997); CAST(v9, v8); MOVE(v0, v9); GLOBALA(v10, 8, 0); GLOBALA(v11, 7, 0);
GLOBALA(v12, 10, 2); GLOBALA(v13, 6, 0); GLOBALA(v14, 10, 0); GLOBALA(v15, 7, 0);
MEMBER(v16, v15, 0); MEMBER(v17, v16, 0); LOAD(v18, v17); CAST(v19, v18); REM(v8, v19, 997);
CAST(v20, v8); MOVE(v2, v20); GLOBALA(v21, 7, 0); GLOBALA(v15, 7, 0); COPY(v21, v15); LABEL(2);
CHECKPOINT(); SAVED(1, 6); GLOBALA(v22, 11, 0); LOAD(v12, v22); GLOBALA(v23, 10, 0);
STEP(v23, v23, 3); EQ(v9, v23, v12); DEC(v19, v9); STORE(v22, v23); REM(v8, v0, 997);
CAST(v9, v8); MOVE(v5, v9); LT(v19, v3, v3); DEC(v8, v19); LABEL(3); CHECKPOINT(); SAVED(2, 6);
LABEL(4); CHECKPOINT(); SAVED(3, 6); GLOBALA(v24, 0, 0); LOAD(v25, v24); MOVE(v26, v25);
MOVE(v27, 0); LABEL(0); TURN(); EQ(v9, v26, 0); IF(v9, 1); LT(v9, 6, v27); IF(v9, 1);
ADD(v27, v27, 1); MEMBER(v14, v26, 3); LOAD(v28, v14); ADD(v2, v2, v28); REM(v2, v2, 97);
LABEL(5); CHECKPOINT(); SAVED(4, 6); MEMBER(v29, v26, 5); LOAD(v26, v29); JUMP(0); LABEL(1);
MOVE(v26, 0); DEC(v19, v0); DEC(v8, v1); RETURN(42); LABEL(6);
PUSH(v0, v1, v2, v3, v4, v5, v6, v7, v8, v9, v10, v11, v12, v13, v14, v15, v16, v17, v18, v19, v20, v21, v22, v23, v24, v25, v26, v27, v28, v29);
END(); FUNCTION(2, f1, 4, 1); VAR(0, 4); VAR(1, 4); VAR(2, 4); VAR(3, 6); VAR(4, 5); VAR(5, 7);
VAR(6, 6); VAR(7, 17); VAR(8, 8); VAR(9, 18); VAR(10, 18); VAR(11, 14); VAR(12, 4); VAR(13, 6);
VAR(14, 6); VAR(15, 5); VAR(16, 4); VAR(17, 6); VAR(18, 20); VAR(19, 14); VAR(20, 4);
VAR(21, 21); VAR(22, 7); VAR(23, 7); VAR(24, 7); VAR(25, 22); VAR(26, 12); VAR(27, 19); BEGIN();
MOVE(v1, -50); MOVE(v2, -89); MOVE(v3, 64); MOVE(v4, 0); MOVE(v5, 29); MOVE(v6, -72);
MOVE(v7, 0); MOVE(v8, 0); GLOBALA(v10, 1, 0); LOAD(v11, v10); EQ(v12, v11, 0); IF(v12, 0);
LOAD(v13, v11); REM(v14, v13, 997); AND(v14, v14, 1023); CAST(v15, v14); MOVE(v4, v15);
REM(v16, v2, 997); CAST(v17, v16); STORE(v11, v17); LABEL(0); GLOBALA(v18, 10, 0);
MEMBER(v19, v18, 1); STORE(v19, 2147483647); NOT(v1, v2); REM(v1, v1, 65521); LE(v20, v0, 0);
IF(v20, 1); SUB(v12, v0, 1); CALL(v1, 2, v12); REM(v1, v1, 65521); REM(v2, v2, 997);
REM(v3, v3, 997); REM(v6, v6, 97); LABEL(1); GLOBALA(v21, 6, 2); LOAD(v22, v21);
REM(v23, v22, 997); CAST(v24, v23); MOVE(v5, v24); GLOBALA(v25, 7, 0); LOCAL(v26, v2, 0);
GLOBALA(v27, 3, 0); STORE(v27, v26); RETURN(v1); END();",
        le64: Outcome {
            end: End::Done(42),
            turns: 2,
            output: "006969",
        },
        be32: Outcome {
            end: End::Done(42),
            turns: 2,
            output: "006969",
        },
        be32p: Outcome {
            end: End::Done(42),
            turns: 2,
            output: "006969",
        },
    },
    // a generated program
    Program {
        start: Start::Nothing,
        rest: "POINTER(8, 11); ARRAY(9, 2, 2); ARRAY(10, 3, 3); STRUCT(11, 6, 1, 8); STRUCT(12, 3);
ARRAY(13, 2, 3); POINTER(14, 4); POINTER(15, 6); ARRAY(16, 2, 4); POINTER(17, 2);
ARRAY(18, 0, 5); POINTER(19, 3); POINTER(20, 14); POINTER(21, 8); GLOBAL(0, 8); GLOBAL(1, 14);
GLOBAL(2, 14); GLOBAL(3, 14); GLOBAL(4, 15); GLOBAL(5, 8); GLOBAL(6, 10); INIT(6, 0, 1);
GLOBAL(7, 0); GLOBAL(8, 6); INIT(8, 0, 1610491735); GLOBAL(9, 16); GLOBAL(10, 17);
GLOBAL(11, 18); INIT(11, 0, 104); INIT(11, 1, 119); INIT(11, 2, 113); INIT(11, 3, 111);
FUNCTION(0, f0, 6, 2); VAR(0, 4); VAR(1, 14); VAR(2, 4); VAR(3, 4); VAR(4, 6); VAR(5, 5);
VAR(6, 7); VAR(7, 6); VAR(8, 14); VAR(9, 8); VAR(10, 4); VAR(11, 4); VAR(12, 14); VAR(13, 19);
VAR(14, 3); VAR(15, 4); VAR(16, 7); VAR(17, 4); VAR(18, 20); VAR(19, 14); VAR(20, 6);
VAR(21, 14); VAR(22, 14); VAR(23, 20); VAR(24, 20); VAR(25, 15); VAR(26, 6); VAR(27, 6);
VAR(28, 17); VAR(29, 17); BEGIN();
RESTORE(v0, v1, v2, v3, v4, v5, v6, v7, v8, v9, v10, v11, v12, v13, v14, v15, v16, v17, v18, v19, v20, v21, v22, v23, v24, v25, v26, v27, v28, v29);
TABLE(1, 4); TABLE(2, 5); MOVE(v2, -81); MOVE(v3, -36); MOVE(v4, 93); MOVE(v5, 83);
MOVE(v6, 52); MOVE(v7, -93); MOVE(v8, 0); MOVE(v9, 0); LE(v10, v0, 0); IF(v10, 0);
SUB(v11, v0, 1); LOCAL(v12, v2, 0); LABEL(4); CALL(_, 0, v11, v12); SAVED(1, 6);
REM(v2, v2, 97); REM(v3, v3, 7); REM(v4, v4, 65521); REM(v7, v7, 7); LABEL(0);
GLOBALA(v13, 6, 1); LOAD(v14, v13); CAST(v15, v14); REM(v10, v15, 997); AND(v10, v10, 1023);
CAST(v16, v10); MOVE(v6, v16); LABEL(5); CHECKPOINT(); SAVED(2, 6); MOVE(v17, 0); JUMP(2);
LABEL(1); TURN(); GLOBALA(v18, 2, 0); LOAD(v19, v18); EQ(v11, v19, 0); IF(v11, 3);
LOAD(v15, v19); REM(v10, v15, 997); CAST(v11, v10); MOVE(v3, v11); REM(v20, v4, 997);
CAST(v15, v20); STORE(v19, v15); LABEL(3); MOVE(v21, v19); LOCAL(v22, v3, 0); STORE(v18, v22);
GLOBALA(v24, 2, 0); STORE(v24, v21); REM(v3, v3, 65521); GLOBALA(v25, 8, 0); LOAD(v26, v25);
REM(v27, v26, 997); CAST(v20, v27); MOVE(v7, v20); GLOBALA(v28, 9, 0); GLOBALA(v29, 9, 3);
DIFF(v26, v28, v29); DEC(v10, v26); LE(v10, v28, v29); DEC(v11, v10); ADD(v17, v17, 1);
LABEL(2); LT(v15, v17, 3); IF(v15, 1); RETURN(v4); LABEL(6);
PUSH(v0, v1, v2, v3, v4, v5, v6, v7, v8, v9, v10, v11, v12, v13, v14, v15, v16, v17, v18, v19, v20, v21, v22, v23, v24, v25, v26, v27, v28, v29);
END(); FUNCTION(1, main, 4, 0); VAR(0, 4); VAR(1, 4); VAR(2, 6); VAR(3, 5); VAR(4, 7);
VAR(5, 4); VAR(6, 15); VAR(7, 8); VAR(8, 21); VAR(9, 8); VAR(10, 8); VAR(11, 4); VAR(12, 4);
VAR(13, 6); VAR(14, 15); VAR(15, 21); VAR(16, 4); VAR(17, 4); VAR(18, 4); VAR(19, 20);
VAR(20, 14); VAR(21, 7); VAR(22, 19); VAR(23, 3); VAR(24, 4); VAR(25, 20); VAR(26, 14);
VAR(27, 5); VAR(28, 14); VAR(29, 6); VAR(30, 6); VAR(31, 15); VAR(32, 20); BEGIN();
RESTORE(v0, v1, v2, v3, v4, v5, v6, v7, v8, v9, v10, v11, v12, v13, v14, v15, v16, v17, v18, v19, v20, v21, v22, v23, v24, v25, v26, v27, v28, v29, v30, v31, v32);
TABLE(1, 12); TABLE(2, 13); TABLE(3, 14); MOVE(v0, -31); MOVE(v1, -79); MOVE(v2, -96);
MOVE(v3, 22); MOVE(v4, 74); MOVE(v5, -91); MOVE(v6, 0); MOVE(v7, 0); MOVE(v0, 3);
GLOBALA(v8, 0, 0); LOAD(v9, v8); MOVE(v10, v9); MOVE(v11, 0); LABEL(0); TURN(); EQ(v12, v10, 0);
IF(v12, 1); LT(v12, 6, v11); IF(v12, 1); ADD(v11, v11, 1); MEMBER(v14, v10, 0); LOAD(v13, v14);
ADD(v2, v2, v13); REM(v2, v2, 7); MEMBER(v15, v10, 2); LOAD(v10, v15); JUMP(0); LABEL(1);
MOVE(v10, 0); LT(v16, v5, 9); IF(v16, 2); MOVE(v17, 0); JUMP(5); LABEL(4); TURN();
ADD(v17, v17, 1); LABEL(5); LT(v18, v17, 1); IF(v18, 4); JUMP(3); LABEL(2); LABEL(12);
CHECKPOINT(); SAVED(1, 15); GLOBALA(v19, 1, 0); LOAD(v20, v19); EQ(v12, v20, 0); IF(v12, 6);
LOAD(v16, v20); REM(v18, v16, 997); AND(v18, v18, 1023); CAST(v21, v18); MOVE(v4, v21);
REM(v12, v5, 997); CAST(v16, v12); STORE(v20, v16); LABEL(6); LABEL(3); LABEL(13); CHECKPOINT();
SAVED(2, 15); GLOBALA(v22, 6, 2); LOAD(v23, v22); CAST(v18, v23); REM(v12, v18, 997);
CAST(v16, v12); MOVE(v5, v16); MOVE(v24, 0); JUMP(8); LABEL(7); TURN(); ADD(v24, v24, 1);
LABEL(8); LT(v18, v24, 1); IF(v18, 7); GLOBALA(v25, 2, 0); LOAD(v26, v25); EQ(v12, v26, 0);
IF(v12, 9); LOAD(v16, v26); REM(v18, v16, 997); CAST(v12, v18); MOVE(v1, v12);
REM(v27, v3, 997); CAST(v16, v27); STORE(v26, v16); LABEL(9); LOCAL(v28, v5, 0); LABEL(14);
CALL(v2, 0, 1, v28); SAVED(3, 15); REM(v0, v0, 97); REM(v1, v1, 97); REM(v2, v2, 97);
REM(v5, v5, 997); LABEL(10); EQ(v12, v6, 0); IF(v12, 11); LOAD(v29, v6); REM(v30, v29, 997);
CAST(v16, v30); MOVE(v5, v16); REM(v18, v1, 997); CAST(v13, v18); STORE(v6, v13); LABEL(11);
GLOBALA(v31, 8, 0); MOVE(v6, v31); DEC(v12, v0); DEC(v16, v1); LOCAL(v20, v1, 0);
GLOBALA(v32, 3, 0); STORE(v32, v20); RETURN(42); LABEL(15);
PUSH(v0, v1, v2, v3, v4, v5, v6, v7, v8, v9, v10, v11, v12, v13, v14, v15, v16, v17, v18, v19, v20, v21, v22, v23, v24, v25, v26, v27, v28, v29, v30, v31, v32);
END();",
        le64: Outcome {
            end: End::Done(42),
            turns: 11,
            output: "-31-31-31-31-31-313-79",
        },
        be32: Outcome {
            end: End::Done(42),
            turns: 11,
            output: "-31-31-31-31-31-313-79",
        },
        be32p: Outcome {
            end: End::Done(42),
            turns: 11,
            output: "-31-31-31-31-31-313-79",
        },
    },
    // a generated program
    Program {
        start: Start::Nothing,
        rest: "POINTER(8, 10); ARRAY(9, 7, 4); STRUCT(10, 6, 1, 8); POINTER(11, 4); STRUCT(12, 3, 6, 2);
ARRAY(13, 6, 2); ARRAY(14, 13, 1); POINTER(15, 6); ARRAY(16, 2, 4); POINTER(17, 2);
ARRAY(18, 0, 4); POINTER(19, 7); POINTER(20, 8); POINTER(21, 15); POINTER(22, 11); GLOBAL(0, 8);
GLOBAL(1, 15); GLOBAL(2, 11); GLOBAL(3, 11); GLOBAL(4, 15); GLOBAL(5, 8); GLOBAL(6, 0);
GLOBAL(7, 9); GLOBAL(8, 9); INIT(8, 0, 1); GLOBAL(9, 9); INIT(9, 3, 70); GLOBAL(10, 16);
GLOBAL(11, 17); GLOBAL(12, 18); INIT(12, 0, 120); INIT(12, 1, 115); INIT(12, 2, 120);
FUNCTION(0, f0, void, 2); VAR(0, 4); VAR(1, 15); VAR(2, 4); VAR(3, 4); VAR(4, 6); VAR(5, 5);
VAR(6, 7); VAR(7, 4); VAR(8, 11); VAR(9, 8); VAR(10, 19); VAR(11, 4); VAR(12, 4); VAR(13, 4);
VAR(14, 5); VAR(15, 6); BEGIN(); MOVE(v2, -18); MOVE(v3, -95); MOVE(v4, 45); MOVE(v5, 12);
MOVE(v6, 46); MOVE(v7, -65); MOVE(v8, 0); MOVE(v9, 0); GLOBALA(v10, 7, 2);
STORE(v10, 3435352548); EQ(v11, v8, 0); IF(v11, 0); LOAD(v12, v8); REM(v13, v12, 997);
AND(v13, v13, 1023); CAST(v14, v13); MOVE(v5, v14); REM(v15, v4, 997); CAST(v11, v15);
STORE(v8, v11); LABEL(0); END(); FUNCTION(1, main, 4, 0); VAR(0, 4); VAR(1, 4); VAR(2, 6);
VAR(3, 5); VAR(4, 7); VAR(5, 6); VAR(6, 15); VAR(7, 8); VAR(8, 20); VAR(9, 8); VAR(10, 8);
VAR(11, 4); VAR(12, 4); VAR(13, 6); VAR(14, 15); VAR(15, 20); VAR(16, 4); VAR(17, 4);
VAR(18, 15); VAR(19, 4); VAR(20, 6); VAR(21, 6); VAR(22, 15); VAR(23, 21); VAR(24, 20);
VAR(25, 8); VAR(26, 8); VAR(27, 4); VAR(28, 7); VAR(29, 19); VAR(30, 7); VAR(31, 7);
VAR(32, 11); VAR(33, 22); BEGIN();
RESTORE(v0, v1, v2, v3, v4, v5, v6, v7, v8, v9, v10, v11, v12, v13, v14, v15, v16, v17, v18, v19, v20, v21, v22, v23, v24, v25, v26, v27, v28, v29, v30, v31, v32, v33);
TABLE(1, 10); TABLE(2, 11); MOVE(v0, 73); MOVE(v1, 97); MOVE(v2, -74); MOVE(v3, 16);
MOVE(v4, 31); MOVE(v5, 31); MOVE(v6, 0); MOVE(v7, 0); MOVE(v0, 3); GLOBALA(v8, 0, 0);
LOAD(v9, v8); MOVE(v10, v9); MOVE(v11, 0); LABEL(0); TURN(); EQ(v12, v10, 0); IF(v12, 1);
LT(v12, 6, v11); IF(v12, 1); ADD(v11, v11, 1); MEMBER(v14, v10, 0); LOAD(v13, v14);
ADD(v5, v5, v13); REM(v5, v5, 7); MEMBER(v15, v10, 2); LOAD(v10, v15); JUMP(0); LABEL(1);
MOVE(v10, 0); MOVE(v16, 0); JUMP(3); LABEL(2); TURN(); LOCAL(v18, v2, 0); CALL(_, 0, 1, v18);
REM(v0, v0, 997); REM(v1, v1, 97); REM(v2, v2, 97); REM(v5, v5, 7); LABEL(4); ADD(v16, v16, 1);
LABEL(3); LT(v19, v16, 4); IF(v19, 2); EQ(v12, v6, 0); IF(v12, 5); LOAD(v20, v6);
REM(v21, v20, 997); CAST(v17, v21); MOVE(v1, v17); REM(v19, v1, 997); CAST(v13, v19);
STORE(v6, v13); LABEL(5); LOCAL(v22, v5, 0); CALL(_, 0, 1, v22); REM(v0, v0, 997);
REM(v1, v1, 65521); REM(v2, v2, 97); REM(v5, v5, 7); LABEL(6); REM(v3, 613, 38);
REM(v3, v3, 997); GLOBALA(v24, 0, 0); LOAD(v25, v24); MOVE(v26, v25); MOVE(v27, 0); LABEL(7);
TURN(); EQ(v17, v26, 0); IF(v17, 8); LT(v17, 6, v27); IF(v17, 8); ADD(v27, v27, 1);
MEMBER(v14, v26, 0); LOAD(v20, v14); ADD(v2, v2, v20); REM(v2, v2, 997); LABEL(10);
CHECKPOINT(); SAVED(1, 12); MEMBER(v8, v26, 2); LOAD(v26, v8); JUMP(7); LABEL(8); MOVE(v26, 0);
REM(v19, v0, 997); AND(v19, v19, 1023); CAST(v28, v19); MOVE(v4, v28); GLOBALA(v29, 9, 1);
LOAD(v30, v29); REM(v31, v30, 997); CAST(v21, v31); MOVE(v2, v21); EQ(v12, v6, 0); IF(v12, 9);
LOAD(v13, v6); REM(v20, v13, 997); CAST(v17, v20); MOVE(v1, v17); REM(v21, v2, 997);
CAST(v13, v21); STORE(v6, v13); LABEL(9); LABEL(11); CHECKPOINT(); SAVED(2, 12); DEC(v19, v0);
DEC(v12, v1); LOCAL(v32, v1, 0); GLOBALA(v33, 3, 0); STORE(v33, v32); RETURN(1); LABEL(12);
PUSH(v0, v1, v2, v3, v4, v5, v6, v7, v8, v9, v10, v11, v12, v13, v14, v15, v16, v17, v18, v19, v20, v21, v22, v23, v24, v25, v26, v27, v28, v29, v30, v31, v32, v33);
END();",
        le64: Outcome {
            end: End::Done(1),
            turns: 12,
            output: "30",
        },
        be32: Outcome {
            end: End::Done(1),
            turns: 12,
            output: "30",
        },
        be32p: Outcome {
            end: End::Done(1),
            turns: 12,
            output: "30",
        },
    },
    // a generated program with steps that may meet an act
    Program {
        start: Start::Nothing,
        rest: "POINTER(8, 10); ARRAY(9, 7, 2); STRUCT(10, 6, 6, 4, 2, 8, 0); POINTER(11, 0); ARRAY(12, 0, 2);
STRUCT(13, 12, 4); POINTER(14, 6); POINTER(15, 4); ARRAY(16, 4, 5); ARRAY(17, 0, 7);
POINTER(18, 2); POINTER(19, 8); POINTER(20, 15); POINTER(21, 14); GLOBAL(0, 8); GLOBAL(1, 14);
GLOBAL(2, 15); GLOBAL(3, 15); GLOBAL(4, 14); GLOBAL(5, 8); GLOBAL(6, 6); INIT(6, 0, 2147483647);
GLOBAL(7, 6); INIT(7, 0, 1016558145); GLOBAL(8, 6); GLOBAL(9, 16); INIT(9, 0, -2147483648);
INIT(9, 4, 1); GLOBAL(10, 15); GLOBAL(11, 17); INIT(11, 0, 119); INIT(11, 1, 99);
INIT(11, 2, 122); INIT(11, 3, 115); INIT(11, 4, 107); INIT(11, 5, 101); FUNCTION(0, f0, 4, 2);
VAR(0, 4); VAR(1, 0); VAR(2, 4); VAR(3, 4); VAR(4, 6); VAR(5, 5); VAR(6, 7); VAR(7, 4);
VAR(8, 2); VAR(9, 18); VAR(10, 15); VAR(11, 8); VAR(12, 19); VAR(13, 8); VAR(14, 4); VAR(15, 8);
VAR(16, 19); VAR(17, 14); VAR(18, 20); VAR(19, 15); VAR(20, 15); VAR(21, 4); VAR(22, 4);
VAR(23, 15); VAR(24, 20); BEGIN(); MOVE(v2, -34); MOVE(v3, 98); MOVE(v4, -53); MOVE(v5, 52);
MOVE(v6, 79); MOVE(v7, -54); LOCAL(v9, v8, 0); STORE(v9, -32768); MOVE(v10, 0); MOVE(v11, 0);
GLOBALA(v12, 0, 0); LOAD(v13, v12); EQ(v14, v13, 0); IF(v14, 0); MEMBER(v16, v13, 4);
LOAD(v15, v16); STORE(v12, v15); FREE(v13); LABEL(0); GLOBALA(v17, 8, 0);
STORE(v17, 2147483647); GLOBALA(v18, 10, 0); LOAD(v20, v18); GLOBALA(v19, 9, 0);
STEP(v19, v19, 5); EQ(v21, v19, v20); DEC(v22, v21); STORE(v18, v19); LOCAL(v23, v3, 0);
GLOBALA(v24, 3, 0); STORE(v24, v23); RETURN(v2); END(); FUNCTION(1, main, 4, 0); VAR(0, 4);
VAR(1, 4); VAR(2, 6); VAR(3, 5); VAR(4, 7); VAR(5, 6); VAR(6, 15); VAR(7, 8); VAR(8, 15);
VAR(9, 4); VAR(10, 4); VAR(11, 4); VAR(12, 4); VAR(13, 21); VAR(14, 14); VAR(15, 4); VAR(16, 6);
VAR(17, 4); VAR(18, 4); VAR(19, 20); VAR(20, 15); VAR(21, 21); VAR(22, 14); VAR(23, 6);
VAR(24, 19); VAR(25, 8); VAR(26, 19); VAR(27, 8); VAR(28, 8); VAR(29, 19); VAR(30, 21);
VAR(31, 14); VAR(32, 11); VAR(33, 14); VAR(34, 6); BEGIN();
RESTORE(v0, v1, v2, v3, v4, v5, v6, v7, v8, v9, v10, v11, v12, v13, v14, v15, v16, v17, v18, v19, v20, v21, v22, v23, v24, v25, v26, v27, v28, v29, v30, v31, v32, v33, v34);
TABLE(1, 11); MOVE(v0, -64); MOVE(v1, -1); MOVE(v2, 2); MOVE(v3, 6); MOVE(v4, 58); MOVE(v5, 2);
MOVE(v6, 0); MOVE(v7, 0); MOVE(v0, 3); GLOBALA(v8, 9, 4); REM(v9, v1, 997); CAST(v10, v9);
STORE(v8, v10); LABEL(11); CHECKPOINT(); SAVED(1, 12); SHL(v1, v1, 3); REM(v1, v1, 65521);
MOVE(v11, 0); JUMP(1); LABEL(0); TURN(); KILL(v12); MOVE(v12, v11); GLOBALA(v14, 6, 0);
GLOBALA(v13, 1, 0); STORE(v13, v14); REM(v15, v0, 997); CAST(v16, v15); MOVE(v2, v16);
ADD(v11, v11, 1); LABEL(1); LT(v9, v11, 4); IF(v9, 0); SHR(v4, 665, 1); REM(v4, v4, 97);
CALL(v1, 0, 3, -74); REM(v0, v0, 7); REM(v1, v1, 7); REM(v2, v2, 997); REM(v5, v5, 997);
LABEL(2); LE(v15, v4, 352); DEC(v9, v15); MOVE(v17, 0); JUMP(4); LABEL(3); TURN(); MOVE(v18, 0);
JUMP(6); LABEL(5); TURN(); GLOBALA(v19, 3, 0); LOAD(v20, v19); STORE(v20, 77); LOAD(v10, v20);
DEC(v15, v10); GLOBALA(v21, 4, 0); LOAD(v22, v21); STORE(v22, 77); LOAD(v23, v22); DEC(v9, v23);
GLOBALA(v24, 5, 0); LOAD(v25, v24); LT(v10, v5, 32); IF(v10, 7); GLOBALA(v26, 0, 0);
LOAD(v27, v26); EQ(v15, v27, 0); IF(v15, 9); MEMBER(v29, v27, 4); LOAD(v28, v29);
STORE(v26, v28); GLOBALA(v24, 5, 0); STORE(v24, v27); GLOBALA(v30, 4, 0); MEMBER(v31, v27, 0);
STORE(v30, v31); FREE(v27); LABEL(9); JUMP(8); LABEL(7); CALL(v0, 0, 0, -71); REM(v0, v0, 997);
REM(v1, v1, 97); REM(v2, v2, 65521); REM(v5, v5, 997); LABEL(10); LABEL(8); ADD(v18, v18, 1);
LABEL(6); LT(v10, v18, 1); IF(v10, 5); GLOBALA(v32, 11, 0); TEXT(v15, v32); ADD(v1, v1, v15);
REM(v1, v1, 997); SUB(v4, 0, v4); ADD(v17, v17, 1); LABEL(4); LT(v9, v17, 4); IF(v9, 3);
CALLOC(v33, 1); STEP(v14, v33, 0); LOAD(v34, v14); REM(v16, v34, 997); CAST(v23, v16);
MOVE(v2, v23); REM(v10, v1, 997); CAST(v34, v10); STORE(v14, v34); DEC(v15, v0); DEC(v9, v1);
RETURN(1); LABEL(12);
PUSH(v0, v1, v2, v3, v4, v5, v6, v7, v8, v9, v10, v11, v12, v13, v14, v15, v16, v17, v18, v19, v20, v21, v22, v23, v24, v25, v26, v27, v28, v29, v30, v31, v32, v33, v34);
END();",
        le64: Outcome {
            end: End::Trap(Act::Address),
            turns: 8,
            output: "01",
        },
        be32: Outcome {
            end: End::Trap(Act::Address),
            turns: 8,
            output: "01",
        },
        be32p: Outcome {
            end: End::Trap(Act::Address),
            turns: 8,
            output: "01",
        },
    },
    // a generated program
    Program {
        start: Start::Nothing,
        rest: "POINTER(8, 11); ARRAY(9, 4, 1); ARRAY(10, 5, 2); STRUCT(11, 6, 0, 8, 0); POINTER(12, 6);
ARRAY(13, 3, 3); STRUCT(14, 1, 10, 5); STRUCT(15, 7); POINTER(16, 4); ARRAY(17, 4, 5);
ARRAY(18, 0, 7); POINTER(19, 16); POINTER(20, 2); POINTER(21, 8); POINTER(22, 17); GLOBAL(0, 8);
GLOBAL(1, 12); GLOBAL(2, 16); GLOBAL(3, 16); GLOBAL(4, 12); GLOBAL(5, 8); GLOBAL(6, 4);
INIT(6, 0, 2147483647); GLOBAL(7, 15); INIT(7, 0, 4294967295); GLOBAL(8, 0); GLOBAL(9, 17);
INIT(9, 1, -2147483648); INIT(9, 3, 1); INIT(9, 4, 21); GLOBAL(10, 16); GLOBAL(11, 18);
INIT(11, 0, 121); INIT(11, 1, 99); INIT(11, 2, 112); INIT(11, 3, 118); INIT(11, 4, 98);
INIT(11, 5, 118); FUNCTION(0, f0, 4, 1); VAR(0, 4); VAR(1, 4); VAR(2, 4); VAR(3, 6); VAR(4, 5);
VAR(5, 7); VAR(6, 6); VAR(7, 12); VAR(8, 8); VAR(9, 4); VAR(10, 4); VAR(11, 16); VAR(12, 4);
VAR(13, 16); VAR(14, 19); BEGIN(); MOVE(v1, -2); MOVE(v2, 43); MOVE(v3, -84); MOVE(v4, 19);
MOVE(v5, 70); MOVE(v6, 58); MOVE(v7, 0); MOVE(v8, 0); LE(v9, v0, 0); IF(v9, 0); SUB(v10, v0, 1);
CALL(v1, 0, v10); REM(v1, v1, 97); REM(v2, v2, 7); REM(v3, v3, 65521); REM(v6, v6, 997);
LABEL(0); GLOBALA(v11, 9, 1); LOAD(v12, v11); REM(v9, v12, 997); CAST(v10, v9); MOVE(v1, v10);
LOCAL(v13, v2, 0); GLOBALA(v14, 3, 0); STORE(v14, v13); RETURN(v1); END();
FUNCTION(1, main, 4, 0); VAR(0, 4); VAR(1, 4); VAR(2, 6); VAR(3, 5); VAR(4, 7); VAR(5, 6);
VAR(6, 9); VAR(7, 16); VAR(8, 2); VAR(9, 20); VAR(10, 16); VAR(11, 8); VAR(12, 4); VAR(13, 4);
VAR(14, 4); VAR(15, 16); VAR(16, 6); VAR(17, 16); VAR(18, 21); VAR(19, 8); VAR(20, 8);
VAR(21, 21); VAR(22, 12); VAR(23, 6); VAR(24, 12); VAR(25, 21); VAR(26, 4); VAR(27, 4);
VAR(28, 12); VAR(29, 12); VAR(30, 6); VAR(31, 22); VAR(32, 16); VAR(33, 16); BEGIN();
RESTORE(v0, v1, v2, v3, v4, v5, v6, v7, v8, v9, v10, v11, v12, v13, v14, v15, v16, v17, v18, v19, v20, v21, v22, v23, v24, v25, v26, v27, v28, v29, v30, v31, v32, v33);
TABLE(1, 5); TABLE(2, 6); TABLE(3, 7); MOVE(v0, 23); MOVE(v1, -4); MOVE(v2, -27); MOVE(v3, 10);
MOVE(v4, 65); MOVE(v5, 91); LOCAL(v7, v6, 0); STORE(v7, -6); LOCAL(v9, v8, 0);
STORE(v9, -32768); MOVE(v10, 0); MOVE(v11, 0); MOVE(v0, 3); NE(v12, 481, 638); DEC(v13, v12);
GLOBALA(v15, 6, 0); LOAD(v12, v15); DEC(v14, v12); ADD(v1, v1, v14); REM(v1, v1, 997);
EQ(v13, v10, 0); IF(v13, 0); LOAD(v14, v10); REM(v12, v14, 997); CAST(v16, v12); MOVE(v2, v16);
REM(v13, v0, 997); CAST(v14, v13); STORE(v10, v14); LABEL(0); GLOBALA(v17, 9, 3);
LOAD(v13, v17); DEC(v12, v13); ADD(v1, v1, v12); REM(v1, v1, 7); GLOBALA(v18, 0, 0);
LOAD(v19, v18); CALLOC(v11, 2); STEP(v20, v11, 0); MEMBER(v21, v11, 2); STORE(v21, 0);
MEMBER(v22, v11, 0); STORE(v22, 5); REM(v14, v0, 997); CAST(v23, v14); MEMBER(v24, v20, 0);
STORE(v24, v23); MEMBER(v25, v11, 2); STORE(v25, v19); STORE(v18, v11); MOVE(v26, 0); JUMP(2);
LABEL(1); TURN(); KILL(v27); MOVE(v27, v26); CALLOC(v28, 1); STEP(v29, v28, 0); LOAD(v30, v29);
REM(v16, v30, 997); CAST(v12, v16); MOVE(v0, v12); REM(v23, v5, 997); CAST(v30, v23);
STORE(v29, v30); LABEL(5); CHECKPOINT(); SAVED(1, 8); FREE(v28); XOR(v0, v0, 836);
REM(v0, v0, 7); ADD(v26, v26, 1); LABEL(2); LT(v13, v26, 3); IF(v13, 1); GLOBALA(v7, 9, 0);
GLOBALA(v15, 9, 0); DIFF(v16, v7, v15); DEC(v14, v16); LT(v14, v7, v15); DEC(v12, v14);
LABEL(6); CHECKPOINT(); SAVED(2, 8); GLOBALA(v17, 9, 2); LOCAL(v7, v6, 0); GLOBALA(v15, 9, 4);
GLOBALA(v31, 9, 0); MEMBER(v17, v31, 0); MOVE(v32, v17); STEP(v33, v32, 5); JUMP(4); LABEL(3);
TURN(); LOAD(v13, v32); REM(v13, v13, 97); ADD(v13, v13, 1); STORE(v32, v13); DEC(v14, v13);
LABEL(7); CHECKPOINT(); SAVED(3, 8); STEP(v32, v32, 1); LABEL(4); NE(v12, v32, v33); IF(v12, 3);
BACK(v32, v32, 1); DIFF(v23, v33, v32); DEC(v13, v23); DEC(v14, v0); DEC(v12, v1); RETURN(42);
LABEL(8);
PUSH(v0, v1, v2, v3, v4, v5, v6, v7, v8, v9, v10, v11, v12, v13, v14, v15, v16, v17, v18, v19, v20, v21, v22, v23, v24, v25, v26, v27, v28, v29, v30, v31, v32, v33);
END();",
        le64: Outcome {
            end: End::Done(42),
            turns: 9,
            output: "121474836471001-651222130",
        },
        be32: Outcome {
            end: End::Done(42),
            turns: 9,
            output: "121474836471001-651222130",
        },
        be32p: Outcome {
            end: End::Done(42),
            turns: 9,
            output: "121474836471001-651222130",
        },
    },
];
