//! Long programs that a generator made, with checkpoints, calls, loops and pointers.
//! The programs are texts without their head lines. A blank or a newline stands between two lines.

use crate::ends::{End, Program, Start};
use porch_flat::whole::FlatRule;

/// The programs, with how they end.
pub(crate) static MADE_FIVE: [Program; 2] = [
    // 306 lines, some of which may meet an act
    Program {
        start: Start::Nothing,
        rest: "POINTER(8, 10); ARRAY(9, 2, 2); STRUCT(10, 6, 0, 4, 6, 8, 0); ARRAY(11, 9, 3); STRUCT(12, 5, 5);
POINTER(13, 0); ARRAY(14, 6, 3); POINTER(15, 6); POINTER(16, 4); ARRAY(17, 4, 2); ARRAY(18, 0, 4);
POINTER(19, 2); POINTER(20, 9); POINTER(21, 15); POINTER(22, 16); POINTER(23, 12); POINTER(24, 5);
POINTER(25, 17); GLOBAL(0, 8); GLOBAL(1, 15); GLOBAL(2, 16); GLOBAL(3, 16); GLOBAL(4, 15);
GLOBAL(5, 8); GLOBAL(6, 6); INIT(6, 0, -25); GLOBAL(7, 4); INIT(7, 0, -15); GLOBAL(8, 12);
GLOBAL(9, 17); INIT(9, 1, -20); GLOBAL(10, 16); GLOBAL(11, 18); INIT(11, 0, 102);
INIT(11, 1, 109); INIT(11, 2, 120); FUNCTION(0, f0, 6, 2); VAR(0, 4); VAR(1, 0); VAR(2, 4);
VAR(3, 4); VAR(4, 6); VAR(5, 5); VAR(6, 7); VAR(7, 6); VAR(8, 9); VAR(9, 19); VAR(10, 19);
VAR(11, 11); VAR(12, 19); VAR(13, 15); VAR(14, 8); VAR(15, 20); VAR(16, 2); VAR(17, 4);
VAR(18, 4); VAR(19, 6); VAR(20, 4); VAR(21, 4); VAR(22, 16); VAR(23, 16); VAR(24, 6); VAR(25, 4);
VAR(26, 21); VAR(27, 15); VAR(28, 16); VAR(29, 22); BEGIN();
RESTORE(v0, v1, v2, v3, v4, v5, v6, v7, v8, v9, v10, v11, v12, v13, v14, v15, v16, v17, v18, v19, v20, v21, v22, v23, v24, v25, v26, v27, v28, v29);
TABLE(1, 5); TABLE(2, 6); MOVE(v2, -41); MOVE(v3, 46); MOVE(v4, 91); MOVE(v5, 44); MOVE(v6, 85);
MOVE(v7, -88); LOCAL(v9, v8, 0); STORE(v9, -27); LOCAL(v10, v8, 1); STORE(v10, 1);
LOCAL(v12, v11, 0); STORE(v12, 74); LOCAL(v9, v11, 1); STORE(v9, -3); LOCAL(v10, v11, 2);
STORE(v10, -23884); LOCAL(v12, v11, 3); STORE(v12, 29092); LOCAL(v9, v11, 4); STORE(v9, 42);
LOCAL(v10, v11, 5); STORE(v10, 87); MOVE(v13, 0); MOVE(v14, 0); LABEL(5); CHECKPOINT();
SAVED(1, 7); LOCAL(v15, v11, 0); MEMBER(v12, v15, 1); LOAD(v16, v12); CAST(v17, v16);
REM(v18, v17, 997); CAST(v19, v18); MOVE(v7, v19); MOVE(v20, 0); JUMP(1); LABEL(0); TURN();
MOVE(v21, 0); JUMP(3); LABEL(2); TURN(); GLOBALA(v22, 9, 0); GLOBALA(v23, 9, 1);
DIFF(v24, v22, v23); DEC(v25, v24); EQ(v25, v22, v23); DEC(v17, v25); LE(v18, v0, 0); IF(v18, 4);
SUB(v25, v0, 1); LABEL(6); CALL(v7, 0, v25, -65); SAVED(2, 7); REM(v2, v2, 65521);
REM(v3, v3, 97); REM(v4, v4, 97); REM(v7, v7, 7); LABEL(4); ADD(v21, v21, 1); LABEL(3);
LT(v17, v21, 2); IF(v17, 2); REM(v18, v2, 997); CAST(v25, v18); MOVE(v3, v25); GLOBALA(v27, 6, 0);
GLOBALA(v26, 1, 0); STORE(v26, v27); ADD(v20, v20, 1); LABEL(1); LT(v17, v20, 2); IF(v17, 0);
LOCAL(v28, v3, 0); GLOBALA(v29, 3, 0); STORE(v29, v28); RETURN(v4); LABEL(7);
PUSH(v0, v1, v2, v3, v4, v5, v6, v7, v8, v9, v10, v11, v12, v13, v14, v15, v16, v17, v18, v19, v20, v21, v22, v23, v24, v25, v26, v27, v28, v29);
END(); FUNCTION(1, main, 4, 0); VAR(0, 4); VAR(1, 4); VAR(2, 6); VAR(3, 5); VAR(4, 7); VAR(5, 6);
VAR(6, 12); VAR(7, 24); VAR(8, 24); VAR(9, 9); VAR(10, 19); VAR(11, 19); VAR(12, 16); VAR(13, 8);
VAR(14, 16); VAR(15, 16); VAR(16, 22); VAR(17, 15); VAR(18, 15); VAR(19, 21); VAR(20, 21);
VAR(21, 15); VAR(22, 16); VAR(23, 4); VAR(24, 4); VAR(25, 4); VAR(26, 25); VAR(27, 21);
VAR(28, 6); VAR(29, 6); VAR(30, 6); VAR(31, 7); BEGIN(); MOVE(v0, -2); MOVE(v1, -39);
MOVE(v2, 50); MOVE(v3, 64); MOVE(v4, 1); MOVE(v5, -20); LOCAL(v7, v6, 0); STORE(v7, 4294967295);
LOCAL(v8, v6, 1); STORE(v8, 4294967295); LOCAL(v10, v9, 0); STORE(v10, 32767); LOCAL(v11, v9, 1);
STORE(v11, -32768); MOVE(v12, 0); MOVE(v13, 0); MOVE(v0, 3); GLOBALA(v14, 7, 0);
STEP(v15, v14, 1); GLOBALA(v16, 3, 0); STORE(v16, v15); GLOBALA(v17, 6, 0); STEP(v18, v17, 1);
GLOBALA(v19, 4, 0); STORE(v19, v18); GLOBALA(v21, 6, 0); GLOBALA(v20, 1, 0); STORE(v20, v21);
GLOBALA(v22, 7, 0); MOVE(v12, v22); GLOBALA(v14, 9, 0); STORE(v14, -2147483648); EQ(v23, v12, 0);
IF(v23, 0); LOAD(v24, v12); REM(v25, v24, 997); CAST(v23, v25); MOVE(v1, v23); REM(v24, v0, 997);
CAST(v25, v24); STORE(v12, v25); LABEL(0); GLOBALA(v15, 7, 0); MOVE(v12, v15); GLOBALA(v26, 9, 0);
MEMBER(v22, v26, 0); LOAD(v23, v22); REM(v24, v23, 997); CAST(v25, v24); MOVE(v1, v25);
GLOBALA(v27, 1, 0); LOAD(v17, v27); EQ(v23, v17, 0); IF(v23, 1); LOAD(v28, v17);
REM(v29, v28, 997); CAST(v30, v29); MOVE(v2, v30); REM(v28, v5, 997); CAST(v29, v28);
STORE(v17, v29); LABEL(1); GLOBALA(v14, 9, 0); LOAD(v24, v14); REM(v25, v24, 997);
AND(v25, v25, 1023); CAST(v31, v25); MOVE(v4, v31); DEC(v23, v0); DEC(v24, v1); RETURN(0); END();
FUNCTION(2, f1, 4, 1); VAR(0, 4); VAR(1, 4); VAR(2, 4); VAR(3, 6); VAR(4, 5); VAR(5, 7);
VAR(6, 6); VAR(7, 9); VAR(8, 19); VAR(9, 19); VAR(10, 15); VAR(11, 8); VAR(12, 23); VAR(13, 16);
VAR(14, 15); VAR(15, 20); VAR(16, 16); VAR(17, 6); VAR(18, 4); VAR(19, 16); VAR(20, 22); BEGIN();
MOVE(v1, -40); MOVE(v2, -15); MOVE(v3, -38); MOVE(v4, 37); MOVE(v5, 61); MOVE(v6, 79);
LOCAL(v8, v7, 0); STORE(v8, -32768); LOCAL(v9, v7, 1); STORE(v9, -30489); MOVE(v10, 0);
MOVE(v11, 0); GLOBALA(v12, 8, 0); GLOBALA(v13, 7, 0); GLOBALA(v14, 6, 0); LOCAL(v15, v7, 0);
GLOBALA(v16, 9, 1); REM(v17, v3, 997); CAST(v18, v17); MOVE(v1, v18); DIV(v1, 100, v1);
LOCAL(v19, v2, 0); GLOBALA(v20, 3, 0); STORE(v20, v19); RETURN(v1); END();",
        plain: Some((39, FlatRule::Modes)),
        end: End::Done(0),
        turns: 1,
        output: "3-483",
    },
    // 262 lines
    Program {
        start: Start::Nothing,
        rest: "POINTER(8, 10); ARRAY(9, 7, 3); STRUCT(10, 9, 6, 6, 8, 0); STRUCT(11, 3); POINTER(12, 4);
ARRAY(13, 7, 3); POINTER(14, 6); ARRAY(15, 6, 3); ARRAY(16, 0, 3); POINTER(17, 0);
POINTER(18, 14); POINTER(19, 12); POINTER(20, 15); POINTER(21, 7); POINTER(22, 11);
POINTER(23, 3); POINTER(24, 8); GLOBAL(0, 8); GLOBAL(1, 14); GLOBAL(2, 12); GLOBAL(3, 12);
GLOBAL(4, 14); GLOBAL(5, 8); GLOBAL(6, 13); GLOBAL(7, 11); GLOBAL(8, 0); INIT(8, 0, 127);
GLOBAL(9, 9); GLOBAL(10, 15); INIT(10, 2, -1115010651); GLOBAL(11, 14); GLOBAL(12, 16);
INIT(12, 0, 115); INIT(12, 1, 121); FUNCTION(0, f0, void, 2); VAR(0, 4); VAR(1, 12); VAR(2, 4);
VAR(3, 4); VAR(4, 6); VAR(5, 5); VAR(6, 7); VAR(7, 6); VAR(8, 17); VAR(9, 8); VAR(10, 4);
VAR(11, 4); VAR(12, 4); VAR(13, 18); VAR(14, 12); VAR(15, 19); BEGIN(); MOVE(v2, 58);
MOVE(v3, -6); MOVE(v4, -71); MOVE(v5, 7); MOVE(v6, 18); MOVE(v7, 4); MOVE(v8, 0); MOVE(v9, 0);
REM(v10, v2, 997); CAST(v11, v10); MOVE(v3, v11); HEX(v12, v5); ADD(v3, v3, v12);
REM(v3, v3, 997); LOCAL(v14, v3, 0); GLOBALA(v15, 3, 0); STORE(v15, v14); RETURN(); END();
FUNCTION(1, main, 4, 0); VAR(0, 4); VAR(1, 4); VAR(2, 6); VAR(3, 5); VAR(4, 7); VAR(5, 4);
VAR(6, 14); VAR(7, 8); VAR(8, 4); VAR(9, 4); VAR(10, 17); VAR(11, 23); VAR(12, 14); VAR(13, 21);
VAR(14, 14); VAR(15, 22); VAR(16, 22); VAR(17, 23); VAR(18, 3); VAR(19, 4); VAR(20, 6);
VAR(21, 22); VAR(22, 18); VAR(23, 14); VAR(24, 24); VAR(25, 8); VAR(26, 8); VAR(27, 4);
VAR(28, 6); VAR(29, 24); BEGIN();
RESTORE(v0, v1, v2, v3, v4, v5, v6, v7, v8, v9, v10, v11, v12, v13, v14, v15, v16, v17, v18, v19, v20, v21, v22, v23, v24, v25, v26, v27, v28, v29);
TABLE(1, 2); TABLE(2, 3); TABLE(3, 4); TABLE(4, 5); MOVE(v0, -61); MOVE(v1, 69); MOVE(v2, 87);
MOVE(v3, 89); MOVE(v4, 93); MOVE(v5, -25); MOVE(v6, 0); MOVE(v7, 0); MOVE(v0, 3);
REM(v8, v1, 997); CAST(v9, v8); MOVE(v0, v9); GLOBALA(v10, 8, 0); GLOBALA(v11, 7, 0);
GLOBALA(v12, 10, 2); GLOBALA(v13, 6, 0); GLOBALA(v14, 10, 0); GLOBALA(v15, 7, 0);
MEMBER(v16, v15, 0); MEMBER(v17, v16, 0); LOAD(v18, v17); CAST(v19, v18); REM(v8, v19, 997);
CAST(v20, v8); MOVE(v2, v20); GLOBALA(v21, 7, 0); GLOBALA(v15, 7, 0); COPY(v21, v15); LABEL(2);
CHECKPOINT(); SAVED(1, 6); GLOBALA(v22, 11, 0); LOAD(v12, v22); GLOBALA(v23, 10, 0);
STEP(v23, v23, 3); EQ(v9, v23, v12); DEC(v19, v9); STORE(v22, v23); REM(v8, v0, 997);
CAST(v9, v8); MOVE(v5, v9); LT(v19, v3, v3); DEC(v8, v19); LABEL(3); CHECKPOINT(); SAVED(2, 6);
LABEL(4); CHECKPOINT(); SAVED(3, 6); GLOBALA(v24, 0, 0); LOAD(v25, v24); MOVE(v26, v25);
MOVE(v27, 0); LABEL(0); TURN(); EQ(v9, v26, 0); IF(v9, 1); LT(v9, 6, v27); IF(v9, 1);
ADD(v27, v27, 1); MEMBER(v14, v26, 3); LOAD(v28, v14); ADD(v2, v2, v28); REM(v2, v2, 97);
LABEL(5); CHECKPOINT(); SAVED(4, 6); MEMBER(v29, v26, 5); LOAD(v26, v29); JUMP(0); LABEL(1);
MOVE(v26, 0); DEC(v19, v0); DEC(v8, v1); RETURN(42); LABEL(6);
PUSH(v0, v1, v2, v3, v4, v5, v6, v7, v8, v9, v10, v11, v12, v13, v14, v15, v16, v17, v18, v19, v20, v21, v22, v23, v24, v25, v26, v27, v28, v29);
END(); FUNCTION(2, f1, 4, 1); VAR(0, 4); VAR(1, 4); VAR(2, 4); VAR(3, 6); VAR(4, 5); VAR(5, 7);
VAR(6, 6); VAR(7, 17); VAR(8, 8); VAR(9, 18); VAR(10, 18); VAR(11, 14); VAR(12, 4); VAR(13, 6);
VAR(14, 6); VAR(15, 5); VAR(16, 4); VAR(17, 6); VAR(18, 20); VAR(19, 14); VAR(20, 4); VAR(21, 21);
VAR(22, 7); VAR(23, 7); VAR(24, 7); VAR(25, 22); VAR(26, 12); VAR(27, 19); BEGIN(); MOVE(v1, -50);
MOVE(v2, -89); MOVE(v3, 64); MOVE(v4, 0); MOVE(v5, 29); MOVE(v6, -72); MOVE(v7, 0); MOVE(v8, 0);
GLOBALA(v10, 1, 0); LOAD(v11, v10); EQ(v12, v11, 0); IF(v12, 0); LOAD(v13, v11);
REM(v14, v13, 997); AND(v14, v14, 1023); CAST(v15, v14); MOVE(v4, v15); REM(v16, v2, 997);
CAST(v17, v16); STORE(v11, v17); LABEL(0); GLOBALA(v18, 10, 0); MEMBER(v19, v18, 1);
STORE(v19, 2147483647); NOT(v1, v2); REM(v1, v1, 65521); LE(v20, v0, 0); IF(v20, 1);
SUB(v12, v0, 1); CALL(v1, 2, v12); REM(v1, v1, 65521); REM(v2, v2, 997); REM(v3, v3, 997);
REM(v6, v6, 97); LABEL(1); GLOBALA(v21, 6, 2); LOAD(v22, v21); REM(v23, v22, 997); CAST(v24, v23);
MOVE(v5, v24); GLOBALA(v25, 7, 0); LOCAL(v26, v2, 0); GLOBALA(v27, 3, 0); STORE(v27, v26);
RETURN(v1); END();",
        plain: Some((74, FlatRule::Modes)),
        end: End::Done(42),
        turns: 2,
        output: "006969",
    },
];
