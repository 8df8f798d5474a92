//! Long programs that a generator made, with checkpoints, calls, loops and pointers.
//! The programs are texts without their head lines. A blank or a newline stands between two lines.

use crate::ends::{End, Program, Start};
use porch_flat::whole::FlatRule;
use porch_values::Act;

/// The programs, with how they end.
pub(crate) static MADE_SIX: [Program; 3] = [
    // 294 lines
    Program {
        start: Start::Nothing,
        rest: "POINTER(8, 11); ARRAY(9, 2, 2); ARRAY(10, 3, 3); STRUCT(11, 6, 1, 8); STRUCT(12, 3);
ARRAY(13, 2, 3); POINTER(14, 4); POINTER(15, 6); ARRAY(16, 2, 4); POINTER(17, 2); ARRAY(18, 0, 5);
POINTER(19, 3); POINTER(20, 14); POINTER(21, 8); GLOBAL(0, 8); GLOBAL(1, 14); GLOBAL(2, 14);
GLOBAL(3, 14); GLOBAL(4, 15); GLOBAL(5, 8); GLOBAL(6, 10); INIT(6, 0, 1); GLOBAL(7, 0);
GLOBAL(8, 6); INIT(8, 0, 1610491735); GLOBAL(9, 16); GLOBAL(10, 17); GLOBAL(11, 18);
INIT(11, 0, 104); INIT(11, 1, 119); INIT(11, 2, 113); INIT(11, 3, 111); FUNCTION(0, f0, 6, 2);
VAR(0, 4); VAR(1, 14); VAR(2, 4); VAR(3, 4); VAR(4, 6); VAR(5, 5); VAR(6, 7); VAR(7, 6);
VAR(8, 14); VAR(9, 8); VAR(10, 4); VAR(11, 4); VAR(12, 14); VAR(13, 19); VAR(14, 3); VAR(15, 4);
VAR(16, 7); VAR(17, 4); VAR(18, 20); VAR(19, 14); VAR(20, 6); VAR(21, 14); VAR(22, 14);
VAR(23, 20); VAR(24, 20); VAR(25, 15); VAR(26, 6); VAR(27, 6); VAR(28, 17); VAR(29, 17); BEGIN();
RESTORE(v0, v1, v2, v3, v4, v5, v6, v7, v8, v9, v10, v11, v12, v13, v14, v15, v16, v17, v18, v19, v20, v21, v22, v23, v24, v25, v26, v27, v28, v29);
TABLE(1, 4); TABLE(2, 5); MOVE(v2, -81); MOVE(v3, -36); MOVE(v4, 93); MOVE(v5, 83); MOVE(v6, 52);
MOVE(v7, -93); MOVE(v8, 0); MOVE(v9, 0); LE(v10, v0, 0); IF(v10, 0); SUB(v11, v0, 1);
LOCAL(v12, v2, 0); LABEL(4); CALL(_, 0, v11, v12); SAVED(1, 6); REM(v2, v2, 97); REM(v3, v3, 7);
REM(v4, v4, 65521); REM(v7, v7, 7); LABEL(0); GLOBALA(v13, 6, 1); LOAD(v14, v13); CAST(v15, v14);
REM(v10, v15, 997); AND(v10, v10, 1023); CAST(v16, v10); MOVE(v6, v16); LABEL(5); CHECKPOINT();
SAVED(2, 6); MOVE(v17, 0); JUMP(2); LABEL(1); TURN(); GLOBALA(v18, 2, 0); LOAD(v19, v18);
EQ(v11, v19, 0); IF(v11, 3); LOAD(v15, v19); REM(v10, v15, 997); CAST(v11, v10); MOVE(v3, v11);
REM(v20, v4, 997); CAST(v15, v20); STORE(v19, v15); LABEL(3); MOVE(v21, v19); LOCAL(v22, v3, 0);
STORE(v18, v22); GLOBALA(v24, 2, 0); STORE(v24, v21); REM(v3, v3, 65521); GLOBALA(v25, 8, 0);
LOAD(v26, v25); REM(v27, v26, 997); CAST(v20, v27); MOVE(v7, v20); GLOBALA(v28, 9, 0);
GLOBALA(v29, 9, 3); DIFF(v26, v28, v29); DEC(v10, v26); LE(v10, v28, v29); DEC(v11, v10);
ADD(v17, v17, 1); LABEL(2); LT(v15, v17, 3); IF(v15, 1); RETURN(v4); LABEL(6);
PUSH(v0, v1, v2, v3, v4, v5, v6, v7, v8, v9, v10, v11, v12, v13, v14, v15, v16, v17, v18, v19, v20, v21, v22, v23, v24, v25, v26, v27, v28, v29);
END(); FUNCTION(1, main, 4, 0); VAR(0, 4); VAR(1, 4); VAR(2, 6); VAR(3, 5); VAR(4, 7); VAR(5, 4);
VAR(6, 15); VAR(7, 8); VAR(8, 21); VAR(9, 8); VAR(10, 8); VAR(11, 4); VAR(12, 4); VAR(13, 6);
VAR(14, 15); VAR(15, 21); VAR(16, 4); VAR(17, 4); VAR(18, 4); VAR(19, 20); VAR(20, 14);
VAR(21, 7); VAR(22, 19); VAR(23, 3); VAR(24, 4); VAR(25, 20); VAR(26, 14); VAR(27, 5);
VAR(28, 14); VAR(29, 6); VAR(30, 6); VAR(31, 15); VAR(32, 20); BEGIN();
RESTORE(v0, v1, v2, v3, v4, v5, v6, v7, v8, v9, v10, v11, v12, v13, v14, v15, v16, v17, v18, v19, v20, v21, v22, v23, v24, v25, v26, v27, v28, v29, v30, v31, v32);
TABLE(1, 12); TABLE(2, 13); TABLE(3, 14); MOVE(v0, -31); MOVE(v1, -79); MOVE(v2, -96);
MOVE(v3, 22); MOVE(v4, 74); MOVE(v5, -91); MOVE(v6, 0); MOVE(v7, 0); MOVE(v0, 3);
GLOBALA(v8, 0, 0); LOAD(v9, v8); MOVE(v10, v9); MOVE(v11, 0); LABEL(0); TURN(); EQ(v12, v10, 0);
IF(v12, 1); LT(v12, 6, v11); IF(v12, 1); ADD(v11, v11, 1); MEMBER(v14, v10, 0); LOAD(v13, v14);
ADD(v2, v2, v13); REM(v2, v2, 7); MEMBER(v15, v10, 2); LOAD(v10, v15); JUMP(0); LABEL(1);
MOVE(v10, 0); LT(v16, v5, 9); IF(v16, 2); MOVE(v17, 0); JUMP(5); LABEL(4); TURN();
ADD(v17, v17, 1); LABEL(5); LT(v18, v17, 1); IF(v18, 4); JUMP(3); LABEL(2); LABEL(12);
CHECKPOINT(); SAVED(1, 15); GLOBALA(v19, 1, 0); LOAD(v20, v19); EQ(v12, v20, 0); IF(v12, 6);
LOAD(v16, v20); REM(v18, v16, 997); AND(v18, v18, 1023); CAST(v21, v18); MOVE(v4, v21);
REM(v12, v5, 997); CAST(v16, v12); STORE(v20, v16); LABEL(6); LABEL(3); LABEL(13); CHECKPOINT();
SAVED(2, 15); GLOBALA(v22, 6, 2); LOAD(v23, v22); CAST(v18, v23); REM(v12, v18, 997);
CAST(v16, v12); MOVE(v5, v16); MOVE(v24, 0); JUMP(8); LABEL(7); TURN(); ADD(v24, v24, 1);
LABEL(8); LT(v18, v24, 1); IF(v18, 7); GLOBALA(v25, 2, 0); LOAD(v26, v25); EQ(v12, v26, 0);
IF(v12, 9); LOAD(v16, v26); REM(v18, v16, 997); CAST(v12, v18); MOVE(v1, v12); REM(v27, v3, 997);
CAST(v16, v27); STORE(v26, v16); LABEL(9); LOCAL(v28, v5, 0); LABEL(14); CALL(v2, 0, 1, v28);
SAVED(3, 15); REM(v0, v0, 97); REM(v1, v1, 97); REM(v2, v2, 97); REM(v5, v5, 997); LABEL(10);
EQ(v12, v6, 0); IF(v12, 11); LOAD(v29, v6); REM(v30, v29, 997); CAST(v16, v30); MOVE(v5, v16);
REM(v18, v1, 997); CAST(v13, v18); STORE(v6, v13); LABEL(11); GLOBALA(v31, 8, 0); MOVE(v6, v31);
DEC(v12, v0); DEC(v16, v1); LOCAL(v20, v1, 0); GLOBALA(v32, 3, 0); STORE(v32, v20); RETURN(42);
LABEL(15);
PUSH(v0, v1, v2, v3, v4, v5, v6, v7, v8, v9, v10, v11, v12, v13, v14, v15, v16, v17, v18, v19, v20, v21, v22, v23, v24, v25, v26, v27, v28, v29, v30, v31, v32);
END();",
        plain: Some((35, FlatRule::Modes)),
        end: End::Done(42),
        turns: 11,
        output: "-31-31-31-31-31-313-79",
    },
    // 229 lines
    Program {
        start: Start::Nothing,
        rest: "POINTER(8, 10); ARRAY(9, 7, 4); STRUCT(10, 6, 1, 8); POINTER(11, 4); STRUCT(12, 3, 6, 2);
ARRAY(13, 6, 2); ARRAY(14, 13, 1); POINTER(15, 6); ARRAY(16, 2, 4); POINTER(17, 2);
ARRAY(18, 0, 4); POINTER(19, 7); POINTER(20, 8); POINTER(21, 15); POINTER(22, 11); GLOBAL(0, 8);
GLOBAL(1, 15); GLOBAL(2, 11); GLOBAL(3, 11); GLOBAL(4, 15); GLOBAL(5, 8); GLOBAL(6, 0);
GLOBAL(7, 9); GLOBAL(8, 9); INIT(8, 0, 1); GLOBAL(9, 9); INIT(9, 3, 70); GLOBAL(10, 16);
GLOBAL(11, 17); GLOBAL(12, 18); INIT(12, 0, 120); INIT(12, 1, 115); INIT(12, 2, 120);
FUNCTION(0, f0, void, 2); VAR(0, 4); VAR(1, 15); VAR(2, 4); VAR(3, 4); VAR(4, 6); VAR(5, 5);
VAR(6, 7); VAR(7, 4); VAR(8, 11); VAR(9, 8); VAR(10, 19); VAR(11, 4); VAR(12, 4); VAR(13, 4);
VAR(14, 5); VAR(15, 6); BEGIN(); MOVE(v2, -18); MOVE(v3, -95); MOVE(v4, 45); MOVE(v5, 12);
MOVE(v6, 46); MOVE(v7, -65); MOVE(v8, 0); MOVE(v9, 0); GLOBALA(v10, 7, 2); STORE(v10, 3435352548);
EQ(v11, v8, 0); IF(v11, 0); LOAD(v12, v8); REM(v13, v12, 997); AND(v13, v13, 1023);
CAST(v14, v13); MOVE(v5, v14); REM(v15, v4, 997); CAST(v11, v15); STORE(v8, v11); LABEL(0); END();
FUNCTION(1, main, 4, 0); VAR(0, 4); VAR(1, 4); VAR(2, 6); VAR(3, 5); VAR(4, 7); VAR(5, 6);
VAR(6, 15); VAR(7, 8); VAR(8, 20); VAR(9, 8); VAR(10, 8); VAR(11, 4); VAR(12, 4); VAR(13, 6);
VAR(14, 15); VAR(15, 20); VAR(16, 4); VAR(17, 4); VAR(18, 15); VAR(19, 4); VAR(20, 6); VAR(21, 6);
VAR(22, 15); VAR(23, 21); VAR(24, 20); VAR(25, 8); VAR(26, 8); VAR(27, 4); VAR(28, 7);
VAR(29, 19); VAR(30, 7); VAR(31, 7); VAR(32, 11); VAR(33, 22); BEGIN();
RESTORE(v0, v1, v2, v3, v4, v5, v6, v7, v8, v9, v10, v11, v12, v13, v14, v15, v16, v17, v18, v19, v20, v21, v22, v23, v24, v25, v26, v27, v28, v29, v30, v31, v32, v33);
TABLE(1, 10); TABLE(2, 11); MOVE(v0, 73); MOVE(v1, 97); MOVE(v2, -74); MOVE(v3, 16); MOVE(v4, 31);
MOVE(v5, 31); MOVE(v6, 0); MOVE(v7, 0); MOVE(v0, 3); GLOBALA(v8, 0, 0); LOAD(v9, v8);
MOVE(v10, v9); MOVE(v11, 0); LABEL(0); TURN(); EQ(v12, v10, 0); IF(v12, 1); LT(v12, 6, v11);
IF(v12, 1); ADD(v11, v11, 1); MEMBER(v14, v10, 0); LOAD(v13, v14); ADD(v5, v5, v13);
REM(v5, v5, 7); MEMBER(v15, v10, 2); LOAD(v10, v15); JUMP(0); LABEL(1); MOVE(v10, 0);
MOVE(v16, 0); JUMP(3); LABEL(2); TURN(); LOCAL(v18, v2, 0); CALL(_, 0, 1, v18); REM(v0, v0, 997);
REM(v1, v1, 97); REM(v2, v2, 97); REM(v5, v5, 7); LABEL(4); ADD(v16, v16, 1); LABEL(3);
LT(v19, v16, 4); IF(v19, 2); EQ(v12, v6, 0); IF(v12, 5); LOAD(v20, v6); REM(v21, v20, 997);
CAST(v17, v21); MOVE(v1, v17); REM(v19, v1, 997); CAST(v13, v19); STORE(v6, v13); LABEL(5);
LOCAL(v22, v5, 0); CALL(_, 0, 1, v22); REM(v0, v0, 997); REM(v1, v1, 65521); REM(v2, v2, 97);
REM(v5, v5, 7); LABEL(6); REM(v3, 613, 38); REM(v3, v3, 997); GLOBALA(v24, 0, 0); LOAD(v25, v24);
MOVE(v26, v25); MOVE(v27, 0); LABEL(7); TURN(); EQ(v17, v26, 0); IF(v17, 8); LT(v17, 6, v27);
IF(v17, 8); ADD(v27, v27, 1); MEMBER(v14, v26, 0); LOAD(v20, v14); ADD(v2, v2, v20);
REM(v2, v2, 997); LABEL(10); CHECKPOINT(); SAVED(1, 12); MEMBER(v8, v26, 2); LOAD(v26, v8);
JUMP(7); LABEL(8); MOVE(v26, 0); REM(v19, v0, 997); AND(v19, v19, 1023); CAST(v28, v19);
MOVE(v4, v28); GLOBALA(v29, 9, 1); LOAD(v30, v29); REM(v31, v30, 997); CAST(v21, v31);
MOVE(v2, v21); EQ(v12, v6, 0); IF(v12, 9); LOAD(v13, v6); REM(v20, v13, 997); CAST(v17, v20);
MOVE(v1, v17); REM(v21, v2, 997); CAST(v13, v21); STORE(v6, v13); LABEL(9); LABEL(11);
CHECKPOINT(); SAVED(2, 12); DEC(v19, v0); DEC(v12, v1); LOCAL(v32, v1, 0); GLOBALA(v33, 3, 0);
STORE(v33, v32); RETURN(1); LABEL(12);
PUSH(v0, v1, v2, v3, v4, v5, v6, v7, v8, v9, v10, v11, v12, v13, v14, v15, v16, v17, v18, v19, v20, v21, v22, v23, v24, v25, v26, v27, v28, v29, v30, v31, v32, v33);
END();",
        plain: Some((76, FlatRule::Modes)),
        end: End::Done(1),
        turns: 12,
        output: "30",
    },
    // 252 lines, some of which may meet an act
    Program {
        start: Start::Nothing,
        rest: "POINTER(8, 10); ARRAY(9, 7, 2); STRUCT(10, 6, 6, 4, 2, 8, 0); POINTER(11, 0); ARRAY(12, 0, 2);
STRUCT(13, 12, 4); POINTER(14, 6); POINTER(15, 4); ARRAY(16, 4, 5); ARRAY(17, 0, 7);
POINTER(18, 2); POINTER(19, 8); POINTER(20, 15); POINTER(21, 14); GLOBAL(0, 8); GLOBAL(1, 14);
GLOBAL(2, 15); GLOBAL(3, 15); GLOBAL(4, 14); GLOBAL(5, 8); GLOBAL(6, 6); INIT(6, 0, 2147483647);
GLOBAL(7, 6); INIT(7, 0, 1016558145); GLOBAL(8, 6); GLOBAL(9, 16); INIT(9, 0, -2147483648);
INIT(9, 4, 1); GLOBAL(10, 15); GLOBAL(11, 17); INIT(11, 0, 119); INIT(11, 1, 99);
INIT(11, 2, 122); INIT(11, 3, 115); INIT(11, 4, 107); INIT(11, 5, 101); FUNCTION(0, f0, 4, 2);
VAR(0, 4); VAR(1, 0); VAR(2, 4); VAR(3, 4); VAR(4, 6); VAR(5, 5); VAR(6, 7); VAR(7, 4); VAR(8, 2);
VAR(9, 18); VAR(10, 15); VAR(11, 8); VAR(12, 19); VAR(13, 8); VAR(14, 4); VAR(15, 8); VAR(16, 19);
VAR(17, 14); VAR(18, 20); VAR(19, 15); VAR(20, 15); VAR(21, 4); VAR(22, 4); VAR(23, 15);
VAR(24, 20); BEGIN(); MOVE(v2, -34); MOVE(v3, 98); MOVE(v4, -53); MOVE(v5, 52); MOVE(v6, 79);
MOVE(v7, -54); LOCAL(v9, v8, 0); STORE(v9, -32768); MOVE(v10, 0); MOVE(v11, 0);
GLOBALA(v12, 0, 0); LOAD(v13, v12); EQ(v14, v13, 0); IF(v14, 0); MEMBER(v16, v13, 4);
LOAD(v15, v16); STORE(v12, v15); FREE(v13); LABEL(0); GLOBALA(v17, 8, 0); STORE(v17, 2147483647);
GLOBALA(v18, 10, 0); LOAD(v20, v18); GLOBALA(v19, 9, 0); STEP(v19, v19, 5); EQ(v21, v19, v20);
DEC(v22, v21); STORE(v18, v19); LOCAL(v23, v3, 0); GLOBALA(v24, 3, 0); STORE(v24, v23);
RETURN(v2); END(); FUNCTION(1, main, 4, 0); VAR(0, 4); VAR(1, 4); VAR(2, 6); VAR(3, 5); VAR(4, 7);
VAR(5, 6); VAR(6, 15); VAR(7, 8); VAR(8, 15); VAR(9, 4); VAR(10, 4); VAR(11, 4); VAR(12, 4);
VAR(13, 21); VAR(14, 14); VAR(15, 4); VAR(16, 6); VAR(17, 4); VAR(18, 4); VAR(19, 20);
VAR(20, 15); VAR(21, 21); VAR(22, 14); VAR(23, 6); VAR(24, 19); VAR(25, 8); VAR(26, 19);
VAR(27, 8); VAR(28, 8); VAR(29, 19); VAR(30, 21); VAR(31, 14); VAR(32, 11); VAR(33, 14);
VAR(34, 6); BEGIN();
RESTORE(v0, v1, v2, v3, v4, v5, v6, v7, v8, v9, v10, v11, v12, v13, v14, v15, v16, v17, v18, v19, v20, v21, v22, v23, v24, v25, v26, v27, v28, v29, v30, v31, v32, v33, v34);
TABLE(1, 11); MOVE(v0, -64); MOVE(v1, -1); MOVE(v2, 2); MOVE(v3, 6); MOVE(v4, 58); MOVE(v5, 2);
MOVE(v6, 0); MOVE(v7, 0); MOVE(v0, 3); GLOBALA(v8, 9, 4); REM(v9, v1, 997); CAST(v10, v9);
STORE(v8, v10); LABEL(11); CHECKPOINT(); SAVED(1, 12); SHL(v1, v1, 3); REM(v1, v1, 65521);
MOVE(v11, 0); JUMP(1); LABEL(0); TURN(); KILL(v12); MOVE(v12, v11); GLOBALA(v14, 6, 0);
GLOBALA(v13, 1, 0); STORE(v13, v14); REM(v15, v0, 997); CAST(v16, v15); MOVE(v2, v16);
ADD(v11, v11, 1); LABEL(1); LT(v9, v11, 4); IF(v9, 0); SHR(v4, 665, 1); REM(v4, v4, 97);
CALL(v1, 0, 3, -74); REM(v0, v0, 7); REM(v1, v1, 7); REM(v2, v2, 997); REM(v5, v5, 997); LABEL(2);
LE(v15, v4, 352); DEC(v9, v15); MOVE(v17, 0); JUMP(4); LABEL(3); TURN(); MOVE(v18, 0); JUMP(6);
LABEL(5); TURN(); GLOBALA(v19, 3, 0); LOAD(v20, v19); STORE(v20, 77); LOAD(v10, v20);
DEC(v15, v10); GLOBALA(v21, 4, 0); LOAD(v22, v21); STORE(v22, 77); LOAD(v23, v22); DEC(v9, v23);
GLOBALA(v24, 5, 0); LOAD(v25, v24); LT(v10, v5, 32); IF(v10, 7); GLOBALA(v26, 0, 0);
LOAD(v27, v26); EQ(v15, v27, 0); IF(v15, 9); MEMBER(v29, v27, 4); LOAD(v28, v29); STORE(v26, v28);
GLOBALA(v24, 5, 0); STORE(v24, v27); GLOBALA(v30, 4, 0); MEMBER(v31, v27, 0); STORE(v30, v31);
FREE(v27); LABEL(9); JUMP(8); LABEL(7); CALL(v0, 0, 0, -71); REM(v0, v0, 997); REM(v1, v1, 97);
REM(v2, v2, 65521); REM(v5, v5, 997); LABEL(10); LABEL(8); ADD(v18, v18, 1); LABEL(6);
LT(v10, v18, 1); IF(v10, 5); GLOBALA(v32, 11, 0); TEXT(v15, v32); ADD(v1, v1, v15);
REM(v1, v1, 997); SUB(v4, 0, v4); ADD(v17, v17, 1); LABEL(4); LT(v9, v17, 4); IF(v9, 3);
CALLOC(v33, 1); STEP(v14, v33, 0); LOAD(v34, v14); REM(v16, v34, 997); CAST(v23, v16);
MOVE(v2, v23); REM(v10, v1, 997); CAST(v34, v10); STORE(v14, v34); DEC(v15, v0); DEC(v9, v1);
RETURN(1); LABEL(12);
PUSH(v0, v1, v2, v3, v4, v5, v6, v7, v8, v9, v10, v11, v12, v13, v14, v15, v16, v17, v18, v19, v20, v21, v22, v23, v24, v25, v26, v27, v28, v29, v30, v31, v32, v33, v34);
END();",
        plain: Some((99, FlatRule::Modes)),
        end: End::Met(Act::Indeterminate),
        turns: 8,
        output: "01",
    },
];
