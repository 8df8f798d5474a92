//! Programs with large objects, which take memory for what is written of them.
//! The programs are texts without their head lines. A blank or a newline stands between two lines.

use crate::ends::{End, Program, Start};
use porch_values::Act;

/// The programs, with how they end.
pub(crate) static LARGE: [Program; 5] = [
    // as many ints as one allocation may have, and nothing is done with them
    Program {
        start: Start::Shapes,
        rest: "ALLOC(v2, 2147483647); CHAR(v0, 66); RETURN(3); END();",
        plain: None,
        end: End::Done(3),
        turns: 1,
        output: "B",
    },
    // the first and the last of them get values, and no other
    Program {
        start: Start::Nothing,
        rest: "POINTER(8, 4); FUNCTION(0, main, 4, 0); VAR(0, 4); VAR(1, 8); VAR(2, 8); BEGIN();
ALLOC(v1, 2147483647); STEP(v2, v1, 2147483646); STORE(v2, 41); STORE(v1, 7); LOAD(v0, v2);
DEC(v0, v0); LOAD(v0, v1); DEC(v0, v0); BACK(v2, v2, 1); LOAD(v0, v2); RETURN(0); END();",
        plain: None,
        end: End::Met(Act::Indeterminate),
        turns: 1,
        output: "417",
    },
    // four thousand ints that are 0 in each turn, none of which are freed
    Program {
        start: Start::Nothing,
        rest: "POINTER(8, 4); FUNCTION(0, main, 4, 0); VAR(0, 4); VAR(1, 8); BEGIN(); MOVE(v0, 1); LABEL(0);
TURN(); CALLOC(v1, 4000); LE(v0, 1, v0); IF(v0, 0); RETURN(0); END();",
        plain: None,
        end: End::Paused,
        turns: 100_000,
        output: "",
    },
    // structs of a hundred ints and a pointer: the second is written and copied to the third
    Program {
        start: Start::Nothing,
        rest: "POINTER(8, 4); ARRAY(9, 4, 100); STRUCT(10, 9, 8); POINTER(11, 10); POINTER(12, 8);
FUNCTION(0, main, 4, 0); VAR(0, 4); VAR(1, 11); VAR(2, 11); VAR(3, 8); VAR(4, 12); VAR(5, 8);
BEGIN(); CALLOC(v1, 3); STEP(v2, v1, 1); STEP(v1, v1, 2); MEMBER(v3, v2, 99); STORE(v3, 12);
MEMBER(v4, v2, 100); STORE(v4, v3); COPY(v1, v2); MEMBER(v3, v1, 99); LOAD(v0, v3); DEC(v0, v0);
MEMBER(v4, v1, 100); LOAD(v5, v4); LOAD(v0, v5); DEC(v0, v0); MEMBER(v3, v1, 98); LOAD(v0, v3);
DEC(v0, v0); STEP(v1, v1, 1); BACK(v1, v1, 3); MEMBER(v4, v1, 100); LOAD(v5, v4); EQ(v0, v5, 0);
DEC(v0, v0); FREE(v1); LOAD(v0, v3); RETURN(0); END();",
        plain: None,
        end: End::Met(Act::Indeterminate),
        turns: 1,
        output: "121201",
    },
    // a row of three hundred ints as a variable: each gets its index, and then they are summed
    Program {
        start: Start::Nothing,
        rest: "POINTER(8, 4); ARRAY(9, 4, 300); FUNCTION(0, main, 4, 0); VAR(0, 4); VAR(1, 9); VAR(2, 8);
VAR(3, 4); VAR(4, 4); VAR(5, 4); BEGIN(); MOVE(v0, 0); MOVE(v3, 0); LOCAL(v2, v1, 0); LABEL(0);
TURN(); STORE(v2, v0); STEP(v2, v2, 1); ADD(v0, v0, 1); LT(v4, v0, 300); IF(v4, 0);
LABEL(1); TURN(); BACK(v2, v2, 1); LOAD(v5, v2); ADD(v3, v3, v5); SUB(v0, v0, 1); LT(v4, 0, v0);
IF(v4, 1); DEC(v0, v3); RETURN(0); END();",
        plain: None,
        end: End::Done(0),
        turns: 601,
        output: "44850",
    },
];
