//! Programs in which one line is another: the line and the rule by which they are refused, and those that are valid.

use crate::text::{SAVING, with_line};
use porch_flat::whole::{FlatRule, Plain, Valid, ValidFault};
use porch_flat_text::parse_flat;
use std::alloc::{AllocError, Global};
use std::process::Abort;
use std::test::Fail;

/// The line and the rule that a program is refused by.
type Refusal = Option<(u64, FlatRule)>;

/// Other lines in place of one, and by what the program is refused then: as one that saves and rebuilds its frames,
/// and as a plain one.
struct Changed {
    line: u64,
    instead: &'static str,
    valid: Refusal,
    plain: Refusal,
}

/// `long f(int, int *)`, and a `main` with a variable of each of some types. Line 28 is its first command.
const KINDS: &str = "/* porch flat text, version 1 */
#include \"porch.h\"
POINTER(8, 4);
STRUCT(9, 4, 6);
POINTER(10, 9);
POINTER(11, 0);
GLOBAL(0, 9);
INIT(0, 0, 5);
GLOBAL(1, 8);
INITA(1, 0, 0, 0);
FUNCTION(0, f, 6, 2);
VAR(0, 4);
VAR(1, 8);
VAR(2, 6);
BEGIN();
RETURN(v2);
END();
FUNCTION(1, main, 4, 0);
VAR(0, 4);
VAR(1, 6);
VAR(2, 8);
VAR(3, 9);
VAR(4, 10);
VAR(5, 0);
VAR(6, 5);
VAR(7, 7);
BEGIN();
TURN();
RETURN(0);
END();
";

/// Structs, arrays and a sum. Line 35 is the first command of `main`.
const SHAPES: &str = "/* porch flat text, version 1 */
#include \"porch.h\"
POINTER(8, 4);
STRUCT(9, 0, 4, 8);
POINTER(10, 9);
ARRAY(11, 0, 5);
POINTER(12, 0);
GLOBAL(0, 11);
INIT(0, 0, 104);
INIT(0, 1, 105);
GLOBAL(1, 8);
INITA(1, 0, 2, 0);
GLOBAL(2, 4);
INIT(2, 0, 7);
FUNCTION(0, add, 4, 2);
VAR(0, 4);
VAR(1, 4);
BEGIN();
ADD(v0, v0, v1);
RETURN(v0);
END();
FUNCTION(1, main, 4, 0);
VAR(0, 4);
VAR(1, 6);
VAR(2, 8);
VAR(3, 9);
VAR(4, 10);
VAR(5, 12);
VAR(6, 5);
VAR(7, 7);
VAR(8, 9);
VAR(9, 10);
VAR(10, 2);
BEGIN();
TURN();
RETURN(0);
END();
";

/// Other lines in `KINDS`.
static CHANGED_KINDS: [Changed; 56] = [
    Changed {
        line: 28,
        instead: "MOVE(v0, 2147483647);\n",
        valid: None,
        plain: None,
    },
    Changed {
        line: 28,
        instead: "MOVE(v0, 2147483648);\n",
        valid: Some((28, FlatRule::Constant)),
        plain: Some((28, FlatRule::Constant)),
    },
    Changed {
        line: 28,
        instead: "MOVE(v1, 2147483648);\n",
        valid: Some((28, FlatRule::Constant)),
        plain: Some((28, FlatRule::Constant)),
    },
    Changed {
        line: 28,
        instead: "MOVE(v5, 128);\n",
        valid: Some((28, FlatRule::Constant)),
        plain: Some((28, FlatRule::Constant)),
    },
    Changed {
        line: 28,
        instead: "MOVE(v0, v1);\n",
        valid: Some((28, FlatRule::Kind)),
        plain: Some((28, FlatRule::Kind)),
    },
    Changed {
        line: 28,
        instead: "MOVE(v8, 0);\n",
        valid: Some((28, FlatRule::Number)),
        plain: Some((28, FlatRule::Number)),
    },
    Changed {
        line: 28,
        instead: "CAST(v0, v5);\n",
        valid: None,
        plain: None,
    },
    Changed {
        line: 28,
        instead: "ADD(v5, 1, 1);\n",
        valid: Some((28, FlatRule::Kind)),
        plain: Some((28, FlatRule::Kind)),
    },
    Changed {
        line: 28,
        instead: "ADD(v0, v0, v1);\n",
        valid: Some((28, FlatRule::Kind)),
        plain: Some((28, FlatRule::Kind)),
    },
    Changed {
        line: 28,
        instead: "SHL(v1, v1, 2147483648);\n",
        valid: Some((28, FlatRule::Constant)),
        plain: Some((28, FlatRule::Constant)),
    },
    Changed {
        line: 28,
        instead: "LT(v0, 1, v2);\n",
        valid: Some((28, FlatRule::Constant)),
        plain: Some((28, FlatRule::Constant)),
    },
    Changed {
        line: 28,
        instead: "EQ(v0, v6, 4294967295);\n",
        valid: None,
        plain: None,
    },
    Changed {
        line: 28,
        instead: "EQ(v0, v2, v4);\n",
        valid: Some((28, FlatRule::Kind)),
        plain: Some((28, FlatRule::Kind)),
    },
    Changed {
        line: 28,
        instead: "LOCAL(v2, v3, 2);\n",
        valid: Some((28, FlatRule::Number)),
        plain: Some((28, FlatRule::Number)),
    },
    Changed {
        line: 28,
        instead: "LOCAL(v4, v3, 0);\n",
        valid: None,
        plain: None,
    },
    Changed {
        line: 28,
        instead: "GLOBALA(v2, 0, 0);\n",
        valid: None,
        plain: None,
    },
    Changed {
        line: 28,
        instead: "GLOBALA(v2, 2, 0);\n",
        valid: Some((28, FlatRule::Number)),
        plain: Some((28, FlatRule::Number)),
    },
    Changed {
        line: 28,
        instead: "MEMBER(v2, v4, 2);\n",
        valid: Some((28, FlatRule::Number)),
        plain: Some((28, FlatRule::Number)),
    },
    Changed {
        line: 28,
        instead: "STEP(v2, v2, v6);\n",
        valid: None,
        plain: None,
    },
    Changed {
        line: 28,
        instead: "STEP(v2, v2, 2147483648);\n",
        valid: Some((28, FlatRule::Constant)),
        plain: Some((28, FlatRule::Constant)),
    },
    Changed {
        line: 28,
        instead: "STEP(v2, v2, v5);\n",
        valid: Some((28, FlatRule::Kind)),
        plain: Some((28, FlatRule::Kind)),
    },
    Changed {
        line: 28,
        instead: "STORE(v2, v0);\n",
        valid: None,
        plain: None,
    },
    Changed {
        line: 28,
        instead: "STORE(v2, v1);\n",
        valid: Some((28, FlatRule::Kind)),
        plain: Some((28, FlatRule::Kind)),
    },
    Changed {
        line: 28,
        instead: "STORE(v2, 2147483648);\n",
        valid: Some((28, FlatRule::Constant)),
        plain: Some((28, FlatRule::Constant)),
    },
    Changed {
        line: 28,
        instead: "COPY(v2, v2);\n",
        valid: Some((28, FlatRule::Kind)),
        plain: Some((28, FlatRule::Kind)),
    },
    Changed {
        line: 28,
        instead: "KILL(v3);\n",
        valid: None,
        plain: None,
    },
    Changed {
        line: 28,
        instead: "CALLOC(v4, 4294967296);\n",
        valid: Some((28, FlatRule::Constant)),
        plain: Some((28, FlatRule::Constant)),
    },
    Changed {
        line: 28,
        instead: "FREE(v4);\n",
        valid: None,
        plain: None,
    },
    Changed {
        line: 28,
        instead: "CHAR(v0, v0);\n",
        valid: None,
        plain: None,
    },
    Changed {
        line: 28,
        instead: "CHAR(v0, v1);\n",
        valid: Some((28, FlatRule::Kind)),
        plain: Some((28, FlatRule::Kind)),
    },
    Changed {
        line: 28,
        instead: "HEX(v0, 4294967295);\n",
        valid: None,
        plain: None,
    },
    Changed {
        line: 28,
        instead: "HEX(v0, -1);\n",
        valid: Some((28, FlatRule::Constant)),
        plain: Some((28, FlatRule::Constant)),
    },
    Changed {
        line: 28,
        instead: "LABEL(2147483647);\n",
        valid: None,
        plain: None,
    },
    Changed {
        line: 28,
        instead: "CALL(v1, 0, v0, v2);\n",
        valid: None,
        plain: None,
    },
    Changed {
        line: 28,
        instead: "CALL(_, 0, 1, 0);\n",
        valid: None,
        plain: None,
    },
    Changed {
        line: 28,
        instead: "CALL(v1, 2, v0, v2);\n",
        valid: Some((28, FlatRule::Number)),
        plain: Some((28, FlatRule::Number)),
    },
    Changed {
        line: 28,
        instead: "RETURN(v1);\n",
        valid: Some((28, FlatRule::Arity)),
        plain: Some((28, FlatRule::Arity)),
    },
    Changed {
        line: 28,
        instead: "PUSH(v0);\n",
        valid: Some((18, FlatRule::Modes)),
        plain: Some((18, FlatRule::Modes)),
    },
    Changed {
        line: 11,
        instead: "FUNCTION(0, f, 9, 2);\n",
        valid: Some((11, FlatRule::Kind)),
        plain: Some((11, FlatRule::Kind)),
    },
    Changed {
        line: 13,
        instead: "VAR(1, 9);\n",
        valid: Some((13, FlatRule::Kind)),
        plain: Some((13, FlatRule::Kind)),
    },
    Changed {
        line: 28,
        instead: "MOVE(v0, v1);\nMOVE(v99, 0);\n",
        valid: Some((28, FlatRule::Kind)),
        plain: Some((28, FlatRule::Kind)),
    },
    Changed {
        line: 28,
        instead: "MOVE(v0, 2147483648);\nMOVE(v0, v1);\n",
        valid: Some((28, FlatRule::Constant)),
        plain: Some((28, FlatRule::Constant)),
    },
    Changed {
        line: 28,
        instead: "JUMP(0);\nMOVE(v0, 2147483648);\n",
        valid: Some((28, FlatRule::Jump)),
        plain: Some((28, FlatRule::Jump)),
    },
    Changed {
        line: 28,
        instead: "RETURN(v1);\nJUMP(0);\n",
        valid: Some((28, FlatRule::Arity)),
        plain: Some((28, FlatRule::Arity)),
    },
    Changed {
        line: 28,
        instead: "CHECKPOINT();\nRETURN(v1);\n",
        valid: Some((18, FlatRule::Modes)),
        plain: Some((29, FlatRule::Arity)),
    },
    Changed {
        line: 28,
        instead: "ADD(v0, v1, 2147483648);\n",
        valid: Some((28, FlatRule::Kind)),
        plain: Some((28, FlatRule::Kind)),
    },
    Changed {
        line: 28,
        instead: "IF(2147483648, 0);\n",
        valid: Some((28, FlatRule::Constant)),
        plain: Some((28, FlatRule::Constant)),
    },
    Changed {
        line: 28,
        instead: "CALL(v0, 0, 2147483648, 0);\n",
        valid: Some((28, FlatRule::Constant)),
        plain: Some((28, FlatRule::Constant)),
    },
    Changed {
        line: 8,
        instead: "INIT(0, 0, 5);\nINIT(0, 0, 6);\n",
        valid: Some((9, FlatRule::Number)),
        plain: Some((9, FlatRule::Number)),
    },
    Changed {
        line: 8,
        instead: "INIT(0, 2, 5);\n",
        valid: Some((8, FlatRule::Number)),
        plain: Some((8, FlatRule::Number)),
    },
    Changed {
        line: 8,
        instead: "INIT(0, 0, 2147483648);\n",
        valid: Some((8, FlatRule::Constant)),
        plain: Some((8, FlatRule::Constant)),
    },
    Changed {
        line: 10,
        instead: "INIT(1, 0, 5);\n",
        valid: Some((10, FlatRule::Kind)),
        plain: Some((10, FlatRule::Kind)),
    },
    Changed {
        line: 11,
        instead: "FUNCTION(0, f, 6, 4);\n",
        valid: Some((11, FlatRule::Number)),
        plain: Some((11, FlatRule::Number)),
    },
    Changed {
        line: 11,
        instead: "FUNCTION(0, f, 9, 2);\n",
        valid: Some((11, FlatRule::Kind)),
        plain: Some((11, FlatRule::Kind)),
    },
    Changed {
        line: 13,
        instead: "VAR(1, 9);\n",
        valid: Some((13, FlatRule::Kind)),
        plain: Some((13, FlatRule::Kind)),
    },
    Changed {
        line: 18,
        instead: "FUNCTION(1, other, 4, 0);\n",
        valid: Some((31, FlatRule::Main)),
        plain: Some((31, FlatRule::Main)),
    },
];

/// Other lines in `SAVING`.
static CHANGED_SAVING: [Changed; 14] = [
    Changed {
        line: 7,
        instead: "TABLE(1, 1);\n",
        valid: Some((3, FlatRule::Modes)),
        plain: Some((3, FlatRule::Modes)),
    },
    Changed {
        line: 10,
        instead: "SAVED(1, 0);\n",
        valid: Some((3, FlatRule::Modes)),
        plain: Some((3, FlatRule::Modes)),
    },
    Changed {
        line: 3,
        instead: "FUNCTION(0, Main, 4, 0);\n",
        valid: Some((16, FlatRule::Main)),
        plain: Some((3, FlatRule::Modes)),
    },
    Changed {
        line: 3,
        instead: "FUNCTION(0, main, 6, 0);\n",
        valid: Some((16, FlatRule::Main)),
        plain: Some((3, FlatRule::Modes)),
    },
    Changed {
        line: 11,
        instead: "CHAR(v7, 65);\n",
        valid: Some((11, FlatRule::Number)),
        plain: Some((3, FlatRule::Modes)),
    },
    Changed {
        line: 4,
        instead: "VAR(0, 4);\nVAR(1, 4);\n",
        valid: Some((3, FlatRule::Modes)),
        plain: Some((3, FlatRule::Modes)),
    },
    Changed {
        line: 10,
        instead: "SAVED(2, 1);\n",
        valid: Some((3, FlatRule::Modes)),
        plain: Some((3, FlatRule::Modes)),
    },
    Changed {
        line: 11,
        instead: "CHAR(v0, 65);\nMOVE(v0, 0);\nIF(v0, 1);\n",
        valid: None,
        plain: Some((3, FlatRule::Modes)),
    },
    Changed {
        line: 3,
        instead: "FUNCTION(0, main, 4, 1);\n",
        valid: Some((16, FlatRule::Main)),
        plain: Some((3, FlatRule::Modes)),
    },
    Changed {
        line: 3,
        instead: "FUNCTION(0, main, 99, 0);\n",
        valid: Some((3, FlatRule::Number)),
        plain: Some((3, FlatRule::Number)),
    },
    Changed {
        line: 3,
        instead: "FUNCTION(0, main, void, 0);\n",
        valid: Some((12, FlatRule::Arity)),
        plain: Some((3, FlatRule::Modes)),
    },
    Changed {
        line: 8,
        instead: "",
        valid: Some((3, FlatRule::Modes)),
        plain: Some((3, FlatRule::Modes)),
    },
    Changed {
        line: 10,
        instead: "",
        valid: Some((3, FlatRule::Modes)),
        plain: Some((3, FlatRule::Modes)),
    },
    Changed {
        line: 7,
        instead: "TABLE(1, 0);\nTABLE(2, 0);\n",
        valid: Some((3, FlatRule::Modes)),
        plain: Some((3, FlatRule::Modes)),
    },
];

/// Other lines in `SHAPES`.
static CHANGED_SHAPES: [Changed; 13] = [
    Changed {
        line: 12,
        instead: "INITA(1, 0, 0, 1);\n",
        valid: Some((12, FlatRule::Kind)),
        plain: Some((12, FlatRule::Kind)),
    },
    Changed {
        line: 35,
        instead: "LABEL(4);\nLABEL(5);\nLABEL(4);\n",
        valid: Some((37, FlatRule::Jump)),
        plain: Some((37, FlatRule::Jump)),
    },
    Changed {
        line: 35,
        instead: "LABEL(4);\nMOVE(v0, 1);\nJUMP(4);\n",
        valid: Some((37, FlatRule::Jump)),
        plain: Some((37, FlatRule::Jump)),
    },
    Changed {
        line: 35,
        instead: "MOVE(v0, 1);\nJUMP(4);\nLABEL(4);\n",
        valid: None,
        plain: None,
    },
    Changed {
        line: 35,
        instead: "IF(v0, 9);\n",
        valid: Some((35, FlatRule::Jump)),
        plain: Some((35, FlatRule::Jump)),
    },
    Changed {
        line: 35,
        instead: "MOVE(v0, v1);\nMOVE(v99, 0);\n",
        valid: Some((35, FlatRule::Kind)),
        plain: Some((35, FlatRule::Kind)),
    },
    Changed {
        line: 35,
        instead: "ADD(v0, v1, v99);\n",
        valid: Some((35, FlatRule::Number)),
        plain: Some((35, FlatRule::Number)),
    },
    Changed {
        line: 35,
        instead: "CALL(v0, 0, 3);\n",
        valid: Some((35, FlatRule::Arity)),
        plain: Some((35, FlatRule::Arity)),
    },
    Changed {
        line: 35,
        instead: "MOVE(v0, 2147483648);\n",
        valid: Some((35, FlatRule::Constant)),
        plain: Some((35, FlatRule::Constant)),
    },
    Changed {
        line: 35,
        instead: "MOVE(v1, -2147483648);\n",
        valid: None,
        plain: None,
    },
    Changed {
        line: 35,
        instead: "MOVE(v2, 16);\n",
        valid: Some((35, FlatRule::Constant)),
        plain: Some((35, FlatRule::Constant)),
    },
    Changed {
        line: 17,
        instead: "VAR(1, 9);\n",
        valid: Some((17, FlatRule::Kind)),
        plain: Some((17, FlatRule::Kind)),
    },
    Changed {
        line: 35,
        instead: "RETURN(v1);\n",
        valid: Some((35, FlatRule::Arity)),
        plain: Some((35, FlatRule::Arity)),
    },
];

// Nothing where it isn't refused.
fn as_valid(alloc: Global, text: &[u8]) -> Result<Refusal, Fail> {
    match Valid::new(alloc, parse_flat(alloc, text)?) {
        Ok(_) => Ok(None),
        Err(ValidFault::NotValid { line, rule }) => Ok(Some((line, rule))),
        Err(ValidFault::NoMemory) => Err(AllocError.into()),
    }
}

fn as_plain(alloc: Global, text: &[u8]) -> Result<Refusal, Fail> {
    match Plain::new(alloc, parse_flat(alloc, text)?) {
        Ok(_) => Ok(None),
        Err(ValidFault::NotValid { line, rule }) => Ok(Some((line, rule))),
        Err(ValidFault::NoMemory) => Err(AllocError.into()),
    }
}

fn try_changed(rt: &impl Abort, alloc: Global, text: &str, row: &Changed) -> Result<(), Fail> {
    let text = with_line(alloc, text, row.line, row.instead)?;
    assert_eq!(rt; as_valid(alloc, text.as_slice())?, row.valid);
    assert_eq!(rt; as_plain(alloc, text.as_slice())?, row.plain);
    Ok(())
}

#[test]
fn a_program_is_refused_by_the_first_line_that_breaks_a_rule(rt: HostRuntime) -> Result<(), Fail> {
    for row in &CHANGED_KINDS {
        try_changed(&rt, rt.alloc(), KINDS, row)?;
    }
    for row in &CHANGED_SAVING {
        try_changed(&rt, rt.alloc(), SAVING, row)?;
    }
    for row in &CHANGED_SHAPES {
        try_changed(&rt, rt.alloc(), SHAPES, row)?;
    }
    Ok(())
}
