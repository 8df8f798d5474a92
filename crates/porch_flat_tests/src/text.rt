//! Texts that are read and printed again, and texts that break the form, each with its first wrong line.

use porch_flat_text::{FlatFault, parse_flat, print_flat};
use std::alloc::{AllocError, Global};
use std::process::Abort;
use std::test::Fail;

/// Each form once, and each command.
const EACH_FORM: &str = "/* porch flat text, version 1 */
#include \"porch.h\"
POINTER(8, 10);
ARRAY(9, 6, 3);
STRUCT(10, 0, 9, 8);
GLOBAL(0, 10);
INIT(0, 0, -128);
INITA(0, 4, 1, 0);
GLOBAL(1, 10);
FUNCTION(0, _f0, void, 1);
VAR(0, 4);
BEGIN();
END();
FUNCTION(1, main, 4, 0);
VAR(0, 4);
VAR(1, 8);
BEGIN();
RESTORE(v0, v1);
TABLE(1, 0);
MOVE(v0, 2147483647);
CAST(v0, v0);
ADD(v0, v0, 1);
SUB(v0, -1, v0);
MUL(v0, v0, v0);
DIV(v0, 7, 2);
REM(v0, 7, 2);
AND(v0, v0, 1);
OR(v0, v0, 1);
XOR(v0, v0, 1);
SHL(v0, v0, 1);
SHR(v0, v0, 1);
NOT(v0, v0);
LT(v0, v0, 1);
LE(v0, v0, 1);
EQ(v0, v0, 1);
NE(v0, v0, 1);
LOCAL(v1, v0, 0);
GLOBALA(v1, 0, 0);
MEMBER(v1, v1, 3);
STEP(v1, v1, 1);
BACK(v1, v1, v0);
DIFF(v0, v1, v1);
LOAD(v0, v1);
STORE(v1, -170141183460469231731687303715884105728);
COPY(v1, v1);
KILL(v0);
ALLOC(v1, 2);
CALLOC(v1, v0);
FREE(v1);
CHAR(v0, 65);
DEC(v0, v0);
HEX(v0, v0);
TEXT(v0, v1);
JUMP(2);
LABEL(2);
IF(v0, 4294967295);
TURN();
CALL(v0, 0, 1);
CALL(_, 0, v0, 0);
LABEL(0);
CHECKPOINT();
SAVED(1, 1);
RETURN();
RETURN(v0);
LABEL(1);
PUSH(v0, v1);
END();
";

/// A program that saves and rebuilds its frame.
pub(crate) const SAVING: &str = "/* porch flat text, version 1 */
#include \"porch.h\"
FUNCTION(0, main, 4, 0);
VAR(0, 4);
BEGIN();
RESTORE(v0);
TABLE(1, 0);
LABEL(0);
CHECKPOINT();
SAVED(1, 1);
CHAR(v0, 65);
RETURN(0);
LABEL(1);
PUSH(v0);
END();
";

/// One line of a text in another form, and the line that is wrong then.
struct Broken {
    line: u64,
    instead: &'static str,
    wrong: u64,
}

/// One line of `SAVING` in another form.
const BROKEN_SAVING: [Broken; 24] = [
    Broken {
        line: 1,
        instead: "/* porch flat text, version 2 */\n",
        wrong: 1,
    },
    Broken {
        line: 2,
        instead: "#include <porch.h>\n",
        wrong: 2,
    },
    Broken {
        line: 2,
        instead: "\n",
        wrong: 2,
    },
    Broken {
        line: 3,
        instead: "FUNCTION(0, while, 4, 0);\n",
        wrong: 3,
    },
    Broken {
        line: 3,
        instead: "FUNCTION(0, 0main, 4, 0);\n",
        wrong: 3,
    },
    Broken {
        line: 3,
        instead: "FUNCTION(0, main, 04, 0);\n",
        wrong: 3,
    },
    Broken {
        line: 3,
        instead: "FUNCTION(1, main, 4, 0);\n",
        wrong: 3,
    },
    Broken {
        line: 3,
        instead: "INIT(0, 0, 1);\n",
        wrong: 3,
    },
    Broken {
        line: 4,
        instead: "VAR(1, 4);\n",
        wrong: 4,
    },
    Broken {
        line: 5,
        instead: "BEGIN();\r\n",
        wrong: 5,
    },
    Broken {
        line: 6,
        instead: "\n",
        wrong: 6,
    },
    Broken {
        line: 6,
        instead: "VAR(1, 4);\n",
        wrong: 6,
    },
    Broken {
        line: 7,
        instead: "TABLE(1,0);\n",
        wrong: 7,
    },
    Broken {
        line: 7,
        instead: "TABLE(1,  0);\n",
        wrong: 7,
    },
    Broken {
        line: 7,
        instead: "TABLE(01, 0);\n",
        wrong: 7,
    },
    Broken {
        line: 8,
        instead: "LABEL(0); \n",
        wrong: 8,
    },
    Broken {
        line: 8,
        instead: "LABEL(-1);\n",
        wrong: 8,
    },
    Broken {
        line: 8,
        instead: "LABEL(4294967296);\n",
        wrong: 8,
    },
    Broken {
        line: 9,
        instead: "Checkpoint();\n",
        wrong: 9,
    },
    Broken {
        line: 9,
        instead: "CHECKPOINT(1);\n",
        wrong: 9,
    },
    Broken {
        line: 11,
        instead: "CHAR(v0, +65);\n",
        wrong: 11,
    },
    Broken {
        line: 11,
        instead: "CHAR(v00, 65);\n",
        wrong: 11,
    },
    Broken {
        line: 15,
        instead: "END();\nTURN();\n",
        wrong: 16,
    },
    Broken {
        line: 15,
        instead: "END();",
        wrong: 15,
    },
];

/// One line of `EACH_FORM` in another form.
const BROKEN_FORMS: [Broken; 11] = [
    Broken {
        line: 4,
        instead: "ARRAY(10, 6, 3);\n",
        wrong: 4,
    },
    Broken {
        line: 4,
        instead: "ARRAY(9, 9, 3);\n",
        wrong: 4,
    },
    Broken {
        line: 4,
        instead: "ARRAY(9, 6, 0);\n",
        wrong: 4,
    },
    Broken {
        line: 5,
        instead: "STRUCT(10);\n",
        wrong: 5,
    },
    Broken {
        line: 5,
        instead: "STRUCT(10, 0, 11, 8);\n",
        wrong: 5,
    },
    Broken {
        line: 5,
        instead: "STRUCT(10, 0, 9, 8);\nVAR(0, 4);\n",
        wrong: 6,
    },
    Broken {
        line: 7,
        instead: "INIT(0, 0, 0);\n",
        wrong: 7,
    },
    Broken {
        line: 7,
        instead: "INIT(1, 0, 1);\n",
        wrong: 7,
    },
    Broken {
        line: 23,
        instead: "SUB(v0, -0, v0);\n",
        wrong: 23,
    },
    Broken {
        line: 44,
        instead: "STORE(v1, 170141183460469231731687303715884105728);\n",
        wrong: 44,
    },
    Broken {
        line: 59,
        instead: "CALL(_, 0,, 0);\n",
        wrong: 59,
    },
];

/// A text with other lines in place of one.
pub(crate) fn with_line(
    alloc: Global,
    text: &str,
    number: u64,
    instead: &str,
) -> Result<Vec<u8>, AllocError> {
    let mut out = Vec::new(alloc);
    let mut at = 1u64;
    for byte in text.as_bytes() {
        if at != number {
            out.push(*byte)?;
        }
        if *byte == b'\n' {
            if at == number {
                out.extend_from_slice(instead.as_bytes())?;
            }
            at = at.saturating_add(1);
        }
    }
    Ok(out)
}

/// The first lines of a text, up to the one of this number.
fn first_lines(alloc: Global, text: &str, number: u64) -> Result<Vec<u8>, AllocError> {
    let mut out = Vec::new(alloc);
    let mut at = 1u64;
    for byte in text.as_bytes() {
        if at <= number {
            out.push(*byte)?;
        }
        if *byte == b'\n' {
            at = at.saturating_add(1);
        }
    }
    Ok(out)
}

/// The line that is wrong, where there is one.
fn wrong_line(alloc: Global, text: &[u8]) -> Result<Option<u64>, AllocError> {
    match parse_flat(alloc, text) {
        Ok(_) => Ok(None),
        Err(FlatFault::FlatSyntax { line }) => Ok(Some(line)),
        Err(FlatFault::NoMemory) => Err(AllocError),
    }
}

#[test]
fn each_form_is_read_and_printed_again(rt: HostRuntime) -> Result<(), Fail> {
    for text in [EACH_FORM, SAVING] {
        let flat = parse_flat(rt.alloc(), text.as_bytes())?;
        let printed = print_flat(rt.alloc(), &flat)?;
        assert!(rt; printed.as_slice() == text.as_bytes());
    }
    Ok(())
}

#[test]
fn a_broken_line_is_named(rt: HostRuntime) -> Result<(), Fail> {
    for row in &BROKEN_SAVING {
        let text = with_line(rt.alloc(), SAVING, row.line, row.instead)?;
        let wrong = wrong_line(rt.alloc(), text.as_slice())?;
        assert_eq!(rt; wrong, Some(row.wrong));
    }
    for row in &BROKEN_FORMS {
        let text = with_line(rt.alloc(), EACH_FORM, row.line, row.instead)?;
        let wrong = wrong_line(rt.alloc(), text.as_slice())?;
        assert_eq!(rt; wrong, Some(row.wrong));
    }
    Ok(())
}

#[test]
fn a_text_that_ends_too_early_lacks_the_line_behind_its_last(rt: HostRuntime) -> Result<(), Fail> {
    // Behind its head lines, its types, its globals and each function a text may end.
    for lines in [0, 1, 3, 4, 7, 9, 14] {
        let text = first_lines(rt.alloc(), SAVING, lines)?;
        let wrong = wrong_line(rt.alloc(), text.as_slice())?;
        assert_eq!(rt; wrong, Some(lines + 1));
    }
    for lines in [2, 3, 5, 6, 8, 9, 13] {
        let text = first_lines(rt.alloc(), EACH_FORM, lines)?;
        let wrong = wrong_line(rt.alloc(), text.as_slice())?;
        assert_eq!(rt; wrong, None);
    }
    Ok(())
}
