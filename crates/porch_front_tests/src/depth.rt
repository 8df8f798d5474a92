//! Worked texts for the first fault by the grammar: how deep its counted uses may lie in one another.

use porch_depth::{FaultyToken, GrammarFault, first_fault};
use porch_lex::lex;
use std::alloc::{AllocError, Global};
use std::process::Abort;
use std::test::Fail;

/// A text that repeats two of its parts the same number of times. Up to `most` times nothing is wrong with
/// it, and with once more a token lies too deep, at byte `at`.
pub(crate) struct Row {
    pub(crate) front: &'static str,
    pub(crate) opening: &'static str,
    pub(crate) middle: &'static str,
    pub(crate) closing: &'static str,
    pub(crate) rest: &'static str,
    pub(crate) most: usize,
    pub(crate) at: usize,
}

pub(crate) static ROWS: [Row; 18] = [
    // expr and unary, by parentheses
    Row {
        front: "int main(void){int a=0;",
        opening: "(",
        middle: "a",
        closing: ")",
        rest: ";return 0;}",
        most: 98,
        at: 122,
    },
    // the same, one use deeper by what comes late
    Row {
        front: "int main(void){int a=0;",
        opening: "(",
        middle: "a",
        closing: ")",
        rest: "?1:2;return 0;}",
        most: 97,
        at: 121,
    },
    Row {
        front: "int main(void){int a=0;",
        opening: "(",
        middle: "a",
        closing: ")",
        rest: "=1;return 0;}",
        most: 97,
        at: 121,
    },
    // an initialiser with parentheses
    Row {
        front: "int x=",
        opening: "(",
        middle: "1",
        closing: ")",
        rest: ";int main(void){return 0;}",
        most: 99,
        at: 106,
    },
    // block and stmt
    Row {
        front: "int main(void){",
        opening: "{",
        middle: ";",
        closing: "}",
        rest: "return 0;}",
        most: 99,
        at: 114,
    },
    // stmt
    Row {
        front: "int main(void){int a=0;",
        opening: "if(a)",
        middle: ";",
        closing: "",
        rest: "return 0;}",
        most: 197,
        at: 1011,
    },
    // assign with its operator, which shows late
    Row {
        front: "int main(void){int a=0;",
        opening: "a=",
        middle: "a",
        closing: "",
        rest: ";return 0;}",
        most: 196,
        at: 415,
    },
    // cond with `?`, in its last operand and in its second one
    Row {
        front: "int main(void){int a=0;",
        opening: "a?1:",
        middle: "a",
        closing: "",
        rest: ";return 0;}",
        most: 195,
        at: 805,
    },
    Row {
        front: "int main(void){int a=0;",
        opening: "a?",
        middle: "1",
        closing: ":1",
        rest: ";return 0;}",
        most: 98,
        at: 219,
    },
    // unary
    Row {
        front: "int main(void){int a=0;",
        opening: "~",
        middle: "a",
        closing: "",
        rest: ";return 0;}",
        most: 196,
        at: 220,
    },
    // a type behind `sizeof` counts no more than `sizeof`
    Row {
        front: "int main(void){int a=0;",
        opening: "~",
        middle: "sizeof(int)",
        closing: "",
        rest: ";return 0;}",
        most: 196,
        at: 220,
    },
    // a parenthesis behind `sizeof` that begins a unary, which shows late
    Row {
        front: "int main(void){int a=0;~",
        opening: "sizeof(",
        middle: "a",
        closing: ")",
        rest: ";return 0;}",
        most: 65,
        at: 485,
    },
    // cast with a type name
    Row {
        front: "int main(void){int a=0;",
        opening: "(int)",
        middle: "a",
        closing: "",
        rest: ";return 0;}",
        most: 196,
        at: 1008,
    },
    // arguments, which are no expr
    Row {
        front: "int main(void){int a=0;",
        opening: "a(",
        middle: "a",
        closing: ")",
        rest: ";return 0;}",
        most: 196,
        at: 417,
    },
    // a subscript, which is one
    Row {
        front: "int main(void){int a=0;",
        opening: "a[",
        middle: "a",
        closing: "]",
        rest: ";return 0;}",
        most: 98,
        at: 221,
    },
    // initial
    Row {
        front: "int x=",
        opening: "{",
        middle: "0",
        closing: "}",
        rest: ";int main(void){return 0;}",
        most: 198,
        at: 205,
    },
    // declarator
    Row {
        front: "int ",
        opening: "(",
        middle: "a",
        closing: ")",
        rest: ";int main(void){return 0;}",
        most: 199,
        at: 204,
    },
    // the fields of a struct
    Row {
        front: "",
        opening: "struct{",
        middle: "int a;",
        closing: "}a;",
        rest: "int main(void){return 0;}",
        most: 199,
        at: 1404,
    },
];

pub(crate) fn text_of(alloc: Global, row: &Row, times: usize) -> Result<String, AllocError> {
    let mut text = String::new(alloc);
    text.push_str(row.front)?;
    for _ in 0..times {
        text.push_str(row.opening)?;
    }
    text.push_str(row.middle)?;
    for _ in 0..times {
        text.push_str(row.closing)?;
    }
    text.push_str(row.rest)?;
    Ok(text)
}

/// The rule that a text breaks and the byte where it does; behind its last token, the end of the text.
fn fault_place(alloc: Global, text: &[u8]) -> Result<Option<(GrammarFault, usize)>, Fail> {
    let tokens = lex(alloc, text)?;
    match first_fault(alloc, text, &tokens)? {
        None => Ok(None),
        Some(FaultyToken { token, fault }) => {
            if token < tokens.len() {
                Ok(Some((fault, tokens[token].from as usize)))
            } else {
                Ok(Some((fault, text.len())))
            }
        }
    }
}

fn expect_row(
    rt: &impl Abort,
    alloc: Global,
    row: &Row,
    times: usize,
    fault: Option<(GrammarFault, usize)>,
) -> Result<(), Fail> {
    let text = text_of(alloc, row, times)?;
    let found = fault_place(alloc, text.as_bytes())?;
    assert_eq!(rt; found, fault, "{times} times {}", row.opening);
    Ok(())
}

#[test]
fn two_hundred_uses_may_lie_in_one_another(rt: HostRuntime) -> Result<(), Fail> {
    let alloc = rt.alloc();
    for row in &ROWS {
        expect_row(&rt, alloc, row, row.most.saturating_sub(1), None)?;
        expect_row(&rt, alloc, row, row.most, None)?;
        let fault = Some((GrammarFault::Nesting, row.at));
        expect_row(&rt, alloc, row, row.most.saturating_add(1), fault)?;
    }
    Ok(())
}

/// What is wrong first, with so many parentheses before a text's end.
static MIXED: [(usize, &str, GrammarFault, usize); 7] = [
    // no unit goes on with the token that would lie too deep
    (99, ";", GrammarFault::Syntax, 122),
    (98, "a", GrammarFault::Syntax, 122),
    // a token lies too deep before the text ends
    (99, "a", GrammarFault::Nesting, 122),
    // what comes late puts tokens deeper, where it can come
    (98, "a?", GrammarFault::Nesting, 121),
    (98, "a+a=", GrammarFault::Syntax, 124),
    (99, "a float", GrammarFault::Nesting, 122),
    (98, "a float", GrammarFault::Outside, 123),
];

#[test]
fn the_first_fault_is_named(rt: HostRuntime) -> Result<(), Fail> {
    for (count, rest, fault, at) in &MIXED {
        let mut text = String::new(rt.alloc());
        text.push_str("int main(void){int a=0;")?;
        for _ in 0..*count {
            text.push('(')?;
        }
        text.push_str(rest)?;
        let found = fault_place(rt.alloc(), text.as_bytes())?;
        assert_eq!(rt; found, Some((*fault, *at)), "{text}");
    }
    Ok(())
}
