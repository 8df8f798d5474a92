//! Worked expressions: what they are as trees.

use indexmap::IndexSet;
use porch_lex::lex;
use porch_parts::expression;
use porch_tree::{Expr, Level};
use std::alloc::Global;
use std::process::Abort;
use std::test::Fail;

/// The expression that a text is, `T` being a typedef name.
fn expression_in(alloc: Global, text: &[u8]) -> Option<Expr> {
    let mut types = IndexSet::new(alloc);
    let name: &[u8] = b"T";
    if types.insert(name).is_err() {
        return None;
    }
    match lex(alloc, text) {
        Ok(tokens) => match expression(alloc, text, &types, tokens.as_slice()) {
            Ok(found) => found,
            Err(_) => None,
        },
        Err(_) => None,
    }
}

/// Whether it is a row of a level with so many operands behind the first one.
fn is_row(expr: &Expr, wanted: Level, count: usize) -> bool {
    match expr {
        Expr::Row {
            level,
            first: _,
            more,
        } => *level == wanted && more.len() == count,
        _ => false,
    }
}

fn is_assignment(expr: &Expr) -> bool {
    matches!(expr, Expr::Assign { .. })
}

#[test]
fn operators_of_one_level_are_one_row(rt: HostRuntime) {
    match expression_in(rt.alloc(), b"a - b * c - d") {
        Some(
            Expr::Row {
                level,
                first: _,
                more,
            },
        ) => {
            assert_eq!(rt; level, Level::Sum);
            assert_eq!(rt; more.len(), 2);
            match more.as_slice() {
                [(_, product), (_, _)] => assert!(rt; is_row(product, Level::Product, 1)),
                _ => assert!(rt; false, "not two operands"),
            }
        }
        _ => assert!(rt; false, "no row"),
    }
}

#[test]
fn assignments_group_to_the_right(rt: HostRuntime) {
    match expression_in(rt.alloc(), b"a = b = c") {
        Some(
            Expr::Assign {
                assigning: _,
                place: _,
                value,
            },
        ) => assert!(rt; is_assignment(value.get())),
        _ => assert!(rt; false, "no assignment"),
    }
}

#[test]
fn suffixes_stand_behind_one_operand(rt: HostRuntime) {
    match expression_in(rt.alloc(), b"f(a, b = 1)()[0].x->y++") {
        Some(
            Expr::Suffixed {
                operand: _,
                suffixes,
            },
        ) => assert_eq!(rt; suffixes.len(), 6),
        _ => assert!(rt; false, "no suffixes"),
    }
}

/// Texts that begin with a type in parentheses.
static CASTS: [&str; 5] = [
    "(T)x",
    "(const T*[2])(x)",
    "(struct{int a,(*f)(void);enum e{A,B=1}b;}const)x",
    "(unsigned const char)(T)x",
    "(struct s)x",
];

/// Texts that are the size of a type.
static SIZES: [&str; 4] = [
    "sizeof(T)",
    "sizeof(struct s*[sizeof(int)])",
    "sizeof(enum{A=(T)1}*const*)",
    "sizeof(void)",
];

/// Texts that begin with an expression in parentheses, or with its size.
static NESTED: [&str; 4] = ["(x)", "(U)", "((T)x)", "(*x)"];

#[test]
fn a_type_in_parentheses_is_told_from_an_expression(rt: HostRuntime) {
    for text in &CASTS {
        let found = expression_in(rt.alloc(), text.as_bytes());
        assert!(rt; matches!(found, Some(Expr::Cast { .. })), "{text}");
    }
    for text in &SIZES {
        let found = expression_in(rt.alloc(), text.as_bytes());
        assert!(rt; matches!(found, Some(Expr::SizeOf { .. })), "{text}");
    }
    for text in &NESTED {
        let found = expression_in(rt.alloc(), text.as_bytes());
        assert!(rt; matches!(found, Some(Expr::Nested { .. })), "{text}");
    }
}

static NO_EXPRESSIONS: [&str; 11] = [
    "",
    "a +",
    "a b",
    "(a",
    "a)",
    "a ? b",
    "a[1",
    "f(a,)",
    "(T)",
    "(int x)",
    "sizeof(int",
];

#[test]
fn what_is_no_expression_has_no_tree(rt: HostRuntime) {
    for text in &NO_EXPRESSIONS {
        assert!(rt;
            expression_in(rt.alloc(), text.as_bytes()).is_none(),
            "{text}"
        );
    }
}
