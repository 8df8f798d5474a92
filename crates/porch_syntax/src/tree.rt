//! The tree of a program, with one variant for each alternative of the grammar.

use sqlite_items::{Boxed, Items};

/// The sign in front of a term that isn't the first of its sum.
#[derive(Clone, Copy, Debug, PartialEq, Eq)]
pub enum Sign {
    Plus,
    Minus,
}

/// An expression. The parts of a product and of a sum are lists, so that the depth of the tree is that of the
/// parentheses.
#[derive(Drop)]
pub enum Expr {
    /// A variable, by the number of its declaration.
    Variable(u32),
    /// A decimal constant.
    Whole(i32),
    /// A character constant.
    Character(u8),
    /// An expression in parentheses.
    Nested(Boxed<Expr>),
    /// Factors, of which there are two or more.
    Product {
        first: Boxed<Expr>,
        more: Items<Expr>,
    },
    /// Terms, of which there are two or more.
    Sum {
        first: Boxed<Expr>,
        more: Items<(Sign, Expr)>,
    },
    /// `left < right`.
    Less {
        left: Boxed<Expr>,
        right: Boxed<Expr>,
    },
}

/// A statement.
#[derive(Drop)]
pub enum Stmt {
    /// `variable = value;`
    Assign { variable: u32, value: Expr },
    /// `while (condition) { body }`
    While { condition: Expr, body: Items<Stmt> },
    /// `putchar(value);`
    Putchar(Expr),
    /// `return value;`
    Return(Expr),
}

/// A program: `main` with its variables, each with its initialiser if it has one, and its statements.
#[derive(Drop)]
pub struct Tree {
    pub declarations: Items<Option<Expr>>,
    pub statements: Items<Stmt>,
}
