//! What has been read of a text, and what stands in front of the next token.

use porch_declarations::{Declarer, Stage};
use porch_parts::Turn;
use porch_tree::{Declaration, Declarator, Expr, Item, Stmt, SwitchEntry};
use sqlite_items::{Boxed, Items};

/// What is still to be ended. A statement in a block or in a switch stands behind others.
#[derive(Drop)]
pub enum Frame {
    /// A base with `static` before it or not, a declarator, and the block of a function.
    Body {
        declaration: Boxed<Declaration>,
        declarator: Boxed<Declarator>,
        declarations: Items<Declaration>,
        body: Items<Stmt>,
    },
    Block {
        at: u32,
        declarations: Items<Declaration>,
        body: Items<Stmt>,
    },
    Switch {
        at: u32,
        value: Expr,
        entries: Items<SwitchEntry>,
    },
    If {
        at: u32,
        condition: Expr,
    },
    Else {
        at: u32,
        condition: Expr,
        chosen: Boxed<Stmt>,
    },
    While {
        at: u32,
        condition: Expr,
    },
    Do {
        at: u32,
    },
    For {
        at: u32,
        start: Option<Expr>,
        condition: Option<Expr>,
        next: Option<Expr>,
    },
}

/// What an expression is there for, with the place of the statement and what has been read of it.
#[derive(Drop)]
pub enum Purpose {
    Evaluate,
    Choose {
        at: u32,
    },
    Repeat {
        at: u32,
    },
    RepeatBehind {
        at: u32,
        body: Boxed<Stmt>,
    },
    Start {
        at: u32,
    },
    GoOn {
        at: u32,
        start: Option<Expr>,
    },
    Step {
        at: u32,
        start: Option<Expr>,
        condition: Option<Expr>,
    },
    Switch {
        at: u32,
    },
    Give {
        at: u32,
    },
    Label {
        at: u32,
    },
}

/// What stands in front of the next token.
#[derive(Drop)]
pub enum Point {
    /// Between items, and behind a typedef.
    AtItem,
    BehindTypedef,
    InTypedef(Stage),
    InItem(Stage),
    /// In a block: a declaration, or a statement, may stand here.
    InDeclaration(Stage),
    AtFirst,
    AtStatement,
    /// A token is passed by in front of an expression, of an expression or none, of the end of a statement,
    /// of the entries of a switch, and behind `default`.
    AtParenthesis(Purpose),
    AtValue(Purpose),
    InValue(Purpose, Turn),
    AtEnd(Stmt),
    AtBrace { at: u32, value: Expr },
    AtColon { at: u32 },
    /// A statement has ended.
    Ended(Stmt),
    /// No unit has these tokens.
    Broken,
}

/// The items that have ended, what is still to be ended, the innermost last, and what reads declarations
/// and expressions.
#[derive(Drop)]
pub struct Builder {
    pub items: Items<Item>,
    pub frames: Items<Frame>,
    pub declarer: Declarer,
}
