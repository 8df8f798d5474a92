//! What statements and labels are made of.

ghost use Rattle.std.specs.Prelude.{ℕ, ◌≡◌, List, map};
ghost use Rattle.porch_tree.specs.Mirror as mirror;
ghost use Rattle.porch_tree.specs.Views.{perhaps_of, expr_of, declaration_of, stmt_of, stmts_of, switch_entry_of, entries_of};
ghost use Rattle.porch_statements.specs.inside.Made.{label};

use porch_tree::{Declaration, Expr, Stmt, SwitchEntry};
use sqlite_items::{Boxed, Items};

pub(crate) fn evaluation(expr: Option<Expr>) -> Stmt
    ensures { (text : List ℕ) → stmt_of text result ≡ mirror.evaluate (perhaps_of text expr) }
{
    Stmt::Evaluate(expr)
}

pub(crate) fn do_loop(at: u32, body: Boxed<Stmt>, condition: Expr) -> Stmt
    ensures { (text : List ℕ) → stmt_of text result
        ≡ mirror.do_loop at (stmt_of text body) (expr_of text condition) }
{
    Stmt::Do {
        at,
        body,
        condition,
    }
}

pub(crate) fn return_of(at: u32, value: Option<Expr>) -> Stmt
    ensures { (text : List ℕ) → stmt_of text result ≡ mirror.give at (perhaps_of text value) }
{
    Stmt::Return { at, value }
}

pub(crate) fn break_at(at: u32) -> Stmt
    ensures { (text : List ℕ) → stmt_of text result ≡ mirror.break at }
{
    Stmt::Break { at }
}

pub(crate) fn continue_at(at: u32) -> Stmt
    ensures { (text : List ℕ) → stmt_of text result ≡ mirror.continue at }
{
    Stmt::Continue { at }
}

pub(crate) fn block_of(at: u32, declarations: Items<Declaration>, body: Items<Stmt>) -> Stmt
    ensures { (text : List ℕ) → stmt_of text result
        ≡ mirror.block at (map (declaration_of text) declarations)
        (stmts_of (map (stmt_of text) body)) }
{
    Stmt::Block {
        at,
        declarations,
        body,
    }
}

pub(crate) fn switch_of(at: u32, value: Expr, entries: Items<SwitchEntry>) -> Stmt
    ensures { (text : List ℕ) → stmt_of text result ≡ mirror.switch at (expr_of text value)
        (entries_of (map (switch_entry_of text) entries)) }
{
    Stmt::Switch { at, value, entries }
}

// a label: `case` with its value, or `default`
pub(crate) fn entry_of(at: u32, case: Option<Expr>) -> SwitchEntry
    ensures { (text : List ℕ) → switch_entry_of text result ≡ label at (perhaps_of text case) }
{
    match case {
        None => default_at(at),
        Some(value) => case_of(at, value),
    }
}

fn case_of(at: u32, value: Expr) -> SwitchEntry
    ensures { (text : List ℕ) →
        switch_entry_of text result ≡ mirror.case at (expr_of text value) }
{
    SwitchEntry::Case { at, value }
}

fn default_at(at: u32) -> SwitchEntry
    ensures { (text : List ℕ) → switch_entry_of text result ≡ mirror.default at }
{
    SwitchEntry::Default { at }
}
