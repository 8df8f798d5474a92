//! What a frame and the statement in it are.

ghost use Rattle.std.specs.Prelude.{ℕ, ◌≡◌, List, IfOk};
ghost use Rattle.porch_tree.specs.Mirror as mirror;
ghost use Rattle.porch_tree.specs.Views.{perhaps_of, expr_of, stmt_of};
ghost use Rattle.porch_unit.specs.Units.{built};
ghost use Rattle.porch_statements.specs.Shown.{frame_of};

use porch_statements::{Frame, let_go};
use porch_tree::{Expr, Stmt};
use sqlite_items::Boxed;
use std::alloc::{AllocError, Global};

/// What a frame and the statement in it are.
pub(crate) fn build(alloc: Global, frame: Frame, body: Stmt) -> Result<Stmt, AllocError>
    ensures { IfOk result (λ s. (text : List ℕ) →
        stmt_of text s ≡ built (frame_of text frame) (stmt_of text body)) }
{
    match frame {
        Frame::If { at, condition } => choose(alloc, at, condition, body),
        Frame::Else {
            at,
            condition,
            chosen,
        } => choose_else(alloc, at, condition, chosen, body),
        Frame::While { at, condition } => repeat_while(alloc, at, condition, body),
        Frame::For {
            at,
            start,
            condition,
            next,
        } => repeat_for(alloc, at, start, condition, next, body),
        Frame::Do { at: _ } => Ok(body),
        Frame::Body {
            declaration,
            declarator,
            declarations,
            body: statements,
        } => Ok(keep(
            Frame::Body {
                declaration,
                declarator,
                declarations,
                body: statements,
            },
            body,
        )),
        Frame::Block {
            at,
            declarations,
            body: statements,
        } => Ok(keep(
            Frame::Block {
                at,
                declarations,
                body: statements,
            },
            body,
        )),
        Frame::Switch { at, value, entries } => {
            Ok(keep(Frame::Switch { at, value, entries }, body))
        }
    }
}

// The statement in a frame that doesn't end with it.
fn keep(frame: Frame, body: Stmt) -> Stmt
    ensures { (text : List ℕ) → stmt_of text result ≡ stmt_of text body }
{
    let_go(frame);
    body
}

fn choose(alloc: Global, at: u32, condition: Expr, chosen: Stmt) -> Result<Stmt, AllocError>
    ensures { IfOk result (λ s. (text : List ℕ) → stmt_of text s
        ≡ mirror.choose at (expr_of text condition) (stmt_of text chosen)) }
{
    match Boxed::new(alloc, chosen) {
        Ok(chosen) => Ok(Stmt::Choose {
            at,
            condition,
            chosen,
            other: None,
        }),
        Err(error) => {
            let_go(condition);
            Err(error)
        }
    }
}

fn choose_else(
    alloc: Global,
    at: u32,
    condition: Expr,
    chosen: Boxed<Stmt>,
    other: Stmt,
) -> Result<Stmt, AllocError>
    ensures { IfOk result (λ s. (text : List ℕ) → stmt_of text s
        ≡ mirror.choose_else at (expr_of text condition) (stmt_of text chosen)
        (stmt_of text other)) }
{
    match Boxed::new(alloc, other) {
        Ok(other) => Ok(Stmt::Choose {
            at,
            condition,
            chosen,
            other: Some(other),
        }),
        Err(error) => {
            let_go(condition);
            let_go(chosen);
            Err(error)
        }
    }
}

fn repeat_while(alloc: Global, at: u32, condition: Expr, body: Stmt) -> Result<Stmt, AllocError>
    ensures { IfOk result (λ s. (text : List ℕ) → stmt_of text s
        ≡ mirror.while_loop at (expr_of text condition) (stmt_of text body)) }
{
    match Boxed::new(alloc, body) {
        Ok(body) => Ok(Stmt::While {
            at,
            condition,
            body,
        }),
        Err(error) => {
            let_go(condition);
            Err(error)
        }
    }
}

fn repeat_for(
    alloc: Global,
    at: u32,
    start: Option<Expr>,
    condition: Option<Expr>,
    next: Option<Expr>,
    body: Stmt,
) -> Result<Stmt, AllocError>
    ensures { IfOk result (λ s. (text : List ℕ) → stmt_of text s
        ≡ mirror.for_loop at (perhaps_of text start) (perhaps_of text condition)
        (perhaps_of text next) (stmt_of text body)) }
{
    match Boxed::new(alloc, body) {
        Ok(body) => Ok(Stmt::For {
            at,
            start,
            condition,
            next,
            body,
        }),
        Err(error) => {
            let_go(start);
            let_go(condition);
            let_go(next);
            Err(error)
        }
    }
}
