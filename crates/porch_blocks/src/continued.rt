//! What a token does in front of which a statement has ended.

ghost use Rattle.std.specs.Prelude.{ℕ, ◌≡◌, ◌∷◌, ◌++◌, [], List, map, IfOk};
ghost use Rattle.porch_tree.specs.Mirror as mirror;
ghost use Rattle.porch_tree.specs.Views.{expr_of, declarator_of, declaration_of, stmt_of, switch_entry_of};
ghost use Rattle.porch_lex.specs.Words.{kind_word, spelled_token};
ghost use Rattle.porch_unit.specs.Units as units;
ghost use Rattle.porch_unit.specs.Units.{statement_step, continued, ended_step, in_body, in_block, in_switch};
ghost use Rattle.porch_statements.specs.declared.frame.Builder.{Builder};
ghost use Rattle.porch_statements.specs.Shown.{frame_of, frames_of, items_of, state_of};

use crate::ended::end_frames;
use porch_lex::{Token, word_at};
use porch_statements::{
    Builder, Frame, Point, Purpose, let_go, nest, pop_frame, push_filled, read_statement,
};
use porch_tree::{Declaration, Declarator, Expr, Keyword, Stmt, SwitchEntry, Word};
use sqlite_items::{Boxed, Items};
use std::alloc::{AllocError, Global};

/// A token in front of which a statement has ended.
pub fn read_ended(
    alloc: Global,
    builder: &mut Builder,
    statement: Stmt,
    begins: bool,
    token: Token,
) -> Result<Point, AllocError>
    ensures step { IfOk result (λ x. (text : List ℕ) → state_of text builder.new x
        ≡ ended_step begins (items_of text builder.old.items)
        (frames_of text builder.old.frames) (stmt_of text statement)
        (kind_word token.kind) (spelled_token text token)) }
{
    let before_else = is_else(word_at(token));
    let ended = end_frames(alloc, &mut builder.frames, before_else, statement)?;
    continue_at(alloc, builder, ended, begins, token)
}

fn is_else(word: Word) -> bool
    ensures { result ≡ units.is_else word }
{
    matches!(word, Word::Key(Keyword::Else))
}

fn add_in_body(
    frames: &mut Items<Frame>,
    declaration: Boxed<Declaration>,
    declarator: Boxed<Declarator>,
    declarations: Items<Declaration>,
    mut body: Items<Stmt>,
    statement: Stmt,
) -> Result<(), AllocError>
    ensures { IfOk result (λ _. (text : List ℕ) → frames_of text frames.new
        ≡ in_body (declaration_of text declaration) (declarator_of text declarator)
        (map (declaration_of text) declarations)
        (map (stmt_of text) body ++ stmt_of text statement ∷ []) ∷ frames_of text frames.old) }
{
    let filled = body.push(statement);
    push_filled(
        frames,
        Frame::Body {
            declaration,
            declarator,
            declarations,
            body,
        },
        filled,
    )
}

fn add_in_block(
    frames: &mut Items<Frame>,
    at: u32,
    declarations: Items<Declaration>,
    mut body: Items<Stmt>,
    statement: Stmt,
) -> Result<(), AllocError>
    ensures { IfOk result (λ _. (text : List ℕ) → frames_of text frames.new
        ≡ in_block at (map (declaration_of text) declarations)
        (map (stmt_of text) body ++ stmt_of text statement ∷ []) ∷ frames_of text frames.old) }
{
    let filled = body.push(statement);
    push_filled(
        frames,
        Frame::Block {
            at,
            declarations,
            body,
        },
        filled,
    )
}

fn entry_of(statement: Stmt) -> SwitchEntry
    ensures { (text : List ℕ) →
        switch_entry_of text result ≡ mirror.stmt (stmt_of text statement) }
{
    SwitchEntry::Stmt(statement)
}

fn add_in_switch(
    frames: &mut Items<Frame>,
    at: u32,
    value: Expr,
    mut entries: Items<SwitchEntry>,
    statement: Stmt,
) -> Result<(), AllocError>
    ensures { IfOk result (λ _. (text : List ℕ) → frames_of text frames.new
        ≡ in_switch at (expr_of text value) (map (switch_entry_of text) entries
        ++ mirror.stmt (stmt_of text statement) ∷ []) ∷ frames_of text frames.old) }
{
    let filled = entries.push(entry_of(statement));
    push_filled(frames, Frame::Switch { at, value, entries }, filled)
}

fn continue_body(
    alloc: Global,
    builder: &mut Builder,
    declaration: Boxed<Declaration>,
    declarator: Boxed<Declarator>,
    declarations: Items<Declaration>,
    body: Items<Stmt>,
    statement: Stmt,
    begins: bool,
    token: Token,
) -> Result<Point, AllocError>
    ensures { IfOk result (λ x. (text : List ℕ) → state_of text builder.new x
        ≡ statement_step begins (items_of text builder.old.items)
        (in_body (declaration_of text declaration) (declarator_of text declarator)
        (map (declaration_of text) declarations)
        (map (stmt_of text) body ++ stmt_of text statement ∷ [])
        ∷ frames_of text builder.old.frames)
        (kind_word token.kind) (spelled_token text token)) }
{
    add_in_body(
        &mut builder.frames,
        declaration,
        declarator,
        declarations,
        body,
        statement,
    )?;
    read_statement(alloc, builder, begins, token)
}

fn continue_block(
    alloc: Global,
    builder: &mut Builder,
    at: u32,
    declarations: Items<Declaration>,
    body: Items<Stmt>,
    statement: Stmt,
    begins: bool,
    token: Token,
) -> Result<Point, AllocError>
    ensures { IfOk result (λ x. (text : List ℕ) → state_of text builder.new x
        ≡ statement_step begins (items_of text builder.old.items)
        (in_block at (map (declaration_of text) declarations)
        (map (stmt_of text) body ++ stmt_of text statement ∷ [])
        ∷ frames_of text builder.old.frames)
        (kind_word token.kind) (spelled_token text token)) }
{
    add_in_block(&mut builder.frames, at, declarations, body, statement)?;
    read_statement(alloc, builder, begins, token)
}

fn continue_switch(
    alloc: Global,
    builder: &mut Builder,
    at: u32,
    value: Expr,
    entries: Items<SwitchEntry>,
    statement: Stmt,
    begins: bool,
    token: Token,
) -> Result<Point, AllocError>
    ensures { IfOk result (λ x. (text : List ℕ) → state_of text builder.new x
        ≡ statement_step begins (items_of text builder.old.items)
        (in_switch at (expr_of text value) (map (switch_entry_of text) entries
        ++ mirror.stmt (stmt_of text statement) ∷ [])
        ∷ frames_of text builder.old.frames)
        (kind_word token.kind) (spelled_token text token)) }
{
    add_in_switch(&mut builder.frames, at, value, entries, statement)?;
    read_statement(alloc, builder, begins, token)
}

fn begin_else(
    alloc: Global,
    builder: &mut Builder,
    at: u32,
    condition: Expr,
    chosen: Stmt,
) -> Result<Point, AllocError>
    ensures { IfOk result (λ x. (text : List ℕ) → state_of text builder.new x
        ≡ units.state (items_of text builder.old.items)
        (units.behind_else at (expr_of text condition) (stmt_of text chosen)
        ∷ frames_of text builder.old.frames) units.at_statement) }
{
    match Boxed::new(alloc, chosen) {
        Ok(chosen) => nest(
            builder,
            Frame::Else {
                at,
                condition,
                chosen,
            },
        ),
        Err(error) => {
            let_go(condition);
            Err(error)
        }
    }
}

fn end_do(alloc: Global, at: u32, body: Stmt) -> Result<Point, AllocError>
    ensures { IfOk result (λ x. (text : List ℕ) (builder : Builder) → state_of text builder x
        ≡ units.state (items_of text builder.items) (frames_of text builder.frames)
        (units.at_parenthesis (units.to_repeat_behind at (stmt_of text body)))) }
{
    let body = Boxed::new(alloc, body)?;
    Ok(Point::AtParenthesis(Purpose::RepeatBehind { at, body }))
}

// no unit has these tokens
fn lose(frame: Frame, statement: Stmt) -> Point
    ensures { (text : List ℕ) (builder : Builder) →
        state_of text builder result ≡ units.broken_state (items_of text builder.items) }
{
    let_go(frame);
    let_go(statement);
    Point::Broken
}

// A statement ended in front of this token, in a frame that goes on.
fn continue_in(
    alloc: Global,
    builder: &mut Builder,
    frame: Frame,
    statement: Stmt,
    begins: bool,
    token: Token,
) -> Result<Point, AllocError>
    ensures { IfOk result (λ x. (text : List ℕ) → state_of text builder.new x
        ≡ continued begins (items_of text builder.old.items)
        (frame_of text frame ∷ frames_of text builder.old.frames) (stmt_of text statement)
        (kind_word token.kind) (spelled_token text token)) }
{
    match frame {
        Frame::If { at, condition } => begin_else(alloc, builder, at, condition, statement),
        Frame::Do { at } => end_do(alloc, at, statement),
        Frame::Body {
            declaration,
            declarator,
            declarations,
            body,
        } => continue_body(
            alloc,
            builder,
            declaration,
            declarator,
            declarations,
            body,
            statement,
            begins,
            token,
        ),
        Frame::Block {
            at,
            declarations,
            body,
        } => continue_block(
            alloc,
            builder,
            at,
            declarations,
            body,
            statement,
            begins,
            token,
        ),
        Frame::Switch { at, value, entries } => continue_switch(
            alloc, builder, at, value, entries, statement, begins, token,
        ),
        Frame::Else {
            at,
            condition,
            chosen,
        } => Ok(lose(
            Frame::Else {
                at,
                condition,
                chosen,
            },
            statement,
        )),
        Frame::While { at, condition } => Ok(lose(Frame::While { at, condition }, statement)),
        Frame::For {
            at,
            start,
            condition,
            next,
        } => Ok(lose(
            Frame::For {
                at,
                start,
                condition,
                next,
            },
            statement,
        )),
    }
}

fn continue_at(
    alloc: Global,
    builder: &mut Builder,
    statement: Stmt,
    begins: bool,
    token: Token,
) -> Result<Point, AllocError>
    ensures { IfOk result (λ x. (text : List ℕ) → state_of text builder.new x
        ≡ continued begins (items_of text builder.old.items)
        (frames_of text builder.old.frames) (stmt_of text statement)
        (kind_word token.kind) (spelled_token text token)) }
{
    match pop_frame(&mut builder.frames) {
        None => {
            let_go(statement);
            Ok(Point::Broken)
        }
        Some(frame) => continue_in(alloc, builder, frame, statement, begins, token),
    }
}
