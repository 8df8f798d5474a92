//! What a token of a declaration does in a block.

ghost use Rattle.std.specs.Prelude.{ℕ, ◌≡◌, ◌||◌, ◌∷◌, ◌++◌, [], List, map, IfOk};
ghost use Rattle.porch_tree.specs.Views.{declarator_of, declaration_of, stmt_of};
ghost use Rattle.porch_lex.specs.Words.{kind_word, spelled_token};
ghost use Rattle.porch_declarations.specs.Declarations as declarations;
ghost use Rattle.porch_declarations.specs.Shown.{stage_of};
ghost use Rattle.porch_unit.specs.Units as units;
ghost use Rattle.porch_unit.specs.Units.{declared_in, declared_on, first_step, in_body, in_block};
ghost use Rattle.porch_statements.specs.declared.frame.Builder.{Builder};
ghost use Rattle.porch_statements.specs.Shown.{frame_of, frames_of, items_of, state_of};

use porch_declarations::{Stage, read_token};
use porch_lex::{Token, word_at};
use porch_statements::{Builder, Frame, Point, let_go, pop_frame, push_filled, read_statement};
use porch_tree::{Declaration, Declarator, Keyword, Stmt, Word};
use sqlite_items::{Boxed, Items};
use std::alloc::{AllocError, Global};

/// A token of a declaration in a block.
pub fn read_declaration(
    alloc: Global,
    builder: &mut Builder,
    stage: Stage,
    begins: bool,
    token: Token,
) -> Result<Point, AllocError>
    ensures step { IfOk result (λ x. (text : List ℕ) → state_of text builder.new x
        ≡ declared_on (items_of text builder.old.items) (frames_of text builder.old.frames)
        (declarations.step_at begins (stage_of text builder.old.declarer stage)
        (kind_word token.kind) (spelled_token text token))) }
{
    let stage = read_token(alloc, &mut builder.declarer, stage, begins, token)?;
    settle_declaration(builder, stage)
}

/// A token where a declaration or a statement may stand.
pub fn read_first(
    alloc: Global,
    builder: &mut Builder,
    begins: bool,
    token: Token,
) -> Result<Point, AllocError>
    ensures step { IfOk result (λ x. (text : List ℕ) → state_of text builder.new x
        ≡ first_step begins (items_of text builder.old.items)
        (frames_of text builder.old.frames) (kind_word token.kind)
        (spelled_token text token)) }
{
    if declares(begins, word_at(token)) {
        read_declaration(alloc, builder, Stage::AtStart, begins, token)
    } else {
        read_statement(alloc, builder, begins, token)
    }
}

// whether a declaration begins with a word
fn declares(begins: bool, word: Word) -> bool
    ensures { result ≡ (begins || declarations.is_static word) }
{
    begins || is_static(word)
}

fn is_static(word: Word) -> bool
    ensures { result ≡ declarations.is_static word }
{
    matches!(word, Word::Key(Keyword::Static))
}

fn add_in_block(
    frames: &mut Items<Frame>,
    at: u32,
    mut declarations: Items<Declaration>,
    body: Items<Stmt>,
    declaration: Boxed<Declaration>,
) -> Result<(), AllocError>
    ensures { IfOk result (λ _. (text : List ℕ) → frames_of text frames.new
        ≡ in_block at
        (map (declaration_of text) declarations ++ declaration_of text declaration ∷ [])
        (map (stmt_of text) body) ∷ frames_of text frames.old) }
{
    let filled = declarations.push(declaration.into_inner());
    push_filled(
        frames,
        Frame::Block {
            at,
            declarations,
            body,
        },
        filled,
    )
}

fn add_in_body(
    frames: &mut Items<Frame>,
    head: Boxed<Declaration>,
    declarator: Boxed<Declarator>,
    mut declarations: Items<Declaration>,
    body: Items<Stmt>,
    declaration: Boxed<Declaration>,
) -> Result<(), AllocError>
    ensures { IfOk result (λ _. (text : List ℕ) → frames_of text frames.new
        ≡ in_body (declaration_of text head) (declarator_of text declarator)
        (map (declaration_of text) declarations ++ declaration_of text declaration ∷ [])
        (map (stmt_of text) body) ∷ frames_of text frames.old) }
{
    let filled = declarations.push(declaration.into_inner());
    push_filled(
        frames,
        Frame::Body {
            declaration: head,
            declarator,
            declarations,
            body,
        },
        filled,
    )
}

// no unit has these tokens
fn lose(frame: Frame, declaration: Boxed<Declaration>) -> Point
    ensures { (text : List ℕ) (builder : Builder) →
        state_of text builder result ≡ units.broken_state (items_of text builder.items) }
{
    let_go(frame);
    let_go(declaration);
    Point::Broken
}

fn declare_in(
    builder: &mut Builder,
    frame: Frame,
    declaration: Boxed<Declaration>,
) -> Result<Point, AllocError>
    ensures { IfOk result (λ x. (text : List ℕ) → state_of text builder.new x
        ≡ declared_in (items_of text builder.old.items)
        (frame_of text frame ∷ frames_of text builder.old.frames)
        (declaration_of text declaration)) }
{
    match frame {
        Frame::Block {
            at,
            declarations,
            body,
        } => {
            add_in_block(&mut builder.frames, at, declarations, body, declaration)?;
            Ok(Point::AtFirst)
        }
        Frame::Body {
            declaration: head,
            declarator,
            declarations,
            body,
        } => {
            add_in_body(
                &mut builder.frames,
                head,
                declarator,
                declarations,
                body,
                declaration,
            )?;
            Ok(Point::AtFirst)
        }
        Frame::Switch { at, value, entries } => {
            Ok(lose(Frame::Switch { at, value, entries }, declaration))
        }
        Frame::If { at, condition } => Ok(lose(Frame::If { at, condition }, declaration)),
        Frame::Else {
            at,
            condition,
            chosen,
        } => Ok(lose(
            Frame::Else {
                at,
                condition,
                chosen,
            },
            declaration,
        )),
        Frame::While { at, condition } => Ok(lose(Frame::While { at, condition }, declaration)),
        Frame::Do { at } => Ok(lose(Frame::Do { at }, declaration)),
        Frame::For {
            at,
            start,
            condition,
            next,
        } => Ok(lose(
            Frame::For {
                at,
                start,
                condition,
                next,
            },
            declaration,
        )),
    }
}

// behind the `;` of a declaration in a block
fn declare(builder: &mut Builder, declaration: Boxed<Declaration>) -> Result<Point, AllocError>
    ensures { IfOk result (λ x. (text : List ℕ) → state_of text builder.new x
        ≡ declared_in (items_of text builder.old.items) (frames_of text builder.old.frames)
        (declaration_of text declaration)) }
{
    match pop_frame(&mut builder.frames) {
        None => {
            let_go(declaration);
            Ok(Point::Broken)
        }
        Some(frame) => declare_in(builder, frame, declaration),
    }
}

fn settle_declaration(builder: &mut Builder, stage: Stage) -> Result<Point, AllocError>
    ensures { IfOk result (λ x. (text : List ℕ) → state_of text builder.new x
        ≡ declared_on (items_of text builder.old.items) (frames_of text builder.old.frames)
        (stage_of text builder.old.declarer stage)) }
{
    match stage {
        Stage::Over(declaration) => declare(builder, declaration),
        Stage::AtStart => Ok(Point::InDeclaration(Stage::AtStart)),
        Stage::InTyped(fixed, turn) => Ok(Point::InDeclaration(Stage::InTyped(fixed, turn))),
        Stage::InDeclared(head, turn) => Ok(Point::InDeclaration(Stage::InDeclared(head, turn))),
        Stage::AtInitial(head, declarator) => {
            Ok(Point::InDeclaration(Stage::AtInitial(head, declarator)))
        }
        Stage::InValue(head, declarator, turn) => {
            Ok(Point::InDeclaration(Stage::InValue(head, declarator, turn)))
        }
        Stage::BehindInitial(head, declarator, initial) => Ok(Point::InDeclaration(
            Stage::BehindInitial(head, declarator, initial),
        )),
        Stage::Headed(head, declarator) => {
            Ok(Point::InDeclaration(Stage::Headed(head, declarator)))
        }
        Stage::Broken => Ok(Point::InDeclaration(Stage::Broken)),
    }
}
