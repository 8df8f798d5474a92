//! What a token does in a declaration.

ghost use Rattle.std.specs.Prelude.{ℕ, ◌≡◌, List, Some, None, IfOk};
ghost use Rattle.porch_tree.specs.Views.{declarator_of, declaration_of};
ghost use Rattle.porch_lex.specs.Words.{kind_word, spelled_token};
ghost use Rattle.porch_parts.specs.Ends.{at_single, at_typed};
ghost use Rattle.porch_parts.specs.Shown as parts;
ghost use Rattle.porch_declarations.specs.Declarations as declarations;
ghost use Rattle.porch_declarations.specs.Declarations.{step_at, start_step, typed_step, declared_step, value_step, initial_step};
ghost use Rattle.porch_declarations.specs.Shown.{braces_of, stage_of};

use crate::entry::{end_declarator, end_typed, is_close_brace, is_open_brace};
use crate::initial::{end_comma, end_initial, end_value, open_braces};
use crate::stage::{Declarer, Stage};
use porch_lex::{Token, word_at};
use porch_parts::{Found, Turn, begin_single, begin_typed, found_in, sign_at};
use porch_tree::{Declaration, Declarator, Keyword, Word};
use sqlite_items::Boxed;
use std::alloc::{AllocError, Global};

/// What stands behind one more token. `begins` says whether a type can begin with it.
pub fn read_token(
    alloc: Global,
    declarer: &mut Declarer,
    stage: Stage,
    begins: bool,
    token: Token,
) -> Result<Stage, AllocError>
    ensures step { IfOk result (λ s. (text : List ℕ) → stage_of text declarer.new s
        ≡ step_at begins (stage_of text declarer.old stage) (kind_word token.kind)
        (spelled_token text token)) }
{
    match stage {
        Stage::AtStart => read_start(alloc, declarer, begins, token),
        Stage::InTyped(fixed, turn) => read_typed(alloc, declarer, fixed, turn, begins, token),
        Stage::InDeclared(declaration, turn) => {
            read_declared(alloc, declarer, declaration, turn, begins, token)
        }
        Stage::AtInitial(declaration, declarator) => {
            read_initial(alloc, declarer, declaration, declarator, begins, token)
        }
        Stage::InValue(declaration, declarator, turn) => {
            read_value(
                alloc,
                declarer,
                declaration,
                declarator,
                turn,
                begins,
                token,
            )
        }
        Stage::BehindInitial(declaration, declarator, initial) => end_initial(
            alloc,
            declarer,
            declaration,
            declarator,
            initial.into_inner(),
            sign_at(word_at(token)),
        ),
        Stage::Over(_) => Ok(Stage::Broken),
        Stage::Headed(_, _) => Ok(Stage::Broken),
        Stage::Broken => Ok(Stage::Broken),
    }
}

fn is_static(word: Word) -> bool
    ensures { result ≡ declarations.is_static word }
{
    matches!(word, Word::Key(Keyword::Static))
}

fn read_start(
    alloc: Global,
    declarer: &mut Declarer,
    begins: bool,
    token: Token,
) -> Result<Stage, AllocError>
    ensures { IfOk result (λ s. (text : List ℕ) → stage_of text declarer.new s
        ≡ start_step begins (kind_word token.kind) (spelled_token text token)) }
{
    let turn = begin_typed(alloc, &mut declarer.reader)?;
    if is_static(word_at(token)) {
        Ok(Stage::InTyped(Some(token.from), turn))
    } else {
        read_typed(alloc, declarer, None, turn, begins, token)
    }
}

fn read_typed(
    alloc: Global,
    declarer: &mut Declarer,
    fixed: Option<u32>,
    turn: Turn,
    begins: bool,
    token: Token,
) -> Result<Stage, AllocError>
    ensures { IfOk result (λ s. (text : List ℕ) → stage_of text declarer.new s
        ≡ typed_step begins fixed (parts.state_of text declarer.old.reader.frames
        declarer.old.reader.parts turn) (kind_word token.kind) (spelled_token text token)) }
{
    let turn = porch_parts::read_token(alloc, &mut declarer.reader, turn, begins, token)?;
    match found_in(turn) {
        Found::Going(turn) => Ok(Stage::InTyped(fixed, turn)),
        Found::Type(name) => end_typed(alloc, declarer, fixed, name, sign_at(word_at(token))),
        Found::Expr(_) => Ok(Stage::Broken),
        Found::Declarator(_) => Ok(Stage::Broken),
    }
}

fn read_declared(
    alloc: Global,
    declarer: &mut Declarer,
    declaration: Boxed<Declaration>,
    turn: Turn,
    begins: bool,
    token: Token,
) -> Result<Stage, AllocError>
    ensures { IfOk result (λ s. (text : List ℕ) → stage_of text declarer.new s
        ≡ declared_step begins (declaration_of text declaration)
        (parts.state_of text declarer.old.reader.frames declarer.old.reader.parts turn)
        (kind_word token.kind) (spelled_token text token)) }
{
    let turn = porch_parts::read_token(alloc, &mut declarer.reader, turn, begins, token)?;
    match found_in(turn) {
        Found::Going(turn) => Ok(Stage::InDeclared(declaration, turn)),
        Found::Declarator(declarator) => {
            let declarator = Boxed::new(alloc, declarator)?;
            end_declarator(
                alloc,
                declarer,
                declaration,
                declarator,
                sign_at(word_at(token)),
            )
        }
        Found::Expr(_) => Ok(Stage::Broken),
        Found::Type(_) => Ok(Stage::Broken),
    }
}

fn read_value(
    alloc: Global,
    declarer: &mut Declarer,
    declaration: Boxed<Declaration>,
    declarator: Boxed<Declarator>,
    turn: Turn,
    begins: bool,
    token: Token,
) -> Result<Stage, AllocError>
    ensures { IfOk result (λ s. (text : List ℕ) → stage_of text declarer.new s
        ≡ value_step begins (declaration_of text declaration) (declarator_of text declarator)
        (braces_of text declarer.old.braces)
        (parts.state_of text declarer.old.reader.frames declarer.old.reader.parts turn)
        (kind_word token.kind) (spelled_token text token)) }
{
    let turn = porch_parts::read_token(alloc, &mut declarer.reader, turn, begins, token)?;
    match found_in(turn) {
        Found::Going(turn) => Ok(Stage::InValue(declaration, declarator, turn)),
        Found::Expr(expr) => {
            let sign = sign_at(word_at(token));
            end_value(alloc, declarer, declaration, declarator, expr, sign)
        }
        Found::Type(_) => Ok(Stage::Broken),
        Found::Declarator(_) => Ok(Stage::Broken),
    }
}

fn begin_value(
    alloc: Global,
    declarer: &mut Declarer,
    declaration: Boxed<Declaration>,
    declarator: Boxed<Declarator>,
    begins: bool,
    token: Token,
) -> Result<Stage, AllocError>
    ensures { IfOk result (λ s. (text : List ℕ) → stage_of text declarer.new s
        ≡ value_step begins (declaration_of text declaration) (declarator_of text declarator)
        (braces_of text declarer.old.braces) at_single (kind_word token.kind)
        (spelled_token text token)) }
{
    let turn = begin_single(alloc, &mut declarer.reader)?;
    read_value(
        alloc,
        declarer,
        declaration,
        declarator,
        turn,
        begins,
        token,
    )
}

fn read_initial(
    alloc: Global,
    declarer: &mut Declarer,
    declaration: Boxed<Declaration>,
    declarator: Boxed<Declarator>,
    begins: bool,
    token: Token,
) -> Result<Stage, AllocError>
    ensures { IfOk result (λ s. (text : List ℕ) → stage_of text declarer.new s
        ≡ initial_step begins (declaration_of text declaration) (declarator_of text declarator)
        (braces_of text declarer.old.braces) (kind_word token.kind)
        (spelled_token text token)) }
{
    let sign = sign_at(word_at(token));
    if is_open_brace(sign) {
        open_braces(alloc, declarer, declaration, declarator, token.from)
    } else if is_close_brace(sign) {
        end_comma(alloc, declarer, declaration, declarator)
    } else {
        begin_value(alloc, declarer, declaration, declarator, begins, token)
    }
}
