//! How initialisers open and end.

ghost use Rattle.std.specs.Prelude.{ℕ, ◌≡◌, List, [], ◌∷◌, ◌++◌, map, IfOk};
ghost use Rattle.porch_tree.specs.Mirror.{value};
ghost use Rattle.porch_tree.specs.Views.{expr_of, declarator_of, initial_of, declaration_of};
ghost use Rattle.porch_declarations.specs.declared.stage.Brace.{Brace};
ghost use Rattle.porch_declarations.specs.declared.stage.Declarer.{Declarer};
ghost use Rattle.porch_declarations.specs.Declarations as declarations;
ghost use Rattle.porch_declarations.specs.Declarations.{at_initial, behind_initial, opened_at, with_item, closed, item_ended, initial_ended, last_comma};
ghost use Rattle.porch_declarations.specs.Shown.{brace_of, braces_of, stage_of};

use crate::entry::{is_close_brace, is_comma, is_semicolon, last_entry, next_entry};
use crate::stage::{Brace, Declarer, Stage};
use porch_parts::Sign;
use porch_tree::{Declaration, Declarator, Expr, Initial};
use sqlite_items::{Boxed, Items};
use std::alloc::{AllocError, Global};

fn push_brace(braces: &mut Items<Brace>, brace: Brace) -> Result<(), AllocError>
    ensures { IfOk result (λ _. (text : List ℕ) →
        braces_of text braces.new ≡ brace_of text brace ∷ braces_of text braces.old) }
{
    braces.push(brace)
}

/// Behind a `{`.
pub(crate) fn open_braces(
    alloc: Global,
    declarer: &mut Declarer,
    declaration: Boxed<Declaration>,
    declarator: Boxed<Declarator>,
    at: u32,
) -> Result<Stage, AllocError>
    ensures { IfOk result (λ s. (text : List ℕ) → stage_of text declarer.new s
        ≡ at_initial (declaration_of text declaration) (declarator_of text declarator)
        (opened_at at ∷ braces_of text declarer.old.braces)) }
{
    let items = Items::new(alloc);
    push_brace(&mut declarer.braces, Brace { at, items })?;
    Ok(Stage::AtInitial(declaration, declarator))
}

fn braced(brace: Brace, comma: bool) -> Initial
    ensures { (text : List ℕ) → initial_of text result ≡ closed (brace_of text brace) comma }
{
    let Brace { at, items } = brace;
    Initial::Braced { at, items, comma }
}

fn close_brace(
    alloc: Global,
    declaration: Boxed<Declaration>,
    declarator: Boxed<Declarator>,
    brace: Brace,
    comma: bool,
) -> Result<Stage, AllocError>
    ensures { IfOk result (λ s. (text : List ℕ) (declarer : Declarer) → stage_of text declarer s
        ≡ behind_initial (declaration_of text declaration) (declarator_of text declarator)
        (braces_of text declarer.braces) (closed (brace_of text brace) comma)) }
{
    let initial = Boxed::new(alloc, braced(brace, comma))?;
    Ok(Stage::BehindInitial(declaration, declarator, initial))
}

/// A `}` behind a comma.
pub(crate) fn end_comma(
    alloc: Global,
    declarer: &mut Declarer,
    declaration: Boxed<Declaration>,
    declarator: Boxed<Declarator>,
) -> Result<Stage, AllocError>
    ensures { IfOk result (λ s. (text : List ℕ) → stage_of text declarer.new s
        ≡ last_comma (declaration_of text declaration) (declarator_of text declarator)
        (braces_of text declarer.old.braces)) }
{
    match declarer.braces.pop() {
        None => Ok(Stage::Broken),
        Some(brace) => close_brace(alloc, declaration, declarator, brace, true),
    }
}

fn add_item(mut brace: Brace, initial: Initial) -> Result<Brace, AllocError>
    ensures { IfOk result (λ b. (text : List ℕ) →
        brace_of text b ≡ with_item (brace_of text brace) (initial_of text initial)) }
{
    brace.items.push(initial)?;
    Ok(brace)
}

// an initialiser ended in braces, to which it has been added
fn end_full(
    alloc: Global,
    declarer: &mut Declarer,
    declaration: Boxed<Declaration>,
    declarator: Boxed<Declarator>,
    brace: Brace,
    sign: Sign,
) -> Result<Stage, AllocError>
    ensures { IfOk result (λ s. (text : List ℕ) → stage_of text declarer.new s
        ≡ item_ended (declaration_of text declaration) (declarator_of text declarator)
        (braces_of text declarer.old.braces) (brace_of text brace) sign) }
{
    if is_comma(sign) {
        next_item(declarer, declaration, declarator, brace)
    } else if is_close_brace(sign) {
        close_brace(alloc, declaration, declarator, brace, false)
    } else {
        Ok(Stage::Broken)
    }
}

fn next_item(
    declarer: &mut Declarer,
    declaration: Boxed<Declaration>,
    declarator: Boxed<Declarator>,
    brace: Brace,
) -> Result<Stage, AllocError>
    ensures { IfOk result (λ s. (text : List ℕ) → stage_of text declarer.new s
        ≡ at_initial (declaration_of text declaration) (declarator_of text declarator)
        (brace_of text brace ∷ braces_of text declarer.old.braces)) }
{
    push_brace(&mut declarer.braces, brace)?;
    Ok(Stage::AtInitial(declaration, declarator))
}

fn end_item(
    alloc: Global,
    declarer: &mut Declarer,
    declaration: Boxed<Declaration>,
    declarator: Boxed<Declarator>,
    brace: Brace,
    initial: Initial,
    sign: Sign,
) -> Result<Stage, AllocError>
    ensures { IfOk result (λ s. (text : List ℕ) → stage_of text declarer.new s
        ≡ initial_ended (declaration_of text declaration) (declarator_of text declarator)
        (brace_of text brace ∷ braces_of text declarer.old.braces) (initial_of text initial)
        sign) }
{
    let brace = add_item(brace, initial)?;
    end_full(alloc, declarer, declaration, declarator, brace, sign)
}

// an initialiser ended in no braces
fn end_outer(
    alloc: Global,
    declarer: &mut Declarer,
    declaration: Boxed<Declaration>,
    declarator: Boxed<Declarator>,
    initial: Initial,
    sign: Sign,
) -> Result<Stage, AllocError>
    ensures { IfOk result (λ s. (text : List ℕ) → stage_of text declarer.new s
        ≡ initial_ended (declaration_of text declaration) (declarator_of text declarator) []
        (initial_of text initial) sign) }
{
    if is_comma(sign) {
        next_entry(alloc, declarer, declaration, declarator, Some(initial))
    } else if is_semicolon(sign) {
        last_entry(alloc, declaration, declarator, Some(initial))
    } else {
        Ok(Stage::Broken)
    }
}

/// An initialiser ended in front of a word.
pub(crate) fn end_initial(
    alloc: Global,
    declarer: &mut Declarer,
    declaration: Boxed<Declaration>,
    declarator: Boxed<Declarator>,
    initial: Initial,
    sign: Sign,
) -> Result<Stage, AllocError>
    ensures { IfOk result (λ s. (text : List ℕ) → stage_of text declarer.new s
        ≡ initial_ended (declaration_of text declaration) (declarator_of text declarator)
        (braces_of text declarer.old.braces) (initial_of text initial) sign) }
{
    match declarer.braces.pop() {
        None => end_outer(alloc, declarer, declaration, declarator, initial, sign),
        Some(brace) => {
            end_item(
                alloc,
                declarer,
                declaration,
                declarator,
                brace,
                initial,
                sign,
            )
        }
    }
}

/// A value ended in front of a word.
pub(crate) fn end_value(
    alloc: Global,
    declarer: &mut Declarer,
    declaration: Boxed<Declaration>,
    declarator: Boxed<Declarator>,
    expr: Expr,
    sign: Sign,
) -> Result<Stage, AllocError>
    ensures { IfOk result (λ s. (text : List ℕ) → stage_of text declarer.new s
        ≡ initial_ended (declaration_of text declaration) (declarator_of text declarator)
        (braces_of text declarer.old.braces) (value (expr_of text expr)) sign) }
{
    let initial = Initial::Value(expr);
    end_initial(alloc, declarer, declaration, declarator, initial, sign)
}
