//! What a token does between items, and in a declaration, a typedef or a function's head there.

ghost use Rattle.std.specs.Prelude.{ℕ, ◌≡◌, ◌∷◌, ◌++◌, [], List, map, IfOk};
ghost use Rattle.porch_tree.specs.Mirror as mirror;
ghost use Rattle.porch_tree.specs.Views.{base_of, entry_of, declarator_of, declaration_of};
ghost use Rattle.porch_lex.specs.Words.{kind_word, spelled_token};
ghost use Rattle.porch_declarations.specs.Declarations as declarations;
ghost use Rattle.porch_declarations.specs.Shown.{stage_of};
ghost use Rattle.porch_unit.specs.Units as units;
ghost use Rattle.porch_unit.specs.Units.{state, item_on, typedef_from, typedef_on, item_step, in_body};
ghost use Rattle.porch_statements.specs.Shown.{frames_of, items_of, state_of};

use porch_declarations::{Stage, read_token};
use porch_lex::{Token, word_at};
use porch_statements::{Builder, Frame, Point, let_go, push_frame};
use porch_tree::{Base, Declaration, Declarator, Entry, Item, Keyword, Word};
use sqlite_items::{Boxed, Items};
use std::alloc::{AllocError, Global};

/// A token where an item may begin.
pub(crate) fn read_item(
    alloc: Global,
    builder: &mut Builder,
    begins: bool,
    token: Token,
) -> Result<Point, AllocError>
    ensures { IfOk result (λ x. (text : List ℕ) → state_of text builder.new x
        ≡ item_step begins (items_of text builder.old.items)
        (frames_of text builder.old.frames) (kind_word token.kind)
        (spelled_token text token)) }
{
    if is_typedef(word_at(token)) {
        Ok(Point::InTypedef(Stage::AtStart))
    } else {
        read_in_item(alloc, builder, Stage::AtStart, begins, token)
    }
}

/// A token of a declaration or a function's head between items.
pub(crate) fn read_in_item(
    alloc: Global,
    builder: &mut Builder,
    stage: Stage,
    begins: bool,
    token: Token,
) -> Result<Point, AllocError>
    ensures { IfOk result (λ x. (text : List ℕ) → state_of text builder.new x
        ≡ item_on (items_of text builder.old.items) (frames_of text builder.old.frames)
        (declarations.step_at begins (stage_of text builder.old.declarer stage)
        (kind_word token.kind) (spelled_token text token))) }
{
    let stage = read_token(alloc, &mut builder.declarer, stage, begins, token)?;
    settle_item(alloc, builder, stage)
}

/// A token of a typedef.
pub(crate) fn read_typedef(
    alloc: Global,
    builder: &mut Builder,
    stage: Stage,
    begins: bool,
    token: Token,
) -> Result<Point, AllocError>
    ensures { IfOk result (λ x. (text : List ℕ) → state_of text builder.new x
        ≡ typedef_on (items_of text builder.old.items) (frames_of text builder.old.frames)
        (declarations.step_at begins (stage_of text builder.old.declarer stage)
        (kind_word token.kind) (spelled_token text token))) }
{
    let stage = read_token(alloc, &mut builder.declarer, stage, begins, token)?;
    settle_typedef(builder, stage)
}

fn is_typedef(word: Word) -> bool
    ensures { result ≡ units.is_typedef word }
{
    matches!(word, Word::Key(Keyword::Typedef))
}

fn add_declaration(
    items: &mut Items<Item>,
    declaration: Boxed<Declaration>,
) -> Result<(), AllocError>
    ensures { IfOk result (λ _. (text : List ℕ) → items_of text items.new
        ≡ items_of text items.old ++ mirror.declaration (declaration_of text declaration) ∷ []) }
{
    items.push(Item::Declaration(declaration.into_inner()))
}

// behind the `;` of a declaration
fn end_declaration(
    builder: &mut Builder,
    declaration: Boxed<Declaration>,
) -> Result<Point, AllocError>
    ensures { IfOk result (λ x. (text : List ℕ) → state_of text builder.new x
        ≡ state (items_of text builder.old.items
        ++ mirror.declaration (declaration_of text declaration) ∷ [])
        (frames_of text builder.old.frames) units.at_item) }
{
    add_declaration(&mut builder.items, declaration)?;
    Ok(Point::AtItem)
}

// behind the `{` of a function
fn open_body(
    alloc: Global,
    builder: &mut Builder,
    declaration: Boxed<Declaration>,
    declarator: Boxed<Declarator>,
) -> Result<Point, AllocError>
    ensures { IfOk result (λ x. (text : List ℕ) → state_of text builder.new x
        ≡ state (items_of text builder.old.items)
        (in_body (declaration_of text declaration) (declarator_of text declarator) [] []
        ∷ frames_of text builder.old.frames) units.at_first) }
{
    let declarations = Items::new(alloc);
    let body = Items::new(alloc);
    push_frame(
        &mut builder.frames,
        Frame::Body {
            declaration,
            declarator,
            declarations,
            body,
        },
    )?;
    Ok(Point::AtFirst)
}

fn settle_item(alloc: Global, builder: &mut Builder, stage: Stage) -> Result<Point, AllocError>
    ensures { IfOk result (λ x. (text : List ℕ) → state_of text builder.new x
        ≡ item_on (items_of text builder.old.items) (frames_of text builder.old.frames)
        (stage_of text builder.old.declarer stage)) }
{
    match stage {
        Stage::Over(declaration) => end_declaration(builder, declaration),
        Stage::Headed(head, declarator) => open_body(alloc, builder, head, declarator),
        Stage::AtStart => Ok(Point::InItem(Stage::AtStart)),
        Stage::InTyped(fixed, turn) => Ok(Point::InItem(Stage::InTyped(fixed, turn))),
        Stage::InDeclared(head, turn) => Ok(Point::InItem(Stage::InDeclared(head, turn))),
        Stage::AtInitial(head, declarator) => {
            Ok(Point::InItem(Stage::AtInitial(head, declarator)))
        }
        Stage::InValue(head, declarator, turn) => {
            Ok(Point::InItem(Stage::InValue(head, declarator, turn)))
        }
        Stage::BehindInitial(head, declarator, initial) => Ok(Point::InItem(Stage::BehindInitial(
            head, declarator, initial,
        ))),
        Stage::Broken => Ok(Point::InItem(Stage::Broken)),
    }
}

fn push_typedef(
    items: &mut Items<Item>,
    base: Base,
    declarator: Declarator,
) -> Result<(), AllocError>
    ensures { IfOk result (λ _. (text : List ℕ) → items_of text items.new
        ≡ items_of text items.old
        ++ mirror.typedef (base_of text base) (declarator_of text declarator) ∷ []) }
{
    items.push(Item::Typedef { base, declarator })
}

// the typedef of an entry
fn end_entry(items: &mut Items<Item>, base: Base, entry: Entry) -> Result<(), AllocError>
    ensures { IfOk result (λ _. (text : List ℕ) → items_of text items.new
        ≡ items_of text items.old
        ++ mirror.typedef (base_of text base) (declarator_of text entry.declarator) ∷ []) }
{
    let Entry {
        declarator,
        initial,
    } = entry;
    let_go(initial);
    push_typedef(items, base, declarator)
}

// the typedef of the last entry
fn add_typedef(
    items: &mut Items<Item>,
    base: Base,
    mut entries: Items<Entry>,
) -> Result<(), AllocError>
    ensures { IfOk result (λ _. (text : List ℕ) → items_of text items.new
        ≡ items_of text items.old
        ++ typedef_from (base_of text base) (map (entry_of text) entries)) }
{
    match entries.pop() {
        None => {
            let_go(base);
            Ok(())
        }
        Some(entry) => end_entry(items, base, entry),
    }
}

fn add_last(items: &mut Items<Item>, declaration: Boxed<Declaration>) -> Result<(), AllocError>
    ensures { IfOk result (λ _. (text : List ℕ) → items_of text items.new
        ≡ items_of text items.old ++ typedef_from (declaration_of text declaration).base
        (declaration_of text declaration).entries) }
{
    let Declaration {
        fixed: _,
        base,
        entries,
    } = declaration.into_inner();
    add_typedef(items, base, entries)
}

// behind the `;` of a typedef
fn end_typedef(builder: &mut Builder, declaration: Boxed<Declaration>) -> Result<Point, AllocError>
    ensures { IfOk result (λ x. (text : List ℕ) → state_of text builder.new x
        ≡ typedef_on (items_of text builder.old.items) (frames_of text builder.old.frames)
        (declarations.over (declaration_of text declaration))) }
{
    add_last(&mut builder.items, declaration)?;
    Ok(Point::BehindTypedef)
}

fn settle_typedef(builder: &mut Builder, stage: Stage) -> Result<Point, AllocError>
    ensures { IfOk result (λ x. (text : List ℕ) → state_of text builder.new x
        ≡ typedef_on (items_of text builder.old.items) (frames_of text builder.old.frames)
        (stage_of text builder.old.declarer stage)) }
{
    match stage {
        Stage::Over(declaration) => end_typedef(builder, declaration),
        Stage::AtStart => Ok(Point::InTypedef(Stage::AtStart)),
        Stage::InTyped(fixed, turn) => Ok(Point::InTypedef(Stage::InTyped(fixed, turn))),
        Stage::InDeclared(head, turn) => Ok(Point::InTypedef(Stage::InDeclared(head, turn))),
        Stage::AtInitial(head, declarator) => {
            Ok(Point::InTypedef(Stage::AtInitial(head, declarator)))
        }
        Stage::InValue(head, declarator, turn) => {
            Ok(Point::InTypedef(Stage::InValue(head, declarator, turn)))
        }
        Stage::BehindInitial(head, declarator, initial) => Ok(Point::InTypedef(Stage::BehindInitial(
            head, declarator, initial,
        ))),
        Stage::Headed(head, declarator) => Ok(Point::InTypedef(Stage::Headed(head, declarator))),
        Stage::Broken => Ok(Point::InTypedef(Stage::Broken)),
    }
}
