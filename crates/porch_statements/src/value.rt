//! What a token of an expression does, and the token in front of which there is none.

ghost use Rattle.std.specs.Prelude.{ℕ, ◌≡◌, List, IfOk};
ghost use Rattle.porch_lex.specs.Words.{kind_word, spelled_token};
ghost use Rattle.porch_parts.specs.Shown as parts;
ghost use Rattle.porch_unit.specs.Units as units;
ghost use Rattle.porch_unit.specs.Units.{value_on, value_step, begun_step, reader_for};
ghost use Rattle.porch_statements.specs.declared.frame.Builder.{Builder};
ghost use Rattle.porch_statements.specs.Shown.{frames_of, items_of, purpose_of, state_of};

use crate::frame::{Builder, Point, Purpose};
use crate::frames::let_go;
use crate::given::give;
use porch_lex::{Token, word_at};
use porch_parts::{Found, Reader, Turn, begin_single, begin_whole, found_in, read_token};
use porch_tree::{Declarator, Mark, TypeName, Word};
use sqlite_items::Boxed;
use std::alloc::{AllocError, Global};

/// A token of an expression, the first one or another.
pub fn read_value(
    alloc: Global,
    builder: &mut Builder,
    purpose: Purpose,
    turn: Turn,
    begins: bool,
    token: Token,
) -> Result<Point, AllocError>
    ensures step { IfOk result (λ x. (text : List ℕ) → state_of text builder.new x
        ≡ value_step begins (items_of text builder.old.items)
        (frames_of text builder.old.frames) (purpose_of text purpose)
        (parts.state_of text builder.old.declarer.reader.frames
        builder.old.declarer.reader.parts turn)
        (kind_word token.kind) (spelled_token text token)) }
{
    match read_token(alloc, &mut builder.declarer.reader, turn, begins, token) {
        Ok(turn) => settle_value(builder, purpose, found_in(turn)),
        Err(error) => {
            let_go(purpose);
            Err(error)
        }
    }
}

/// The first token of an expression, or the one in front of which there is none.
pub fn read_begun(
    alloc: Global,
    builder: &mut Builder,
    purpose: Purpose,
    begins: bool,
    token: Token,
) -> Result<Point, AllocError>
    ensures step { IfOk result (λ x. (text : List ℕ) → state_of text builder.new x
        ≡ begun_step begins (items_of text builder.old.items)
        (frames_of text builder.old.frames) (purpose_of text purpose)
        (kind_word token.kind) (spelled_token text token)) }
{
    if is_ending(word_at(token)) {
        give(builder, purpose, None)
    } else {
        begin_labelled(alloc, builder, purpose, begins, token)
    }
}

/// The first token of an expression that stands there.
pub(crate) fn begin_value(
    alloc: Global,
    builder: &mut Builder,
    purpose: Purpose,
    single: bool,
    begins: bool,
    token: Token,
) -> Result<Point, AllocError>
    ensures { IfOk result (λ x. (text : List ℕ) → state_of text builder.new x
        ≡ value_step begins (items_of text builder.old.items)
        (frames_of text builder.old.frames) (purpose_of text purpose) (reader_for single)
        (kind_word token.kind) (spelled_token text token)) }
{
    match begin_reader(alloc, &mut builder.declarer.reader, single) {
        Ok(turn) => read_value(alloc, builder, purpose, turn, begins, token),
        Err(error) => {
            let_go(purpose);
            Err(error)
        }
    }
}

// the first token of an expression, with commas of its own unless it is a label
fn begin_labelled(
    alloc: Global,
    builder: &mut Builder,
    purpose: Purpose,
    begins: bool,
    token: Token,
) -> Result<Point, AllocError>
    ensures { IfOk result (λ x. (text : List ℕ) → state_of text builder.new x
        ≡ value_step begins (items_of text builder.old.items)
        (frames_of text builder.old.frames) (purpose_of text purpose)
        (reader_for (units.is_label (purpose_of text purpose)))
        (kind_word token.kind) (spelled_token text token)) }
{
    let single = is_label(&purpose);
    begin_value(alloc, builder, purpose, single, begins, token)
}

fn is_ending(word: Word) -> bool
    ensures { result ≡ units.is_ending word }
{
    matches!(
        word,
        Word::Mark(Mark::Semicolon) | Word::Mark(Mark::CloseParenthesis)
    )
}

fn is_label(purpose: &Purpose) -> bool
    ensures { (text : List ℕ) → result ≡ units.is_label (purpose_of text purpose.now) }
{
    match purpose {
        Purpose::Label { at: _ } => true,
        Purpose::Evaluate => false,
        Purpose::Choose { at: _ } => false,
        Purpose::Repeat { at: _ } => false,
        Purpose::RepeatBehind { at: _, body: _ } => false,
        Purpose::Start { at: _ } => false,
        Purpose::GoOn { at: _, start: _ } => false,
        Purpose::Step {
            at: _,
            start: _,
            condition: _,
        } => false,
        Purpose::Switch { at: _ } => false,
        Purpose::Give { at: _ } => false,
    }
}

// no unit has these tokens
fn lose_type(purpose: Purpose, type_name: Boxed<TypeName>) -> Point
    ensures { (text : List ℕ) (builder : Builder) →
        state_of text builder result ≡ units.broken_state (items_of text builder.items) }
{
    let_go(purpose);
    let_go(type_name);
    Point::Broken
}

// no unit has these tokens
fn lose_declarator(purpose: Purpose, declarator: Declarator) -> Point
    ensures { (text : List ℕ) (builder : Builder) →
        state_of text builder result ≡ units.broken_state (items_of text builder.items) }
{
    let_go(purpose);
    let_go(declarator);
    Point::Broken
}

fn settle_value(builder: &mut Builder, purpose: Purpose, found: Found) -> Result<Point, AllocError>
    ensures { IfOk result (λ x. (text : List ℕ) → state_of text builder.new x
        ≡ value_on (items_of text builder.old.items) (frames_of text builder.old.frames)
        (purpose_of text purpose)
        (parts.found_of text builder.old.declarer.reader.frames
        builder.old.declarer.reader.parts found)) }
{
    match found {
        Found::Going(turn) => Ok(Point::InValue(purpose, turn)),
        Found::Expr(expr) => give(builder, purpose, Some(expr)),
        Found::Type(type_name) => Ok(lose_type(purpose, type_name)),
        Found::Declarator(declarator) => Ok(lose_declarator(purpose, declarator)),
    }
}

fn begin_reader(alloc: Global, reader: &mut Reader, single: bool) -> Result<Turn, AllocError>
    ensures { IfOk result (λ t. (text : List ℕ) →
        parts.state_of text reader.new.frames reader.new.parts t ≡ reader_for single) }
{
    if single {
        begin_single(alloc, reader)
    } else {
        Ok(begin_whole(alloc, reader))
    }
}
