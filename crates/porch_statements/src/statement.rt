//! What a token does where a statement may stand.

ghost use Rattle.std.specs.Prelude.{ℕ, ◌≡◌, ◌∷◌, [], List, IfOk};
ghost use Rattle.porch_lex.specs.Words.{kind_word, spelled_token};
ghost use Rattle.porch_unit.specs.Units as units;
ghost use Rattle.porch_unit.specs.Units.{state, lead_step, statement_step};
ghost use Rattle.porch_statements.specs.Shown.{frames_of, items_of, state_of};

use crate::closing::close;
use crate::frame::{Builder, Frame, Point, Purpose};
use crate::frames::{nest, push_frame};
use crate::made::{break_at, continue_at, evaluation};
use crate::value::begin_value;
use porch_lex::{Token, word_at};
use porch_unit::{Lead, lead_at};
use sqlite_items::Items;
use std::alloc::{AllocError, Global};

/// A token where a statement may stand.
pub fn read_statement(
    alloc: Global,
    builder: &mut Builder,
    begins: bool,
    token: Token,
) -> Result<Point, AllocError>
    ensures step { IfOk result (λ x. (text : List ℕ) → state_of text builder.new x
        ≡ statement_step begins (items_of text builder.old.items)
        (frames_of text builder.old.frames) (kind_word token.kind)
        (spelled_token text token)) }
{
    read_lead(alloc, builder, lead_at(word_at(token)), begins, token)
}

// behind the `{` of a block
fn open_block(alloc: Global, builder: &mut Builder, at: u32) -> Result<Point, AllocError>
    ensures { IfOk result (λ x. (text : List ℕ) → state_of text builder.new x
        ≡ state (items_of text builder.old.items)
        (units.in_block at [] [] ∷ frames_of text builder.old.frames) units.at_first) }
{
    let declarations = Items::new(alloc);
    let body = Items::new(alloc);
    push_frame(
        &mut builder.frames,
        Frame::Block {
            at,
            declarations,
            body,
        },
    )?;
    Ok(Point::AtFirst)
}

fn read_lead(
    alloc: Global,
    builder: &mut Builder,
    lead: Lead,
    begins: bool,
    token: Token,
) -> Result<Point, AllocError>
    ensures { IfOk result (λ x. (text : List ℕ) → state_of text builder.new x
        ≡ lead_step begins (items_of text builder.old.items)
        (frames_of text builder.old.frames) lead (kind_word token.kind)
        (spelled_token text token)) }
{
    let at = token.from;
    match lead {
        Lead::OpensBlock => open_block(alloc, builder, at),
        Lead::Closes => close(builder),
        Lead::EndsEmpty => Ok(Point::Ended(evaluation(None))),
        Lead::If => Ok(Point::AtParenthesis(Purpose::Choose { at })),
        Lead::While => Ok(Point::AtParenthesis(Purpose::Repeat { at })),
        Lead::Do => nest(builder, Frame::Do { at }),
        Lead::For => Ok(Point::AtParenthesis(Purpose::Start { at })),
        Lead::Switch => Ok(Point::AtParenthesis(Purpose::Switch { at })),
        Lead::Break => Ok(Point::AtEnd(break_at(at))),
        Lead::Continue => Ok(Point::AtEnd(continue_at(at))),
        Lead::Return => Ok(Point::AtValue(Purpose::Give { at })),
        Lead::Case => Ok(Point::AtValue(Purpose::Label { at })),
        Lead::Default => Ok(Point::AtColon { at }),
        Lead::Other => begin_value(alloc, builder, Purpose::Evaluate, false, begins, token),
    }
}
