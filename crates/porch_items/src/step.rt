//! What a token does, wherever it stands.

ghost use Rattle.std.specs.Prelude.{ℕ, ◌≡◌, ◌∷◌, [], List, IfOk};
ghost use Rattle.porch_tree.specs.Views.{expr_of, switch_entry_of};
ghost use Rattle.porch_lex.specs.Words.{kind_word, spelled_token};
ghost use Rattle.porch_unit.specs.Units as units;
ghost use Rattle.porch_unit.specs.Units.{state, step_at, in_switch};
ghost use Rattle.porch_statements.specs.Shown.{frames_of, items_of, state_of};

use crate::item::{read_in_item, read_item, read_typedef};
use porch_blocks::{read_declaration, read_ended, read_first};
use porch_lex::Token;
use porch_statements::{
    Builder, Frame, Point, add_default, nest, read_begun, read_statement, read_value,
};
use porch_tree::Expr;
use sqlite_items::Items;
use std::alloc::{AllocError, Global};

/// What stands behind one more token. `begins` says whether a type can begin with it.
pub fn read_token(
    alloc: Global,
    builder: &mut Builder,
    point: Point,
    begins: bool,
    token: Token,
) -> Result<Point, AllocError>
    ensures step { IfOk result (λ x. (text : List ℕ) → state_of text builder.new x
        ≡ step_at begins (state_of text builder.old point) (kind_word token.kind)
        (spelled_token text token)) }
{
    match point {
        Point::AtItem => read_item(alloc, builder, begins, token),
        Point::BehindTypedef => read_item(alloc, builder, begins, token),
        Point::InTypedef(stage) => read_typedef(alloc, builder, stage, begins, token),
        Point::InItem(stage) => read_in_item(alloc, builder, stage, begins, token),
        Point::InDeclaration(stage) => read_declaration(alloc, builder, stage, begins, token),
        Point::AtFirst => read_first(alloc, builder, begins, token),
        Point::AtStatement => read_statement(alloc, builder, begins, token),
        Point::AtParenthesis(purpose) => Ok(Point::AtValue(purpose)),
        Point::AtValue(purpose) => read_begun(alloc, builder, purpose, begins, token),
        Point::InValue(purpose, turn) => {
            read_value(alloc, builder, purpose, turn, begins, token)
        }
        Point::AtEnd(statement) => Ok(Point::Ended(statement)),
        Point::AtBrace { at, value } => open_switch(alloc, builder, at, value),
        Point::AtColon { at } => add_default(builder, at),
        Point::Ended(statement) => read_ended(alloc, builder, statement, begins, token),
        Point::Broken => Ok(Point::Broken),
    }
}

// behind the `{` of a switch
fn open_switch(
    alloc: Global,
    builder: &mut Builder,
    at: u32,
    value: Expr,
) -> Result<Point, AllocError>
    ensures { IfOk result (λ x. (text : List ℕ) → state_of text builder.new x
        ≡ state (items_of text builder.old.items)
        (in_switch at (expr_of text value) [] ∷ frames_of text builder.old.frames)
        units.at_statement) }
{
    let entries = Items::new(alloc);
    nest(builder, Frame::Switch { at, value, entries })
}
