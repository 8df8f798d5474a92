//! How a block, a switch or a function is closed.

ghost use Rattle.std.specs.Prelude.{ℕ, ◌≡◌, ◌∷◌, List, map, IfOk};
ghost use Rattle.porch_tree.specs.Views.{declarator_of, declaration_of, stmt_of, definition_of};
ghost use Rattle.porch_unit.specs.Units as units;
ghost use Rattle.porch_unit.specs.Units.{state, closed, in_body};
ghost use Rattle.porch_statements.specs.declared.frame.Builder.{Builder};
ghost use Rattle.porch_statements.specs.inside.Made.{defined};
ghost use Rattle.porch_statements.specs.Shown.{frame_of, frames_of, items_of, state_of};

use crate::frame::{Builder, Frame, Point};
use crate::frames::{let_go, pop_frame};
use crate::made::{block_of, switch_of};
use porch_tree::{Declaration, Declarator, Definition, Item, Stmt};
use sqlite_items::{Boxed, Items};
use std::alloc::AllocError;

/// Behind a `}`.
pub(crate) fn close(builder: &mut Builder) -> Result<Point, AllocError>
    ensures { IfOk result (λ x. (text : List ℕ) → state_of text builder.new x
        ≡ closed (items_of text builder.old.items) (frames_of text builder.old.frames)) }
{
    match pop_frame(&mut builder.frames) {
        None => Ok(Point::Broken),
        Some(frame) => close_frame(builder, frame),
    }
}

fn define(
    items: &mut Items<Item>,
    declaration: Boxed<Declaration>,
    declarator: Boxed<Declarator>,
    declarations: Items<Declaration>,
    body: Items<Stmt>,
) -> Result<(), AllocError>
    ensures { IfOk result (λ _. (text : List ℕ) (frames : List units.Frame) →
        state (items_of text items.new) frames units.at_item
        ≡ closed (items_of text items.old) (in_body (declaration_of text declaration)
        (declarator_of text declarator) (map (declaration_of text) declarations)
        (map (stmt_of text) body) ∷ frames)) }
{
    let definition = definition_from(declaration, declarator, declarations, body);
    items.push(Item::Function(definition))
}

fn definition_from(
    declaration: Boxed<Declaration>,
    declarator: Boxed<Declarator>,
    declarations: Items<Declaration>,
    body: Items<Stmt>,
) -> Definition
    ensures { (text : List ℕ) → definition_of text result
        ≡ defined (declaration_of text declaration) (declarator_of text declarator)
        (map (declaration_of text) declarations) (map (stmt_of text) body) }
{
    let Declaration {
        fixed,
        base,
        entries: _,
    } = declaration.into_inner();
    let declarator = declarator.into_inner();
    Definition {
        fixed,
        base,
        declarator,
        declarations,
        body,
    }
}

// no unit has these tokens
fn lose_frame(frame: Frame) -> Point
    ensures { (text : List ℕ) (builder : Builder) →
        state_of text builder result ≡ units.broken_state (items_of text builder.items) }
{
    let_go(frame);
    Point::Broken
}

fn close_frame(builder: &mut Builder, frame: Frame) -> Result<Point, AllocError>
    ensures { IfOk result (λ x. (text : List ℕ) → state_of text builder.new x
        ≡ closed (items_of text builder.old.items)
        (frame_of text frame ∷ frames_of text builder.old.frames)) }
{
    match frame {
        Frame::Body {
            declaration,
            declarator,
            declarations,
            body,
        } => {
            define(
                &mut builder.items,
                declaration,
                declarator,
                declarations,
                body,
            )?;
            Ok(Point::AtItem)
        }
        Frame::Block {
            at,
            declarations,
            body,
        } => Ok(Point::Ended(block_of(at, declarations, body))),
        Frame::Switch { at, value, entries } => { Ok(Point::Ended(switch_of(at, value, entries))) }
        Frame::If { at, condition } => Ok(lose_frame(Frame::If { at, condition })),
        Frame::Else {
            at,
            condition,
            chosen,
        } => Ok(lose_frame(Frame::Else {
            at,
            condition,
            chosen,
        })),
        Frame::While { at, condition } => Ok(lose_frame(Frame::While { at, condition })),
        Frame::Do { at } => Ok(lose_frame(Frame::Do { at })),
        Frame::For {
            at,
            start,
            condition,
            next,
        } => Ok(lose_frame(Frame::For {
            at,
            start,
            condition,
            next,
        })),
    }
}
