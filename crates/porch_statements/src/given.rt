//! What an expression is given to, or that there is none, when it has ended.

ghost use Rattle.std.specs.Prelude.{ℕ, ◌≡◌, List, ◌∷◌, ◌++◌, [], map, IfOk};
ghost use Rattle.porch_tree.specs.Mirror as mirror;
ghost use Rattle.porch_tree.specs.Views.{perhaps_of, expr_of, stmt_of, switch_entry_of};
ghost use Rattle.porch_statements.specs.declared.frame.Builder.{Builder};
ghost use Rattle.porch_unit.specs.Units as units;
ghost use Rattle.porch_unit.specs.Units.{labelled, given};
ghost use Rattle.porch_statements.specs.inside.Made.{label};
ghost use Rattle.porch_statements.specs.Shown.{frame_of, frames_of, items_of, purpose_of, state_of};

use crate::frame::{Builder, Frame, Point, Purpose};
use crate::frames::{let_go, nest, pop_frame, push_filled};
use crate::made::{do_loop, entry_of, evaluation, return_of};
use porch_tree::{Expr, Stmt, SwitchEntry};
use sqlite_items::{Boxed, Items};
use std::alloc::AllocError;

/// Behind the expression that stands there for this, or none.
pub fn give(
    builder: &mut Builder,
    purpose: Purpose,
    expr: Option<Expr>,
) -> Result<Point, AllocError>
    ensures step { IfOk result (λ x. (text : List ℕ) → state_of text builder.new x
        ≡ given (items_of text builder.old.items) (frames_of text builder.old.frames)
        (purpose_of text purpose) (perhaps_of text expr)) }
{
    match purpose {
        Purpose::Evaluate => Ok(Point::Ended(evaluation(expr))),
        Purpose::Choose { at } => give_condition(builder, at, expr),
        Purpose::Repeat { at } => give_repeated(builder, at, expr),
        Purpose::RepeatBehind { at, body } => Ok(give_last(at, body, expr)),
        Purpose::Start { at } => Ok(Point::AtValue(Purpose::GoOn { at, start: expr })),
        Purpose::GoOn { at, start } => Ok(Point::AtValue(Purpose::Step {
            at,
            start,
            condition: expr,
        })),
        Purpose::Step {
            at,
            start,
            condition,
        } => nest(
            builder,
            Frame::For {
                at,
                start,
                condition,
                next: expr,
            },
        ),
        Purpose::Switch { at } => Ok(give_chooser(at, expr)),
        Purpose::Give { at } => Ok(Point::Ended(return_of(at, expr))),
        Purpose::Label { at } => give_label(builder, at, expr),
    }
}

/// Behind `default` and its colon, among the entries of a switch.
pub fn add_default(builder: &mut Builder, at: u32) -> Result<Point, AllocError>
    ensures step { IfOk result (λ x. (text : List ℕ) → state_of text builder.new x
        ≡ labelled (items_of text builder.old.items) (frames_of text builder.old.frames)
        (mirror.default at)) }
{
    add_entry(builder, at, None)
}

// Behind a label, of a case or `default`. It becomes an entry only where it is pushed, since a function
// that owns an entry would take it apart.
fn add_entry(builder: &mut Builder, at: u32, case: Option<Expr>) -> Result<Point, AllocError>
    ensures { IfOk result (λ x. (text : List ℕ) → state_of text builder.new x
        ≡ labelled (items_of text builder.old.items) (frames_of text builder.old.frames)
        (label at (perhaps_of text case))) }
{
    match pop_frame(&mut builder.frames) {
        None => {
            let_go(case);
            Ok(Point::Broken)
        }
        Some(frame) => add_within(builder, frame, at, case),
    }
}

// the switch with one more entry, as the innermost frame
fn add_label(
    frames: &mut Items<Frame>,
    switch: u32,
    value: Expr,
    mut entries: Items<SwitchEntry>,
    at: u32,
    case: Option<Expr>,
) -> Result<(), AllocError>
    ensures { IfOk result (λ _. (text : List ℕ) → frames_of text frames.new
        ≡ units.in_switch switch (expr_of text value)
        (map (switch_entry_of text) entries ++ label at (perhaps_of text case) ∷ [])
        ∷ frames_of text frames.old) }
{
    let filled = push_entry(&mut entries, at, case);
    push_filled(
        frames,
        Frame::Switch {
            at: switch,
            value,
            entries,
        },
        filled,
    )
}

fn push_entry(
    entries: &mut Items<SwitchEntry>,
    at: u32,
    case: Option<Expr>,
) -> Result<(), AllocError>
    ensures { IfOk result (λ _. (text : List ℕ) → map (switch_entry_of text) entries.new
        ≡ map (switch_entry_of text) entries.old ++ label at (perhaps_of text case) ∷ []) }
{
    entries.push(entry_of(at, case))
}

// no unit has these tokens
fn lose(frame: Frame, case: Option<Expr>) -> Point
    ensures { (text : List ℕ) (builder : Builder) →
        state_of text builder result ≡ units.broken_state (items_of text builder.items) }
{
    let_go(frame);
    let_go(case);
    Point::Broken
}

fn add_within(
    builder: &mut Builder,
    frame: Frame,
    label_at: u32,
    case: Option<Expr>,
) -> Result<Point, AllocError>
    ensures { IfOk result (λ x. (text : List ℕ) → state_of text builder.new x
        ≡ labelled (items_of text builder.old.items)
        (frame_of text frame ∷ frames_of text builder.old.frames)
        (label label_at (perhaps_of text case))) }
{
    match frame {
        Frame::Switch { at, value, entries } => {
            add_label(&mut builder.frames, at, value, entries, label_at, case)?;
            Ok(Point::AtStatement)
        }
        Frame::Body {
            declaration,
            declarator,
            declarations,
            body,
        } => Ok(lose(
            Frame::Body {
                declaration,
                declarator,
                declarations,
                body,
            },
            case,
        )),
        Frame::Block {
            at,
            declarations,
            body,
        } => Ok(lose(
            Frame::Block {
                at,
                declarations,
                body,
            },
            case,
        )),
        Frame::If { at, condition } => Ok(lose(Frame::If { at, condition }, case)),
        Frame::Else {
            at,
            condition,
            chosen,
        } => Ok(lose(
            Frame::Else {
                at,
                condition,
                chosen,
            },
            case,
        )),
        Frame::While { at, condition } => Ok(lose(Frame::While { at, condition }, case)),
        Frame::Do { at } => Ok(lose(Frame::Do { at }, case)),
        Frame::For {
            at,
            start,
            condition,
            next,
        } => Ok(lose(
            Frame::For {
                at,
                start,
                condition,
                next,
            },
            case,
        )),
    }
}

fn give_condition(builder: &mut Builder, at: u32, expr: Option<Expr>) -> Result<Point, AllocError>
    ensures { IfOk result (λ x. (text : List ℕ) → state_of text builder.new x
        ≡ given (items_of text builder.old.items) (frames_of text builder.old.frames)
        (units.to_choose at) (perhaps_of text expr)) }
{
    match expr {
        None => Ok(Point::Broken),
        Some(condition) => nest(builder, Frame::If { at, condition }),
    }
}

fn give_repeated(builder: &mut Builder, at: u32, expr: Option<Expr>) -> Result<Point, AllocError>
    ensures { IfOk result (λ x. (text : List ℕ) → state_of text builder.new x
        ≡ given (items_of text builder.old.items) (frames_of text builder.old.frames)
        (units.to_repeat at) (perhaps_of text expr)) }
{
    match expr {
        None => Ok(Point::Broken),
        Some(condition) => nest(builder, Frame::While { at, condition }),
    }
}

fn give_last(at: u32, body: Boxed<Stmt>, expr: Option<Expr>) -> Point
    ensures { (text : List ℕ) (builder : Builder) → state_of text builder result
        ≡ given (items_of text builder.items) (frames_of text builder.frames)
        (units.to_repeat_behind at (stmt_of text body)) (perhaps_of text expr) }
{
    match expr {
        None => Point::Broken,
        Some(condition) => Point::AtEnd(do_loop(at, body, condition)),
    }
}

fn give_chooser(at: u32, expr: Option<Expr>) -> Point
    ensures { (text : List ℕ) (builder : Builder) → state_of text builder result
        ≡ given (items_of text builder.items) (frames_of text builder.frames)
        (units.to_switch at) (perhaps_of text expr) }
{
    match expr {
        None => Point::Broken,
        Some(value) => Point::AtBrace { at, value },
    }
}

fn give_label(builder: &mut Builder, at: u32, expr: Option<Expr>) -> Result<Point, AllocError>
    ensures { IfOk result (λ x. (text : List ℕ) → state_of text builder.new x
        ≡ given (items_of text builder.old.items) (frames_of text builder.old.frames)
        (units.to_label at) (perhaps_of text expr)) }
{
    match expr {
        None => Ok(Point::Broken),
        Some(value) => add_entry(builder, at, Some(value)),
    }
}
