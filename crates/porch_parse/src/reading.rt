//! The expression that has been read.

ghost use Rattle.std.specs.Prelude.{ℕ, ◌≡◌, List, IfOk};
ghost use Rattle.std.specs.Option.{option_map};
ghost use Rattle.porch_tree.specs.Views.{expr_of};
ghost use Rattle.porch_parse.specs.Building.{ending, ends_number, only, expression_in};
ghost use Rattle.porch_parse.specs.Shown.{operand_of, frames_of, state_of};

use crate::frame::{ENDS, Frame, Operand};
use crate::phase::{Phase, end};
use porch_tree::Expr;
use sqlite_items::Items;
use std::alloc::{AllocError, Global};

/// The expression that has been read, where one can end.
pub fn finish(
    alloc: Global,
    frames: &mut Items<Frame>,
    phase: Phase,
) -> Result<Option<Expr>, AllocError>
    ensures read { IfOk result (λ found. (text : List ℕ) →
        option_map (expr_of text) found ≡ expression_in (state_of text frames.old phase)) }
{
    match phase {
        Phase::Behind(operand) => finish_operand(alloc, frames, operand),
        Phase::Awaits => Ok(None),
        Phase::Member(_, _) => Ok(None),
        Phase::Opened { at: _ } | Phase::AtType | Phase::Broken => Ok(None),
        Phase::Over(_) => Ok(None),
    }
}

fn finish_operand(
    alloc: Global,
    frames: &mut Items<Frame>,
    operand: Operand,
) -> Result<Option<Expr>, AllocError>
    ensures { IfOk result (λ found. (text : List ℕ) → option_map (expr_of text) found
        ≡ ending (frames_of text frames.old) (operand_of text operand) ends_number only) }
{
    let value = end(alloc, frames, ENDS, operand)?;
    Ok(only_value(frames, value))
}

fn only_value(frames: &mut Items<Frame>, value: Expr) -> Option<Expr>
    ensures { (text : List ℕ) →
        option_map (expr_of text) result ≡ only (frames_of text frames.old) (expr_of text value) }
{
    match frames.pop() {
        None => Some(value),
        Some(_) => None,
    }
}
