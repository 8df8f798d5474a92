//! The frames of the parts that are still to be ended, and how they end.

ghost use Rattle.std.specs.Prelude.{ℕ, ◌≡◌, ◌<◌, List, length, map, IsTrue, IfOk};
ghost use Rattle.porch_tree.specs.Words.{infix_level};
ghost use Rattle.porch_tree.specs.Views.{expr_of, type_name_of};
ghost use Rattle.porch_parse.specs.Building.{behind_prefix, behind_infix, behind_colon, behind_assigning, behind_comma, behind_cast, built, closed, level_number, frame_number};
ghost use Rattle.porch_parse.specs.Shown.{frame_of, frames_of, infixed_of, closes, ended};

use porch_tree::{Assigning, Expr, Infix, Level, Prefix, Suffix, TypeName};
use sqlite_items::{Boxed, Items};
use std::alloc::{AllocError, Global};

/// How tightly closing words and `:` bind, and a list of arguments.
pub(crate) const ENDS: u32 = 1;

/// How tightly a comma binds.
pub(crate) const COMMA: u32 = 2;

/// How tightly `?` and assignments bind.
pub(crate) const ASSIGNING: u32 = 3;

/// How tightly an operator in front of its operand binds.
const PREFIX: u32 = 14;

/// An operand with the suffixes that have been read.
#[derive(Drop)]
pub struct Operand {
    pub core: Expr,
    pub suffixes: Items<Suffix>,
}

/// A part of an expression that is still to be ended.
#[derive(Drop)]
pub enum Frame {
    /// An operator in front of its operand.
    Prefix {
        at: u32,
        prefix: Prefix,
    },
    /// Operands of one level, and the operator in front of the one to come.
    Infix {
        first: Boxed<Expr>,
        more: Items<(Infix, Expr)>,
        operator: Infix,
    },
    /// `condition ? chosen :`
    Colon {
        condition: Boxed<Expr>,
        chosen: Boxed<Expr>,
    },
    /// `place =`, or with an operator.
    Assigning {
        assigning: Assigning,
        place: Boxed<Expr>,
    },
    /// Expressions, each with a comma behind it.
    Comma {
        first: Boxed<Expr>,
        more: Items<Expr>,
    },
    /// `(`
    Parentheses {
        at: u32,
    },
    /// `condition ?`
    Question {
        condition: Boxed<Expr>,
    },
    /// `operand [`
    Brackets(Operand),
    /// `operand (` and arguments, each with a comma behind it.
    Arguments {
        operand: Operand,
        more: Items<Expr>,
    },
    /// `( type )` in front of its operand.
    Cast {
        at: u32,
        name: Boxed<TypeName>,
    },
    /// `(` of a cast.
    InCast {
        at: u32,
    },
    /// `sizeof (`
    InSize {
        at: u32,
    },
    /// An expression without commas, in a part that is no expression.
    Alone,
}

fn level_of(operator: Infix) -> Level
    ensures { result ≡ infix_level operator }
{
    match operator {
        Infix::Any => Level::Any,
        Infix::All => Level::All,
        Infix::BitOr => Level::BitOr,
        Infix::BitXor => Level::BitXor,
        Infix::BitAnd => Level::BitAnd,
        Infix::Equal | Infix::NotEqual => Level::Equality,
        Infix::Less | Infix::Greater | Infix::LessEqual | Infix::GreaterEqual => Level::Relation,
        Infix::ShiftLeft | Infix::ShiftRight => Level::Shift,
        Infix::Add | Infix::Sub => Level::Sum,
        Infix::Mul | Infix::Div | Infix::Rem => Level::Product,
    }
}

/// How tightly an operator between operands binds: from 4 to 13.
pub(crate) fn number_of(operator: Infix) -> u32
    ensures { result ≡ level_number operator }
{
    match level_of(operator) {
        Level::Any => 4,
        Level::All => 5,
        Level::BitOr => 6,
        Level::BitXor => 7,
        Level::BitAnd => 8,
        Level::Equality => 9,
        Level::Relation => 10,
        Level::Shift => 11,
        Level::Sum => 12,
        Level::Product => 13,
    }
}

fn prefixed(alloc: Global, at: u32, prefix: Prefix, operand: Expr) -> Result<Expr, AllocError>
    ensures { IfOk result (λ e. (text : List ℕ) →
        expr_of text e ≡ built (behind_prefix at prefix) (expr_of text operand)) }
{
    Ok(Expr::Prefixed {
        at,
        prefix,
        operand: Boxed::new(alloc, operand)?,
    })
}

fn row(
    first: Boxed<Expr>,
    mut more: Items<(Infix, Expr)>,
    operator: Infix,
    operand: Expr,
) -> Result<Expr, AllocError>
    ensures { IfOk result (λ e. (text : List ℕ) →
        expr_of text e
        ≡ built (behind_infix (expr_of text first) (map (infixed_of text) more) operator)
        (expr_of text operand)) }
{
    more.push((operator, operand))?;
    Ok(Expr::Row {
        level: level_of(operator),
        first,
        more,
    })
}

fn conditional(
    alloc: Global,
    condition: Boxed<Expr>,
    chosen: Boxed<Expr>,
    other: Expr,
) -> Result<Expr, AllocError>
    ensures { IfOk result (λ e. (text : List ℕ) →
        expr_of text e ≡ built (behind_colon (expr_of text condition) (expr_of text chosen))
        (expr_of text other)) }
{
    Ok(Expr::Conditional {
        condition,
        chosen,
        other: Boxed::new(alloc, other)?,
    })
}

fn assign(
    alloc: Global,
    assigning: Assigning,
    place: Boxed<Expr>,
    value: Expr,
) -> Result<Expr, AllocError>
    ensures { IfOk result (λ e. (text : List ℕ) →
        expr_of text e ≡ built (behind_assigning assigning (expr_of text place))
        (expr_of text value)) }
{
    Ok(Expr::Assign {
        assigning,
        place,
        value: Boxed::new(alloc, value)?,
    })
}

fn sequence(first: Boxed<Expr>, mut more: Items<Expr>, last: Expr) -> Result<Expr, AllocError>
    ensures { IfOk result (λ e. (text : List ℕ) →
        expr_of text e ≡ built (behind_comma (expr_of text first) (map (expr_of text) more))
        (expr_of text last)) }
{
    more.push(last)?;
    Ok(Expr::Sequence { first, more })
}

fn cast(alloc: Global, at: u32, name: Boxed<TypeName>, operand: Expr) -> Result<Expr, AllocError>
    ensures { IfOk result (λ e. (text : List ℕ) →
        expr_of text e ≡ built (behind_cast at (type_name_of text name)) (expr_of text operand)) }
{
    Ok(Expr::Cast {
        at,
        name,
        operand: Boxed::new(alloc, operand)?,
    })
}

/// What a frame and the operand behind it are.
fn build(alloc: Global, frame: Frame, operand: Expr) -> Result<Expr, AllocError>
    ensures { IfOk result (λ e. (text : List ℕ) →
        expr_of text e ≡ built (frame_of text frame) (expr_of text operand)) }
{
    match frame {
        Frame::Prefix { at, prefix } => prefixed(alloc, at, prefix, operand),
        Frame::Infix {
            first,
            more,
            operator,
        } => row(first, more, operator, operand),
        Frame::Colon { condition, chosen } => conditional(alloc, condition, chosen, operand),
        Frame::Assigning { assigning, place } => assign(alloc, assigning, place, operand),
        Frame::Comma { first, more } => sequence(first, more, operand),
        Frame::Cast { at, name } => cast(alloc, at, name, operand),
        Frame::Parentheses { at: _ } => Ok(operand),
        Frame::Question { condition: _ } => Ok(operand),
        Frame::Brackets(_) => Ok(operand),
        Frame::Arguments {
            operand: _,
            more: _,
        } => Ok(operand),
        Frame::InCast { at: _ } | Frame::InSize { at: _ } | Frame::Alone => Ok(operand),
    }
}

/// How tightly a frame binds that a weaker word ends; 0 where only a word of its own ends it.
fn number_at(frame: &Frame) -> u32
    ensures { (text : List ℕ) → result ≡ frame_number (frame_of text frame.now) }
{
    match frame {
        Frame::Prefix { at: _, prefix: _ } => PREFIX,
        Frame::Infix {
            first: _,
            more: _,
            operator,
        } => number_of(*operator),
        Frame::Colon {
            condition: _,
            chosen: _,
        } => ASSIGNING,
        Frame::Assigning {
            assigning: _,
            place: _,
        } => ASSIGNING,
        Frame::Comma { first: _, more: _ } => COMMA,
        Frame::Arguments {
            operand: _,
            more: _,
        } => ENDS,
        Frame::Alone => ENDS,
        Frame::Cast { at: _, name: _ } => PREFIX,
        Frame::InCast { at: _ } => 0,
        Frame::InSize { at: _ } => 0,
        Frame::Parentheses { at: _ } => 0,
        Frame::Question { condition: _ } => 0,
        Frame::Brackets(_) => 0,
    }
}

/// Whether the innermost frame binds tighter than a word does.
fn ends_innermost(frames: &Items<Frame>, number: u32) -> bool
    ensures ends { (text : List ℕ) → result ≡ closes number (frames_of text frames.now) }
    ensures some { IsTrue result → 0 < length frames.now }
{
    match frames.as_slice() {
        [] => false,
        [.., frame] => number < number_at(frame),
    }
}

/// The innermost frame ends, if there is one.
fn end_innermost(alloc: Global, frames: &mut Items<Frame>, value: Expr) -> Result<Expr, AllocError>
    ensures ended { IfOk result (λ e. (text : List ℕ) →
        ended (frames_of text frames.old) (expr_of text value)
        ≡ record { frames = frames_of text frames.new; value = expr_of text e }) }
    ensures fewer { 0 < length frames.old → length frames.new < length frames.old }
{
    match frames.pop() {
        None => Ok(value),
        Some(frame) => build(alloc, frame, value),
    }
}

/// The value that stands when all frames have ended that bind tighter than a word does.
pub(crate) fn close(
    alloc: Global,
    frames: &mut Items<Frame>,
    number: u32,
    value: Expr,
) -> Result<Expr, AllocError>
    ensures { IfOk result (λ e. (text : List ℕ) →
        closed number (frames_of text frames.old) (expr_of text value)
        ≡ record { frames = frames_of text frames.new; value = expr_of text e }) }
{
    let mut value = value;
    'frames: while ends_innermost(frames, number) {
        value = end_innermost(alloc, frames, value)?;
    }
    Ok(value)
}
