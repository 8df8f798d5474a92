//! What stands in front of the next token, and how parts of an expression open and end.

ghost use Rattle.std.specs.Prelude.{ℕ, ◌≡◌, List, [], ◌∷◌, ◌++◌, map, IfOk};
ghost use Rattle.porch_tree.specs.Mirror.{nested, call};
ghost use Rattle.porch_tree.specs.Names.{takes_cast};
ghost use Rattle.porch_tree.specs.Views.{exprs_of, expr_of, suffix_of, type_name_of};
ghost use Rattle.porch_parse.specs.declared.frame.Frame.{Frame};
ghost use Rattle.porch_parse.specs.Building as building;
ghost use Rattle.porch_parse.specs.Building.{at_type, in_size, rest, typed, parenthesis, top_prefix, behind_all, stands_alone, type_behind, type_closed, awaits, behind, goes_on, extended, operated, operand, suffixed_by, value_of, closed, has_commas, listed, asked, assigned, behind_the_comma, behind_the_colon, behind_parenthesis, behind_bracket, behind_nothing, behind_infix, behind_colon, behind_comma, in_arguments};
ghost use Rattle.porch_parse.specs.Shown.{infixed_of, operand_of, frame_of, frames_of, state_of};

use crate::frame::{Frame, Operand, close, number_of};
use porch_tree::{Assigning, Expr, Infix, Prefix, Suffix, TypeName};
use sqlite_items::{Boxed, Items};
use std::alloc::{AllocError, Global};

/// What stands in front of the next token.
#[derive(Drop)]
pub enum Phase {
    /// An operand comes next.
    Awaits,
    /// An operand has been read.
    Behind(Operand),
    /// A dot or, where it is far, an arrow has been read behind it.
    Member(bool, Operand),
    /// `(` has been read where a type in parentheses may stand.
    Opened { at: u32 },
    /// A type begins with this very token.
    AtType,
    /// The expression ended in front of this very token.
    Over(Expr),
    /// No expression has these tokens.
    Broken,
}

pub(crate) fn read(alloc: Global, core: Expr) -> Phase
    ensures { (text : List ℕ) (frames : List Frame) →
        state_of text frames result ≡ behind (frames_of text frames) (operand (expr_of text core)) }
{
    Phase::Behind(Operand {
        core,
        suffixes: Items::new(alloc),
    })
}

pub(crate) fn suffix(mut operand: Operand, suffix: Suffix) -> Result<Phase, AllocError>
    ensures { IfOk result (λ p. (text : List ℕ) (frames : List Frame) →
        state_of text frames p ≡ behind (frames_of text frames)
        (suffixed_by (operand_of text operand) (suffix_of text suffix))) }
{
    operand.suffixes.push(suffix)?;
    Ok(Phase::Behind(operand))
}

pub(crate) fn open(frames: &mut Items<Frame>, frame: Frame) -> Result<Phase, AllocError>
    ensures { IfOk result (λ p. (text : List ℕ) →
        state_of text frames.new p ≡ awaits (frame_of text frame ∷ frames_of text frames.old)) }
{
    frames.push(frame)?;
    Ok(Phase::Awaits)
}

fn value(alloc: Global, operand: Operand) -> Result<Expr, AllocError>
    ensures { IfOk result (λ e. (text : List ℕ) →
        expr_of text e ≡ value_of (operand_of text operand)) }
{
    let Operand { core, suffixes } = operand;
    if suffixes.is_empty() {
        return Ok(core);
    }
    Ok(Expr::Suffixed {
        operand: Boxed::new(alloc, core)?,
        suffixes,
    })
}

/// The value that a word behind an operand finds, all frames having ended that bind tighter.
pub(crate) fn end(
    alloc: Global,
    frames: &mut Items<Frame>,
    number: u32,
    operand: Operand,
) -> Result<Expr, AllocError>
    ensures { IfOk result (λ e. (text : List ℕ) →
        closed number (frames_of text frames.old) (value_of (operand_of text operand))
        ≡ record { frames = frames_of text frames.new; value = expr_of text e }) }
{
    let value = value(alloc, operand)?;
    close(alloc, frames, number, value)
}

fn has_row(frames: &Items<Frame>, operator: Infix) -> bool
    ensures { (text : List ℕ) → result ≡ goes_on operator (frames_of text frames.now) }
{
    match frames.as_slice() {
        [] => false,
        [.., frame] => is_row_of(frame, operator),
    }
}

fn is_row_of(frame: &Frame, operator: Infix) -> bool
    ensures { (text : List ℕ) (frames : List building.Frame) → result
        ≡ goes_on operator (frame_of text frame.now ∷ frames) }
{
    match frame {
        Frame::Infix {
            first: _,
            more: _,
            operator: before,
        } => number_of(*before) == number_of(operator),
        Frame::Prefix { at: _, prefix: _ } => false,
        Frame::Colon {
            condition: _,
            chosen: _,
        } => false,
        Frame::Assigning {
            assigning: _,
            place: _,
        } => false,
        Frame::Comma { first: _, more: _ } => false,
        Frame::Parentheses { at: _ } => false,
        Frame::Question { condition: _ } => false,
        Frame::Brackets(_) => false,
        Frame::Arguments {
            operand: _,
            more: _,
        } => false,
        Frame::Cast { at: _, name: _ } => false,
        Frame::InCast { at: _ } => false,
        Frame::InSize { at: _ } => false,
        Frame::Alone => false,
    }
}

fn extend(frames: &mut Items<Frame>, operator: Infix, operand: Expr) -> Result<Phase, AllocError>
    ensures { IfOk result (λ p. (text : List ℕ) →
        state_of text frames.new p
        ≡ extended operator (frames_of text frames.old) (expr_of text operand)) }
{
    match frames.pop() {
        Some(
            Frame::Infix {
                first,
                more,
                operator: before,
            },
        ) => { go_on(frames, operator, first, more, before, operand) }
        None
        | Some(Frame::Alone)
        | Some(Frame::Cast { at: _, name: _ })
        | Some(Frame::InCast { at: _ })
        | Some(Frame::InSize { at: _ })
        | Some(Frame::Prefix { at: _, prefix: _ })
        | Some(
            Frame::Colon {
                condition: _,
                chosen: _,
            },
        )
        | Some(
            Frame::Assigning {
                assigning: _,
                place: _,
            },
        )
        | Some(Frame::Comma { first: _, more: _ })
        | Some(Frame::Parentheses { at: _ })
        | Some(Frame::Question { condition: _ })
        | Some(Frame::Brackets(_))
        | Some(
            Frame::Arguments {
                operand: _,
                more: _,
            },
        ) => Ok(Phase::Broken),
    }
}

fn go_on(
    frames: &mut Items<Frame>,
    operator: Infix,
    first: Boxed<Expr>,
    mut more: Items<(Infix, Expr)>,
    before: Infix,
    operand: Expr,
) -> Result<Phase, AllocError>
    ensures { IfOk result (λ p. (text : List ℕ) →
        state_of text frames.new p ≡ awaits (behind_infix (expr_of text first)
        (map (infixed_of text) more ++ (before, expr_of text operand) ∷ []) operator
        ∷ frames_of text frames.old)) }
{
    more.push((before, operand))?;
    open(
        frames,
        Frame::Infix {
            first,
            more,
            operator,
        },
    )
}

fn begin_row(
    alloc: Global,
    frames: &mut Items<Frame>,
    operator: Infix,
    operand: Expr,
) -> Result<Phase, AllocError>
    ensures { IfOk result (λ p. (text : List ℕ) →
        state_of text frames.new p
        ≡ awaits (behind_infix (expr_of text operand) [] operator ∷ frames_of text frames.old)) }
{
    let first = Boxed::new(alloc, operand)?;
    open(
        frames,
        Frame::Infix {
            first,
            more: Items::new(alloc),
            operator,
        },
    )
}

pub(crate) fn operate(
    alloc: Global,
    frames: &mut Items<Frame>,
    operator: Infix,
    operand: Expr,
) -> Result<Phase, AllocError>
    ensures { IfOk result (λ p. (text : List ℕ) →
        state_of text frames.new p
        ≡ operated operator (frames_of text frames.old) (expr_of text operand)) }
{
    if has_row(frames, operator) {
        extend(frames, operator, operand)
    } else {
        begin_row(alloc, frames, operator, operand)
    }
}

fn has_list(frames: &Items<Frame>) -> bool
    ensures { (text : List ℕ) → result ≡ has_commas (frames_of text frames.now) }
{
    match frames.as_slice() {
        [] => false,
        [.., frame] => is_list(frame),
    }
}

fn is_list(frame: &Frame) -> bool
    ensures { (text : List ℕ) (frames : List building.Frame) → result
        ≡ has_commas (frame_of text frame.now ∷ frames) }
{
    match frame {
        Frame::Comma { first: _, more: _ } => true,
        Frame::Alone => true,
        Frame::Cast { at: _, name: _ } => false,
        Frame::InCast { at: _ } => false,
        Frame::InSize { at: _ } => false,
        Frame::Arguments {
            operand: _,
            more: _,
        } => true,
        Frame::Infix {
            first: _,
            more: _,
            operator: _,
        } => false,
        Frame::Prefix { at: _, prefix: _ } => false,
        Frame::Colon {
            condition: _,
            chosen: _,
        } => false,
        Frame::Assigning {
            assigning: _,
            place: _,
        } => false,
        Frame::Parentheses { at: _ } => false,
        Frame::Question { condition: _ } => false,
        Frame::Brackets(_) => false,
    }
}

fn list(frames: &mut Items<Frame>, expr: Expr) -> Result<Phase, AllocError>
    ensures { IfOk result (λ p. (text : List ℕ) →
        state_of text frames.new p ≡ listed (frames_of text frames.old) (expr_of text expr)) }
{
    match frames.pop() {
        Some(Frame::Comma { first, more }) => list_expr(frames, first, more, expr),
        Some(Frame::Arguments { operand, more }) => list_argument(frames, operand, more, expr),
        Some(Frame::Alone) => Ok(Phase::Over(expr)),
        None
        | Some(Frame::Cast { at: _, name: _ })
        | Some(Frame::InCast { at: _ })
        | Some(Frame::InSize { at: _ })
        | Some(Frame::Prefix { at: _, prefix: _ })
        | Some(
            Frame::Infix {
                first: _,
                more: _,
                operator: _,
            },
        )
        | Some(
            Frame::Colon {
                condition: _,
                chosen: _,
            },
        )
        | Some(
            Frame::Assigning {
                assigning: _,
                place: _,
            },
        )
        | Some(Frame::Parentheses { at: _ })
        | Some(Frame::Question { condition: _ })
        | Some(Frame::Brackets(_)) => Ok(Phase::Broken),
    }
}

fn list_expr(
    frames: &mut Items<Frame>,
    first: Boxed<Expr>,
    mut more: Items<Expr>,
    expr: Expr,
) -> Result<Phase, AllocError>
    ensures { IfOk result (λ p. (text : List ℕ) →
        state_of text frames.new p ≡ awaits (behind_comma (expr_of text first)
        (map (expr_of text) more ++ expr_of text expr ∷ []) ∷ frames_of text frames.old)) }
{
    more.push(expr)?;
    open(frames, Frame::Comma { first, more })
}

fn list_argument(
    frames: &mut Items<Frame>,
    operand: Operand,
    mut more: Items<Expr>,
    expr: Expr,
) -> Result<Phase, AllocError>
    ensures { IfOk result (λ p. (text : List ℕ) →
        state_of text frames.new p ≡ awaits (in_arguments (operand_of text operand)
        (map (expr_of text) more ++ expr_of text expr ∷ []) ∷ frames_of text frames.old)) }
{
    more.push(expr)?;
    open(frames, Frame::Arguments { operand, more })
}

fn begin_list(alloc: Global, frames: &mut Items<Frame>, expr: Expr) -> Result<Phase, AllocError>
    ensures { IfOk result (λ p. (text : List ℕ) →
        state_of text frames.new p
        ≡ awaits (behind_comma (expr_of text expr) [] ∷ frames_of text frames.old)) }
{
    let first = Boxed::new(alloc, expr)?;
    open(
        frames,
        Frame::Comma {
            first,
            more: Items::new(alloc),
        },
    )
}

pub(crate) fn separate(
    alloc: Global,
    frames: &mut Items<Frame>,
    expr: Expr,
) -> Result<Phase, AllocError>
    ensures { IfOk result (λ p. (text : List ℕ) →
        state_of text frames.new p
        ≡ behind_the_comma (frames_of text frames.old) (expr_of text expr)) }
{
    if has_list(frames) {
        list(frames, expr)
    } else {
        begin_list(alloc, frames, expr)
    }
}

pub(crate) fn ask(
    alloc: Global,
    frames: &mut Items<Frame>,
    condition: Expr,
) -> Result<Phase, AllocError>
    ensures { IfOk result (λ p. (text : List ℕ) →
        state_of text frames.new p ≡ asked (frames_of text frames.old) (expr_of text condition)) }
{
    let condition = Boxed::new(alloc, condition)?;
    open(frames, Frame::Question { condition })
}

pub(crate) fn assign(
    alloc: Global,
    frames: &mut Items<Frame>,
    assigning: Assigning,
    place: Expr,
) -> Result<Phase, AllocError>
    ensures { IfOk result (λ p. (text : List ℕ) →
        state_of text frames.new p
        ≡ assigned assigning (frames_of text frames.old) (expr_of text place)) }
{
    let place = Boxed::new(alloc, place)?;
    open(frames, Frame::Assigning { assigning, place })
}

fn choose(
    alloc: Global,
    frames: &mut Items<Frame>,
    condition: Boxed<Expr>,
    chosen: Expr,
) -> Result<Phase, AllocError>
    ensures { IfOk result (λ p. (text : List ℕ) →
        state_of text frames.new p
        ≡ awaits (behind_colon (expr_of text condition) (expr_of text chosen)
        ∷ frames_of text frames.old)) }
{
    let chosen = Boxed::new(alloc, chosen)?;
    open(frames, Frame::Colon { condition, chosen })
}

pub(crate) fn end_chosen(
    alloc: Global,
    frames: &mut Items<Frame>,
    chosen: Expr,
) -> Result<Phase, AllocError>
    ensures { IfOk result (λ p. (text : List ℕ) →
        state_of text frames.new p
        ≡ behind_the_colon (frames_of text frames.old) (expr_of text chosen)) }
{
    match frames.pop() {
        Some(Frame::Question { condition }) => choose(alloc, frames, condition, chosen),
        None | Some(Frame::Alone) => Ok(Phase::Over(chosen)),
        Some(Frame::Prefix { at: _, prefix: _ })
        | Some(Frame::Cast { at: _, name: _ })
        | Some(Frame::InCast { at: _ })
        | Some(Frame::InSize { at: _ })
        | Some(
            Frame::Infix {
                first: _,
                more: _,
                operator: _,
            },
        )
        | Some(
            Frame::Colon {
                condition: _,
                chosen: _,
            },
        )
        | Some(
            Frame::Assigning {
                assigning: _,
                place: _,
            },
        )
        | Some(Frame::Comma { first: _, more: _ })
        | Some(Frame::Parentheses { at: _ })
        | Some(Frame::Brackets(_))
        | Some(
            Frame::Arguments {
                operand: _,
                more: _,
            },
        ) => Ok(Phase::Broken),
    }
}

fn nest(alloc: Global, at: u32, expr: Expr) -> Result<Phase, AllocError>
    ensures { IfOk result (λ p. (text : List ℕ) (frames : List Frame) →
        state_of text frames p
        ≡ behind (frames_of text frames) (operand (nested at (expr_of text expr)))) }
{
    let expr = Boxed::new(alloc, expr)?;
    Ok(read(alloc, Expr::Nested { at, expr }))
}

fn call(operand: Operand, mut more: Items<Expr>, last: Expr) -> Result<Phase, AllocError>
    ensures { IfOk result (λ p. (text : List ℕ) (frames : List Frame) →
        state_of text frames p
        ≡ behind (frames_of text frames) (suffixed_by (operand_of text operand)
        (call (exprs_of (map (expr_of text) more ++ expr_of text last ∷ []))))) }
{
    more.push(last)?;
    suffix(operand, Suffix::Call(more))
}

pub(crate) fn end_parenthesis(
    alloc: Global,
    frames: &mut Items<Frame>,
    expr: Expr,
) -> Result<Phase, AllocError>
    ensures { IfOk result (λ p. (text : List ℕ) →
        state_of text frames.new p
        ≡ behind_parenthesis (frames_of text frames.old) (expr_of text expr)) }
{
    match frames.pop() {
        Some(Frame::Parentheses { at }) => nest(alloc, at, expr),
        Some(Frame::Arguments { operand, more }) => call(operand, more, expr),
        None | Some(Frame::Alone) => Ok(Phase::Over(expr)),
        Some(Frame::Prefix { at: _, prefix: _ })
        | Some(Frame::Cast { at: _, name: _ })
        | Some(Frame::InCast { at: _ })
        | Some(Frame::InSize { at: _ })
        | Some(
            Frame::Infix {
                first: _,
                more: _,
                operator: _,
            },
        )
        | Some(
            Frame::Colon {
                condition: _,
                chosen: _,
            },
        )
        | Some(
            Frame::Assigning {
                assigning: _,
                place: _,
            },
        )
        | Some(Frame::Comma { first: _, more: _ })
        | Some(Frame::Question { condition: _ })
        | Some(Frame::Brackets(_)) => Ok(Phase::Broken),
    }
}

pub(crate) fn end_bracket(frames: &mut Items<Frame>, expr: Expr) -> Result<Phase, AllocError>
    ensures { IfOk result (λ p. (text : List ℕ) →
        state_of text frames.new p
        ≡ behind_bracket (frames_of text frames.old) (expr_of text expr)) }
{
    match frames.pop() {
        Some(Frame::Brackets(operand)) => suffix(operand, Suffix::Index(expr)),
        None | Some(Frame::Alone) => Ok(Phase::Over(expr)),
        Some(Frame::Prefix { at: _, prefix: _ })
        | Some(Frame::Cast { at: _, name: _ })
        | Some(Frame::InCast { at: _ })
        | Some(Frame::InSize { at: _ })
        | Some(
            Frame::Infix {
                first: _,
                more: _,
                operator: _,
            },
        )
        | Some(
            Frame::Colon {
                condition: _,
                chosen: _,
            },
        )
        | Some(
            Frame::Assigning {
                assigning: _,
                place: _,
            },
        )
        | Some(Frame::Comma { first: _, more: _ })
        | Some(Frame::Parentheses { at: _ })
        | Some(Frame::Question { condition: _ })
        | Some(
            Frame::Arguments {
                operand: _,
                more: _,
            },
        ) => Ok(Phase::Broken),
    }
}

fn call_bare(operand: Operand, more: Items<Expr>) -> Result<Phase, AllocError>
    ensures { IfOk result (λ p. (text : List ℕ) (frames : List Frame) →
        state_of text frames p ≡ behind_nothing (in_arguments (operand_of text operand)
        (map (expr_of text) more) ∷ frames_of text frames)) }
{
    if more.is_empty() {
        suffix(operand, Suffix::Call(more))
    } else {
        Ok(Phase::Broken)
    }
}

pub(crate) fn end_nothing(frames: &mut Items<Frame>) -> Result<Phase, AllocError>
    ensures { IfOk result (λ p. (text : List ℕ) →
        state_of text frames.new p ≡ behind_nothing (frames_of text frames.old)) }
{
    match frames.pop() {
        Some(Frame::Arguments { operand, more }) => call_bare(operand, more),
        None
        | Some(Frame::Alone)
        | Some(Frame::Cast { at: _, name: _ })
        | Some(Frame::InCast { at: _ })
        | Some(Frame::InSize { at: _ })
        | Some(Frame::Prefix { at: _, prefix: _ })
        | Some(
            Frame::Infix {
                first: _,
                more: _,
                operator: _,
            },
        )
        | Some(
            Frame::Colon {
                condition: _,
                chosen: _,
            },
        )
        | Some(
            Frame::Assigning {
                assigning: _,
                place: _,
            },
        )
        | Some(Frame::Comma { first: _, more: _ })
        | Some(Frame::Parentheses { at: _ })
        | Some(Frame::Question { condition: _ })
        | Some(Frame::Brackets(_)) => Ok(Phase::Broken),
    }
}

fn stands_alone(frames: &Items<Frame>) -> bool
    ensures { (text : List ℕ) → result ≡ stands_alone (frames_of text frames.now) }
{
    match frames.as_slice() {
        [] => true,
        [.., frame] => is_alone(frame),
    }
}

fn is_alone(frame: &Frame) -> bool
    ensures { (text : List ℕ) (frames : List building.Frame) → result
        ≡ stands_alone (frame_of text frame.now ∷ frames) }
{
    match frame {
        Frame::Alone => true,
        Frame::Infix {
            first: _,
            more: _,
            operator: _,
        } => false,
        Frame::Colon {
            condition: _,
            chosen: _,
        } => false,
        Frame::Assigning {
            assigning: _,
            place: _,
        } => false,
        Frame::Comma { first: _, more: _ } => false,
        Frame::Parentheses { at: _ } => false,
        Frame::Question { condition: _ } => false,
        Frame::Brackets(_) => false,
        Frame::Arguments {
            operand: _,
            more: _,
        } => false,
        Frame::Cast { at: _, name: _ } => false,
        Frame::Prefix { at: _, prefix: _ } => false,
        Frame::InCast { at: _ } => false,
        Frame::InSize { at: _ } => false,
    }
}

/// The expression ended in front of a word that ends whatever it stands in.
pub(crate) fn end_all(frames: &mut Items<Frame>, expr: Expr) -> Result<Phase, AllocError>
    ensures { IfOk result (λ p. (text : List ℕ) →
        state_of text frames.new p
        ≡ behind_all (frames_of text frames.old) (expr_of text expr)) }
{
    let ends = stands_alone(frames);
    drop_innermost(frames);
    Ok(if ends {
        Phase::Over(expr)
    } else {
        Phase::Broken
    })
}

fn type_place(frames: &Items<Frame>) -> Option<(bool, u32)>
    ensures { (text : List ℕ) → result ≡ building.open_type (frames_of text frames.now) }
{
    match frames.as_slice() {
        [] => None,
        [.., frame] => place_of_type(frame),
    }
}

fn place_of_type(frame: &Frame) -> Option<(bool, u32)>
    ensures { (text : List ℕ) (frames : List building.Frame) → result
        ≡ building.open_type (frame_of text frame.now ∷ frames) }
{
    match frame {
        Frame::InCast { at } => Some((true, *at)),
        Frame::InSize { at } => Some((false, *at)),
        Frame::Infix {
            first: _,
            more: _,
            operator: _,
        } => None,
        Frame::Colon {
            condition: _,
            chosen: _,
        } => None,
        Frame::Assigning {
            assigning: _,
            place: _,
        } => None,
        Frame::Comma { first: _, more: _ } => None,
        Frame::Parentheses { at: _ } => None,
        Frame::Question { condition: _ } => None,
        Frame::Brackets(_) => None,
        Frame::Arguments {
            operand: _,
            more: _,
        } => None,
        Frame::Cast { at: _, name: _ } => None,
        Frame::Prefix { at: _, prefix: _ } => None,
        Frame::Alone => None,
    }
}

fn go_on_behind(
    alloc: Global,
    frames: &mut Items<Frame>,
    is_cast: bool,
    at: u32,
    name: Boxed<TypeName>,
) -> Result<Phase, AllocError>
    ensures { IfOk result (λ p. (text : List ℕ) →
        state_of text frames.new p
        ≡ type_behind is_cast at (frames_of text frames.old) (type_name_of text name)) }
{
    if is_cast {
        open(frames, Frame::Cast { at, name })
    } else {
        Ok(read(alloc, Expr::SizeOf { at, name }))
    }
}

/// The type of a cast, or one whose size is taken, ended in front of the parenthesis that closes it.
pub(crate) fn end_type(
    alloc: Global,
    frames: &mut Items<Frame>,
    name: Boxed<TypeName>,
) -> Result<Phase, AllocError>
    ensures { IfOk result (λ p. (text : List ℕ) →
        state_of text frames.new p
        ≡ type_closed (frames_of text frames.old) (type_name_of text name)) }
{
    match type_place(frames) {
        None => Ok(Phase::Broken),
        Some((is_cast, at)) => {
            drop_innermost(frames);
            go_on_behind(alloc, frames, is_cast, at, name)
        }
    }
}

fn innermost_prefix(frames: &Items<Frame>) -> Option<(u32, Prefix)>
    ensures { (text : List ℕ) → result ≡ top_prefix (frames_of text frames.now) }
{
    match frames.as_slice() {
        [] => None,
        [.., frame] => prefix_of(frame),
    }
}

fn prefix_of(frame: &Frame) -> Option<(u32, Prefix)>
    ensures { (text : List ℕ) (frames : List building.Frame) → result
        ≡ top_prefix (frame_of text frame.now ∷ frames) }
{
    match frame {
        Frame::Prefix { at, prefix } => Some((*at, *prefix)),
        Frame::Infix {
            first: _,
            more: _,
            operator: _,
        } => None,
        Frame::Colon {
            condition: _,
            chosen: _,
        } => None,
        Frame::Assigning {
            assigning: _,
            place: _,
        } => None,
        Frame::Comma { first: _, more: _ } => None,
        Frame::Parentheses { at: _ } => None,
        Frame::Question { condition: _ } => None,
        Frame::Brackets(_) => None,
        Frame::Arguments {
            operand: _,
            more: _,
        } => None,
        Frame::Cast { at: _, name: _ } => None,
        Frame::InCast { at: _ } => None,
        Frame::InSize { at: _ } => None,
        Frame::Alone => None,
    }
}

fn may_cast(prefix: Prefix) -> bool
    ensures { result ≡ takes_cast prefix }
{
    match prefix {
        Prefix::Increase | Prefix::Decrease => false,
        Prefix::Address
        | Prefix::Pointee
        | Prefix::Plus
        | Prefix::Minus
        | Prefix::Complement
        | Prefix::Not
        | Prefix::Sizeof => true,
    }
}

fn takes_type(innermost: Option<(u32, Prefix)>) -> bool
    ensures { result ≡ building.may_cast innermost }
{
    match innermost {
        None => true,
        Some((_, prefix)) => may_cast(prefix),
    }
}

/// `(` where an operand may stand.
pub(crate) fn open_parenthesis(frames: &mut Items<Frame>, at: u32) -> Result<Phase, AllocError>
    ensures { IfOk result (λ p. (text : List ℕ) →
        state_of text frames.new p ≡ parenthesis (frames_of text frames.old) at) }
{
    if takes_type(innermost_prefix(frames)) {
        Ok(Phase::Opened { at })
    } else {
        open(frames, Frame::Parentheses { at })
    }
}

fn sizeof_place(at: u32, prefix: Prefix) -> Option<u32>
    ensures { result ≡ building.sizeof_place at prefix }
{
    match prefix {
        Prefix::Sizeof => Some(at),
        Prefix::Increase
        | Prefix::Decrease
        | Prefix::Address
        | Prefix::Pointee
        | Prefix::Plus
        | Prefix::Minus
        | Prefix::Complement
        | Prefix::Not => None,
    }
}

fn sizeof_in(innermost: Option<(u32, Prefix)>) -> Option<u32>
    ensures { result ≡ building.sizeof_in innermost }
{
    match innermost {
        None => None,
        Some((at, prefix)) => sizeof_place(at, prefix),
    }
}

fn drop_innermost(frames: &mut Items<Frame>)
    ensures { (text : List ℕ) → frames_of text frames.new ≡ rest (frames_of text frames.old) }
{
    let _ = frames.pop();
}

fn begin_type(frames: &mut Items<Frame>, frame: Frame) -> Result<Phase, AllocError>
    ensures { IfOk result (λ p. (text : List ℕ) →
        state_of text frames.new p ≡ at_type (frame_of text frame ∷ frames_of text frames.old)) }
{
    frames.push(frame)?;
    Ok(Phase::AtType)
}

fn begin_size(frames: &mut Items<Frame>, at: u32) -> Result<Phase, AllocError>
    ensures { IfOk result (λ p. (text : List ℕ) →
        state_of text frames.new p ≡ at_type (in_size at ∷ rest (frames_of text frames.old))) }
{
    drop_innermost(frames);
    begin_type(frames, Frame::InSize { at })
}

/// A type behind `(`.
pub(crate) fn open_type(frames: &mut Items<Frame>, at: u32) -> Result<Phase, AllocError>
    ensures { IfOk result (λ p. (text : List ℕ) →
        state_of text frames.new p ≡ typed (frames_of text frames.old) at) }
{
    match sizeof_in(innermost_prefix(frames)) {
        Some(place) => begin_size(frames, place),
        None => begin_type(frames, Frame::InCast { at }),
    }
}
