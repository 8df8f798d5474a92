//! Reading expressions and types, which lie in one another.

ghost use Rattle.std.specs.Prelude.{ℕ, ◌≡◌, List, [], ◌∷◌, IfOk};
ghost use Rattle.porch_tree.specs.Views.{expr_of, type_name_of};
ghost use Rattle.porch_lex.specs.Words.{kind_word, spelled_token};
ghost use Rattle.porch_parse.specs.Shown as expr_shown;
ghost use Rattle.porch_parse.specs.Shown.{frames_of};
ghost use Rattle.porch_parts.specs.Types as types;
ghost use Rattle.porch_parts.specs.Parts.{in_expr, in_type, step_at, expr_on, placed_on, leave, is_bare, type_over};
ghost use Rattle.porch_parts.specs.Signs.{sign_of};
ghost use Rattle.porch_parts.specs.Types.{type_step, at_base, given};
ghost use Rattle.porch_parts.specs.Shown.{parts_of, place_of, state_of};

use crate::ended::end_expr;
use crate::part::{Part, Point};
use crate::sign::sign_at;
use crate::step::{next_in_type, outermost};
use porch_lex::{Token, word_at};
use porch_parse::{Frame, Phase, name_type, next};
use porch_tree::{Expr, TypeName};
use sqlite_items::{Boxed, Items};
use std::alloc::{AllocError, Global};

/// What is still to be ended, in expressions and in types.
#[derive(Drop)]
pub struct Reader {
    pub frames: Items<Frame>,
    pub parts: Items<Part>,
}

/// What is being read, and what stands in front of the next token.
#[derive(Drop)]
pub enum Turn {
    Expr(Phase),
    Type(Point),
}

/// What stands behind one more token. `begins` says whether a type can begin with it.
pub fn read_token(
    alloc: Global,
    reader: &mut Reader,
    turn: Turn,
    begins: bool,
    token: Token,
) -> Result<Turn, AllocError>
    ensures { IfOk result (λ t. (text : List ℕ) →
        state_of text reader.new.frames reader.new.parts t
        ≡ step_at begins (state_of text reader.old.frames reader.old.parts turn)
        (kind_word token.kind) (spelled_token text token)) }
{
    match turn {
        Turn::Expr(phase) => read_in_expr(alloc, reader, phase, begins, token),
        Turn::Type(point) => read_in_type(alloc, reader, point, begins, token),
    }
}

fn read_in_expr(
    alloc: Global,
    reader: &mut Reader,
    phase: Phase,
    begins: bool,
    token: Token,
) -> Result<Turn, AllocError>
    ensures { IfOk result (λ t. (text : List ℕ) →
        state_of text reader.new.frames reader.new.parts t
        ≡ step_at begins (in_expr (parts_of text reader.old.parts)
        (expr_shown.state_of text reader.old.frames phase))
        (kind_word token.kind) (spelled_token text token)) }
{
    let phase = next(alloc, &mut reader.frames, phase, begins, token)?;
    settle_expr(alloc, reader, phase, begins, token)
}

fn read_in_type(
    alloc: Global,
    reader: &mut Reader,
    point: Point,
    begins: bool,
    token: Token,
) -> Result<Turn, AllocError>
    ensures { IfOk result (λ t. (text : List ℕ) →
        state_of text reader.new.frames reader.new.parts t
        ≡ step_at begins (in_type (frames_of text reader.old.frames)
        (place_of text reader.old.parts point))
        (kind_word token.kind) (spelled_token text token)) }
{
    let sign = sign_at(word_at(token));
    let point = next_in_type(alloc, &mut reader.parts, point, sign, token)?;
    settle_type(alloc, reader, point, begins, token)
}

// what an expression comes to with this token
fn settle_expr(
    alloc: Global,
    reader: &mut Reader,
    phase: Phase,
    begins: bool,
    token: Token,
) -> Result<Turn, AllocError>
    ensures { IfOk result (λ t. (text : List ℕ) →
        state_of text reader.new.frames reader.new.parts t
        ≡ expr_on begins (parts_of text reader.old.parts)
        (expr_shown.state_of text reader.old.frames phase) (kind_word token.kind)
        (spelled_token text token)) }
{
    match phase {
        Phase::AtType => begin_type(alloc, reader, begins, token),
        Phase::Over(expr) => end_in_type(alloc, reader, expr, begins, token),
        Phase::Awaits => Ok(Turn::Expr(Phase::Awaits)),
        Phase::Behind(operand) => Ok(Turn::Expr(Phase::Behind(operand))),
        Phase::Member(far, operand) => Ok(Turn::Expr(Phase::Member(far, operand))),
        Phase::Opened { at } => Ok(Turn::Expr(Phase::Opened { at })),
        Phase::Broken => Ok(Turn::Expr(Phase::Broken)),
    }
}

fn begin_type(
    alloc: Global,
    reader: &mut Reader,
    begins: bool,
    token: Token,
) -> Result<Turn, AllocError>
    ensures { IfOk result (λ t. (text : List ℕ) →
        state_of text reader.new.frames reader.new.parts t
        ≡ placed_on begins (frames_of text reader.old.frames)
        (type_step (types.alone ∷ parts_of text reader.old.parts) at_base
        (sign_of (kind_word token.kind)) (spelled_token text token)) (kind_word token.kind)
        (spelled_token text token)) }
{
    reader.parts.push(Part::Alone)?;
    read_in_type(alloc, reader, Point::AtBase, begins, token)
}

// an expression ended in front of this token
fn end_in_type(
    alloc: Global,
    reader: &mut Reader,
    expr: Expr,
    begins: bool,
    token: Token,
) -> Result<Turn, AllocError>
    ensures { IfOk result (λ t. (text : List ℕ) →
        state_of text reader.new.frames reader.new.parts t
        ≡ leave begins (parts_of text reader.old.parts) (frames_of text reader.old.frames)
        (expr_of text expr) (kind_word token.kind) (spelled_token text token)) }
{
    if outermost(&reader.parts) {
        return Ok(Turn::Expr(Phase::Over(expr)));
    }
    let sign = sign_at(word_at(token));
    let point = end_expr(alloc, &mut reader.parts, expr, sign)?;
    settle_type(alloc, reader, point, begins, token)
}

// what a type comes to with this token
fn settle_type(
    alloc: Global,
    reader: &mut Reader,
    point: Point,
    begins: bool,
    token: Token,
) -> Result<Turn, AllocError>
    ensures { IfOk result (λ t. (text : List ℕ) →
        state_of text reader.new.frames reader.new.parts t
        ≡ placed_on begins (frames_of text reader.old.frames)
        (place_of text reader.old.parts point) (kind_word token.kind)
        (spelled_token text token)) }
{
    match point {
        Point::AtExpr => begin_expr(alloc, reader, begins, token),
        Point::OverType(name) => end_type(alloc, reader, name, token),
        Point::AtBase => Ok(Turn::Type(Point::AtBase)),
        Point::BehindWords {
            at,
            words,
            number,
            only,
        } => Ok(Turn::Type(Point::BehindWords {
            at,
            words,
            number,
            only,
        })),
        Point::AtTag(front, sort) => Ok(Turn::Type(Point::AtTag(front, sort))),
        Point::BehindTag(front, sort, tag) => Ok(Turn::Type(Point::BehindTag(front, sort, tag))),
        Point::BehindForm {
            front,
            form,
            behind,
        } => Ok(Turn::Type(Point::BehindForm {
            front,
            form,
            behind,
        })),
        Point::AtConstant => Ok(Turn::Type(Point::AtConstant)),
        Point::BehindConstant(name) => Ok(Turn::Type(Point::BehindConstant(name))),
        Point::AtValue => Ok(Turn::Type(Point::AtValue)),
        Point::AtDeclarator => Ok(Turn::Type(Point::AtDeclarator)),
        Point::BehindStar { at, stars, consts } => {
            Ok(Turn::Type(Point::BehindStar { at, stars, consts }))
        }
        Point::AtCore {
            at,
            stars,
            inner_at,
        } => Ok(Turn::Type(Point::AtCore {
            at,
            stars,
            inner_at,
        })),
        Point::BehindCore(declaring) => Ok(Turn::Type(Point::BehindCore(declaring))),
        Point::AtCount(declaring) => Ok(Turn::Type(Point::AtCount(declaring))),
        Point::OverBase(base) => Ok(Turn::Type(Point::OverBase(base))),
        Point::OverDeclarator(declaring) => Ok(Turn::Type(Point::OverDeclarator(declaring))),
        Point::Broken => Ok(Turn::Type(Point::Broken)),
    }
}

fn begin_expr(
    alloc: Global,
    reader: &mut Reader,
    begins: bool,
    token: Token,
) -> Result<Turn, AllocError>
    ensures { IfOk result (λ t. (text : List ℕ) →
        state_of text reader.new.frames reader.new.parts t
        ≡ placed_on begins (frames_of text reader.old.frames)
        (types.place (parts_of text reader.old.parts) types.at_expr) (kind_word token.kind)
        (spelled_token text token)) }
{
    reader.frames.push(Frame::Alone)?;
    let phase = next(alloc, &mut reader.frames, Phase::Awaits, begins, token)?;
    Ok(Turn::Expr(phase))
}

fn end_type(
    alloc: Global,
    reader: &mut Reader,
    name: Boxed<TypeName>,
    token: Token,
) -> Result<Turn, AllocError>
    ensures { IfOk result (λ t. (text : List ℕ) →
        state_of text reader.new.frames reader.new.parts t
        ≡ type_over (frames_of text reader.old.frames) (parts_of text reader.old.parts)
        (type_name_of text name) (kind_word token.kind)) }
{
    if bare(&reader.frames) {
        return Ok(Turn::Type(Point::OverType(name)));
    }
    let phase = name_type(alloc, &mut reader.frames, name, word_at(token))?;
    Ok(Turn::Expr(phase))
}

// whether no expression is being read
#[tactic(auto, using(crate::proofs::Outermost::inner_frames))]
fn bare(frames: &Items<Frame>) -> bool
    ensures { (text : List ℕ) → result ≡ is_bare (frames_of text frames.now) }
{
    match frames.as_slice() {
        [] => true,
        [.., _] => false,
    }
}
