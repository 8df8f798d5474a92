//! Where the reader begins in a part of another kind, and what it has ended.

ghost use Rattle.std.specs.Prelude.{ℕ, ◌≡◌, List, [], IfOk};
ghost use Rattle.porch_parse.specs.declared.frame.Frame.{Frame};
ghost use Rattle.porch_parse.specs.Shown as expr_shown;
ghost use Rattle.porch_parse.specs.Shown.{frames_of};
ghost use Rattle.porch_parts.specs.declared.part.Part.{Part};
ghost use Rattle.porch_parts.specs.Ends as ends;
ghost use Rattle.porch_parts.specs.Ends.{at_whole, at_single, at_typed, at_declared};
ghost use Rattle.porch_parts.specs.Parts.{in_expr, in_type};
ghost use Rattle.porch_parts.specs.Shown.{declaring_of, parts_of, place_of, state_of, found_of};
ghost use Rattle.porch_parts.specs.Types.{declared_by};

use crate::ended::declarator_from;
use crate::part::{Declaring, Part, Point};
use crate::reader::{Reader, Turn};
use porch_parse::{Frame, Phase};
use porch_tree::{Declarator, Expr, TypeName};
use sqlite_items::{Boxed, Items};
use std::alloc::{AllocError, Global};

/// What ended in front of a token, or how the reader goes on.
#[derive(Drop)]
pub enum Found {
    Going(Turn),
    Expr(Expr),
    Type(Boxed<TypeName>),
    Declarator(Declarator),
}

fn restart(alloc: Global, reader: &mut Reader)
    ensures frames { reader.new.frames ≡ [] }
    ensures parts { reader.new.parts ≡ [] }
{
    if !reader.frames.is_empty() {
        reader.frames = Items::new(alloc);
    }
    if !reader.parts.is_empty() {
        reader.parts = Items::new(alloc);
    }
}

/// The reader in front of an expression.
pub fn begin_whole(alloc: Global, reader: &mut Reader) -> Turn
    ensures begun { (text : List ℕ) →
        state_of text reader.new.frames reader.new.parts result ≡ at_whole }
{
    restart(alloc, reader);
    Turn::Expr(Phase::Awaits)
}

/// The reader in front of an expression without commas of its own.
pub fn begin_single(alloc: Global, reader: &mut Reader) -> Result<Turn, AllocError>
    ensures begun { IfOk result (λ t. (text : List ℕ) →
        state_of text reader.new.frames reader.new.parts t ≡ at_single) }
{
    restart(alloc, reader);
    reader.frames.push(Frame::Alone)?;
    Ok(Turn::Expr(Phase::Awaits))
}

/// The reader in front of a base and a declarator.
pub fn begin_typed(alloc: Global, reader: &mut Reader) -> Result<Turn, AllocError>
    ensures begun { IfOk result (λ t. (text : List ℕ) →
        state_of text reader.new.frames reader.new.parts t ≡ at_typed) }
{
    restart(alloc, reader);
    reader.parts.push(Part::Alone)?;
    Ok(Turn::Type(Point::AtBase))
}

/// The reader in front of a declarator.
pub fn begin_declared(alloc: Global, reader: &mut Reader) -> Turn
    ensures begun { (text : List ℕ) →
        state_of text reader.new.frames reader.new.parts result ≡ at_declared }
{
    restart(alloc, reader);
    Turn::Type(Point::AtDeclarator)
}

/// What has ended in front of the token that was read last, or how the reader goes on.
pub fn found_in(turn: Turn) -> Found
    ensures found { (text : List ℕ) (frames : List Frame) (parts : List Part) →
        found_of text frames parts result ≡ ends.found_in (state_of text frames parts turn) }
{
    match turn {
        Turn::Expr(phase) => found_in_expr(phase),
        Turn::Type(point) => found_in_type(point),
    }
}

fn found_in_expr(phase: Phase) -> Found
    ensures { (text : List ℕ) (frames : List Frame) (parts : List Part) →
        found_of text frames parts result ≡ ends.found_in (in_expr (parts_of text parts)
        (expr_shown.state_of text frames phase)) }
{
    match phase {
        Phase::Over(expr) => Found::Expr(expr),
        Phase::Awaits => Found::Going(Turn::Expr(Phase::Awaits)),
        Phase::Behind(operand) => Found::Going(Turn::Expr(Phase::Behind(operand))),
        Phase::Member(far, operand) => Found::Going(Turn::Expr(Phase::Member(far, operand))),
        Phase::Opened { at } => Found::Going(Turn::Expr(Phase::Opened { at })),
        Phase::AtType => Found::Going(Turn::Expr(Phase::AtType)),
        Phase::Broken => Found::Going(Turn::Expr(Phase::Broken)),
    }
}

fn found_declarator(declaring: Boxed<Declaring>) -> Found
    ensures { (text : List ℕ) (frames : List Frame) (parts : List Part) →
        found_of text frames parts result
        ≡ ends.found_declared (declared_by (declaring_of text declaring)) }
{
    let declarator = declarator_from(declaring);
    Found::Declarator(declarator)
}

fn found_in_type(point: Point) -> Found
    ensures { (text : List ℕ) (frames : List Frame) (parts : List Part) →
        found_of text frames parts result ≡ ends.found_in (in_type (frames_of text frames)
        (place_of text parts point)) }
{
    match point {
        Point::OverType(name) => Found::Type(name),
        Point::OverDeclarator(declaring) => found_declarator(declaring),
        Point::AtBase => Found::Going(Turn::Type(Point::AtBase)),
        Point::BehindWords {
            at,
            words,
            number,
            only,
        } => Found::Going(Turn::Type(Point::BehindWords {
            at,
            words,
            number,
            only,
        })),
        Point::AtTag(front, sort) => Found::Going(Turn::Type(Point::AtTag(front, sort))),
        Point::BehindTag(front, sort, tag) => {
            Found::Going(Turn::Type(Point::BehindTag(front, sort, tag)))
        }
        Point::BehindForm {
            front,
            form,
            behind,
        } => Found::Going(Turn::Type(Point::BehindForm {
            front,
            form,
            behind,
        })),
        Point::AtConstant => Found::Going(Turn::Type(Point::AtConstant)),
        Point::BehindConstant(name) => Found::Going(Turn::Type(Point::BehindConstant(name))),
        Point::AtValue => Found::Going(Turn::Type(Point::AtValue)),
        Point::AtDeclarator => Found::Going(Turn::Type(Point::AtDeclarator)),
        Point::BehindStar { at, stars, consts } => {
            Found::Going(Turn::Type(Point::BehindStar { at, stars, consts }))
        }
        Point::AtCore {
            at,
            stars,
            inner_at,
        } => Found::Going(Turn::Type(Point::AtCore {
            at,
            stars,
            inner_at,
        })),
        Point::BehindCore(declaring) => Found::Going(Turn::Type(Point::BehindCore(declaring))),
        Point::AtCount(declaring) => Found::Going(Turn::Type(Point::AtCount(declaring))),
        Point::AtExpr => Found::Going(Turn::Type(Point::AtExpr)),
        Point::OverBase(base) => Found::Going(Turn::Type(Point::OverBase(base))),
        Point::Broken => Found::Going(Turn::Type(Point::Broken)),
    }
}
