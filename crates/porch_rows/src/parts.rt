//! A tree that may get longer, in its parts.

ghost use Rattle.std.specs.Prelude.{◌≡◌, true};
ghost use Rattle.porch_typed.specs.Views.{expression_of};
ghost use Rattle.porch_rows.specs.inside.Parts.{are_apart, parts_tree};

use porch_typed::{Expression, Operator};
use sqlite_items::{Boxed, Items};

/// The first part of a tree and those behind it, or a tree that doesn't get longer.
#[derive(Drop)]
pub(crate) enum Parts {
    Row(Boxed<Expression>, Items<(Operator, Expression)>),
    AllOf(Boxed<Expression>, Items<Expression>),
    AnyOf(Boxed<Expression>, Items<Expression>),
    Sequence(Boxed<Expression>, Items<Expression>),
    Other(Expression),
}

/// Takes a tree apart.
pub(crate) fn parts_of(e: Expression) -> Parts
    ensures tree { parts_tree result ≡ expression_of e }
    ensures apart { are_apart result ≡ true }
{
    match e {
        Expression::Row(first, steps) => Parts::Row(first, steps),
        Expression::AllOf(first, more) => Parts::AllOf(first, more),
        Expression::AnyOf(first, more) => Parts::AnyOf(first, more),
        Expression::Sequence(first, more) => Parts::Sequence(first, more),
        Expression::Constant(kind, z) => Parts::Other(Expression::Constant(kind, z)),
        Expression::NullPointer(ty) => Parts::Other(Expression::NullPointer(ty)),
        Expression::Read(ty, place) => Parts::Other(Expression::Read(ty, place)),
        Expression::Whole(ty, place) => Parts::Other(Expression::Whole(ty, place)),
        Expression::Address(ty, place) => Parts::Other(Expression::Address(ty, place)),
        Expression::First(ty, place) => Parts::Other(Expression::First(ty, place)),
        Expression::Unary(op, kind, of) => Parts::Other(Expression::Unary(op, kind, of)),
        Expression::Isnt(of) => Parts::Other(Expression::Isnt(of)),
        Expression::Choice {
            ty,
            condition,
            chosen,
            other,
        } => Parts::Other(Expression::Choice {
            ty,
            condition,
            chosen,
            other,
        }),
        Expression::Assign(ty, place, value) => Parts::Other(Expression::Assign(ty, place, value)),
        Expression::AssignBy(ty, operator, place, value) => Parts::Other(Expression::AssignBy(
            ty, operator, place, value,
        )),
        Expression::Increment {
            ty,
            before,
            way,
            place,
        } => Parts::Other(Expression::Increment {
            ty,
            before,
            way,
            place,
        }),
        Expression::Conversion(kind, of) => Parts::Other(Expression::Conversion(kind, of)),
        Expression::Discard(of) => Parts::Other(Expression::Discard(of)),
        Expression::MemberOf { ty, leaf, of } => Parts::Other(Expression::MemberOf {
            ty,
            leaf,
            of,
        }),
        Expression::Call(function, arguments) => Parts::Other(Expression::Call(
            function, arguments,
        )),
        Expression::PutCharacter(of) => Parts::Other(Expression::PutCharacter(of)),
        Expression::PutText(of) => Parts::Other(Expression::PutText(of)),
        Expression::PutLiteral(bytes) => Parts::Other(Expression::PutLiteral(bytes)),
        Expression::Print(pieces) => Parts::Other(Expression::Print(pieces)),
        Expression::Allocate { ty, zeroed, count } => Parts::Other(Expression::Allocate {
            ty,
            zeroed,
            count,
        }),
        Expression::Release(of) => Parts::Other(Expression::Release(of)),
        Expression::Checkpoint => Parts::Other(Expression::Checkpoint),
    }
}
