//! An expression as a constant.

ghost use Rattle.std.specs.Prelude.{◌≡◌, map};
ghost use Rattle.porch_typed.specs.Views.{expression_of, expressions_of, steps_of};
ghost use Rattle.porch_check.specs.Constants.{folded, folded_all, folded_any, folded_row};
ghost use Rattle.porch_constants.specs.Views.{as_folded};
ghost use Rattle.porch_constants.specs.inside.Rows.{step_of};

use crate::steps::{convert_to, step, unary};
use crate::value::{Folded, as_truth, behind_all, behind_any, choose, opposite};
use porch_typed::{Expression, Operator};

/// What an expression is as a constant: no constant, one that meets undefined behaviour, or its value.
#[cycle(folded)]
pub fn folded(e: &Expression) -> Folded
    ensures { as_folded result ≡ folded (expression_of e.now) }
{
    match e {
        Expression::Constant(_, value) => Folded::Known(*value),
        Expression::Row(first, steps) => folded_row(steps.as_slice(), folded(first.get())),
        Expression::AllOf(first, more) => folded_all(more.as_slice(), folded(first.get())),
        Expression::AnyOf(first, more) => folded_any(more.as_slice(), folded(first.get())),
        Expression::Unary(op, kind, of) => unary(*op, *kind, folded(of.get())),
        Expression::Isnt(of) => opposite(folded(of.get())),
        Expression::Choice {
            ty: _,
            condition,
            chosen,
            other,
        } => choose(
            folded(condition.get()),
            folded(chosen.get()),
            folded(other.get()),
        ),
        Expression::Conversion(kind, of) => convert_to(*kind, folded(of.get())),
        Expression::NullPointer(_)
        | Expression::Read(_, _)
        | Expression::Whole(_, _)
        | Expression::Address(_, _)
        | Expression::First(_, _)
        | Expression::Sequence(_, _)
        | Expression::Assign(_, _, _)
        | Expression::AssignBy(_, _, _, _)
        | Expression::Increment {
            ty: _,
            before: _,
            way: _,
            place: _,
        }
        | Expression::Discard(_)
        | Expression::MemberOf {
            ty: _,
            leaf: _,
            of: _,
        }
        | Expression::Call(_, _)
        | Expression::PutCharacter(_)
        | Expression::PutText(_)
        | Expression::PutLiteral(_)
        | Expression::Print(_)
        | Expression::Allocate {
            ty: _,
            zeroed: _,
            count: _,
        }
        | Expression::Release(_)
        | Expression::Checkpoint => Folded::NoConstant,
    }
}

#[cycle(folded)]
fn folded_row(steps: &[(Operator, Expression)], first: Folded) -> Folded
    ensures { as_folded result
        ≡ folded_row (steps_of (map step_of steps.now)) (as_folded first) }
{
    let mut value = first;
    for (operator, e) in steps {
        value = step(value, folded(e), *operator);
    }
    value
}

#[cycle(folded)]
fn folded_all(more: &[Expression], first: Folded) -> Folded
    ensures { as_folded result
        ≡ folded_all (expressions_of (map expression_of more.now)) (as_folded first) }
{
    let mut value = first;
    for e in more {
        value = behind_all(value, folded(e));
    }
    as_truth(value)
}

#[cycle(folded)]
fn folded_any(more: &[Expression], first: Folded) -> Folded
    ensures { as_folded result
        ≡ folded_any (expressions_of (map expression_of more.now)) (as_folded first) }
{
    let mut value = first;
    for e in more {
        value = behind_any(value, folded(e));
    }
    as_truth(value)
}
