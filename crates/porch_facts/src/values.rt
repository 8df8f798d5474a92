//! Expressions that may come out without a value, and those that write their variable last.

ghost use Rattle.std.specs.Prelude.{◌≡◌, map};
ghost use Rattle.porch_typed.specs.Views.{expression_of, expressions_of, place_of, program_of};
ghost use Rattle.porch_lowering.specs.Values.{last_may_lack, may_lack};
ghost use Rattle.porch_lowering.specs.Expression.{last_writes_last, place_writes_last, writes_last};

use crate::types::type_held;
use porch_typed::{Expression, Place, Program};

/// Whether a value may be missing when the expression is over: that of a call may, and is handed on through
/// `?:` and commas.
#[cycle(lacks)]
pub fn may_lack(e: &Expression) -> bool
    ensures { result ≡ may_lack (expression_of e.now) }
{
    match e {
        Expression::Call(_, _) => true,
        Expression::Choice {
            ty: _,
            condition: _,
            chosen,
            other,
        } => may_lack(chosen.get()) || may_lack(other.get()),
        Expression::Sequence(first, more) => last_may_lack(more.as_slice(), may_lack(first.get())),
        Expression::Constant(_, _)
        | Expression::NullPointer(_)
        | Expression::Read(_, _)
        | Expression::Whole(_, _)
        | Expression::Address(_, _)
        | Expression::First(_, _)
        | Expression::Row(_, _)
        | Expression::AllOf(_, _)
        | Expression::AnyOf(_, _)
        | Expression::Unary(_, _, _)
        | Expression::Isnt(_)
        | Expression::Assign(_, _, _)
        | Expression::AssignBy(_, _, _, _)
        | Expression::Increment {
            ty: _,
            before: _,
            way: _,
            place: _,
        }
        | Expression::Conversion(_, _)
        | Expression::Discard(_)
        | Expression::MemberOf {
            ty: _,
            leaf: _,
            of: _,
        }
        | Expression::PutCharacter(_)
        | Expression::PutText(_)
        | Expression::PutLiteral(_)
        | Expression::Print(_)
        | Expression::Allocate {
            ty: _,
            zeroed: _,
            count: _,
        }
        | Expression::Release(_)
        | Expression::Checkpoint => false,
    }
}

#[cycle(lacks)]
fn last_may_lack(more: &[Expression], first: bool) -> bool
    ensures { result ≡ last_may_lack (expressions_of (map expression_of more.now)) first }
{
    let mut lacks = first;
    for e in more {
        lacks = may_lack(e);
    }
    lacks
}

/// Whether the code of an expression writes the variable that its value goes to in its last command alone,
/// with a value that is there.
#[cycle(last)]
pub fn writes_last(e: &Expression, program: &Program) -> bool
    ensures { result ≡ writes_last (program_of program.now) (expression_of e.now) }
{
    match e {
        Expression::AllOf(_, _)
        | Expression::AnyOf(_, _)
        | Expression::Choice {
            ty: _,
            condition: _,
            chosen: _,
            other: _,
        }
        | Expression::Call(_, _) => false,
        Expression::Address(_, place) => place_writes_last(place, program),
        Expression::Sequence(first, more) => last_writes_last(
            more.as_slice(),
            writes_last(first.get(), program),
            program,
        ),
        Expression::Conversion(kind, of) => {
            type_held(of.get(), program) != kind.number() || writes_last(of.get(), program)
        }
        Expression::Constant(_, _)
        | Expression::NullPointer(_)
        | Expression::Read(_, _)
        | Expression::Whole(_, _)
        | Expression::First(_, _)
        | Expression::Row(_, _)
        | Expression::Unary(_, _, _)
        | Expression::Isnt(_)
        | Expression::Assign(_, _, _)
        | Expression::AssignBy(_, _, _, _)
        | Expression::Increment {
            ty: _,
            before: _,
            way: _,
            place: _,
        }
        | Expression::Discard(_)
        | Expression::MemberOf {
            ty: _,
            leaf: _,
            of: _,
        }
        | Expression::PutCharacter(_)
        | Expression::PutText(_)
        | Expression::PutLiteral(_)
        | Expression::Print(_)
        | Expression::Allocate {
            ty: _,
            zeroed: _,
            count: _,
        }
        | Expression::Release(_)
        | Expression::Checkpoint => true,
    }
}

#[cycle(last)]
fn place_writes_last(place: &Place, program: &Program) -> bool
    ensures { result ≡ place_writes_last (program_of program.now) (place_of place.now) }
{
    match place {
        Place::Pointee(e) => writes_last(e.get(), program),
        Place::Variable(_) | Place::Global(_) | Place::Member(_, _) => true,
    }
}

#[cycle(last)]
fn last_writes_last(more: &[Expression], first: bool, program: &Program) -> bool
    ensures { result ≡ last_writes_last (program_of program.now)
        (expressions_of (map expression_of more.now)) first }
{
    let mut writes = first;
    for e in more {
        writes = writes_last(e, program);
    }
    writes
}
