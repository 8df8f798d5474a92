//! Casts: an integer to a kind, anything to void, and the pointer type of an allocation in front of it.

ghost use Rattle.std.specs.Prelude.{◌≡◌};
ghost use Rattle.porch_check.specs.Shapes.{Shape};
ghost use Rattle.porch_check.specs.Operands.{Typed};
ghost use Rattle.porch_check.specs.Operators.{cast_form, is_address_of, cast_to_kind, cast_to_other, cast_to_pointer};
ghost use Rattle.porch_typed.specs.Mirror.{Expression as Tree};
ghost use Rattle.porch_operands.specs.Answers.{answered};
ghost use Rattle.porch_operands.specs.Nodes.{cast_with};
ghost use Rattle.porch_operands.specs.Views.{as_value, class_of, typed_with};

use crate::operand::{Becomes, Sort, Value};
use crate::table::Class;
use porch_lex::{Refusal, Rule};
use porch_types::Kind;

/// What becomes of the operand of a cast, and the value that it then has.
#[derive(Clone, Copy, Debug, PartialEq, Eq)]
pub struct Cast {
    pub operand: Becomes,
    pub value: Value,
}

/// A cast to the type of a number, which is of this class.
pub fn cast_to(class: Class, at: u32, shape: u32, sort: Sort) -> Result<Cast, Refusal>
    ensures { (t : Shape) (e : Tree) → class ≡ class_of t →
        cast_form t at shape (typed_with e sort) ≡ answered (cast_with e) result }
{
    match class {
        Class::Void => Ok(Cast {
            operand: Becomes::Discarded,
            value: Value::Nothing,
        }),
        Class::Whole(kind) => cast_to_kind(at, kind, sort.value),
        Class::Pointer(_) => cast_to_pointer(at, shape, sort),
        Class::Array(_) => cast_to_other(at, sort.value),
        Class::Structure => cast_to_other(at, sort.value),
        Class::Function => cast_to_other(at, sort.value),
    }
}

fn cast_to_kind(at: u32, kind: Kind, value: Value) -> Result<Cast, Refusal>
    ensures { (x : Typed) → cast_to_kind at kind x (as_value value)
        ≡ answered (cast_with x.tree) result }
{
    match value {
        Value::Integer(_) => Ok(Cast {
            operand: Becomes::Converted(kind),
            value: Value::Integer(kind),
        }),
        Value::Address { shape: _, to: _ } => Err(Refusal {
            at,
            rule: Rule::PointerCast,
        }),
        Value::NoAddress => Err(Refusal {
            at,
            rule: Rule::PointerCast,
        }),
        Value::Record(_) | Value::Nothing => Err(Refusal {
            at,
            rule: Rule::Mismatch,
        }),
    }
}

fn is_address_of(shape: u32, value: Value) -> bool
    ensures { result ≡ is_address_of shape (as_value value) }
{
    match value {
        Value::Address {
            shape: other,
            to: _,
        } => shape == other,
        Value::Integer(_) | Value::NoAddress => false,
        Value::Record(_) | Value::Nothing => false,
    }
}

fn cast_to_pointer(at: u32, shape: u32, sort: Sort) -> Result<Cast, Refusal>
    ensures { (e : Tree) → cast_to_pointer at shape (typed_with e sort)
        ≡ answered (cast_with e) result }
{
    if sort.is_allocation && is_address_of(shape, sort.value) {
        Ok(Cast {
            operand: Becomes::Itself,
            value: sort.value,
        })
    } else {
        Err(Refusal {
            at,
            rule: Rule::PointerCast,
        })
    }
}

fn cast_to_other(at: u32, value: Value) -> Result<Cast, Refusal>
    ensures { (e : Tree) → cast_to_other at (as_value value) ≡ answered (cast_with e) result }
{
    match value {
        Value::Address { shape: _, to: _ } => Err(Refusal {
            at,
            rule: Rule::PointerCast,
        }),
        Value::NoAddress => Err(Refusal {
            at,
            rule: Rule::PointerCast,
        }),
        Value::Integer(_) => Err(Refusal {
            at,
            rule: Rule::Mismatch,
        }),
        Value::Record(_) | Value::Nothing => Err(Refusal {
            at,
            rule: Rule::Mismatch,
        }),
    }
}
