//! The operators with one operand that give a value.

ghost use Rattle.std.specs.Prelude.{◌≡◌};
ghost use Rattle.porch_check.specs.Operands.{Typed, integer, operand, typed_as, value_at};
ghost use Rattle.porch_check.specs.Operators.{increment_value, not_form, unary_form};
ghost use Rattle.porch_lex.specs.declared.refusal.Rule.TheVariants.{Mismatch};
ghost use Rattle.porch_types.specs.declared.shapes.Kind.TheVariants.{Int};
ghost use Rattle.porch_typed.specs.declared.typed.Unary.{Unary};
ghost use Rattle.porch_typed.specs.Mirror.{Expression as Tree, isnt, unary};
ghost use Rattle.porch_operands.specs.Answers.{answered};
ghost use Rattle.porch_operands.specs.Views.{as_value, typed_with};

use crate::agree::value_at;
use crate::kinds::promoted;
use crate::operand::{Sort, Value};
use crate::table::Table;
use porch_lex::{Refusal, Rule};
use porch_types::Kind;

/// `+ - ~`: the kind in which an integer is taken.
pub fn unary(at: u32, value: Value) -> Result<Kind, Refusal>
    ensures { (op : Unary) (x : Typed) → unary_form op at x (as_value value)
        ≡ answered (λ kind. operand (typed_as (unary op kind x.tree) (integer kind))) result }
{
    match value {
        Value::Integer(kind) => Ok(promoted(kind)),
        Value::NoAddress | Value::Record(_) | Value::Nothing => Err(mismatch(at)),
        Value::Address { shape: _, to: _ } => Err(mismatch(at)),
    }
}

/// `!` of a scalar.
pub fn not(at: u32, sort: Sort) -> Result<(), Refusal>
    ensures { (e : Tree) → not_form at (typed_with e sort)
        ≡ answered (λ _. operand (typed_as (isnt e) (integer Int))) result }
{
    if sort.value.is_scalar() {
        Ok(())
    } else {
        Err(mismatch(at))
    }
}

/// `++ --`: the value of an object of a type, which is an integer or a pointer that may go.
pub fn increment<T: Table>(at: u32, shape: u32, table: &T) -> Result<Value, Refusal>
    ensures { increment_value (T.scopes table.now) at (value_at (T.scopes table.now).shapes shape)
        ≡ answered as_value result }
{
    increment_of(at, value_at(shape, table), table)
}

fn increment_of<T: Table>(at: u32, value: Value, table: &T) -> Result<Value, Refusal>
    ensures { increment_value (T.scopes table.now) at (as_value value) ≡ answered as_value result }
{
    match value {
        Value::Integer(_) => Ok(value),
        Value::Address { shape: _, to } => {
            if table.is_complete(to) {
                Ok(value)
            } else {
                Err(mismatch(at))
            }
        }
        Value::NoAddress | Value::Record(_) | Value::Nothing => Err(mismatch(at)),
    }
}

fn mismatch(at: u32) -> Refusal
    ensures { result ≡ record { at = at; rule = Mismatch } }
{
    Refusal {
        at,
        rule: Rule::Mismatch,
    }
}
