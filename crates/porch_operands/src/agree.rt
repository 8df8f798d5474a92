//! What becomes of an operand where a type is wanted.

ghost use Rattle.std.specs.Prelude.{◌≡◌, nat_eq, if◌then◌else◌, Ok};
ghost use Rattle.porch_lex.specs.declared.refusal.Rule.TheVariants.{Mismatch};
ghost use Rattle.porch_check.specs.Refusals.{refuse};
ghost use Rattle.porch_check.specs.Operands.{fitted, fitted_to, if_null, value_at, value_in};
ghost use Rattle.porch_check.specs.Shapes.{Shape, shape_of};
ghost use Rattle.porch_check.specs.Scopes.{Scopes};
ghost use Rattle.porch_typed.specs.Mirror.{Expression as Tree};
ghost use Rattle.porch_operands.specs.Answers.{answered};
ghost use Rattle.porch_operands.specs.Views.{as_value, became, typed_with, class_of};

use crate::operand::{Becomes, Sort, Value};
use crate::table::{Class, Table};
use porch_lex::{Refusal, Rule};

/// The value of an object of a type.
pub fn value_at<T: Table>(shape: u32, table: &T) -> Value
    ensures { as_value result ≡ value_at (T.scopes table.now).shapes shape }
{
    value_of_class(table.class(shape), shape)
}

fn value_of_class(class: Class, number: u32) -> Value
    ensures { (x : Shape) → class ≡ class_of x → as_value result ≡ value_in x number }
{
    match class {
        Class::Whole(kind) => Value::Integer(kind),
        Class::Pointer(to) => Value::Address { shape: number, to },
        Class::Structure => Value::Record(number),
        Class::Void | Class::Function => Value::Nothing,
        Class::Array(_) => Value::Nothing,
    }
}

/// What is assigned, an initial value, an argument and a returned value become of the target's type.
pub fn fit<T: Table>(at: u32, target: u32, sort: Sort, table: &T) -> Result<Becomes, Refusal>
    ensures { (e : Tree) → fitted at target (typed_with e sort) (T.scopes table.now)
        ≡ answered (λ b. became b e) result }
{
    fit_to(value_at(target, table), sort, at)
}

fn fit_to(target: Value, sort: Sort, at: u32) -> Result<Becomes, Refusal>
    ensures { (e : Tree) → fitted_to (as_value target) (typed_with e sort) (as_value sort.value) at
        ≡ answered (λ b. became b e) result }
{
    match (target, sort.value) {
        (Value::Integer(kind), Value::Integer(_)) => Ok(Becomes::Converted(kind)),
        (Value::Address { shape: n, to: _ }, Value::Address { shape: m, to: _ }) => same(n, m, at),
        (Value::Address { shape: n, to: _ }, _) => null_of(n, sort, at),
        (Value::Record(n), Value::Record(m)) => same(n, m, at),
        _ => Err(Refusal {
            at,
            rule: Rule::Mismatch,
        }),
    }
}

fn same(a: u32, b: u32, at: u32) -> Result<Becomes, Refusal>
    ensures { (e : Tree) → (if nat_eq a b then Ok e else refuse Mismatch at)
        ≡ answered (λ b. became b e) result }
{
    if a == b {
        Ok(Becomes::Itself)
    } else {
        Err(Refusal {
            at,
            rule: Rule::Mismatch,
        })
    }
}

/// An operand that agrees with every pointer becomes a null pointer of the type.
fn null_of(shape: u32, sort: Sort, at: u32) -> Result<Becomes, Refusal>
    ensures { (e : Tree) → if_null (typed_with e sort) shape at
        ≡ answered (λ b. became b e) result }
{
    if sort.is_null() {
        Ok(Becomes::Null(shape))
    } else {
        Err(Refusal {
            at,
            rule: Rule::Mismatch,
        })
    }
}
