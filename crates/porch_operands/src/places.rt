//! Places that operands lead to: what a pointer points to, an element, a member.

ghost use Rattle.std.specs.Prelude.{◌≡◌, Result};
ghost use Rattle.porch_lex.specs.declared.refusal.Refusal.{Refusal as RefusalOf};
ghost use Rattle.porch_check.specs.Refusals.{and_then};
ghost use Rattle.porch_check.specs.Scopes.{Scopes};
ghost use Rattle.porch_check.specs.Shapes.{Member as MemberOf, shape_of};
ghost use Rattle.porch_check.specs.Operands.{Form, Typed, operand, place, typed_as, value_at};
ghost use Rattle.porch_check.specs.Operators.{arrow_form, index_form, member_form, member_in, member_of_value, member_value, pointee_form};
ghost use Rattle.porch_typed.specs.Mirror.{Expression as Tree, Place as PlaceTree, member_of, no_steps, pointee, row, with_step};
ghost use Rattle.porch_typed.specs.Mirror as tree;
ghost use Rattle.porch_operands.specs.Answers.{answered};
ghost use Rattle.porch_operands.specs.Views.{as_member, as_value};

use crate::agree::value_at;
use crate::operand::Value;
use crate::table::{Class, Member, Table};
use porch_lex::{Refusal, Rule};
use porch_typed::Operator;

/// An element of an array: the operator that gives the pointer to it, and its type.
#[derive(Clone, Copy, Debug, PartialEq, Eq)]
pub struct Element {
    pub operator: Operator,
    pub shape: u32,
}

/// A member of a struct that is no place, with its value.
#[derive(Clone, Copy, Debug, PartialEq, Eq)]
pub struct MemberValue {
    pub member: Member,
    pub value: Value,
}

/// `*`: the type of what a pointer points to.
pub fn pointee<T: Table>(at: u32, value: Value, table: &T) -> Result<u32, Refusal>
    ensures { (x : Typed) → pointee_form at (T.scopes table.now) x (as_value value)
        ≡ answered (λ to. place (pointee x.tree) to) result }
{
    match value {
        Value::Address { shape: _, to } => {
            if table.is_complete(to) {
                Ok(to)
            } else {
                Err(Refusal {
                    at,
                    rule: Rule::Mismatch,
                })
            }
        }
        Value::Integer(_) => Err(Refusal {
            at,
            rule: Rule::Mismatch,
        }),
        Value::NoAddress => Err(Refusal {
            at,
            rule: Rule::Mismatch,
        }),
        Value::Record(_) => Err(Refusal {
            at,
            rule: Rule::Mismatch,
        }),
        Value::Nothing => Err(Refusal {
            at,
            rule: Rule::Mismatch,
        }),
    }
}

/// `p[i]` of a pointer and an integer in either order.
pub fn index<T: Table>(at: u32, left: Value, right: Value, table: &T) -> Result<Element, Refusal>
    ensures { (x y : Typed) →
        index_form at (T.scopes table.now) x (as_value left) y (as_value right)
        ≡ answered (λ e. place
        (pointee (row x.tree (with_step e.operator y.tree no_steps))) e.shape) result }
{
    match (left, right) {
        (Value::Address { shape: n, to }, Value::Integer(_)) => {
            if table.is_complete(to) {
                Ok(Element {
                    operator: Operator::Forward(n),
                    shape: to,
                })
            } else {
                Err(Refusal {
                    at,
                    rule: Rule::Mismatch,
                })
            }
        }
        (Value::Integer(_), Value::Address { shape: n, to }) => {
            if table.is_complete(to) {
                Ok(Element {
                    operator: Operator::ForwardOf(n),
                    shape: to,
                })
            } else {
                Err(Refusal {
                    at,
                    rule: Rule::Mismatch,
                })
            }
        }
        _ => Err(Refusal {
            at,
            rule: Rule::Mismatch,
        }),
    }
}

// A member of a type that is a struct: `at` is the place of the whole form, `name_at` that of the name.
fn member_in<T: Table>(
    at: u32,
    name_at: u32,
    name: &[u8],
    shape: u32,
    table: &T,
) -> Result<Member, Refusal>
    ensures { (go : MemberOf → Result Form RefusalOf) →
        member_in (shape_of (T.scopes table.now).shapes shape) at
        (record { at = name_at; bytes = name.now }) (T.scopes table.now) shape go
        ≡ and_then (answered (as_member name.now) result) go }
{
    match table.class(shape) {
        Class::Structure => match table.member(shape, name) {
            Some(member) => Ok(member),
            None => Err(Refusal {
                at: name_at,
                rule: Rule::Unknown,
            }),
        },
        Class::Void | Class::Function => Err(Refusal {
            at,
            rule: Rule::Mismatch,
        }),
        Class::Whole(_) | Class::Pointer(_) | Class::Array(_) => {
            Err(Refusal {
                at,
                rule: Rule::Mismatch,
            })
        }
    }
}

/// `.` of a struct that is a place, by the struct's type and the name's place and bytes.
pub fn member<T: Table>(
    at: u32,
    name_at: u32,
    name: &[u8],
    shape: u32,
    table: &T,
) -> Result<Member, Refusal>
    ensures { (p : PlaceTree) →
        member_form at (record { at = name_at; bytes = name.now }) (place p shape)
        (T.scopes table.now)
        ≡ answered (λ m. place (tree.member m.leaf p) m.shape) result }
{
    member_in(at, name_at, name, shape, table)
}

/// `.` of a struct that is no place. An array in it is no value.
pub fn member_of_value<T: Table>(
    at: u32,
    name_at: u32,
    name: &[u8],
    value: Value,
    table: &T,
) -> Result<MemberValue, Refusal>
    ensures { (x : Typed) →
        member_of_value at (record { at = name_at; bytes = name.now }) (T.scopes table.now) x
        (as_value value)
        ≡ answered (λ m. operand
        (typed_as (member_of m.member.shape m.member.leaf x.tree) (as_value m.value))) result }
{
    match value {
        Value::Record(shape) => match member_in(at, name_at, name, shape, table) {
            Ok(member) => with_value(at, member, value_at(member.shape, table)),
            Err(refusal) => Err(refusal),
        },
        Value::Integer(_) => Err(Refusal {
            at,
            rule: Rule::Mismatch,
        }),
        Value::NoAddress => Err(Refusal {
            at,
            rule: Rule::Mismatch,
        }),
        Value::Address { shape: _, to: _ } => Err(Refusal {
            at,
            rule: Rule::Mismatch,
        }),
        Value::Nothing => Err(Refusal {
            at,
            rule: Rule::Mismatch,
        }),
    }
}

fn with_value(at: u32, member: Member, value: Value) -> Result<MemberValue, Refusal>
    ensures { (s : Scopes) (e : Tree) (m : MemberOf) →
        m.shape ≡ member.shape → m.leaf ≡ member.leaf →
        member_value at s e m (as_value value)
        ≡ answered (λ m. operand
        (typed_as (member_of m.member.shape m.member.leaf e) (as_value m.value))) result }
{
    match value {
        Value::Integer(_) => Ok(MemberValue { member, value }),
        Value::NoAddress => Ok(MemberValue { member, value }),
        Value::Address { shape: _, to: _ } => Ok(MemberValue { member, value }),
        Value::Record(_) => Ok(MemberValue { member, value }),
        Value::Nothing => Err(Refusal {
            at,
            rule: Rule::Mismatch,
        }),
    }
}

/// `->` of a pointer to a struct, which is complete.
pub fn arrow<T: Table>(
    at: u32,
    name_at: u32,
    name: &[u8],
    value: Value,
    table: &T,
) -> Result<Member, Refusal>
    ensures { (x : Typed) →
        arrow_form at (record { at = name_at; bytes = name.now }) (T.scopes table.now) x
        (as_value value)
        ≡ answered (λ m. place (tree.member m.leaf (pointee x.tree)) m.shape) result }
{
    match value {
        Value::Address { shape: _, to } => {
            if table.is_complete(to) {
                member_in(at, name_at, name, to, table)
            } else {
                Err(Refusal {
                    at,
                    rule: Rule::Mismatch,
                })
            }
        }
        Value::Integer(_) => Err(Refusal {
            at,
            rule: Rule::Mismatch,
        }),
        Value::NoAddress => Err(Refusal {
            at,
            rule: Rule::Mismatch,
        }),
        Value::Record(_) => Err(Refusal {
            at,
            rule: Rule::Mismatch,
        }),
        Value::Nothing => Err(Refusal {
            at,
            rule: Rule::Mismatch,
        }),
    }
}
