//! `condition ? chosen : other`.

ghost use Rattle.std.specs.Prelude.{◌≡◌, ℕ, if◌then◌else◌, ◌&&◌, Ok, Some};
ghost use Rattle.porch_lex.specs.declared.refusal.Rule.TheVariants.{Mismatch};
ghost use Rattle.porch_types.specs.declared.shapes.Kind.TheVariants.{Int};
ghost use Rattle.porch_types.specs.Kinds.{int_type};
ghost use Rattle.porch_check.specs.Refusals.{and_then, refuse};
ghost use Rattle.porch_check.specs.Operands.{Form, Typed, address, integer, is_null, no_address, nothing, record_of};
ghost use Rattle.porch_check.specs.Operators.{choice_form, choice_of, chosen_form};
ghost use Rattle.porch_typed.specs.Mirror.{Expression as Tree, conversion};
ghost use Rattle.porch_operands.specs.Answers.{answered};
ghost use Rattle.porch_operands.specs.Nodes.{choice_with};
ghost use Rattle.porch_operands.specs.Views.{as_value, became, typed_with};

use crate::kinds::common;
use crate::operand::{Becomes, Sort, Value};
use porch_lex::{Refusal, Rule};
use porch_types::{INT, Kind};

/// What becomes of the two parts of a choice, and what it is: its type, none where it is void, and its
/// value.
#[derive(Clone, Copy, Debug, PartialEq, Eq)]
pub struct Choice {
    pub ty: Option<u32>,
    pub chosen: Becomes,
    pub other: Becomes,
    pub value: Value,
}

/// Integers, pointers that agree, one struct type, or both void, behind a scalar. `at` is the place of
/// the whole, `of` that of the condition.
pub fn choose(
    at: u32,
    of: u32,
    condition: Sort,
    chosen: Sort,
    other: Sort,
) -> Result<Choice, Refusal>
    ensures { (c a b : Tree) →
        choice_form at of (typed_with c condition) (typed_with a chosen) (typed_with b other)
        ≡ answered (choice_with c a b) result }
{
    let parts = join_parts(at, chosen, other);
    if condition.value.is_scalar() {
        return parts;
    }
    match (chosen.value, other.value) {
        (Value::Integer(_), Value::Integer(_)) => unless_mixed(of, parts),
        _ => Err(Refusal {
            at: of,
            rule: Rule::Mismatch,
        }),
    }
}

// Where the parts of a choice go together, its condition is at fault.
fn unless_mixed(of: u32, parts: Result<Choice, Refusal>) -> Result<Choice, Refusal>
    ensures { (c a b : Tree) →
        and_then (answered (choice_with c a b) parts) (λ (f : Form). refuse Mismatch of)
        ≡ answered (choice_with c a b) result }
{
    match parts {
        Ok(_) => Err(Refusal {
            at: of,
            rule: Rule::Mismatch,
        }),
        Err(refusal) => Err(refusal),
    }
}

fn join_parts(at: u32, chosen: Sort, other: Sort) -> Result<Choice, Refusal>
    ensures { (c : Typed) (a b : Tree) →
        chosen_form at c (typed_with a chosen) (as_value chosen.value) (typed_with b other)
        (as_value other.value)
        ≡ answered (choice_with c.tree a b) result }
{
    match chosen.value {
        Value::Integer(kind) => with_integer(at, kind, chosen, other),
        Value::Address { shape, to } => with_pointer(at, shape, to, other),
        Value::NoAddress => with_null(at, chosen, other),
        Value::Record(shape) => with_structure(at, shape, chosen, other),
        Value::Nothing => with_nothing(at, chosen, other),
    }
}

fn with_integer(at: u32, kind: Kind, chosen: Sort, other: Sort) -> Result<Choice, Refusal>
    ensures { (c : Typed) (a b : Tree) →
        chosen_form at c (typed_with a chosen) (integer kind) (typed_with b other)
        (as_value other.value)
        ≡ answered (choice_with c.tree a b) result }
{
    match other.value {
        Value::Integer(with) => integers(at, kind, with),
        Value::Address { shape, to } => {
            pointers(
                chosen.is_null(),
                at,
                shape,
                to,
                Becomes::Null(shape),
                Becomes::Itself,
            )
        }
        Value::NoAddress => nulls(at, chosen, other),
        Value::Record(_) => nulls(at, chosen, other),
        Value::Nothing => nulls(at, chosen, other),
    }
}

fn with_pointer(at: u32, shape: u32, to: u32, other: Sort) -> Result<Choice, Refusal>
    ensures { (c x : Typed) (b : Tree) →
        chosen_form at c x (address shape to) (typed_with b other) (as_value other.value)
        ≡ answered (choice_with c.tree x.tree b) result }
{
    match other.value {
        Value::Address { shape: with, to: _ } => {
            pointers(
                shape == with,
                at,
                shape,
                to,
                Becomes::Itself,
                Becomes::Itself,
            )
        }
        Value::Integer(_) | Value::NoAddress | Value::Record(_) | Value::Nothing => {
            pointers(
                other.is_null(),
                at,
                shape,
                to,
                Becomes::Itself,
                Becomes::Null(shape),
            )
        }
    }
}

fn with_null(at: u32, chosen: Sort, other: Sort) -> Result<Choice, Refusal>
    ensures { (c : Typed) (a b : Tree) →
        chosen_form at c (typed_with a chosen) no_address (typed_with b other)
        (as_value other.value)
        ≡ answered (choice_with c.tree a b) result }
{
    match other.value {
        Value::Address { shape, to } => {
            pointers(
                chosen.is_null(),
                at,
                shape,
                to,
                Becomes::Null(shape),
                Becomes::Itself,
            )
        }
        Value::Integer(_) => nulls(at, chosen, other),
        Value::NoAddress => nulls(at, chosen, other),
        Value::Record(_) => nulls(at, chosen, other),
        Value::Nothing => nulls(at, chosen, other),
    }
}

fn with_structure(at: u32, shape: u32, chosen: Sort, other: Sort) -> Result<Choice, Refusal>
    ensures { (c : Typed) (a b : Tree) →
        chosen_form at c (typed_with a chosen) (record_of shape) (typed_with b other)
        (as_value other.value)
        ≡ answered (choice_with c.tree a b) result }
{
    match other.value {
        Value::Record(with) => structures(at, shape, with),
        Value::Address { shape, to } => {
            pointers(
                chosen.is_null(),
                at,
                shape,
                to,
                Becomes::Null(shape),
                Becomes::Itself,
            )
        }
        Value::Integer(_) => nulls(at, chosen, other),
        Value::NoAddress => nulls(at, chosen, other),
        Value::Nothing => nulls(at, chosen, other),
    }
}

fn with_nothing(at: u32, chosen: Sort, other: Sort) -> Result<Choice, Refusal>
    ensures { (c : Typed) (a b : Tree) →
        chosen_form at c (typed_with a chosen) nothing (typed_with b other) (as_value other.value)
        ≡ answered (choice_with c.tree a b) result }
{
    match other.value {
        Value::Nothing => Ok(Choice {
            ty: None,
            chosen: Becomes::Itself,
            other: Becomes::Itself,
            value: Value::Nothing,
        }),
        Value::Address { shape, to } => {
            pointers(
                chosen.is_null(),
                at,
                shape,
                to,
                Becomes::Null(shape),
                Becomes::Itself,
            )
        }
        Value::Integer(_) => nulls(at, chosen, other),
        Value::NoAddress => nulls(at, chosen, other),
        Value::Record(_) => nulls(at, chosen, other),
    }
}

// Two integers, which are converted to their common kind.
fn integers(at: u32, a: Kind, b: Kind) -> Result<Choice, Refusal>
    ensures { (c x y : Typed) → chosen_form at c x (integer a) y (integer b)
        ≡ answered (choice_with c.tree x.tree y.tree) result }
{
    match common(a, b) {
        Some(kind) => Ok(Choice {
            ty: Some(kind.number()),
            chosen: Becomes::Converted(kind),
            other: Becomes::Converted(kind),
            value: Value::Integer(kind),
        }),
        None => Err(Refusal {
            at,
            rule: Rule::MixedLong,
        }),
    }
}

fn structures(at: u32, a: u32, b: u32) -> Result<Choice, Refusal>
    ensures { (c x y : Typed) → chosen_form at c x (record_of a) y (record_of b)
        ≡ answered (choice_with c.tree x.tree y.tree) result }
{
    if a == b {
        Ok(Choice {
            ty: Some(a),
            chosen: Becomes::Itself,
            other: Becomes::Itself,
            value: Value::Record(a),
        })
    } else {
        Err(Refusal {
            at,
            rule: Rule::Mismatch,
        })
    }
}

// Two pointers of a type, where they agree.
fn pointers(
    agree: bool,
    at: u32,
    shape: u32,
    to: u32,
    chosen: Becomes,
    other: Becomes,
) -> Result<Choice, Refusal>
    ensures { (c : Typed) (a b : Tree) →
        (if agree
        then Ok (choice_of (Some shape) c (became chosen a) (became other b) (address shape to))
        else refuse Mismatch at)
        ≡ answered (choice_with c.tree a b) result }
{
    if agree {
        Ok(Choice {
            ty: Some(shape),
            chosen,
            other,
            value: Value::Address { shape, to },
        })
    } else {
        Err(Refusal {
            at,
            rule: Rule::Mismatch,
        })
    }
}

// Two operands of which none is a typed pointer, where both are null.
fn nulls(at: u32, chosen: Sort, other: Sort) -> Result<Choice, Refusal>
    ensures { (c : Typed) (a b : Tree) →
        (if is_null (typed_with a chosen) && is_null (typed_with b other)
        then Ok (choice_of (Some int_type) c (conversion Int a) (conversion Int b) no_address)
        else refuse Mismatch at)
        ≡ answered (choice_with c.tree a b) result }
{
    if chosen.is_null() && other.is_null() {
        Ok(Choice {
            ty: Some(INT),
            chosen: Becomes::Converted(Kind::Int),
            other: Becomes::Converted(Kind::Int),
            value: Value::NoAddress,
        })
    } else {
        Err(Refusal {
            at,
            rule: Rule::Mismatch,
        })
    }
}
