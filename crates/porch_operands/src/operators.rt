//! The operators between two operands.

ghost use Rattle.std.specs.Prelude.{◌≡◌, ℕ, if◌then◌else◌, ◌&&◌, Ok};
ghost use Rattle.porch_lex.specs.declared.refusal.Rule.TheVariants.{Mismatch};
ghost use Rattle.porch_check.specs.Refusals.{refuse};
ghost use Rattle.porch_check.specs.Operands.{Typed, address, integer, is_null, no_address, nothing, record_of};
ghost use Rattle.porch_check.specs.Operators.{addition, arithmetic, comparison, equality, if_complete, infix_of, logical, operated, relation, shift, subtraction};
ghost use Rattle.porch_check.specs.Operators as operators;
ghost use Rattle.porch_typed.specs.Mirror.{Expression as Tree};
ghost use Rattle.porch_typed.specs.declared.typed.Operator.TheVariants.{Compare, ComparePointers};
ghost use Rattle.porch_types.specs.declared.shapes.Kind.TheVariants.{Int};
ghost use Rattle.porch_operands.specs.declared.operand.Value.TheVariants.{Integer};
ghost use Rattle.porch_operands.specs.Answers.{answered};
ghost use Rattle.porch_operands.specs.Views.{as_value, became, operation_with, typed_with};

use crate::kinds::{common, promoted};
use crate::operand::{Becomes, Operation, Sort, Value};
use crate::table::Table;
use porch_lex::{Refusal, Rule};
use porch_tree::{Assigning, Infix};
use porch_typed::{Comparison, Operator};
use porch_types::Kind;
use porch_values::Op;

/// What an operator does with two operands, by its place in the text.
pub fn operation<T: Table>(
    sign: Infix,
    at: u32,
    left: Sort,
    right: Sort,
    table: &T,
) -> Result<Operation, Refusal>
    ensures { (a b : Tree) →
        operated sign at (typed_with a left) (typed_with b right) (T.scopes table.now)
        ≡ answered (operation_with b) result }
{
    match sign {
        Infix::Any => logical(at, left, right),
        Infix::All => logical(at, left, right),
        Infix::Equal => equality(Comparison::Equal, at, left, right),
        Infix::NotEqual => equality(Comparison::NotEqual, at, left, right),
        Infix::Less => relation(Comparison::Less, at, left.value, right.value, table),
        Infix::Greater => relation(Comparison::Greater, at, left.value, right.value, table),
        Infix::LessEqual => relation(Comparison::LessEqual, at, left.value, right.value, table),
        Infix::GreaterEqual => {
            relation(Comparison::GreaterEqual, at, left.value, right.value, table)
        }
        Infix::Add => addition(at, left.value, right.value, table),
        Infix::Sub => subtraction(at, left.value, right.value, table),
        Infix::ShiftLeft => shift(Op::Shl, at, left.value, right.value),
        Infix::ShiftRight => shift(Op::Shr, at, left.value, right.value),
        Infix::BitOr => arithmetic(Op::Or, at, left.value, right.value),
        Infix::BitXor => arithmetic(Op::Xor, at, left.value, right.value),
        Infix::BitAnd => arithmetic(Op::And, at, left.value, right.value),
        Infix::Mul => arithmetic(Op::Mul, at, left.value, right.value),
        Infix::Div => arithmetic(Op::Div, at, left.value, right.value),
        Infix::Rem => arithmetic(Op::Rem, at, left.value, right.value),
    }
}

/// The operator of an assignment.
pub fn sign_of(assigning: Assigning) -> Infix
    ensures { result ≡ infix_of assigning }
{
    match assigning {
        Assigning::Mul => Infix::Mul,
        Assigning::Div => Infix::Div,
        Assigning::Rem => Infix::Rem,
        Assigning::Sub => Infix::Sub,
        Assigning::ShiftLeft => Infix::ShiftLeft,
        Assigning::ShiftRight => Infix::ShiftRight,
        Assigning::BitAnd => Infix::BitAnd,
        Assigning::BitXor => Infix::BitXor,
        Assigning::BitOr => Infix::BitOr,
        Assigning::Add | Assigning::Plain => Infix::Add,
    }
}

// An operator whose right operand stays as it is.
fn plain(operator: Operator, value: Value) -> Operation
    ensures { (b : Tree) →
        operation_with b result ≡ operators.operation operator b (as_value value) }
{
    Operation {
        operator,
        right: Becomes::Itself,
        value,
    }
}

/// `* / % & ^ |`, and `+ -` of integers.
fn arithmetic(op: Op, at: u32, left: Value, right: Value) -> Result<Operation, Refusal>
    ensures { (y : Typed) → arithmetic op at (as_value left) y (as_value right)
        ≡ answered (operation_with y.tree) result }
{
    match (left, right) {
        (Value::Integer(a), Value::Integer(b)) => match common(a, b) {
            Some(kind) => Ok(plain(Operator::Arithmetic(op, kind), Value::Integer(kind))),
            None => Err(Refusal {
                at,
                rule: Rule::MixedLong,
            }),
        },
        _ => Err(Refusal {
            at,
            rule: Rule::Mismatch,
        }),
    }
}

/// `<< >>`: the left operand's promoted kind.
fn shift(op: Op, at: u32, left: Value, right: Value) -> Result<Operation, Refusal>
    ensures { (y : Typed) → shift op at (as_value left) y (as_value right)
        ≡ answered (operation_with y.tree) result }
{
    match (left, right) {
        (Value::Integer(a), Value::Integer(_)) => {
            let kind = promoted(a);
            Ok(plain(Operator::Shift(op, kind), Value::Integer(kind)))
        }
        _ => Err(Refusal {
            at,
            rule: Rule::Mismatch,
        }),
    }
}

// An operator that goes over what a pointer points to, which has to be complete.
fn over_complete<T: Table>(
    to: u32,
    at: u32,
    operation: Operation,
    table: &T,
) -> Result<Operation, Refusal>
    ensures { (b : Tree) → if_complete (T.scopes table.now) to at (operation_with b operation)
        ≡ answered (operation_with b) result }
{
    if table.is_complete(to) {
        Ok(operation)
    } else {
        Err(Refusal {
            at,
            rule: Rule::Mismatch,
        })
    }
}

/// `+`: also a pointer and an integer in either order.
fn addition<T: Table>(at: u32, left: Value, right: Value, table: &T) -> Result<Operation, Refusal>
    ensures { (y : Typed) → addition at (T.scopes table.now) (as_value left) y (as_value right)
        ≡ answered (operation_with y.tree) result }
{
    match (left, right) {
        (Value::Address { shape, to }, Value::Integer(_)) => {
            over_complete(to, at, plain(Operator::Forward(shape), left), table)
        }
        (Value::Integer(_), Value::Address { shape, to }) => {
            over_complete(to, at, plain(Operator::ForwardOf(shape), right), table)
        }
        _ => arithmetic(Op::Add, at, left, right),
    }
}

// Two pointers of one type, which go over what they point to.
fn between<T: Table>(
    same: bool,
    to: u32,
    at: u32,
    operation: Operation,
    table: &T,
) -> Result<Operation, Refusal>
    ensures { (b : Tree) → (if same
        then if_complete (T.scopes table.now) to at (operation_with b operation)
        else refuse Mismatch at)
        ≡ answered (operation_with b) result }
{
    if same {
        over_complete(to, at, operation, table)
    } else {
        Err(Refusal {
            at,
            rule: Rule::Mismatch,
        })
    }
}

/// `-`: also a pointer less an integer, and two pointers of one type.
fn subtraction<T: Table>(
    at: u32,
    left: Value,
    right: Value,
    table: &T,
) -> Result<Operation, Refusal>
    ensures { (y : Typed) → subtraction at (T.scopes table.now) (as_value left) y (as_value right)
        ≡ answered (operation_with y.tree) result }
{
    match (left, right) {
        (Value::Address { shape, to }, Value::Integer(_)) => {
            over_complete(to, at, plain(Operator::Back(shape), left), table)
        }
        (Value::Address { shape: n, to }, Value::Address { shape: m, to: _ }) => {
            let difference = plain(Operator::Difference(n), Value::Integer(Kind::Long));
            between(n == m, to, at, difference, table)
        }
        _ => arithmetic(Op::Sub, at, left, right),
    }
}

// The result of a comparison.
fn compared(operator: Operator, right: Becomes) -> Operation
    ensures { result ≡ record { operator = operator; right = right; value = Integer Int } }
{
    Operation {
        operator,
        right,
        value: Value::Integer(Kind::Int),
    }
}

fn comparison(how: Comparison, at: u32, left: Value, right: Value) -> Result<Operation, Refusal>
    ensures { (y : Typed) → comparison how at (as_value left) y (as_value right)
        ≡ answered (operation_with y.tree) result }
{
    match (left, right) {
        (Value::Integer(a), Value::Integer(b)) => integers(how, at, a, b),
        _ => Err(Refusal {
            at,
            rule: Rule::Mismatch,
        }),
    }
}

fn integers(how: Comparison, at: u32, a: Kind, b: Kind) -> Result<Operation, Refusal>
    ensures { (y : Typed) → comparison how at (integer a) y (integer b)
        ≡ answered (operation_with y.tree) result }
{
    match common(a, b) {
        Some(kind) => Ok(compared(Operator::Compare(how, kind), Becomes::Itself)),
        None => Err(Refusal {
            at,
            rule: Rule::MixedLong,
        }),
    }
}

/// `< > <= >=`: also pointers of one type.
fn relation<T: Table>(
    how: Comparison,
    at: u32,
    left: Value,
    right: Value,
    table: &T,
) -> Result<Operation, Refusal>
    ensures { (y : Typed) → relation how at (T.scopes table.now) (as_value left) y (as_value right)
        ≡ answered (operation_with y.tree) result }
{
    match (left, right) {
        (Value::Address { shape: n, to }, Value::Address { shape: m, to: _ }) => {
            let order = compared(Operator::ComparePointers(how, n), Becomes::Itself);
            between(n == m, to, at, order, table)
        }
        _ => comparison(how, at, left, right),
    }
}

// An operation where a test holds.
fn where_holds(holds: bool, at: u32, operation: Operation) -> Result<Operation, Refusal>
    ensures { (b : Tree) →
        (if holds then Ok (operation_with b operation) else refuse Mismatch at)
        ≡ answered (operation_with b) result }
{
    if holds {
        Ok(operation)
    } else {
        Err(Refusal {
            at,
            rule: Rule::Mismatch,
        })
    }
}

/// `== !=`: also pointers that agree. Where both are null and none is typed they are compared as
/// `int`.
fn equality(how: Comparison, at: u32, left: Sort, right: Sort) -> Result<Operation, Refusal>
    ensures { (a b : Tree) →
        equality how at (typed_with a left) (as_value left.value) (typed_with b right)
        (as_value right.value) ≡ answered (operation_with b) result }
{
    match left.value {
        Value::Address { shape, to: _ } => equality_of_pointer(how, at, shape, right),
        Value::Integer(kind) => equality_of_integer(how, at, kind, left, right),
        Value::NoAddress => equality_of_other(how, at, left, right),
        Value::Record(_) => equality_of_other(how, at, left, right),
        Value::Nothing => equality_of_other(how, at, left, right),
    }
}

// The left operand is a pointer of a type.
fn equality_of_pointer(
    how: Comparison,
    at: u32,
    shape: u32,
    right: Sort,
) -> Result<Operation, Refusal>
    ensures { (x : Typed) (b : Tree) (to : ℕ) →
        equality how at x (address shape to) (typed_with b right) (as_value right.value)
        ≡ answered (operation_with b) result }
{
    match right.value {
        Value::Address {
            shape: other,
            to: _,
        } => { pointers(how, at, shape, shape == other, Becomes::Itself) }
        Value::Integer(_) | Value::NoAddress | Value::Record(_) | Value::Nothing => {
            pointers(how, at, shape, right.is_null(), Becomes::Null(shape))
        }
    }
}

// The left operand is an integer.
fn equality_of_integer(
    how: Comparison,
    at: u32,
    kind: Kind,
    left: Sort,
    right: Sort,
) -> Result<Operation, Refusal>
    ensures { (a b : Tree) →
        equality how at (typed_with a left) (integer kind) (typed_with b right)
        (as_value right.value) ≡ answered (operation_with b) result }
{
    match right.value {
        Value::Address { shape, to: _ } => {
            pointers(how, at, shape, left.is_null(), Becomes::Itself)
        }
        Value::Integer(other) => integers(how, at, kind, other),
        Value::NoAddress => nulls(how, at, left, right),
        Value::Record(_) => nulls(how, at, left, right),
        Value::Nothing => nulls(how, at, left, right),
    }
}

// The left operand is neither a typed pointer nor an integer.
fn equality_of_other(
    how: Comparison,
    at: u32,
    left: Sort,
    right: Sort,
) -> Result<Operation, Refusal>
    ensures no_address { (a b : Tree) →
        equality how at (typed_with a left) no_address (typed_with b right)
        (as_value right.value) ≡ answered (operation_with b) result }
    ensures structures { (a b : Tree) (n : ℕ) →
        equality how at (typed_with a left) (record_of n) (typed_with b right)
        (as_value right.value) ≡ answered (operation_with b) result }
    ensures nothing { (a b : Tree) →
        equality how at (typed_with a left) nothing (typed_with b right)
        (as_value right.value) ≡ answered (operation_with b) result }
{
    match right.value {
        Value::Address { shape, to: _ } => {
            pointers(how, at, shape, left.is_null(), Becomes::Itself)
        }
        Value::Integer(_) => nulls(how, at, left, right),
        Value::NoAddress => nulls(how, at, left, right),
        Value::Record(_) => nulls(how, at, left, right),
        Value::Nothing => nulls(how, at, left, right),
    }
}

// Two pointers of a type, where they agree.
fn pointers(
    how: Comparison,
    at: u32,
    shape: u32,
    agree: bool,
    right: Becomes,
) -> Result<Operation, Refusal>
    ensures { (b : Tree) →
        (if agree
        then Ok (operators.operation (ComparePointers how shape) (became right b) (integer Int))
        else refuse Mismatch at)
        ≡ answered (operation_with b) result }
{
    where_holds(
        agree,
        at,
        compared(Operator::ComparePointers(how, shape), right),
    )
}

// Two operands of which none is a typed pointer, where both are null.
fn nulls(how: Comparison, at: u32, left: Sort, right: Sort) -> Result<Operation, Refusal>
    ensures { (a b : Tree) →
        (if is_null (typed_with a left) && is_null (typed_with b right)
        then Ok (operators.operation (Compare how Int) b (integer Int))
        else refuse Mismatch at)
        ≡ answered (operation_with b) result }
{
    let both = left.is_null() && right.is_null();
    where_holds(
        both,
        at,
        compared(Operator::Compare(how, Kind::Int), Becomes::Itself),
    )
}

/// `&& ||`: scalars.
fn logical(at: u32, left: Sort, right: Sort) -> Result<Operation, Refusal>
    ensures { (a b : Tree) → logical at (typed_with a left) (typed_with b right)
        ≡ answered (operation_with b) result }
{
    where_holds(
        left.value.is_scalar() && right.value.is_scalar(),
        at,
        compared(
            Operator::Compare(Comparison::NotEqual, Kind::Int),
            Becomes::Itself,
        ),
    )
}
