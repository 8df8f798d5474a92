//! Operators at known values.

ghost use Rattle.std.specs.Prelude.{◌≡◌, IsTrue, false, true, int_lt, int_le};
ghost use Rattle.std.specs.Ordering.{int_eq};
ghost use Rattle.porch_values.specs.Integers.{applied, is_operand_kind, is_right_of, is_shift, is_value_of};
ghost use Rattle.porch_check.specs.Constants.{both_widths, does_hold, folded_step, folded_unary, if_both, known_if_ok};
ghost use Rattle.porch_constants.specs.Views.{as_folded};
ghost use Rattle.porch_constants.specs.inside.Steps.{arithmetic_from, arithmetic_of, converted_to, with_unary};

use crate::value::{Folded, as_int};
use porch_typed::{Comparison, Operator, Unary};
use porch_types::Kind;
use porch_values::{Act, Op, Widths, apply, complement, convert, is_operand, is_right};

fn both_widths() -> Widths
    ensures { result ≡ both_widths }
{
    Widths {
        narrow: true,
        wide: true,
    }
}

/// An operator between two operands, which are both constants, and then both known.
pub(crate) fn step(left: Folded, right: Folded, operator: Operator) -> Folded
    ensures { as_folded result
        ≡ if_both (as_folded left) (as_folded right) (folded_step operator) }
{
    match left {
        Folded::NoConstant => Folded::NoConstant,
        Folded::Undefined => match right {
            Folded::NoConstant => Folded::NoConstant,
            Folded::Undefined => Folded::Undefined,
            Folded::Known(_) => Folded::Undefined,
        },
        Folded::Known(x) => match right {
            Folded::NoConstant => Folded::NoConstant,
            Folded::Undefined => Folded::Undefined,
            Folded::Known(y) => known_step(operator, x, y),
        },
    }
}

fn known_step(operator: Operator, x: i128, y: i128) -> Folded
    ensures { as_folded result ≡ folded_step operator x y }
{
    match operator {
        Operator::Arithmetic(op, kind) => arithmetic(op, kind, x, y),
        Operator::Shift(op, kind) => shift(op, kind, x, y),
        Operator::Compare(how, kind) => compare(how, kind, x, y),
        Operator::ComparePointers(_, _) => Folded::NoConstant,
        Operator::Forward(_) => Folded::NoConstant,
        Operator::Back(_) => Folded::NoConstant,
        Operator::ForwardOf(_) => Folded::NoConstant,
        Operator::Difference(_) => Folded::NoConstant,
    }
}

fn is_shift(op: Op) -> bool
    ensures { result ≡ is_shift op }
{
    match op {
        Op::Shl | Op::Shr => true,
        Op::Add | Op::Sub | Op::Mul | Op::Div | Op::Rem | Op::And | Op::Or | Op::Xor => false,
    }
}

fn arithmetic(op: Op, kind: Kind, x: i128, y: i128) -> Folded
    ensures { as_folded result ≡ folded_step (Operator.Arithmetic op kind) x y }
{
    if !is_operand(kind) {
        return Folded::NoConstant;
    }
    if is_shift(op) {
        return Folded::NoConstant;
    }
    arithmetic_of(op, kind, x, y)
}

// The kind is a promoted one, and the operator no shift.
fn arithmetic_of(op: Op, kind: Kind, x: i128, y: i128) -> Folded
    requires kind { IsTrue (is_operand_kind kind) }
    requires op { is_shift op ≡ false }
    ensures { as_folded result ≡ arithmetic_of op kind x y }
{
    match convert(kind, x, both_widths()) {
        Ok(x) => arithmetic_from(op, kind, x, y),
        Err(_) => Folded::Undefined,
    }
}

// The left operand was converted.
fn arithmetic_from(op: Op, kind: Kind, x: i128, y: i128) -> Folded
    requires kind { IsTrue (is_operand_kind kind) }
    requires op { is_shift op ≡ false }
    requires left { IsTrue (is_value_of kind both_widths x) }
    ensures { as_folded result ≡ arithmetic_from op kind x y }
{
    match convert(kind, y, both_widths()) {
        Ok(y) => result_of(op, kind, x, y),
        Err(_) => Folded::Undefined,
    }
}

fn result_of(op: Op, kind: Kind, x: i128, y: i128) -> Folded
    requires kind { IsTrue (is_operand_kind kind) }
    requires left { IsTrue (is_value_of kind both_widths x) }
    requires right { IsTrue (is_right_of op kind both_widths y) }
    ensures { as_folded result ≡ known_if_ok (applied op kind both_widths x y) }
{
    folded_from(apply(op, kind, x, y, both_widths()))
}

fn folded_from(value: Result<i128, Act>) -> Folded
    ensures { as_folded result ≡ known_if_ok value }
{
    match value {
        Ok(value) => Folded::Known(value),
        Err(_) => Folded::Undefined,
    }
}

fn shift(op: Op, kind: Kind, x: i128, y: i128) -> Folded
    ensures { as_folded result ≡ folded_step (Operator.Shift op kind) x y }
{
    if !is_operand(kind) {
        return Folded::NoConstant;
    }
    if !is_shift(op) {
        return Folded::NoConstant;
    }
    match convert(kind, x, both_widths()) {
        Ok(x) => shift_from(op, kind, x, y),
        Err(_) => Folded::Undefined,
    }
}

// The left operand was converted. A count that is no value of 64 bits is none of a shift.
#[tactic(auto, using(crate::proofs::Counts::far_counts))]
fn shift_from(op: Op, kind: Kind, x: i128, y: i128) -> Folded
    requires kind { IsTrue (is_operand_kind kind) }
    requires op { is_shift op ≡ true }
    requires left { IsTrue (is_value_of kind both_widths x) }
    ensures { as_folded result ≡ known_if_ok (applied op kind both_widths x y) }
{
    if is_right(op, kind, y, both_widths()) {
        result_of(op, kind, x, y)
    } else {
        Folded::Undefined
    }
}

fn compare(how: Comparison, kind: Kind, x: i128, y: i128) -> Folded
    ensures { as_folded result ≡ folded_step (Operator.Compare how kind) x y }
{
    match convert(kind, x, both_widths()) {
        Ok(x) => match convert(kind, y, both_widths()) {
            Ok(y) => Folded::Known(as_int(does_hold(how, x, y))),
            Err(_) => Folded::Undefined,
        },
        Err(_) => Folded::Undefined,
    }
}

fn does_hold(how: Comparison, x: i128, y: i128) -> bool
    ensures { result ≡ does_hold how x y }
{
    match how {
        Comparison::Less => is_less(x, y),
        Comparison::Greater => is_less(y, x),
        Comparison::LessEqual => is_at_most(x, y),
        Comparison::GreaterEqual => is_at_most(y, x),
        Comparison::Equal => is_equal(x, y),
        Comparison::NotEqual => !is_equal(x, y),
    }
}

fn is_less(x: i128, y: i128) -> bool
    ensures { result ≡ int_lt x y }
{
    x < y
}

fn is_at_most(x: i128, y: i128) -> bool
    ensures { result ≡ int_le x y }
{
    x <= y
}

fn is_equal(x: i128, y: i128) -> bool
    ensures { result ≡ int_eq x y }
{
    x == y
}

/// `+ - ~` in front of an operand.
pub(crate) fn unary(op: Unary, kind: Kind, folded: Folded) -> Folded
    ensures { as_folded result ≡ with_unary op kind (as_folded folded) }
{
    match folded {
        Folded::NoConstant => Folded::NoConstant,
        Folded::Undefined => Folded::Undefined,
        Folded::Known(value) => match convert(kind, value, both_widths()) {
            Ok(value) => known_unary(op, kind, value),
            Err(_) => Folded::Undefined,
        },
    }
}

fn known_unary(op: Unary, kind: Kind, value: i128) -> Folded
    requires { IsTrue (is_value_of kind both_widths value) }
    ensures { as_folded result ≡ folded_unary op kind value }
{
    match op {
        Unary::Plus => Folded::Known(value),
        Unary::Minus => minus(kind, value),
        Unary::Complement => opposite_bits(kind, value),
    }
}

fn minus(kind: Kind, value: i128) -> Folded
    requires { IsTrue (is_value_of kind both_widths value) }
    ensures { as_folded result ≡ folded_unary Unary.Minus kind value }
{
    if is_operand(kind) {
        result_of(Op::Sub, kind, 0, value)
    } else {
        Folded::NoConstant
    }
}

fn opposite_bits(kind: Kind, value: i128) -> Folded
    requires { IsTrue (is_value_of kind both_widths value) }
    ensures { as_folded result ≡ folded_unary Unary.Complement kind value }
{
    if !is_operand(kind) {
        return Folded::NoConstant;
    }
    match complement(kind, value, both_widths()) {
        Ok(value) => Folded::Known(value),
        Err(_) => Folded::Undefined,
    }
}

/// A conversion to a kind.
pub(crate) fn convert_to(kind: Kind, folded: Folded) -> Folded
    ensures { as_folded result ≡ converted_to kind (as_folded folded) }
{
    match folded {
        Folded::NoConstant => Folded::NoConstant,
        Folded::Undefined => Folded::Undefined,
        Folded::Known(value) => match convert(kind, value, both_widths()) {
            Ok(value) => Folded::Known(value),
            Err(_) => Folded::Undefined,
        },
    }
}
