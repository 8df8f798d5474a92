//! The types that operands are converted to, and the constants that may be operands.

ghost use Rattle.std.specs.Prelude.{◌≡◌};
ghost use Rattle.porch_lowering.specs.Operators.{is_converted, is_signed, is_small, left_accepts, left_type, may_fail, promoted, right_accepts, right_type};
ghost use Rattle.porch_facts.specs.Accepts.{accepts_of};

use porch_facts::Accepts;
use porch_flat::flat::Operand;
use porch_typed::Operator;
use porch_types::Kind;

/// Whether a type is char, short or one of their unsigned kinds.
pub fn is_small(ty: u32) -> bool
    ensures { result ≡ is_small ty }
{
    ty < Kind::Int.number()
}

/// The type that operators take a value of a type in: a small kind becomes int.
pub fn promoted(ty: u32) -> u32
    ensures { result ≡ promoted ty }
{
    if is_small(ty) { Kind::Int.number() } else { ty }
}

/// The type that the left operand is converted to, where it has this one.
pub fn left_type(operator: Operator, ty: u32) -> u32
    ensures { result ≡ left_type operator ty }
{
    match operator {
        Operator::Arithmetic(_, kind) => kind.number(),
        Operator::Shift(_, kind) => kind.number(),
        Operator::Compare(_, kind) => kind.number(),
        Operator::ForwardOf(_) => promoted(ty),
        Operator::ComparePointers(_, _) => ty,
        Operator::Forward(_) => ty,
        Operator::Back(_) => ty,
        Operator::Difference(_) => ty,
    }
}

/// The type that the right operand is converted to, where it has this one.
pub fn right_type(operator: Operator, ty: u32) -> u32
    ensures { result ≡ right_type operator ty }
{
    match operator {
        Operator::Arithmetic(_, kind) => kind.number(),
        Operator::Shift(_, _) => promoted(ty),
        Operator::Compare(_, kind) => kind.number(),
        Operator::Forward(_) => promoted(ty),
        Operator::Back(_) => promoted(ty),
        Operator::ComparePointers(_, _) => ty,
        Operator::ForwardOf(_) => ty,
        Operator::Difference(_) => ty,
    }
}

/// Which constants the left operand may be. That of a comparison, and a pointer that is stepped from, are
/// variables.
pub fn left_accepts(operator: Operator) -> Accepts
    ensures { accepts_of result ≡ left_accepts operator }
{
    match operator {
        Operator::Arithmetic(_, kind) => Accepts::In(kind),
        Operator::Shift(_, kind) => Accepts::In(kind),
        Operator::ForwardOf(_) => Accepts::In(Kind::Long),
        Operator::Compare(_, _) => Accepts::Nothing,
        Operator::ComparePointers(_, _) => Accepts::Nothing,
        Operator::Forward(_) => Accepts::Nothing,
        Operator::Back(_) => Accepts::Nothing,
        Operator::Difference(_) => Accepts::Nothing,
    }
}

/// Which constants the right operand may be.
pub fn right_accepts(operator: Operator) -> Accepts
    ensures { accepts_of result ≡ right_accepts operator }
{
    match operator {
        Operator::Arithmetic(_, kind) => Accepts::In(kind),
        Operator::Shift(_, _) => Accepts::In(Kind::Int),
        Operator::Compare(_, kind) => Accepts::In(kind),
        Operator::ComparePointers(_, _) => Accepts::In(Kind::Int),
        Operator::Forward(_) => Accepts::In(Kind::Long),
        Operator::Back(_) => Accepts::In(Kind::Long),
        Operator::ForwardOf(_) => Accepts::Nothing,
        Operator::Difference(_) => Accepts::Nothing,
    }
}

/// Whether an operand has to be converted. A constant stands for a value of each type that takes it.
pub fn is_converted(operand: Operand, from: u32, to: u32) -> bool
    ensures { result ≡ is_converted operand from to }
{
    match operand {
        Operand::Constant(_) => false,
        Operand::Var(_) => from != to,
    }
}

fn is_signed(ty: u32) -> bool
    ensures { result ≡ is_signed ty }
{
    ty == Kind::Char.number()
        || ty == Kind::Short.number()
        || ty == Kind::Int.number()
        || ty == Kind::Long.number()
}

/// Whether a conversion may meet undefined behaviour: to long where the greatest value has no place in 32 bits,
/// and to unsigned long where a value is negative.
pub fn may_fail(from: u32, to: u32) -> bool
    ensures { result ≡ may_fail from to }
{
    to == Kind::Long.number() && (from == Kind::UInt.number() || from == Kind::ULong.number())
        || to == Kind::ULong.number() && is_signed(from)
}
