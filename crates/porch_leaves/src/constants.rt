//! Integer constants and character constants.

ghost use Rattle.std.specs.Prelude.{◌≡◌, ℕ, ◌==◌, false, pos};
ghost use Rattle.porch_check.specs.Constants.{suffixed_kind, whole_kind};
ghost use Rattle.porch_check.specs.Expressions.{character_form, whole_form};
ghost use Rattle.porch_check.specs.Operands.{integer, operand, typed_as};
ghost use Rattle.porch_types.specs.declared.shapes.Kind.TheVariants.{Int};
ghost use Rattle.porch_typed.specs.Mirror.{constant};
ghost use Rattle.porch_typed.specs.Views.{expression_of};
ghost use Rattle.porch_operands.specs.Views.{as_typed, as_value};
ghost use Rattle.porch_values.specs.Integers.{signed_bits};

use porch_lex::{base_of, behind_first, character_of, is_long, is_unsigned, whole_of};
use porch_operands::{Sort, Typed, Value};
use porch_typed::Expression;
use porch_types::Kind;

/// The greatest `int`.
const GREATEST_INT: u32 = 2_147_483_647;

/// An integer constant, by the bytes of its token.
pub fn whole(spelling: &[u8]) -> Typed
    ensures { (at : ℕ) → whole_form (record { at = at; bytes = spelling.now })
        ≡ operand (as_typed result) }
{
    constant(whole_kind(spelling), whole_of(spelling))
}

fn constant(kind: Kind, value: u32) -> Typed
    ensures { operand (as_typed result) ≡ operand (record {
      tree = constant kind (pos value);
      value = integer kind;
      is_zero = value == 0;
      is_allocation = false;
    }) }
{
    Typed {
        tree: Expression::Constant(kind, i128::from(value)),
        sort: Sort {
            value: Value::Integer(kind),
            is_zero: value == 0,
            is_allocation: false,
        },
    }
}

fn whole_kind(spelling: &[u8]) -> Kind
    ensures { result ≡ whole_kind spelling.now }
{
    suffixed_kind(
        is_unsigned(spelling),
        is_long(spelling),
        base_of(spelling),
        whole_of(spelling),
    )
}

fn suffixed_kind(unsigned: bool, long: bool, base: u8, value: u32) -> Kind
    ensures { result ≡ suffixed_kind unsigned long base value }
{
    if unsigned {
        return if long { Kind::ULong } else { Kind::UInt };
    }
    if long {
        return Kind::Long;
    }
    if base == 10 || value <= GREATEST_INT {
        Kind::Int
    } else {
        Kind::UInt
    }
}

/// A character constant, by the bytes of its token.
pub fn character(spelling: &[u8]) -> Typed
    ensures { (at : ℕ) → character_form (record { at = at; bytes = spelling.now })
        ≡ operand (as_typed result) }
{
    char_constant(character_of(behind_first(spelling)))
}

fn char_constant(byte: u8) -> Typed
    ensures { as_typed result
        ≡ typed_as (constant Int (signed_bits 8 (pos byte))) (integer Int) }
{
    let value = as_char(byte);
    value_of(constant_tree(Kind::Int, value), Value::Integer(Kind::Int))
}

pub(crate) fn constant_tree(kind: Kind, value: i128) -> Expression
    ensures { expression_of result ≡ constant kind value }
{
    Expression::Constant(kind, value)
}

/// A value that is neither the constant 0 nor an allocation.
pub(crate) fn value_of(tree: Expression, value: Value) -> Typed
    ensures { as_typed result ≡ typed_as (expression_of tree) (as_value value) }
{
    Typed {
        tree,
        sort: Sort::of(value),
    }
}

/// A byte as a `char`.
#[tactic(auto, using(crate::proofs::Chars::low_byte, crate::proofs::Chars::high_byte))]
fn as_char(byte: u8) -> i128
    ensures { result ≡ signed_bits 8 (pos byte) }
{
    if byte < 128 {
        i128::from(byte)
    } else {
        i128::from(byte) - 256
    }
}
