//! The least and greatest values of each kind.
ghost use Rattle.std.specs.Prelude.{◌≡◌, ◌⊎◌, ℕ};
ghost use Rattle.porch_values.specs.Integers.{least_of, greatest_of, in_range, is_operand_kind, is_right_of, is_value_of};

use crate::acts::Op;
use crate::widths::Widths;
use porch_types::Kind;

/// The least value of a kind where `long` has so many bits, 32 or 64.
pub fn least(kind: Kind, width: u32) -> i128
    requires { (width ≡ 32) ⊎ (width ≡ 64) }
    ensures { result ≡ least_of kind width }
{
    match kind {
        Kind::Char => -128,
        Kind::Short => -32768,
        Kind::Int => -2147483648,
        Kind::Long => {
            if width == 32 {
                -2147483648
            } else {
                -9223372036854775808
            }
        }
        Kind::UChar | Kind::UShort | Kind::UInt | Kind::ULong => 0,
    }
}

/// The greatest value of a kind where `long` has so many bits, 32 or 64.
pub fn greatest(kind: Kind, width: u32) -> i128
    requires { (width ≡ 32) ⊎ (width ≡ 64) }
    ensures { result ≡ greatest_of kind width }
{
    match kind {
        Kind::Char => 127,
        Kind::UChar => 255,
        Kind::Short => 32767,
        Kind::UShort => 65535,
        Kind::Int => 2147483647,
        Kind::UInt => 4294967295,
        Kind::Long => {
            if width == 32 {
                2147483647
            } else {
                9223372036854775807
            }
        }
        Kind::ULong => {
            if width == 32 {
                4294967295
            } else {
                18446744073709551615
            }
        }
    }
}

// Whether a number is in the range of a kind where `long` has so many bits.
fn is_in_range(kind: Kind, width: u32, value: i128) -> bool
    requires { (width ≡ 32) ⊎ (width ≡ 64) }
    ensures { result ≡ in_range kind width value }
{
    least(kind, width) <= value && value <= greatest(kind, width)
}

/// Whether a number is a value of the kind in each width of `long`.
pub fn is_value(kind: Kind, value: i128, widths: Widths) -> bool
    ensures { result ≡ is_value_of kind widths value }
{
    (!widths.narrow || is_in_range(kind, 32, value))
        && (!widths.wide || is_in_range(kind, 64, value))
}

/// Whether operators take values of this kind: `int`, `long` and their unsigned kinds.
pub fn is_operand(kind: Kind) -> bool
    ensures { result ≡ is_operand_kind kind }
{
    match kind {
        Kind::Int | Kind::UInt | Kind::Long | Kind::ULong => true,
        Kind::Char | Kind::UChar | Kind::Short | Kind::UShort => false,
    }
}

/// Whether a number may stand right of an operator of this kind: a value of the kind in each width of
/// `long`, for a shift any value of 64 bits.
pub fn is_right(op: Op, kind: Kind, value: i128, widths: Widths) -> bool
    ensures { result ≡ is_right_of op kind widths value }
{
    match op {
        Op::Shl | Op::Shr => -9223372036854775808 <= value && value < 18446744073709551616,
        Op::Add | Op::Sub | Op::Mul | Op::Div | Op::Rem | Op::And | Op::Or | Op::Xor => is_value(
            kind, value, widths,
        ),
    }
}
