//! Numbers reduced to a kind.
ghost use Rattle.std.specs.Prelude.{◌≡◌};
ghost use Rattle.porch_values.specs.Integers.{low_bits, signed_bits, as_long_of, as_int_of, as_ulong_of, converted, reduced};

use crate::acts::Act;
use crate::ranges::is_value;
use crate::widths::Widths;
use porch_types::Kind;

fn low_8(value: i128) -> i128
    ensures { result ≡ low_bits 8 value }
{
    value.rem_euclid(256)
}

fn low_16(value: i128) -> i128
    ensures { result ≡ low_bits 16 value }
{
    value.rem_euclid(65536)
}

fn low_32(value: i128) -> i128
    ensures { result ≡ low_bits 32 value }
{
    value.rem_euclid(4294967296)
}

fn low_64(value: i128) -> i128
    ensures { result ≡ low_bits 64 value }
{
    value.rem_euclid(18446744073709551616)
}

fn signed_8(value: i128) -> i128
    ensures { result ≡ signed_bits 8 value }
{
    let low = low_8(value);
    if low < 128 { low } else { low - 256 }
}

fn signed_16(value: i128) -> i128
    ensures { result ≡ signed_bits 16 value }
{
    let low = low_16(value);
    if low < 32768 { low } else { low - 65536 }
}

fn signed_32(value: i128) -> i128
    ensures { result ≡ signed_bits 32 value }
{
    let low = low_32(value);
    if low < 2147483648 {
        low
    } else {
        low - 4294967296
    }
}

// A number as a `long` of each width.
fn as_long(value: i128, widths: Widths) -> Result<i128, Act>
    ensures { result ≡ as_long_of widths value }
{
    if is_value(Kind::Long, value, widths) {
        Ok(value)
    } else {
        Err(Act::Overflow)
    }
}

/// A number as an `unsigned long` of each width.
pub(crate) fn as_ulong(value: i128, widths: Widths) -> Result<i128, Act>
    ensures { result ≡ as_ulong_of widths value }
{
    if widths.narrow && widths.wide && low_32(value) != low_64(value) {
        return Err(Act::Narrow);
    }
    if widths.narrow {
        Ok(low_32(value))
    } else {
        Ok(low_64(value))
    }
}

/// A number converted to a kind.
pub(crate) fn to_kind(kind: Kind, value: i128, widths: Widths) -> Result<i128, Act>
    ensures { result ≡ converted kind widths value }
{
    match kind {
        Kind::Char => Ok(signed_8(value)),
        Kind::UChar => Ok(low_8(value)),
        Kind::Short => Ok(signed_16(value)),
        Kind::UShort => Ok(low_16(value)),
        Kind::Int => Ok(signed_32(value)),
        Kind::UInt => Ok(low_32(value)),
        Kind::Long => as_long(value, widths),
        Kind::ULong => as_ulong(value, widths),
    }
}

// A number as an `int`.
fn as_int(value: i128) -> Result<i128, Act>
    ensures { result ≡ as_int_of value }
{
    if -2147483648 <= value && value <= 2147483647 {
        Ok(value)
    } else {
        Err(Act::Overflow)
    }
}

/// A number as the result of an operator of a kind.
pub(crate) fn settled(kind: Kind, value: i128, widths: Widths) -> Result<i128, Act>
    ensures { result ≡ reduced kind widths value }
{
    match kind {
        Kind::Int => as_int(value),
        Kind::Char => to_kind(Kind::Char, value, widths),
        Kind::UChar => to_kind(Kind::UChar, value, widths),
        Kind::Short => to_kind(Kind::Short, value, widths),
        Kind::UShort => to_kind(Kind::UShort, value, widths),
        Kind::UInt => Ok(low_32(value)),
        Kind::Long => as_long(value, widths),
        Kind::ULong => as_ulong(value, widths),
    }
}
