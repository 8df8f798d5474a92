//! The kinds that conversions of `printf` take and show.

ghost use Rattle.std.specs.Prelude.{◌≡◌};
ghost use Rattle.porch_typed.specs.Typed.{shown_kind};
ghost use Rattle.porch_check.specs.Calls.{takes};

use porch_typed::Conversion;
use porch_types::Kind;

/// Whether a conversion takes an argument of this promoted kind.
pub fn takes(how: Conversion, kind: Kind) -> bool
    ensures { result ≡ takes how kind }
{
    match how {
        Conversion::Character => matches!(kind, Kind::Int),
        Conversion::Decimal => matches!(kind, Kind::Int),
        Conversion::Unsigned => matches!(kind, Kind::Int | Kind::UInt),
        Conversion::Hexadecimal => matches!(kind, Kind::Int | Kind::UInt),
        Conversion::Long => matches!(kind, Kind::Long),
        Conversion::UnsignedLong => matches!(kind, Kind::ULong),
    }
}

/// The kind of the value that a conversion shows.
pub fn shown_kind(how: Conversion) -> Kind
    ensures { result ≡ shown_kind how }
{
    match how {
        Conversion::Character => Kind::Int,
        Conversion::Decimal => Kind::Int,
        Conversion::Unsigned => Kind::UInt,
        Conversion::Hexadecimal => Kind::UInt,
        Conversion::Long => Kind::Long,
        Conversion::UnsignedLong => Kind::ULong,
    }
}
