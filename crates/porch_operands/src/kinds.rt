//! Promoted kinds, and the kinds in which two integers meet.

ghost use Rattle.std.specs.Prelude.{◌≡◌};
ghost use Rattle.porch_check.specs.Operands.{common_promoted, promoted};

use porch_types::Kind;

/// The kind that an integer of a kind has as an operand.
pub fn promoted(kind: Kind) -> Kind
    ensures { result ≡ promoted kind }
{
    match kind {
        Kind::UInt => Kind::UInt,
        Kind::Long => Kind::Long,
        Kind::ULong => Kind::ULong,
        Kind::Char | Kind::UChar | Kind::Short | Kind::UShort | Kind::Int => Kind::Int,
    }
}

/// The common kind of two integers, or none where `unsigned int` is joined with `long`.
pub fn common(a: Kind, b: Kind) -> Option<Kind>
    ensures { result ≡ common_promoted (promoted a) (promoted b) }
{
    common_of(promoted(a), promoted(b))
}

fn common_of(a: Kind, b: Kind) -> Option<Kind>
    ensures { result ≡ common_promoted a b }
{
    match (a, b) {
        (Kind::ULong, _) => Some(Kind::ULong),
        (_, Kind::ULong) => Some(Kind::ULong),
        (Kind::Long, Kind::UInt) => None,
        (Kind::UInt, Kind::Long) => None,
        (Kind::Long, _) => Some(Kind::Long),
        (_, Kind::Long) => Some(Kind::Long),
        (Kind::UInt, _) => Some(Kind::UInt),
        (_, Kind::UInt) => Some(Kind::UInt),
        _ => Some(Kind::Int),
    }
}
