//! What the bytes of a format complete.

ghost use Rattle.std.specs.Prelude.{◌≡◌};
ghost use Rattle.porch_check.specs.Calls.{completed_in, is_in_text, mode_behind};
ghost use Rattle.porch_literals.specs.Directives.{as_completed, as_mode};

use porch_typed::Conversion;

/// Where a byte of a format stands: in its text, behind `%`, or behind `%l`.
#[derive(Clone, Copy)]
pub enum Mode {
    Text,
    Percent,
    Long,
}

/// How an argument is shown.
#[derive(Clone, Copy)]
pub enum Shown {
    Number(Conversion),
    Text,
}

/// What a byte of a format completes.
#[derive(Clone, Copy)]
pub enum Completed {
    /// A byte that is shown.
    Byte(u8),
    /// A conversion, which takes an argument.
    Taken(Shown),
    /// One more byte is needed.
    NotYet(Mode),
    /// There is no such conversion.
    NoneSuch,
}

/// What a byte completes.
pub fn complete(mode: Mode, byte: u8) -> Completed
    ensures { as_completed result ≡ completed_in (as_mode mode) byte }
{
    match mode {
        Mode::Text => {
            if byte == b'%' {
                Completed::NotYet(Mode::Percent)
            } else {
                Completed::Byte(byte)
            }
        }
        Mode::Percent => complete_conversion(byte),
        Mode::Long => {
            if byte == b'd' {
                Completed::Taken(Shown::Number(Conversion::Long))
            } else if byte == b'u' {
                Completed::Taken(Shown::Number(Conversion::UnsignedLong))
            } else {
                Completed::NoneSuch
            }
        }
    }
}

fn complete_conversion(byte: u8) -> Completed
    ensures { as_completed result ≡ completed_in (as_mode Mode.Percent) byte }
{
    if byte == b'%' {
        Completed::Byte(b'%')
    } else if byte == b'c' {
        Completed::Taken(Shown::Number(Conversion::Character))
    } else if byte == b'd' {
        Completed::Taken(Shown::Number(Conversion::Decimal))
    } else if byte == b'u' {
        Completed::Taken(Shown::Number(Conversion::Unsigned))
    } else if byte == b'x' {
        Completed::Taken(Shown::Number(Conversion::Hexadecimal))
    } else if byte == b's' {
        Completed::Taken(Shown::Text)
    } else if byte == b'l' {
        Completed::NotYet(Mode::Long)
    } else {
        Completed::NoneSuch
    }
}

/// Where the next byte stands.
pub fn mode_behind(completed: Completed) -> Mode
    ensures { as_mode result ≡ mode_behind (as_completed completed) }
{
    match completed {
        Completed::NotYet(mode) => mode,
        Completed::Byte(_) => Mode::Text,
        Completed::Taken(_) => Mode::Text,
        Completed::NoneSuch => Mode::Text,
    }
}

/// Whether a format may end there.
pub fn is_in_text(mode: Mode) -> bool
    ensures { result ≡ is_in_text (as_mode mode) }
{
    match mode {
        Mode::Text => true,
        Mode::Percent => false,
        Mode::Long => false,
    }
}
