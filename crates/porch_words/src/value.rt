//! The values of options.

ghost use Rattle.std.specs.Prelude.{◌≡◌, ◌≤◌, ◌^◌, IfSome};
ghost use Rattle.std.specs.List.{list_all};
ghost use Rattle.porch_words.specs.Spelling.{is_digit, is_layout_byte};
ghost use Rattle.porch_words.specs.Orders.{both, narrow, wide};
ghost use Rattle.porch_words.specs.inside.Reading.{is_layout_name, number_of, value_behind, widths_of, within};

use porch_values::Widths;

/// The digits that a number may have.
pub(crate) const MOST_DIGITS: usize = 19;

/// The bytes that the name of a layout may have.
pub(crate) const MOST_NAME: usize = 32;

/// The number from a least to a greatest one that a word spells.
pub(crate) fn number_of(word: &str, least: u64, most: u64) -> Option<u64>
    requires { most ≤ 2 ^ 62 }
    ensures number { result ≡ number_of least most word.now }
    ensures within { IfSome result (λ n. n ≤ most) }
{
    let digits = word.as_bytes();
    if digits.is_empty() || digits.len() > MOST_DIGITS {
        return None;
    }
    number_within(digits, least, most)
}

fn number_within(digits: &[u8], least: u64, most: u64) -> Option<u64>
    ensures number { result ≡ within least most (value_behind 0 digits.now) }
    ensures within { IfSome result (λ n. n ≤ most) }
{
    let number = value_of(digits)?;
    if least <= number && number <= most {
        Some(number)
    } else {
        None
    }
}

/// The number that digits stand for, unless it is too large for every option.
fn value_of(digits: &[u8]) -> Option<u64>
    ensures { result ≡ value_behind 0 digits.now }
{
    let mut value = 0u64;
    for digit in digits {
        if is_digit(*digit) && value <= MOST_BEFORE_DIGIT {
            value = 10 * value + u64::from(*digit - b'0');
        } else {
            return None;
        }
    }
    Some(value)
}

/// No number that is greater may have a digit more.
const MOST_BEFORE_DIGIT: u64 = 461_168_601_842_738_790;

fn is_digit(byte: u8) -> bool
    ensures { result ≡ is_digit byte }
{
    b'0' <= byte && byte <= b'9'
}

/// Whether a word may name a layout.
pub(crate) fn is_layout_name(word: &str) -> bool
    ensures { result ≡ is_layout_name word.now }
{
    let bytes = word.as_bytes();
    1 <= bytes.len() && bytes.len() <= MOST_NAME && are_layout_bytes(bytes)
}

fn are_layout_bytes(bytes: &[u8]) -> bool
    ensures { result ≡ list_all is_layout_byte bytes.now }
{
    bytes.iter().all(|byte| is_layout_byte(*byte))
}

fn is_layout_byte(byte: u8) -> bool
    ensures { result ≡ is_layout_byte byte }
{
    (b'a' <= byte && byte <= b'z') || is_digit(byte) || byte == b'_'
}

/// The widths that a word names.
pub(crate) fn widths_of(word: &str) -> Option<Widths>
    ensures { result ≡ widths_of word.now }
{
    match word {
        "32" => Some(narrow_widths()),
        "64" => Some(wide_widths()),
        "32,64" => Some(both_widths()),
        _ => None,
    }
}

/// `long` with 32 bits.
fn narrow_widths() -> Widths
    ensures { result ≡ narrow }
{
    Widths {
        narrow: true,
        wide: false,
    }
}

/// `long` with 64 bits.
fn wide_widths() -> Widths
    ensures { result ≡ wide }
{
    Widths {
        narrow: false,
        wide: true,
    }
}

/// `long` with 32 and with 64 bits.
pub(crate) fn both_widths() -> Widths
    ensures { result ≡ both }
{
    Widths {
        narrow: true,
        wide: true,
    }
}
