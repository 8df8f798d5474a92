//! Numbers and operands out of their text. What is no numeral gives some number: a line is read by what
//! is written again, so no one asks which.

ghost use Rattle.std.specs.Prelude.{◌≡◌, ◌*◌, ◌<◌, ◌^◌, min, pos, neg_ℤ};
ghost use Rattle.porch_flat_text.specs.inside.Numbers.{number_after, number_in, magnitude_in, constant_in, variable_in, operand_in, operand_if_any, target_in, result_type_in};

use porch_flat::Operand;

const LARGEST: u128 = 170_141_183_460_469_231_731_687_303_715_884_105_727;

/// The number that digits stand for, or the largest one.
pub(crate) fn number_in(digits: &[u8]) -> u32
    ensures { result ≡ number_in digits.now }
{
    let mut number = 0u32;
    for digit in digits {
        number = number
            .saturating_mul(10)
            .saturating_add(u32::from(digit.saturating_sub(48)));
    }
    number
}

/// The number that digits stand for, or the largest one.
fn magnitude_in(digits: &[u8]) -> u128
    ensures { result ≡ magnitude_in digits.now }
{
    let mut number = 0u128;
    for digit in digits {
        number = number
            .saturating_mul(10)
            .saturating_add(u128::from(digit.saturating_sub(48)));
    }
    number
}

fn positive(magnitude: u128) -> i128
    ensures { result ≡ pos (min magnitude 170141183460469231731687303715884105727) }
{
    if magnitude < LARGEST {
        magnitude as i128
    } else {
        i128::MAX
    }
}

fn negative(magnitude: u128) -> i128
    ensures { result ≡ neg_ℤ (pos (min magnitude 170141183460469231731687303715884105728)) }
{
    if magnitude <= LARGEST {
        -(magnitude as i128)
    } else {
        i128::MIN
    }
}

/// The number with its sign.
pub(crate) fn constant_in(text: &[u8]) -> i128
    ensures { result ≡ constant_in text.now }
{
    match text {
        [] => 0,
        [first, rest @ ..] => {
            if *first == b'-' {
                negative(magnitude_in(rest))
            } else {
                positive(magnitude_in(text))
            }
        }
    }
}

/// The number of a variable.
pub(crate) fn variable_in(text: &[u8]) -> u32
    ensures { result ≡ variable_in text.now }
{
    match text {
        [] => 0,
        [_, rest @ ..] => number_in(rest),
    }
}

/// A variable, or a constant.
pub(crate) fn operand_in(text: &[u8]) -> Operand
    ensures { result ≡ operand_in text.now }
{
    match text {
        [] => Operand::Constant(0),
        [first, rest @ ..] => {
            if *first == b'v' {
                Operand::Var(number_in(rest))
            } else {
                Operand::Constant(constant_in(text))
            }
        }
    }
}

/// The operand, where there is one.
pub(crate) fn operand_if_any(text: &[u8]) -> Option<Operand>
    ensures { result ≡ operand_if_any text.now }
{
    match text {
        [] => None,
        [_, ..] => Some(operand_in(text)),
    }
}

/// The variable for a result, where there is one.
pub(crate) fn target_in(text: &[u8]) -> Option<u32>
    ensures { result ≡ target_in text.now }
{
    match text {
        [] => None,
        [first, rest @ ..] => {
            if *first == b'_' {
                None
            } else {
                Some(number_in(rest))
            }
        }
    }
}

/// The type of a result, where there is one.
pub(crate) fn result_type_in(text: &[u8]) -> Option<u32>
    ensures { result ≡ result_type_in text.now }
{
    match text {
        [] => None,
        [first, ..] => {
            if *first == b'v' {
                None
            } else {
                Some(number_in(text))
            }
        }
    }
}
