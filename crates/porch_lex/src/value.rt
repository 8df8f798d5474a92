//! The values of constants and of the characters in literals.

ghost use Rattle.std.specs.Prelude.{◌≡◌, ◌-◌, ◌≤◌, drop, length, min};
ghost use Rattle.std.specs.List.{list_any};
ghost use Rattle.std.specs.Option.{option_map_or};
ghost use Rattle.porch_lex.specs.Constants.{constant_suffix, is_l, is_u, number_in};
ghost use Rattle.porch_lex.specs.Literals.{character_length};
ghost use Rattle.porch_lex.specs.Values.{whole_of, simple_value, byte_in, escape_of, character_of};

use crate::character::{digit_length, digit_value, front_of, is_digit_of, rest_from};
use crate::constant::{GREATEST_UNSIGNED, base_of, body_of, has_l, has_u};
use crate::literal::{character_length, octal_length};

/// The value of an integer constant, by the bytes of its token.
pub fn whole_of(spelling: &[u8]) -> u32
    ensures { result ≡ whole_of spelling.now }
{
    let base = base_of(spelling);
    let body = body_of(spelling, base);
    let digits = front_of(body, digit_length(base, body));
    number_up_to(base, digits, GREATEST_UNSIGNED)
}

/// Whether an integer constant has the suffix `u`, by the bytes of its token.
pub fn is_unsigned(spelling: &[u8]) -> bool
    ensures { result ≡ list_any is_u (constant_suffix spelling.now) }
{
    has_u(suffix_of(spelling))
}

/// Whether an integer constant has the suffix `l`, by the bytes of its token.
pub fn is_long(spelling: &[u8]) -> bool
    ensures { result ≡ list_any is_l (constant_suffix spelling.now) }
{
    has_l(suffix_of(spelling))
}

fn suffix_of(spelling: &[u8]) -> &[u8]
    ensures { result.now ≡ constant_suffix spelling.now }
{
    let base = base_of(spelling);
    let body = body_of(spelling, base);
    rest_from(body, digit_length(base, body))
}

/// What stands behind the first byte of a text.
pub fn behind_first(text: &[u8]) -> &[u8]
    ensures { result.now ≡ drop 1 text.now }
{
    match text {
        [] => text,
        [_, rest @ ..] => rest,
    }
}

/// What stands behind the first character of a text, inside a string literal. Where the text begins with
/// no character, one byte is left out.
pub fn behind_character(text: &[u8]) -> &[u8]
    ensures { result.now
        ≡ drop (option_map_or (λ n. n - 1) (character_length 34 text.now) 0) (drop 1 text.now) }
{
    let rest = behind_first(text);
    match character_length(b'"', text) {
        Some(count) => rest_from(rest, count.saturating_sub(1)),
        None => rest,
    }
}

/// The byte that the character in front of a text stands for, inside a literal. Where it is an escape,
/// this is its value.
pub fn character_of(text: &[u8]) -> u8
    ensures { result ≡ character_of text.now }
{
    match text {
        [] => 0,
        [first, rest @ ..] => {
            if *first == b'\\' {
                escape_of(rest)
            } else {
                *first
            }
        }
    }
}

fn escape_of(text: &[u8]) -> u8
    ensures { result ≡ escape_of text.now }
{
    match text {
        [] => 0,
        [first, rest @ ..] => {
            if is_digit_of(8, *first) {
                byte_in(8, front_of(text, octal_length(text)))
            } else if *first == b'x' {
                byte_in(16, front_of(rest, digit_length(16, rest)))
            } else {
                simple_value(*first)
            }
        }
    }
}

fn simple_value(c: u8) -> u8
    ensures { result ≡ simple_value c }
{
    match c {
        b'n' => b'\n',
        b't' => b'\t',
        b'r' => b'\r',
        b'a' => 7,
        b'b' => 8,
        b'f' => 12,
        b'v' => 11,
        _ => c,
    }
}

fn byte_in(base: u8, digits: &[u8]) -> u8
    requires low { 1 ≤ base }
    requires high { base ≤ 16 }
    ensures { result ≡ byte_in base digits.now }
{
    number_up_to(base, digits, 255) as u8
}

/// The number that digits stand for, or the limit where it is greater.
fn number_up_to(base: u8, digits: &[u8], limit: u32) -> u32
    requires low { 1 ≤ base }
    requires high { base ≤ 16 }
    ensures { result ≡ min (number_in base digits.now) limit }
{
    let mut number: u64 = 0;
    for c in digits {
        number = base as u64 * number + digit_value(*c) as u64;
        if number > limit as u64 {
            return limit;
        }
    }
    number as u32
}
