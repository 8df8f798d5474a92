//! Integer constants.

ghost use Rattle.std.specs.Prelude.{◌≡◌, ◌∷◌, ◌≤◌, ◌<◌, ◌^◌, ◌==◌, nat_lt, IsTrue, length};
ghost use Rattle.std.specs.List.{list_any};
ghost use Rattle.porch_lex.specs.Constants.{is_x, is_u, is_l, constant_base, constant_body, is_suffix, number_in, greatest_value};
ghost use Rattle.porch_lex.specs.Lexemes.{constant_lexeme};

use crate::character::{begins, digit_length, digit_value, front_of, rest_from};
use crate::lexeme::Lexeme;
use crate::refusal::Rule;
use crate::token::TokenKind;

/// The greatest `int`, and the greatest `long` where it has 32 bits.
const GREATEST_INT: u32 = 2_147_483_647;

/// The greatest `unsigned int`, and the greatest `unsigned long` where it has 32 bits.
pub const GREATEST_UNSIGNED: u32 = 4_294_967_295;

/// What a word is that begins with a digit, and what follows it.
pub fn constant_lexeme(constant: &[u8], rest: &[u8]) -> Lexeme
    ensures { result ≡ constant_lexeme constant.now rest.now }
{
    let base = base_of(constant);
    let body = body_of(constant, base);
    let count = digit_length(base, body);
    let digits = front_of(body, count);
    let tail = rest_from(body, count);
    if begins(rest, b'.') || !(0 < count && is_suffix(tail)) {
        Lexeme::Fault(Rule::Word)
    } else if exceeds(base, digits, greatest_value(base, tail)) {
        Lexeme::Fault(Rule::WideConstant)
    } else {
        Lexeme::Token(TokenKind::Whole, constant.len())
    }
}

/// Whether digits stand for a number above a limit.
pub fn exceeds(base: u8, digits: &[u8], limit: u32) -> bool
    requires low { 1 ≤ base }
    requires high { base ≤ 16 }
    ensures { result ≡ nat_lt limit (number_in base digits.now) }
{
    let mut number: u64 = 0;
    for c in digits {
        number = base as u64 * number + digit_value(*c) as u64;
        if number > limit as u64 {
            return true;
        }
    }
    false
}

fn is_x(c: u8) -> bool
    ensures { result ≡ is_x c }
{
    c == b'x' || c == b'X'
}

fn is_u(c: u8) -> bool
    ensures { result ≡ is_u c }
{
    c == b'u' || c == b'U'
}

fn is_l(c: u8) -> bool
    ensures { result ≡ is_l c }
{
    c == b'l' || c == b'L'
}

pub fn base_of(constant: &[u8]) -> u8
    ensures { result ≡ constant_base constant.now }
{
    match constant {
        [] => 10,
        [only] => { if *only == b'0' { 8 } else { 10 } }
        [first, second, ..] => {
            if *first == b'0' {
                if is_x(*second) { 16 } else { 8 }
            } else {
                10
            }
        }
    }
}

#[tactic(auto, using(crate::proofs::Numbers::has_two))]
pub fn body_of(constant: &[u8], base: u8) -> &[u8]
    requires { base ≡ constant_base constant.now }
    ensures { result.now ≡ constant_body constant.now }
{
    if base == 16 {
        rest_from(constant, 2)
    } else {
        constant
    }
}

fn is_suffix(text: &[u8]) -> bool
    ensures { result ≡ is_suffix text.now }
{
    match text {
        [] => true,
        [only] => is_u(*only) || is_l(*only),
        [first, second] => (is_u(*first) && is_l(*second)) || (is_l(*first) && is_u(*second)),
        [_, _, _, ..] => false,
    }
}

pub fn has_u(suffix: &[u8]) -> bool
    ensures { result ≡ list_any is_u suffix.now }
{
    suffix.iter().any(|c| is_u(*c))
}

pub fn has_l(suffix: &[u8]) -> bool
    ensures { result ≡ list_any is_l suffix.now }
{
    suffix.iter().any(|c| is_l(*c))
}

fn greatest_value(base: u8, suffix: &[u8]) -> u32
    ensures { result ≡ greatest_value base suffix.now }
{
    if has_u(suffix) {
        GREATEST_UNSIGNED
    } else if has_l(suffix) {
        GREATEST_INT
    } else if base == 10 {
        GREATEST_INT
    } else {
        GREATEST_UNSIGNED
    }
}
