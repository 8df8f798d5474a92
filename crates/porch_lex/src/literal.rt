//! Character constants and string literals.

ghost use Rattle.std.specs.Prelude.{◌≡◌, ◌≤◌, ◌<◌, ◌∷◌, nat_lt, ◌+◌, ◌==◌, ◌&&◌, not, [], take, length, Some};
ghost use Rattle.std.specs.List.{list_any};
ghost use Rattle.porch_lex.specs.Literals.{simple_escapes, if_byte, octal_length, octal_escape, hexadecimal_escape, escape_length, counted_more, character_length, constant_end, character_constant_length, string_length};
ghost use Rattle.porch_lex.specs.Constants.{number_in};
ghost use Rattle.porch_lex.specs.Lexemes.{literal_lexeme};
ghost use Rattle.porch_lex.specs.declared.token.TokenKind.TheVariants.{Character, Text};

use crate::character::{begins, digit_length, front_of, is_digit_of, is_printed, rest_from};
use crate::constant::exceeds;
use crate::lexeme::Lexeme;
use crate::refusal::Rule;
use crate::token::TokenKind;

/// What a character constant is, after its first quote.
pub fn character_lexeme(text: &[u8]) -> Lexeme
    ensures { result ≡ literal_lexeme Character (character_constant_length text.now) }
{
    match character_constant_length(text) {
        None => Lexeme::Fault(Rule::Word),
        Some(length) => Lexeme::Token(TokenKind::Character, length + 1),
    }
}

/// What a string literal is, after its first quote.
pub fn string_lexeme(text: &[u8]) -> Lexeme
    ensures { result ≡ literal_lexeme Text (string_length text.now) }
{
    match string_length(text) {
        None => Lexeme::Fault(Rule::Word),
        Some(length) => Lexeme::Token(TokenKind::Text, length + 1),
    }
}

/// Whether one of these bytes stands for another after a backslash.
fn is_simple_escape(c: u8) -> bool
    ensures { result ≡ list_any (λ e. e == c) simple_escapes }
{
    matches!(
        c,
        b'n' | b't' | b'r' | b'a' | b'b' | b'f' | b'v' | b'\\' | b'\'' | b'"' | b'?'
    )
}

/// So many bytes, if the digits stand for a byte.
fn length_if_byte(base: u8, digits: &[u8], length: usize) -> Option<usize>
    requires low { 1 ≤ base }
    requires high { base ≤ 16 }
    ensures { result ≡ if_byte (number_in base digits.now) length }
{
    if exceeds(base, digits, 255) {
        None
    } else {
        Some(length)
    }
}

pub fn octal_length(text: &[u8]) -> usize
    ensures value { result ≡ octal_length text.now }
    ensures within { result ≤ length text.now }
{
    digit_length(8, text).min(3)
}

fn octal_escape(text: &[u8]) -> Option<usize>
    ensures { result ≡ octal_escape text.now }
{
    let count = octal_length(text);
    length_if_byte(8, front_of(text, count), count)
}

fn hexadecimal_escape(text: &[u8]) -> Option<usize>
    ensures { result ≡ hexadecimal_escape text.now }
{
    let count = digit_length(16, text);
    if 0 < count {
        length_if_byte(16, front_of(text, count), count + 1)
    } else {
        None
    }
}

fn escape_length(text: &[u8]) -> Option<usize>
    ensures { result ≡ escape_length text.now }
{
    match text {
        [] => None,
        [first, rest @ ..] => {
            if is_simple_escape(*first) {
                Some(1)
            } else if is_digit_of(8, *first) {
                octal_escape(text)
            } else if *first == b'x' {
                hexadecimal_escape(rest)
            } else {
                None
            }
        }
    }
}

fn after_backslash(text: &[u8]) -> Option<usize>
    ensures { result ≡ counted_more 1 (escape_length text.now) }
{
    match escape_length(text) {
        None => None,
        Some(length) => Some(length + 1),
    }
}

pub fn character_length(quote: u8, text: &[u8]) -> Option<usize>
    ensures { result ≡ character_length quote text.now }
{
    match text {
        [] => None,
        [first, rest @ ..] => {
            if *first == b'\\' {
                after_backslash(rest)
            } else if is_printed(*first) && *first != quote {
                Some(1)
            } else {
                None
            }
        }
    }
}

fn character_constant_length(text: &[u8]) -> Option<usize>
    ensures { result ≡ character_constant_length text.now }
{
    match character_length(b'\'', text) {
        None => None,
        Some(length) => constant_end(text, length),
    }
}

/// One byte more, if it is the quote that ends a character constant.
fn constant_end(text: &[u8], count: usize) -> Option<usize>
    requires { count ≤ length text.now }
    ensures { result ≡ constant_end (Some count) text.now }
{
    if begins(rest_from(text, count), b'\'') {
        Some(count + 1)
    } else {
        None
    }
}

fn string_length(text: &[u8]) -> Option<usize>
    ensures { result ≡ string_length text.now }
{
    let mut at = 0;
    while at < text.len() {
        if text[at] == b'"' {
            return Some(at + 1);
        }
        match character_length(b'"', rest_from(text, at)) {
            None => return None,
            Some(count) => at += count,
        }
    }
    None
}
