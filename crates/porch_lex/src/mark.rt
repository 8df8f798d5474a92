//! Operators and punctuation.

ghost use Rattle.std.specs.Prelude.{◌≡◌, ◌∷◌, length};
ghost use Rattle.porch_tree.specs.Words.{mark_bytes};
ghost use Rattle.porch_lex.specs.Lexemes.{mark_in_front};
ghost use Rattle.porch_lex.specs.inside.Marks.{mark_by_byte, mark_minus, mark_plus, mark_ampersand, mark_star, mark_exclamation, mark_slash, mark_percent, mark_less, mark_greater, mark_equal, mark_caret, mark_bar};

use crate::character::{begins, begins_two};
use porch_tree::Mark;

/// The longest mark in front of a text, by the text's first byte and what follows.
#[tactic(auto, using(crate::proofs::Marks::by_byte))]
pub fn mark_of(first: u8, rest: &[u8]) -> Option<Mark>
    ensures { result ≡ mark_in_front (first ∷ rest.now) }
{
    mark_by_byte(first, rest)
}

/// How many bytes spell a mark.
pub fn mark_length(mark: Mark) -> usize
    ensures { result ≡ length (mark_bytes mark) }
{
    match mark {
        Mark::ShiftLeftEqual | Mark::ShiftRightEqual => 3,
        Mark::Arrow
        | Mark::PlusPlus
        | Mark::MinusMinus
        | Mark::ShiftLeft
        | Mark::ShiftRight
        | Mark::LessEqual
        | Mark::GreaterEqual
        | Mark::EqualEqual
        | Mark::NotEqual
        | Mark::AndAnd
        | Mark::OrOr
        | Mark::StarEqual
        | Mark::SlashEqual
        | Mark::PercentEqual
        | Mark::PlusEqual
        | Mark::MinusEqual
        | Mark::AndEqual
        | Mark::CaretEqual
        | Mark::OrEqual => 2,
        Mark::OpenBracket
        | Mark::CloseBracket
        | Mark::OpenParenthesis
        | Mark::CloseParenthesis
        | Mark::OpenBrace
        | Mark::CloseBrace
        | Mark::Dot
        | Mark::And
        | Mark::Star
        | Mark::Plus
        | Mark::Minus
        | Mark::Tilde
        | Mark::Not
        | Mark::Slash
        | Mark::Percent
        | Mark::Less
        | Mark::Greater
        | Mark::Caret
        | Mark::Or
        | Mark::Question
        | Mark::Colon
        | Mark::Semicolon
        | Mark::Equal
        | Mark::Comma => 1,
    }
}

fn mark_by_byte(first: u8, rest: &[u8]) -> Option<Mark>
    ensures { result ≡ mark_by_byte first rest.now }
{
    match first {
        b'[' => Some(Mark::OpenBracket),
        b']' => Some(Mark::CloseBracket),
        b'(' => Some(Mark::OpenParenthesis),
        b')' => Some(Mark::CloseParenthesis),
        b'{' => Some(Mark::OpenBrace),
        b'}' => Some(Mark::CloseBrace),
        b'.' => Some(Mark::Dot),
        b'-' => mark_minus(rest),
        b'+' => mark_plus(rest),
        b'&' => mark_ampersand(rest),
        b'*' => mark_star(rest),
        b'~' => Some(Mark::Tilde),
        b'!' => mark_exclamation(rest),
        b'/' => mark_slash(rest),
        b'%' => mark_percent(rest),
        b'<' => mark_less(rest),
        b'>' => mark_greater(rest),
        b'=' => mark_equal(rest),
        b'^' => mark_caret(rest),
        b'|' => mark_bar(rest),
        b'?' => Some(Mark::Question),
        b':' => Some(Mark::Colon),
        b';' => Some(Mark::Semicolon),
        b',' => Some(Mark::Comma),
        _ => None,
    }
}

fn mark_minus(rest: &[u8]) -> Option<Mark>
    ensures { result ≡ mark_minus rest.now }
{
    if begins(rest, b'>') {
        Some(Mark::Arrow)
    } else if begins(rest, b'-') {
        Some(Mark::MinusMinus)
    } else if begins(rest, b'=') {
        Some(Mark::MinusEqual)
    } else {
        Some(Mark::Minus)
    }
}

fn mark_plus(rest: &[u8]) -> Option<Mark>
    ensures { result ≡ mark_plus rest.now }
{
    if begins(rest, b'+') {
        Some(Mark::PlusPlus)
    } else if begins(rest, b'=') {
        Some(Mark::PlusEqual)
    } else {
        Some(Mark::Plus)
    }
}

fn mark_ampersand(rest: &[u8]) -> Option<Mark>
    ensures { result ≡ mark_ampersand rest.now }
{
    if begins(rest, b'&') {
        Some(Mark::AndAnd)
    } else if begins(rest, b'=') {
        Some(Mark::AndEqual)
    } else {
        Some(Mark::And)
    }
}

fn mark_star(rest: &[u8]) -> Option<Mark>
    ensures { result ≡ mark_star rest.now }
{
    if begins(rest, b'=') {
        Some(Mark::StarEqual)
    } else {
        Some(Mark::Star)
    }
}

fn mark_exclamation(rest: &[u8]) -> Option<Mark>
    ensures { result ≡ mark_exclamation rest.now }
{
    if begins(rest, b'=') {
        Some(Mark::NotEqual)
    } else {
        Some(Mark::Not)
    }
}

fn mark_slash(rest: &[u8]) -> Option<Mark>
    ensures { result ≡ mark_slash rest.now }
{
    if begins(rest, b'=') {
        Some(Mark::SlashEqual)
    } else {
        Some(Mark::Slash)
    }
}

fn mark_percent(rest: &[u8]) -> Option<Mark>
    ensures { result ≡ mark_percent rest.now }
{
    if begins(rest, b'=') {
        Some(Mark::PercentEqual)
    } else {
        Some(Mark::Percent)
    }
}

fn mark_less(rest: &[u8]) -> Option<Mark>
    ensures { result ≡ mark_less rest.now }
{
    if begins_two(rest, b'<', b'=') {
        Some(Mark::ShiftLeftEqual)
    } else if begins(rest, b'<') {
        Some(Mark::ShiftLeft)
    } else if begins(rest, b'=') {
        Some(Mark::LessEqual)
    } else {
        Some(Mark::Less)
    }
}

fn mark_greater(rest: &[u8]) -> Option<Mark>
    ensures { result ≡ mark_greater rest.now }
{
    if begins_two(rest, b'>', b'=') {
        Some(Mark::ShiftRightEqual)
    } else if begins(rest, b'>') {
        Some(Mark::ShiftRight)
    } else if begins(rest, b'=') {
        Some(Mark::GreaterEqual)
    } else {
        Some(Mark::Greater)
    }
}

fn mark_equal(rest: &[u8]) -> Option<Mark>
    ensures { result ≡ mark_equal rest.now }
{
    if begins(rest, b'=') {
        Some(Mark::EqualEqual)
    } else {
        Some(Mark::Equal)
    }
}

fn mark_caret(rest: &[u8]) -> Option<Mark>
    ensures { result ≡ mark_caret rest.now }
{
    if begins(rest, b'=') {
        Some(Mark::CaretEqual)
    } else {
        Some(Mark::Caret)
    }
}

fn mark_bar(rest: &[u8]) -> Option<Mark>
    ensures { result ≡ mark_bar rest.now }
{
    if begins(rest, b'|') {
        Some(Mark::OrOr)
    } else if begins(rest, b'=') {
        Some(Mark::OrEqual)
    } else {
        Some(Mark::Or)
    }
}
