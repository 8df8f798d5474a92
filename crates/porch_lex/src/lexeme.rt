//! What stands at the front of a text.

ghost use Rattle.std.specs.Prelude.{◌≡◌, ◌∷◌, take, drop};
ghost use Rattle.std.specs.List.{prefix_len};
ghost use Rattle.porch_lex.specs.Characters.{is_word};
ghost use Rattle.porch_lex.specs.Lexemes.{keyword_of, word_kind, word_lexeme, constant_lexeme, mark_in_front, mark_lexeme, lexeme_from, lexeme_at};

use crate::character::{begins, front_of, is_digit, is_letter, is_space, rest_from, word_length};
use crate::constant::constant_lexeme;
use crate::gap::{comment_lexeme, directive_lexeme};
use crate::keyword::keyword_of;
use crate::literal::{character_lexeme, string_lexeme};
use crate::mark::{mark_length, mark_of};
use crate::refusal::Rule;
use crate::token::TokenKind;

/// What stands at the front of a text, with the number of its bytes.
#[derive(Clone, Copy, Debug, PartialEq, Eq)]
pub enum Lexeme {
    /// The text is at its end.
    End,
    /// White space, a comment or an include; and whether only white space stands before what follows in
    /// its line.
    Gap(usize, bool),
    Token(TokenKind, usize),
    /// A rule is broken here.
    Fault(Rule),
}

/// What stands at the front of a text. `fresh` says that only white space stands before it in its line.
pub(crate) fn next_lexeme(fresh: bool, text: &[u8]) -> Lexeme
    ensures { result ≡ lexeme_at fresh text.now }
{
    match text {
        [] => Lexeme::End,
        [first, rest @ ..] => lexeme_from(fresh, *first, rest, text),
    }
}

#[tactic(auto, using(crate::proofs::Within::begins_some))]
fn lexeme_from(fresh: bool, first: u8, rest: &[u8], text: &[u8]) -> Lexeme
    requires { text.now ≡ first ∷ rest.now }
    ensures { result ≡ lexeme_from fresh first rest.now }
{
    if is_space(first) {
        let next = fresh || first == b'\n';
        Lexeme::Gap(1, next)
    } else if is_letter(first) {
        word_lexeme(first, rest)
    } else if is_digit(first) {
        number_lexeme(first, rest, text)
    } else if first == b'\'' {
        character_lexeme(rest)
    } else if first == b'"' {
        string_lexeme(rest)
    } else if first == b'/' && begins(rest, b'*') {
        comment_lexeme(rest_from(rest, 1))
    } else if first == b'#' && fresh {
        directive_lexeme(rest)
    } else {
        mark_lexeme(first, rest)
    }
}

#[tactic(auto, using(crate::proofs::Slices::length_front))]
fn word_lexeme(first: u8, rest: &[u8]) -> Lexeme
    ensures { result ≡ word_lexeme (first ∷ take (prefix_len is_word rest.now) rest.now) }
{
    let more = word_length(rest);
    let kind = word_kind(first, front_of(rest, more));
    Lexeme::Token(kind, more + 1)
}

fn word_kind(first: u8, rest: &[u8]) -> TokenKind
    ensures { result ≡ word_kind (keyword_of (first ∷ rest.now)) }
{
    match keyword_of(first, rest) {
        None => TokenKind::Name,
        Some(keyword) => TokenKind::Keyword(keyword),
    }
}

#[tactic(auto, using(crate::proofs::Slices::front_more))]
fn number_lexeme(first: u8, rest: &[u8], text: &[u8]) -> Lexeme
    requires { text.now ≡ first ∷ rest.now }
    ensures { result ≡ constant_lexeme (first ∷ take (prefix_len is_word rest.now) rest.now)
        (drop (prefix_len is_word rest.now) rest.now) }
{
    let more = word_length(rest);
    constant_lexeme(front_of(text, more + 1), rest_from(rest, more))
}

fn mark_lexeme(first: u8, rest: &[u8]) -> Lexeme
    ensures { result ≡ mark_lexeme (mark_in_front (first ∷ rest.now)) }
{
    match mark_of(first, rest) {
        None => Lexeme::Fault(Rule::Byte),
        Some(mark) => Lexeme::Token(TokenKind::Mark(mark), mark_length(mark)),
    }
}
