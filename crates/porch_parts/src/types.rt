//! Where a type can begin.

ghost use Rattle.std.specs.Prelude.{ℕ, ◌≡◌, List, map, take, drop};
ghost use Rattle.porch_tree.specs.Grammar.{is_name};
ghost use Rattle.porch_lex.specs.Words.{bytes_between, kind_word, spelled_token};
ghost use Rattle.porch_parts.specs.Parts.{begins_base, names_type, can_begin, begins};

use crate::sign::{Sign, sign_at};
use indexmap::IndexSet;
use porch_lex::{Token, word_at};
use porch_tree::Word;

fn begins_base(sign: Sign) -> bool
    ensures { result ≡ begins_base sign }
{
    match sign {
        Sign::Const | Sign::Kind(_) | Sign::Void | Sign::Tag(_) => true,
        Sign::Name
        | Sign::Star
        | Sign::Open
        | Sign::Close
        | Sign::OpenBracket
        | Sign::CloseBracket
        | Sign::OpenBrace
        | Sign::CloseBrace
        | Sign::Comma
        | Sign::Semicolon
        | Sign::Equal
        | Sign::Other => false,
    }
}

fn is_name(word: Word) -> bool
    ensures { result ≡ is_name word }
{
    matches!(word, Word::Name)
}

fn names_type(types: &IndexSet<&[u8]>, bytes: &[u8]) -> bool
    ensures { result ≡ names_type (map (λ k. k.now) types.now.keys) bytes.now }
{
    types.contains(bytes)
}

fn can_begin(types: &IndexSet<&[u8]>, word: Word, bytes: &[u8]) -> bool
    ensures { result ≡ can_begin (map (λ k. k.now) types.now.keys) word bytes.now }
{
    begins_base(sign_at(word)) || (is_name(word) && names_type(types, bytes))
}

/// Whether a type can begin with a token, these names being typedef names.
pub fn begins(types: &IndexSet<&[u8]>, text: &[u8], token: Token) -> bool
    ensures { result ≡ begins (map (λ k. k.now) types.now.keys) (kind_word token.kind)
        (spelled_token text.now token) }
{
    can_begin(types, word_at(token), bytes_of(text, token))
}

// The bytes of a token. The tests keep it right for every text and token, whatever they have to do with
// one another.
fn bytes_of(text: &[u8], token: Token) -> &[u8]
    ensures { result.now ≡ bytes_between text.now token.from token.to }
{
    let count = token.to.saturating_sub(token.from);
    front_of(rest_from(text, token.from as usize), count as usize)
}

#[tactic(auto, using(crate::proofs::Keys::drop_all))]
fn rest_from(text: &[u8], at: usize) -> &[u8]
    ensures { result.now ≡ drop at text.now }
{
    if at < text.len() { &text[at..] } else { &[] }
}

#[tactic(auto, using(crate::proofs::Keys::take_all))]
fn front_of(text: &[u8], count: usize) -> &[u8]
    ensures { result.now ≡ take count text.now }
{
    if count < text.len() {
        &text[..count]
    } else {
        text
    }
}
