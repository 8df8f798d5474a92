//! The first wrong token of a text: the walk over its tokens.

ghost use Rattle.std.specs.Prelude.{◌≡◌, ◌+◌, ◌∷◌, IfOk, List, ℕ, map, take, drop};
ghost use Rattle.porch_tree.specs.Grammar.{is_outside_key, is_file_key, is_tag_key, is_brace, is_name, begins_brace, is_outside};
ghost use Rattle.porch_lex.specs.Words.{bytes_between, spelled_token, spelled};
ghost use Rattle.porch_walk.specs.Walk.{Stage as Standing, start, wrong};
ghost use Rattle.porch_walk.specs.Reach.{IsReachOf};
ghost use Rattle.porch_walk.specs.Wrongs.{wrong_of};
ghost use Rattle.porch_walk.specs.inside.Stages.{Judged, words_of};
ghost use Rattle.porch_walk.specs.Walks.{Stands};

use crate::stage::{Stage, is_over, take_word};
use crate::wrong::{WalkFault, WrongToken};
use indexmap::IndexSet;
use porch_lex::{Token, word_at};
use porch_tree::{Keyword, Mark, Word};
use std::alloc::{AllocError, Global};

/// The first token of a text that is outside the language or with which no unit goes on, or the number of
/// the tokens where they only begin a unit; `None` where they are one. An error is want of memory.
#[tactic(auto, using(crate::proofs::Judging::first_of))]
pub fn first_wrong(
    alloc: Global,
    text: &[u8],
    tokens: &[Token],
) -> Result<Option<WrongToken>, AllocError>
    ensures exact { IfOk result
        (λ found. wrong_of found ≡ wrong 0 start (spelled text.now tokens.now)) }

    // What it answers is so of the grammar: the token that is named is the first one that is wrong, or a unit has
    // these tokens. Nesting is not looked at.
    ensures first { IfOk result
        (λ found. IsReachOf (spelled text.now tokens.now) (wrong_of found)) }
{
    first_place(alloc, text, tokens)
}

// where the walk stops
fn first_place(
    alloc: Global,
    text: &[u8],
    tokens: &[Token],
) -> Result<Option<WrongToken>, AllocError>
    ensures { IfOk result (λ found. wrong_of found ≡ wrong 0 start (spelled text.now tokens.now)) }
{
    let mut stage = Stage {
        types: IndexSet::new(alloc),
        fresh: &[],
        inside: false,
        pending: Vec::new(alloc),
    };
    for (i, token) in tokens.iter().enumerate() {
        match judge(&mut stage, text, *token, &tokens[i + 1..])? {
            None => {}
            Some(fault) => return Ok(Some(WrongToken { token: i, fault })),
        }
    }
    if is_over(&stage) {
        Ok(None)
    } else {
        Ok(Some(WrongToken {
            token: tokens.len(),
            fault: WalkFault::Syntax,
        }))
    }
}

// what is wrong with a token in front of others, or the stage behind it
#[tactic(auto, using(crate::proofs::Judging::words_are))]
fn judge<'t>(
    stage: &mut Stage<'t>,
    text: &'t [u8],
    token: Token,
    rest: &[Token],
) -> Result<Option<WalkFault>, AllocError>
    ensures { IfOk result (λ found. (s : Standing) (i : ℕ) → Stands stage.old s
        → Judged i s (spelled_token text.now token) (spelled text.now rest.now) found stage.new) }
{
    let word = word_at(token);
    if is_outside(stage.inside, word, rest) {
        return Ok(Some(WalkFault::Outside));
    }
    if take_word(stage, word, bytes_of(text, token))? {
        Ok(None)
    } else {
        Ok(Some(WalkFault::Syntax))
    }
}

// whether a word in front of these tokens is outside the language
fn is_outside(inside: bool, word: Word, rest: &[Token]) -> bool
    ensures { result ≡ is_outside inside (word ∷ words_of rest.now) }
{
    match word {
        Word::Key(key) => is_key_outside(inside, key, rest),
        Word::Name | Word::Whole | Word::Character | Word::Text | Word::Mark(_) => false,
    }
}

fn is_key_outside(inside: bool, key: Keyword, rest: &[Token]) -> bool
    ensures { result ≡ is_outside inside (Word.Key key ∷ words_of rest.now) }
{
    is_outside_key(key) || (inside && (is_file_key(key) || (is_tag_key(key) && begins_brace(rest))))
}

fn is_outside_key(key: Keyword) -> bool
    ensures { result ≡ is_outside_key key }
{
    matches!(
        key,
        Keyword::Float
            | Keyword::Double
            | Keyword::Union
            | Keyword::Goto
            | Keyword::Register
            | Keyword::Volatile
            | Keyword::Extern
            | Keyword::Auto
    )
}

fn is_file_key(key: Keyword) -> bool
    ensures { result ≡ is_file_key key }
{
    matches!(key, Keyword::Typedef | Keyword::Static)
}

fn is_tag_key(key: Keyword) -> bool
    ensures { result ≡ is_tag_key key }
{
    matches!(key, Keyword::Struct | Keyword::Enum)
}

// a brace, or a tag and a brace
fn begins_brace(rest: &[Token]) -> bool
    ensures { result ≡ begins_brace (words_of rest.now) }
{
    match rest {
        [] => false,
        [first, behind @ ..] => is_begun(word_at(*first), behind),
    }
}

fn is_begun(first: Word, behind: &[Token]) -> bool
    ensures { result ≡ begins_brace (first ∷ words_of behind.now) }
{
    match behind {
        [] => is_brace(first),
        [second, _rest @ ..] => is_brace(first) || (is_name(first) && is_brace(word_at(*second))),
    }
}

fn is_brace(word: Word) -> bool
    ensures { result ≡ is_brace word }
{
    matches!(word, Word::Mark(Mark::OpenBrace))
}

fn is_name(word: Word) -> bool
    ensures { result ≡ is_name word }
{
    matches!(word, Word::Name)
}

// The bytes of a token. The tests keep it right for every text and token, whatever they have to do with
// one another.
pub(crate) fn bytes_of(text: &[u8], token: Token) -> &[u8]
    ensures { result.now ≡ bytes_between text.now token.from token.to }
{
    let count = token.to.saturating_sub(token.from);
    front_of(rest_from(text, token.from as usize), count as usize)
}

#[tactic(auto, using(crate::proofs::Judging::drop_all))]
fn rest_from(text: &[u8], at: usize) -> &[u8]
    ensures { result.now ≡ drop at text.now }
{
    if at < text.len() { &text[at..] } else { &[] }
}

#[tactic(auto, using(crate::proofs::Judging::take_all))]
fn front_of(text: &[u8], count: usize) -> &[u8]
    ensures { result.now ≡ take count text.now }
{
    if count < text.len() {
        &text[..count]
    } else {
        text
    }
}
