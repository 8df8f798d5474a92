//! A text without its comments and includes.

ghost use Rattle.std.specs.Prelude.{◌≡◌, ◌++◌, ℕ, List, IfOk, OnOk, map, take, drop};
ghost use Rattle.porch_lex.specs.declared.token.Token.{Token};
ghost use Rattle.porch_lex.specs.Words.{bytes_between};
ghost use Rattle.porch_source.specs.Comments.{blank_of, blanks, without_comments};

use porch_lex::Token;
use std::alloc::{AllocError, Global};

/// The text with white space in place of all that is no token. It has the text's lines and columns.
pub fn without_comments(alloc: Global, text: &[u8], tokens: &[Token]) -> Result<Vec<u8>, AllocError>
    ensures { IfOk result (λ v. v.items ≡ without_comments text.now tokens.now) }
{
    let mut clean = Vec::new(alloc);
    let mut at = 0;
    for token in tokens {
        add_blanks(&mut clean, between(text, at, token.from))?;
        clean.extend_from_slice(between(text, token.from, token.to))?;
        at = token.to;
    }
    add_blanks(&mut clean, rest_from(text, at as usize))?;
    Ok(clean)
}

// adds as much white space
fn add_blanks(clean: &mut Vec<u8>, bytes: &[u8]) -> Result<(), AllocError>
    ensures { OnOk result (clean.new.items ≡ clean.old.items ++ blanks bytes.now) }
{
    for byte in bytes {
        clean.push(blank_of(*byte))?;
    }
    Ok(())
}

fn blank_of(byte: u8) -> u8
    ensures { result ≡ blank_of byte }
{
    if byte == b'\n' { b'\n' } else { b' ' }
}

fn between(text: &[u8], from: u32, to: u32) -> &[u8]
    ensures { result.now ≡ bytes_between text.now from to }
{
    front_of(
        rest_from(text, from as usize),
        to.saturating_sub(from) as usize,
    )
}

#[tactic(auto, using(crate::proofs::Slices::drop_all))]
fn rest_from(text: &[u8], at: usize) -> &[u8]
    ensures { result.now ≡ drop at text.now }
{
    if at < text.len() { &text[at..] } else { &[] }
}

#[tactic(auto, using(crate::proofs::Slices::take_all))]
fn front_of(text: &[u8], count: usize) -> &[u8]
    ensures { result.now ≡ take count text.now }
{
    if count < text.len() {
        &text[..count]
    } else {
        text
    }
}
