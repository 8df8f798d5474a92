//! From a text to its tokens.

ghost use Rattle.std.specs.Prelude.{◌≡◌, ◌+◌, ◌<◌, ◌≤◌, ◌^◌, [], length, IfOk, IfSome, OnOk};
ghost use Rattle.std.specs.Option.{option_map};
ghost use Rattle.porch_syntax.specs.inside.Lexing.{kind_of, number_of, with_name, shown, Taken, lex, behind, gone_on};

use crate::lexeme::{Lexeme, classify, piece_length, space};
use crate::token::Token;
use indexmap::IndexSet;
use std::alloc::{AllocError, Global};

/// The number of a name, by its first occurrence.
#[tactic(auto, using(crate::proofs::Pieces::place_shown, crate::proofs::Pieces::with_shown))]
fn number<'a>(names: &mut IndexSet<&'a [u8]>, name: &'a [u8]) -> Result<u32, AllocError>
    requires { length names.old.keys < 2 ^ 20 }
    ensures number { IfOk result (λ x. x ≡ number_of (shown names.old.keys) name.now) }
    ensures names { OnOk result (shown names.new.keys ≡ with_name (shown names.old.keys) name.now) }
    ensures count { OnOk result (length names.new.keys ≤ length names.old.keys + 1) }
{
    let (index, _) = names.insert_full(name)?;
    Ok(index as u32)
}

fn take<'a>(
    tokens: &mut Vec<Token>,
    names: &mut IndexSet<&'a [u8]>,
    lexeme: &'a [u8],
) -> Result<bool, AllocError>
    requires { length names.old.keys < 2 ^ 20 }
    ensures taken { IfOk result
        (λ going. Taken (kind_of lexeme.now) lexeme.now tokens.old.items (shown names.old.keys)
        tokens.new.items (shown names.new.keys) going) }
    ensures count { OnOk result (length names.new.keys ≤ length names.old.keys + 1) }
{
    match classify(lexeme) {
        Lexeme::Fixed(token) => {
            tokens.push(token)?;
            Ok(true)
        }
        Lexeme::Name => {
            let x = number(names, lexeme)?;
            tokens.push(Token::Name(x))?;
            Ok(true)
        }
        Lexeme::Wrong => Ok(false),
    }
}

/// Reads one piece, or one white space, and answers what is behind it.
#[tactic(auto, using(crate::proofs::Lex::space_gone, crate::proofs::Lex::piece_taken, crate::proofs::Lex::piece_refused, crate::proofs::Lex::some_length, crate::proofs::Lex::all_behind))]
fn advance<'a>(
    tokens: &mut Vec<Token>,
    names: &mut IndexSet<&'a [u8]>,
    rest: &'a [u8],
) -> Result<Option<&'a [u8]>, AllocError>
    requires some { 0 < length rest.now }
    requires few { length names.old.keys < 2 ^ 20 }
    ensures next { IfOk result
        (λ next. gone_on tokens.new.items (shown names.new.keys) next ≡ behind tokens.old.items
        (lex rest.now 0 (shown names.old.keys))) }
    ensures shorter { IfOk result
        (λ next. IfSome next (λ last. (length last.now < length rest.now)
        × (length names.new.keys + length last.now ≤ length names.old.keys + length rest.now))) }
{
    if space(rest[0]) {
        return Ok(Some(&rest[1..]));
    }
    let length = piece_length(rest);
    if take(tokens, names, &rest[..length])? {
        Ok(Some(&rest[length..]))
    } else {
        Ok(None)
    }
}

/// The tokens of a text, where it has nothing else but white space between them.
pub fn tokens(alloc: Global, text: &[u8]) -> Result<Option<Vec<Token>>, AllocError>
    requires { length text.now ≤ 2 ^ 20 }
    ensures { IfOk result (λ found. option_map (λ v. v.items) found ≡ option_map (λ l. l.tokens)
        (lex text.now 0 [])) }
{
    let mut names = IndexSet::new(alloc);
    let mut found = Vec::new(alloc);
    let mut rest = text;
    while !rest.is_empty() {
        match advance(&mut found, &mut names, rest)? {
            Some(behind) => rest = behind,
            None => return Ok(None),
        }
    }
    Ok(Some(found))
}
