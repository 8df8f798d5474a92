//! The first fault of a text by the grammar.

ghost use Rattle.std.specs.Prelude.{◌≡◌, IfOk, take};
ghost use Rattle.porch_lex.specs.Words.{spelled};
ghost use Rattle.porch_depth.specs.Levels.{first_deep, first_fault};
ghost use Rattle.porch_depth.specs.Faults.{found_of};
ghost use Rattle.porch_depth.specs.Told.{IsFound};
ghost use Rattle.porch_depth.specs.inside.Reads.{front_of};
ghost use Rattle.porch_walk.specs.Wrongs.{wrong_of};

use crate::along::{Reader, read_tokens};
use crate::sweep::first_deep;
use porch_lex::Token;
use porch_walk::laws::{each_unit_shows_its_uses, what_is_shown_is_had};
use porch_walk::{TokenWalk, WalkFault, WrongToken, first_wrong};
use std::alloc::{AllocError, Global};

/// The rules of the grammar that a text can break.
#[derive(Clone, Copy, Debug, PartialEq, Eq)]
pub enum GrammarFault {
    /// No unit of the grammar goes on with this token.
    Syntax,
    /// The token lies in too many counted uses.
    Nesting,
    /// The token is outside the language.
    Outside,
}

/// A broken rule, and the number of the token, from 0, at which it is broken; behind the last token it is
/// how many there are.
#[derive(Clone, Copy, Debug, PartialEq, Eq)]
pub struct FaultyToken {
    pub token: usize,
    pub fault: GrammarFault,
}

/// The first fault of a text: a token that lies too deep, as far as the text shows it up to where something
/// else is wrong, or else what is wrong there; `None` where the tokens are a unit. An error is want of
/// memory, or of numbers for tokens and uses where these are more than 2^32.
pub fn first_fault(
    alloc: Global,
    text: &[u8],
    tokens: &[Token],
) -> Result<Option<FaultyToken>, AllocError>
    ensures exact { IfOk result
        (λ found. found_of found ≡ first_fault (spelled text.now tokens.now)) }

    // This is the first fault by the grammar, or a unit has the tokens, none of which lies too deep.
    ensures first { IfOk result
        (λ found. IsFound (spelled text.now tokens.now) (found_of found)) }
{
    each_unit_shows_its_uses();
    what_is_shown_is_had();
    let wrong = first_wrong(alloc, text, tokens)?;
    match deep_token(alloc, text, read_part(tokens, wrong))? {
        Some(token) => Ok(Some(FaultyToken {
            token,
            fault: GrammarFault::Nesting,
        })),
        None => Ok(told(wrong)),
    }
}

// the tokens before the one where something is wrong
#[tactic(auto, using(crate::proofs::Faults::all_read))]
fn read_part(tokens: &[Token], wrong: Option<WrongToken>) -> &[Token]
    ensures { result.now ≡ front_of tokens.now (wrong_of wrong) }
{
    match wrong {
        Some(wrong) => {
            if wrong.token < tokens.len() {
                &tokens[..wrong.token]
            } else {
                tokens
            }
        }
        None => tokens,
    }
}

fn told(wrong: Option<WrongToken>) -> Option<FaultyToken>
    ensures { found_of result ≡ wrong_of wrong }
{
    match wrong {
        None => None,
        Some(wrong) => Some(FaultyToken {
            token: wrong.token,
            fault: match wrong.fault {
                WalkFault::Syntax => GrammarFault::Syntax,
                WalkFault::Outside => GrammarFault::Outside,
            },
        }),
    }
}

// the first of these tokens that lies too deep
fn deep_token(alloc: Global, text: &[u8], tokens: &[Token]) -> Result<Option<usize>, AllocError>
    ensures { IfOk result (λ found. found ≡ first_deep (spelled text.now tokens.now)) }
{
    let mut reader = Reader {
        walk: TokenWalk::new(alloc),
        levels: Vec::new(alloc),
        readings: Vec::new(alloc),
    };
    read_tokens(&mut reader, text, tokens)?;
    first_deep(alloc, &reader.readings)
}
