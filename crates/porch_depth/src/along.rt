//! All tokens of a text: what each shows of the uses of the grammar.

ghost use Rattle.std.specs.Prelude.{◌≡◌, [], IfOk};
ghost use Rattle.porch_lex.specs.Words.{spelled_token, spelled};
ghost use Rattle.porch_walk.specs.Walk.{Stage, start};
ghost use Rattle.porch_walk.specs.Walks.{IsAt};
ghost use Rattle.porch_walk.specs.Levels.{readings};
ghost use Rattle.porch_depth.specs.inside.Reads.{ReadOn, HasRead};

use crate::read::read;
use porch_lex::{Token, word_at};
use porch_walk::{Level, Reading, TokenWalk};
use std::alloc::{AllocError, Global};

/// What was read of a text.
#[derive(Drop)]
pub(crate) struct Reader<'t> {
    pub(crate) walk: TokenWalk<'t>,
    /// The levels of the parts that may come, the next one last.
    pub(crate) levels: Vec<Level>,
    pub(crate) readings: Vec<Reading>,
}

/// A token's number. No text has more tokens than have a number: its places are of this type.
fn number_of(place: usize) -> Result<u32, AllocError>
    ensures { IfOk result (λ n. n ≡ place) }
{
    match u32::try_from(place) {
        Ok(number) => Ok(number),
        Err(_) => Err(AllocError),
    }
}

// Reads one more token, if it can come.
fn read_token<'t>(
    reader: &mut Reader<'t>,
    text: &'t [u8],
    token: Token,
    number: u32,
) -> Result<bool, AllocError>
    ensures { IfOk result (λ b. (s : Stage) → IsAt reader.old.walk s
        → ReadOn b s (spelled_token text.now token) number reader.old reader.new) }
{
    let known = reader.walk.knows(text, token);
    let word = word_at(token);
    let reading = read(
        &mut reader.levels,
        reader.walk.pending(),
        number,
        word,
        known,
    )?;
    if reader.walk.take(text, token)? {
        reader.readings.push(reading)?;
        Ok(true)
    } else {
        Ok(false)
    }
}

/// What each token shows, up to the first that can't come.
pub(crate) fn read_tokens<'t>(
    reader: &mut Reader<'t>,
    text: &'t [u8],
    tokens: &[Token],
) -> Result<(), AllocError>
    requires { HasRead text.now tokens.now 0 reader.old }
    ensures { IfOk result
        (λ _. reader.new.readings.items ≡ readings start [] 0 (spelled text.now tokens.now)) }
{
    for (i, token) in tokens.iter().enumerate() {
        if read_token(reader, text, *token, number_of(i)?)? {} else {
            return Ok(());
        }
    }
    Ok(())
}
