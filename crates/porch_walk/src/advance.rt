//! One more word behind what is pending.

ghost use Rattle.std.specs.Prelude.{◌≡◌, [], IfOk};
ghost use Rattle.porch_walk.specs.inside.Steps.{upward, Advanced, EmptyIf, Moved};

use crate::step::{Turn, begin_item, is, next, symbol_turn};
use crate::symbol::Symbol;
use porch_tree::{Mark, Word};
use std::alloc::AllocError;

/// What is pending does with one more word: the first symbol that isn't left out takes or refuses it.
/// `LeftOut` says that nothing is pending any more, and that an item or the end of a block may come.
/// `known` says whether the word is a name that is a typedef name.
pub(crate) fn advance(
    pending: &mut Vec<Symbol>,
    word: Word,
    known: bool,
) -> Result<Turn, AllocError>
    ensures empty { IfOk result (λ t. EmptyIf t (upward pending.new.items)) }
    ensures turned { IfOk result
        (λ t. Advanced known t word (upward pending.old.items) (upward pending.new.items)) }
{
    while let Some(symbol) = next(pending) {
        match symbol_turn(pending, symbol, word, known)? {
            Turn::LeftOut => {}
            Turn::Took => return Ok(Turn::Took),
            Turn::Refused => return Ok(Turn::Refused),
            Turn::Named => return Ok(Turn::Named),
            Turn::Declared => return Ok(Turn::Declared),
            Turn::Entered => return Ok(Turn::Entered),
            Turn::Left => return Ok(Turn::Left),
        }
    }
    Ok(Turn::LeftOut)
}

/// The walk goes on with one more word, in a function's block or outside of every block. What it
/// answers is never `LeftOut`.
pub(crate) fn go_on(
    pending: &mut Vec<Symbol>,
    inside: bool,
    word: Word,
    known: bool,
) -> Result<Turn, AllocError>
    ensures { IfOk result (λ t. Moved inside known t word (upward pending.old.items)
        (upward pending.new.items)) }
{
    match advance(pending, word, known)? {
        Turn::LeftOut => between_items(pending, inside, word, known),
        Turn::Took => Ok(Turn::Took),
        Turn::Refused => Ok(Turn::Refused),
        Turn::Named => Ok(Turn::Named),
        Turn::Declared => Ok(Turn::Declared),
        Turn::Entered => Ok(Turn::Entered),
        Turn::Left => Ok(Turn::Left),
    }
}

// where nothing is pending
fn between_items(
    pending: &mut Vec<Symbol>,
    inside: bool,
    word: Word,
    known: bool,
) -> Result<Turn, AllocError>
    requires { upward pending.old.items ≡ [] }
    ensures { IfOk result (λ t. Moved inside known t word [] (upward pending.new.items)) }
{
    if inside {
        if is(word, Word::Mark(Mark::CloseBrace)) {
            Ok(Turn::Left)
        } else {
            Ok(Turn::Refused)
        }
    } else if begin_item(pending, word, known)? {
        Ok(Turn::Took)
    } else {
        Ok(Turn::Refused)
    }
}
