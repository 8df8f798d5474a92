//! The characters of string literals.

ghost use Rattle.std.specs.Prelude.{◌≡◌, ◌++◌, drop, OnOk};
ghost use Rattle.porch_check.specs.Constants.{characters_from};
ghost use Rattle.porch_literals.specs.inside.Characters.{goes_on};

use porch_lex::{behind_character, behind_first, character_of};
use sqlite_items::Items;
use std::alloc::AllocError;

/// Puts the characters of a literal behind others, by the bytes of its token.
pub fn add_characters(characters: &mut Items<u8>, spelling: &[u8]) -> Result<(), AllocError>
    ensures { OnOk result (characters.new
        ≡ characters.old ++ characters_from (drop 1 spelling.now) 0) }
{
    add_inner(characters, behind_first(spelling))
}

#[tactic(auto, using(crate::proofs::Spelled::one_more, crate::proofs::Spelled::no_more, crate::proofs::Spelled::shorter))]
fn add_inner(characters: &mut Items<u8>, inner: &[u8]) -> Result<(), AllocError>
    ensures { OnOk result (characters.new ≡ characters.old ++ characters_from inner.now 0) }
{
    let mut rest = inner;
    'characters: while goes_on(rest) {
        characters.push(character_of(rest))?;
        rest = behind_character(rest);
    }
    Ok(())
}

// Whether the literal goes on.
fn goes_on(text: &[u8]) -> bool
    ensures { result ≡ goes_on text.now }
{
    match text {
        [] => false,
        [first, ..] => *first != b'"',
    }
}
