//! One token: how many uses it lies in, and the levels of the parts that may come behind it.

ghost use Rattle.std.specs.Prelude.{◌≡◌, ◌+◌, ◌-◌, [], ◌∷◌, reverse, IfOk, if◌then◌else◌};
ghost use Rattle.porch_walk.specs.Levels.{GROUND, top, under, read, read_by};
ghost use Rattle.porch_walk.specs.Plans.{item, plan};
ghost use Rattle.porch_depth.specs.inside.Takes.{TookBy, Offered, outcome, is_read};

use crate::parts::{take_item, take_symbol};
use crate::take::{Here, more_uses};
use porch_tree::Word;
use porch_walk::{Level, Reading, Symbol, Taken};
use std::alloc::AllocError;

/// The level where no part may come.
const GROUND: Level = Level { uses: 0, start: 0 };

#[tactic(auto, using(crate::proofs::Takes::last_on))]
fn next_level(levels: &mut Vec<Level>) -> Level
    ensures level { result ≡ top (reverse levels.old.items) }
    ensures others { reverse levels.new.items ≡ under (reverse levels.old.items) }
{
    match levels.pop() {
        Some(level) => level,
        None => GROUND,
    }
}

fn show(here: Here, taken: Taken) -> Result<Reading, AllocError>
    ensures { IfOk result (λ r. r ≡ record {
      uses = here.level.uses + taken.uses;
      back = if taken.raises then here.token - here.level.start else 0;
    }) }
{
    let back = if taken.raises {
        here.token.saturating_sub(here.level.start)
    } else {
        0
    };
    Ok(Reading {
        uses: more_uses(here.level.uses, taken.uses)?,
        back,
    })
}

// what a part shows, if it takes the word
fn offer(
    levels: &mut Vec<Level>,
    here: Here,
    symbol: Symbol,
    word: Word,
    known: bool,
) -> Result<Option<Reading>, AllocError>
    ensures { IfOk result (λ r. Offered here (plan word known symbol) r
        (reverse levels.old.items) (reverse levels.new.items)) }
{
    match take_symbol(levels, here, symbol, word, known)? {
        Some(taken) => Ok(Some(show(here, taken)?)),
        None => Ok(None),
    }
}

// where no part is left
fn read_item(levels: &mut Vec<Level>, token: u32, word: Word) -> Result<Reading, AllocError>
    ensures { IfOk result (λ r. read_by GROUND token (item word) []
        ≡ is_read r (reverse levels.new.items)) }
{
    levels.clear();
    let here = Here {
        level: GROUND,
        token,
    };
    let taken = take_item(levels, here, word)?;
    show(here, taken)
}

/// Reads one more token: the first part takes it that doesn't leave it out. The parts are those of the walk,
/// the next one last.
pub(crate) fn read(
    levels: &mut Vec<Level>,
    parts: &[Symbol],
    token: u32,
    word: Word,
    known: bool,
) -> Result<Reading, AllocError>
    ensures { IfOk result (λ r. read known token word (reverse parts.now) (reverse levels.old.items)
        ≡ is_read r (reverse levels.new.items)) }
{
    for left in (0..parts.len()).rev() {
        let level = next_level(levels);
        match offer(levels, Here { level, token }, parts[left], word, known)? {
            Some(shown) => return Ok(shown),
            None => {}
        }
    }
    read_item(levels, token, word)
}
