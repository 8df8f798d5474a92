//! Where a walk stands, and one more token behind it.

ghost use Rattle.std.specs.Prelude.{◌≡◌, IfOk};
ghost use Rattle.porch_walk.specs.Walk.{Stage as Standing, step, is_over, ends_here, name_bytes};
ghost use Rattle.porch_walk.specs.inside.Steps.{upward};
ghost use Rattle.porch_walk.specs.inside.Stages.{Stepped};
ghost use Rattle.porch_walk.specs.Walks.{Stands};

use crate::advance::go_on;
use crate::step::Turn;
use crate::symbol::Symbol;
use indexmap::IndexSet;
use porch_tree::Word;
use std::alloc::{AllocError, Global};

/// Where a walk stands.
#[derive(Drop)]
pub(crate) struct Stage<'t> {
    /// The typedef names so far.
    pub(crate) types: IndexSet<&'t [u8]>,
    /// The name of the typedef that is being read.
    pub(crate) fresh: &'t [u8],
    /// In the block of a function.
    pub(crate) inside: bool,
    /// What may still be to come, the next one last.
    pub(crate) pending: Vec<Symbol>,
}

/// Takes one more word with its bytes, where it can come.
pub(crate) fn take_word<'t>(
    stage: &mut Stage<'t>,
    word: Word,
    bytes: &'t [u8],
) -> Result<bool, AllocError>
    ensures { IfOk result (λ b. (s : Standing) → Stands stage.old s
        → Stepped b (step s word bytes.now) stage.new) }
{
    let heard = name_bytes(word, bytes);
    let known = stage.types.contains(heard);
    match go_on(&mut stage.pending, stage.inside, word, known)? {
        Turn::Took => Ok(true),
        Turn::Refused => Ok(false),
        Turn::LeftOut => Ok(false),
        Turn::Named => {
            stage.fresh = heard;
            Ok(true)
        }
        Turn::Declared => {
            stage.types.insert(stage.fresh)?;
            Ok(true)
        }
        Turn::Entered => {
            stage.inside = true;
            Ok(true)
        }
        Turn::Left => {
            stage.inside = false;
            Ok(true)
        }
    }
}

/// Whether a unit may end here.
pub(crate) fn is_over(stage: &Stage<'_>) -> bool
    ensures { (s : Standing) → Stands stage.now s → result ≡ is_over s }
{
    ends_here(&stage.pending, stage.inside)
}

fn ends_here(pending: &[Symbol], inside: bool) -> bool
    ensures { result ≡ ends_here (upward pending.now) inside }
{
    match pending {
        [] => !inside,
        [_, ..] => false,
    }
}

// only a name has bytes
pub(crate) fn name_bytes<'t>(word: Word, bytes: &'t [u8]) -> &'t [u8]
    ensures { result.now ≡ name_bytes word bytes.now }
{
    match word {
        Word::Name => bytes,
        Word::Whole | Word::Character | Word::Text | Word::Key(_) | Word::Mark(_) => &[],
    }
}
