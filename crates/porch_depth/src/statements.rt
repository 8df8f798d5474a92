//! What a token does to the uses of statements.

ghost use Rattle.std.specs.Prelude.{◌≡◌, ◌≤◌, ◌++◌, [], ◌∷◌, reverse, IfOk};
ghost use Rattle.porch_tree.specs.declared.word.Word.TheVariants as Word;
ghost use Rattle.porch_walk.specs.Plans.{ahead, statement_key, statement_word, expression, statement};
ghost use Rattle.porch_depth.specs.inside.Takes.{with_steps, outcome, TookBy};

use crate::expressions::{begins_operand, take_operand};
use crate::take::{Here, put, take_before};
use porch_tree::{Keyword, Mark, Word};
use porch_walk::{Level, Mode, Step, Taken, is_word};
use std::alloc::AllocError;

// a statement that begins with a keyword
fn take_keyword(
    levels: &mut Vec<Level>,
    here: Here,
    later: &[Step],
    key: Keyword,
) -> Result<Option<Taken>, AllocError>
    ensures { IfOk result (λ t. TookBy here (ahead (statement_key key) (reverse later.now)) t
        levels.old.items levels.new.items) }
{
    match key {
        Keyword::If => take_before(
            levels,
            here,
            later,
            1,
            &[
                Step::Up(1),
                Step::Up(1),
                Step::Up(1),
                Step::Up(2),
                Step::Up(2),
                Step::Up(1),
            ],
        ),
        Keyword::While => take_before(
            levels,
            here,
            later,
            1,
            &[
                Step::Up(1),
                Step::Up(1),
                Step::Up(2),
                Step::Up(2),
                Step::Up(1),
            ],
        ),
        Keyword::Do => take_before(
            levels,
            here,
            later,
            1,
            &[
                Step::Up(1),
                Step::Up(1),
                Step::Up(2),
                Step::Up(2),
                Step::Up(1),
                Step::Up(1),
                Step::Up(1),
            ],
        ),
        Keyword::For => take_before(
            levels,
            here,
            later,
            1,
            &[
                Step::Up(1),
                Step::Up(1),
                Step::Up(2),
                Step::Up(1),
                Step::Up(2),
                Step::Up(1),
                Step::Up(2),
                Step::Up(1),
            ],
        ),
        Keyword::Switch => take_before(
            levels,
            here,
            later,
            1,
            &[
                Step::Up(1),
                Step::Up(1),
                Step::Up(1),
                Step::Up(1),
                Step::Up(2),
                Step::Up(2),
                Step::Up(1),
            ],
        ),
        Keyword::Break | Keyword::Continue => take_before(levels, here, later, 1, &[Step::Up(1)]),
        Keyword::Return => take_before(levels, here, later, 1, &[Step::Up(1), Step::Up(2)]),
        _ => Ok(None),
    }
}

// a statement that its first word tells
fn take_told(
    levels: &mut Vec<Level>,
    here: Here,
    later: &[Step],
    word: Word,
) -> Result<Option<Taken>, AllocError>
    ensures { IfOk result (λ t. TookBy here (ahead (statement_word word) (reverse later.now)) t
        levels.old.items levels.new.items) }
{
    match word {
        Word::Key(key) => take_keyword(levels, here, later, key),
        Word::Name | Word::Whole | Word::Character | Word::Text | Word::Mark(_) => {
            if is_word(word, Word::Mark(Mark::OpenBrace)) {
                take_before(levels, here, later, 2, &[Step::Up(2), Step::Up(2)])
            } else if is_word(word, Word::Mark(Mark::Semicolon)) {
                take_before(levels, here, later, 1, &[])
            } else {
                Ok(None)
            }
        }
    }
}

// a statement that begins with an expression
fn take_expression(
    levels: &mut Vec<Level>,
    here: Here,
    later: &[Step],
    word: Word,
) -> Result<Option<Taken>, AllocError>
    ensures { IfOk result (λ t. TookBy here (ahead (expression word) (reverse later.now)) t
        levels.old.items levels.new.items) }
{
    if begins_operand(word) {
        put(levels, here, later)?;
        take_operand(
            levels,
            here,
            &[Step::Up(1), Step::Up(2)],
            Mode::Assign,
            2,
            word,
        )
    } else {
        Ok(None)
    }
}

/// A statement in front of these parts, if the word begins one.
pub(crate) fn take_statement(
    levels: &mut Vec<Level>,
    here: Here,
    later: &[Step],
    word: Word,
) -> Result<Option<Taken>, AllocError>
    ensures { IfOk result (λ t. TookBy here (ahead (statement word) (reverse later.now)) t
        levels.old.items levels.new.items) }
{
    match take_told(levels, here, later, word)? {
        Some(taken) => Ok(Some(taken)),
        None => take_expression(levels, here, later, word),
    }
}
