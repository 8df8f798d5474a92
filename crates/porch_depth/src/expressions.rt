//! What a token does to the uses of expressions.

ghost use Rattle.std.specs.Prelude.{◌≡◌, ◌≤◌, ◌++◌, [], ◌∷◌, reverse, IfOk, option_map, true};
ghost use Rattle.porch_tree.specs.declared.word.Word.TheVariants as Word;
ghost use Rattle.porch_walk.specs.Plans.{ahead, took, rest, rest_kept, opening, unary, operand, open_type, nested, opened, suffix, operators, late, begins_operand, begins_base};
ghost use Rattle.porch_walk.specs.Walk.{takes_type};
ghost use Rattle.porch_depth.specs.inside.Takes.{with_steps, outcome, TookBy};

use crate::take::{Here, put, take};
use porch_tree::{Keyword, Mark, Word};
use porch_walk::{Level, Mode, Step, Taken, is_assigning, is_infix, is_word};
use std::alloc::AllocError;

/// Whether a word begins an operand.
pub(crate) fn begins_operand(word: Word) -> bool
    ensures { result ≡ begins_operand word }
{
    match word {
        Word::Name | Word::Whole | Word::Character | Word::Text => true,
        Word::Key(_) => is_word(word, Word::Key(Keyword::Sizeof)),
        Word::Mark(mark) => begins_operand_mark(mark),
    }
}

fn begins_operand_mark(mark: Mark) -> bool
    ensures { result ≡ begins_operand (Word.Mark mark) }
{
    matches!(
        mark,
        Mark::OpenParenthesis
            | Mark::PlusPlus
            | Mark::MinusMinus
            | Mark::And
            | Mark::Star
            | Mark::Plus
            | Mark::Minus
            | Mark::Tilde
            | Mark::Not
    )
}

/// Whether a word begins a base. `known` says whether it is a name that is a typedef name.
pub(crate) fn begins_base(known: bool, word: Word) -> bool
    ensures { result ≡ begins_base known word }
{
    match word {
        Word::Name => known,
        Word::Key(key) => matches!(
            key,
            Keyword::Const
                | Keyword::Void
                | Keyword::Struct
                | Keyword::Enum
                | Keyword::Char
                | Keyword::Short
                | Keyword::Int
                | Keyword::Long
                | Keyword::Signed
                | Keyword::Unsigned
        ),
        Word::Whole | Word::Character | Word::Text | Word::Mark(_) => false,
    }
}

fn put_rest(levels: &mut Vec<Level>, here: Here, mode: Mode, uses: u32) -> Result<(), AllocError>
    ensures { IfOk result (λ _. reverse levels.new.items
        ≡ with_steps here (rest mode uses) (reverse levels.old.items)) }
{
    match mode {
        Mode::Assign | Mode::Cond => put(levels, here, &[Step::Up(uses)]),
        Mode::Cast | Mode::Unary | Mode::Size => Ok(()),
    }
}

fn put_rest_kept(levels: &mut Vec<Level>, here: Here, mode: Mode) -> Result<(), AllocError>
    ensures { IfOk result (λ _. reverse levels.new.items
        ≡ with_steps here (rest_kept mode) (reverse levels.old.items)) }
{
    match mode {
        Mode::Assign | Mode::Cond => put(levels, here, &[Step::Keep]),
        Mode::Cast | Mode::Unary | Mode::Size => Ok(()),
    }
}

fn opening(mode: Mode) -> u32
    ensures exact { result ≡ opening mode }
    ensures small { result ≤ 1 }
{
    match mode {
        Mode::Size => 0,
        Mode::Assign | Mode::Cond | Mode::Cast | Mode::Unary => 1,
    }
}

// an operand that begins so many uses deeper
fn take_unary(
    levels: &mut Vec<Level>,
    here: Here,
    mode: Mode,
    uses: u32,
    word: Word,
) -> Result<Option<Taken>, AllocError>
    requires { uses ≤ 2 }
    ensures { IfOk result (λ t. TookBy here (unary word mode uses) t
        levels.old.items levels.new.items) }
{
    put_rest(levels, here, mode, uses)?;
    if is_word(word, Word::Text) {
        take(
            levels,
            here,
            uses + 1,
            &[Step::Up(uses + 1), Step::Up(uses + 1)],
        )
    } else {
        take(levels, here, uses + 1, &[Step::Up(uses + 1)])
    }
}

/// An operand so many uses deeper, in front of these parts.
pub(crate) fn take_operand(
    levels: &mut Vec<Level>,
    here: Here,
    later: &[Step],
    mode: Mode,
    uses: u32,
    word: Word,
) -> Result<Option<Taken>, AllocError>
    requires { uses ≤ 2 }
    ensures { IfOk result (λ t. TookBy here (ahead (operand word mode uses) (reverse later.now)) t
        levels.old.items levels.new.items) }
{
    put(levels, here, later)?;
    if is_word(word, Word::Mark(Mark::OpenParenthesis)) {
        take(levels, here, uses + opening(mode), &[Step::Up(uses)])
    } else {
        take_unary(levels, here, mode, uses, word)
    }
}

fn takes_type(mode: Mode) -> bool
    ensures { result ≡ takes_type mode }
{
    match mode {
        Mode::Unary => false,
        Mode::Assign | Mode::Cond | Mode::Cast | Mode::Size => true,
    }
}

// a type in parentheses
fn take_type(levels: &mut Vec<Level>, here: Here, mode: Mode) -> Result<Option<Taken>, AllocError>
    ensures { IfOk result (λ t. TookBy here (open_type mode) t levels.old.items levels.new.items) }
{
    match mode {
        Mode::Assign | Mode::Cond => take(
            levels,
            here,
            1,
            &[
                Step::Keep,
                Step::Up(1),
                Step::Up(1),
                Step::Up(1),
                Step::Up(1),
            ],
        ),
        Mode::Cast | Mode::Unary => take(
            levels,
            here,
            1,
            &[Step::Up(1), Step::Up(1), Step::Up(1), Step::Up(1)],
        ),
        Mode::Size => take(levels, here, 0, &[Step::Up(0), Step::Up(0), Step::Up(0)]),
    }
}

// an expression in parentheses
fn take_nested(
    levels: &mut Vec<Level>,
    here: Here,
    mode: Mode,
    word: Word,
) -> Result<Option<Taken>, AllocError>
    ensures { IfOk result
        (λ t. TookBy here (nested word mode) t levels.old.items levels.new.items) }
{
    put_rest_kept(levels, here, mode)?;
    take_operand(
        levels,
        here,
        &[Step::Up(1), Step::Up(1), Step::Up(2)],
        Mode::Assign,
        2,
        word,
    )
}

// The token puts what is before it one use deeper.
fn raise(taken: Option<Taken>) -> Option<Taken>
    ensures { result ≡ option_map (λ t. record { uses = t.uses; raises = true }) taken }
{
    match taken {
        None => None,
        Some(taken) => Some(Taken {
            uses: taken.uses,
            raises: true,
        }),
    }
}

fn take_late(
    levels: &mut Vec<Level>,
    here: Here,
    mode: Mode,
    word: Word,
) -> Result<Option<Taken>, AllocError>
    ensures { IfOk result (λ t. TookBy here (late mode (nested word mode)) t
        levels.old.items levels.new.items) }
{
    let taken = take_nested(levels, here, mode, word)?;
    match mode {
        Mode::Size => Ok(raise(taken)),
        Mode::Assign | Mode::Cond | Mode::Cast | Mode::Unary => Ok(taken),
    }
}

/// What a parenthesis was read of.
pub(crate) fn take_opened(
    levels: &mut Vec<Level>,
    here: Here,
    mode: Mode,
    known: bool,
    word: Word,
) -> Result<Option<Taken>, AllocError>
    ensures { IfOk result (λ t. TookBy here (opened word known mode) t
        levels.old.items levels.new.items) }
{
    if takes_type(mode) && begins_base(known, word) {
        take_type(levels, here, mode)
    } else {
        take_late(levels, here, mode, word)
    }
}

/// A suffix.
pub(crate) fn take_suffix(
    levels: &mut Vec<Level>,
    here: Here,
    word: Word,
) -> Result<Option<Taken>, AllocError>
    ensures { IfOk result (λ t. TookBy here (suffix word) t levels.old.items levels.new.items) }
{
    match word {
        Word::Mark(Mark::OpenBracket) => take(
            levels,
            here,
            0,
            &[Step::Up(0), Step::Up(0), Step::Up(1), Step::Up(1)],
        ),
        Word::Mark(Mark::OpenParenthesis) => {
            take(levels, here, 0, &[Step::Up(0), Step::Up(0), Step::Up(0)])
        }
        Word::Mark(Mark::Dot | Mark::Arrow) => take(levels, here, 0, &[Step::Up(0), Step::Up(0)]),
        Word::Mark(Mark::PlusPlus | Mark::MinusMinus) => take(levels, here, 0, &[Step::Up(0)]),
        _ => Ok(None),
    }
}

/// An operator behind an operand; `unary` says whether an assignment's may come.
pub(crate) fn take_operator(
    levels: &mut Vec<Level>,
    here: Here,
    unary: bool,
    word: Word,
) -> Result<Option<Taken>, AllocError>
    ensures { IfOk result (λ t. TookBy here (operators word unary) t
        levels.old.items levels.new.items) }
{
    if is_infix(word) {
        take(levels, here, 0, &[Step::Keep, Step::Up(0)])
    } else if is_word(word, Word::Mark(Mark::Question)) {
        Ok(raise(take(
            levels,
            here,
            1,
            &[Step::Up(1), Step::Up(1), Step::Up(2), Step::Up(2)],
        )?))
    } else if unary && is_assigning(word) {
        Ok(raise(take(levels, here, 1, &[Step::Up(1)])?))
    } else {
        Ok(None)
    }
}
