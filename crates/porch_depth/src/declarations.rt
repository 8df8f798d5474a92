//! What a token does to the uses of declarations.

ghost use Rattle.std.specs.Prelude.{◌≡◌, ◌≤◌, ◌&&◌, ◌++◌, [], ◌∷◌, reverse, IfOk, false};
ghost use Rattle.porch_tree.specs.declared.word.Word.TheVariants as Word;
ghost use Rattle.porch_walk.specs.Walk.{may_name, may_lack};
ghost use Rattle.porch_walk.specs.Plans.{ahead, contents, core_opened, declarator, more_parameters, nameless, parameters, behind_void, count, entries, more_entries, entry, initial};
ghost use Rattle.porch_depth.specs.inside.Takes.{with_steps, outcome, TookBy};

use crate::expressions::{begins_base, take_operand};
use crate::take::{Here, put, take};
use porch_tree::{Keyword, Mark, TagSort, Word};
use porch_walk::{Level, Mode, Naming, Step, Taken, is_word};
use std::alloc::AllocError;

/// What a brace was read of behind `struct` or `enum`.
pub(crate) fn take_contents(
    levels: &mut Vec<Level>,
    here: Here,
    sort: TagSort,
) -> Result<Option<Taken>, AllocError>
    ensures { IfOk result (λ t. TookBy here (contents sort) t levels.old.items levels.new.items) }
{
    match sort {
        TagSort::Struct => take(
            levels,
            here,
            0,
            &[
                Step::Up(0),
                Step::Up(0),
                Step::Up(1),
                Step::Up(2),
                Step::Up(1),
            ],
        ),
        TagSort::Enum => take(
            levels,
            here,
            0,
            &[Step::Up(0), Step::Up(0), Step::Up(0), Step::Up(0)],
        ),
    }
}

fn may_name(naming: Naming) -> bool
    ensures { result ≡ may_name naming }
{
    match naming {
        Naming::Abstract => false,
        Naming::Must | Naming::May | Naming::Typedef => true,
    }
}

fn may_lack(naming: Naming) -> bool
    ensures { result ≡ may_lack naming }
{
    match naming {
        Naming::Must | Naming::Typedef => false,
        Naming::May | Naming::Abstract => true,
    }
}

fn put_core(
    levels: &mut Vec<Level>,
    here: Here,
    naming: Naming,
    uses: u32,
) -> Result<(), AllocError>
    requires { uses ≤ 1 }
    ensures { IfOk result (λ _. reverse levels.new.items
        ≡ with_steps here (core_opened naming uses) (reverse levels.old.items)) }
{
    match naming {
        Naming::May => put(levels, here, &[Step::Up(uses)]),
        Naming::Must | Naming::Typedef | Naming::Abstract => put(
            levels,
            here,
            &[Step::Up(uses), Step::Up(uses), Step::Up(uses + 1)],
        ),
    }
}

/// A declarator so many uses deeper, in front of these parts, if the word begins one.
pub(crate) fn take_declarator(
    levels: &mut Vec<Level>,
    here: Here,
    later: &[Step],
    naming: Naming,
    uses: u32,
    word: Word,
) -> Result<Option<Taken>, AllocError>
    requires { uses ≤ 1 }
    ensures { IfOk result
        (λ t. TookBy here (ahead (declarator word naming uses) (reverse later.now)) t
        levels.old.items levels.new.items) }
{
    if is_word(word, Word::Mark(Mark::Star)) {
        put(levels, here, later)?;
        take(levels, here, uses, &[Step::Up(uses)])
    } else if may_name(naming) && is_word(word, Word::Name) {
        put(levels, here, later)?;
        take(levels, here, uses, &[Step::Up(uses)])
    } else if may_name(naming) && is_word(word, Word::Mark(Mark::OpenParenthesis)) {
        put(levels, here, later)?;
        put_core(levels, here, naming, uses)?;
        take(levels, here, uses, &[])
    } else if may_lack(naming) && is_word(word, Word::Mark(Mark::OpenBracket)) {
        put(levels, here, later)?;
        take(levels, here, uses, &[Step::Up(uses), Step::Up(uses)])
    } else {
        Ok(None)
    }
}

/// Where more parameters may come.
pub(crate) fn take_more_parameters(
    levels: &mut Vec<Level>,
    here: Here,
    word: Word,
) -> Result<Option<Taken>, AllocError>
    ensures { IfOk result (λ t. TookBy here (more_parameters word) t
        levels.old.items levels.new.items) }
{
    if is_word(word, Word::Mark(Mark::Comma)) {
        take(levels, here, 0, &[Step::Up(0), Step::Up(1), Step::Up(0)])
    } else {
        take(levels, here, 0, &[])
    }
}

/// Behind a parenthesis where a core may lack.
pub(crate) fn take_nameless(
    levels: &mut Vec<Level>,
    here: Here,
    word: Word,
) -> Result<Option<Taken>, AllocError>
    ensures { IfOk result (λ t. TookBy here (nameless word) t levels.old.items levels.new.items) }
{
    if is_word(word, Word::Mark(Mark::CloseParenthesis)) {
        take(levels, here, 0, &[Step::Up(0)])
    } else if is_word(word, Word::Key(Keyword::Void)) {
        take(levels, here, 0, &[Step::Up(0), Step::Up(0)])
    } else if begins_base(false, word) {
        take(
            levels,
            here,
            0,
            &[Step::Up(0), Step::Up(0), Step::Up(1), Step::Up(0)],
        )
    } else {
        take_declarator(
            levels,
            here,
            &[Step::Up(0), Step::Up(0)],
            Naming::May,
            1,
            word,
        )
    }
}

/// Where parameters begin.
pub(crate) fn take_parameters(
    levels: &mut Vec<Level>,
    here: Here,
    word: Word,
) -> Result<Option<Taken>, AllocError>
    ensures { IfOk result (λ t. TookBy here (parameters word) t levels.old.items levels.new.items) }
{
    if is_word(word, Word::Mark(Mark::CloseParenthesis)) {
        take(levels, here, 0, &[])
    } else if is_word(word, Word::Key(Keyword::Void)) {
        take(levels, here, 0, &[Step::Up(0)])
    } else {
        take(levels, here, 0, &[Step::Up(0), Step::Up(1), Step::Up(0)])
    }
}

/// Where `void` was read of parameters.
pub(crate) fn take_behind_void(
    levels: &mut Vec<Level>,
    here: Here,
    word: Word,
) -> Result<Option<Taken>, AllocError>
    ensures { IfOk result
        (λ t. TookBy here (behind_void word) t levels.old.items levels.new.items) }
{
    if is_word(word, Word::Mark(Mark::CloseParenthesis)) {
        take(levels, here, 0, &[])
    } else if is_word(word, Word::Key(Keyword::Const)) {
        take(levels, here, 0, &[Step::Up(0), Step::Up(1), Step::Up(0)])
    } else {
        match take_declarator(levels, here, &[Step::Up(0)], Naming::May, 1, word)? {
            Some(taken) => Ok(Some(taken)),
            None => take_more_parameters(levels, here, word),
        }
    }
}

/// A count or nothing, in brackets.
pub(crate) fn take_count(
    levels: &mut Vec<Level>,
    here: Here,
    word: Word,
) -> Result<Option<Taken>, AllocError>
    ensures { IfOk result (λ t. TookBy here (count word) t levels.old.items levels.new.items) }
{
    if is_word(word, Word::Mark(Mark::CloseBracket)) {
        take(levels, here, 0, &[])
    } else {
        take_operand(levels, here, &[Step::Up(0)], Mode::Cond, 0, word)
    }
}

/// Where entries begin.
pub(crate) fn take_entries(
    levels: &mut Vec<Level>,
    here: Here,
    word: Word,
) -> Result<Option<Taken>, AllocError>
    ensures { IfOk result (λ t. TookBy here (entries word) t levels.old.items levels.new.items) }
{
    if is_word(word, Word::Mark(Mark::Semicolon)) {
        take(levels, here, 0, &[])
    } else {
        take_declarator(levels, here, &[Step::Up(0)], Naming::Must, 1, word)
    }
}

/// Where more entries may come.
pub(crate) fn take_more_entries(
    levels: &mut Vec<Level>,
    here: Here,
    word: Word,
) -> Result<Option<Taken>, AllocError>
    ensures { IfOk result
        (λ t. TookBy here (more_entries word) t levels.old.items levels.new.items) }
{
    if is_word(word, Word::Mark(Mark::Comma)) {
        take(levels, here, 0, &[Step::Up(0), Step::Up(1)])
    } else {
        take(levels, here, 0, &[])
    }
}

/// Behind the declarator of an entry.
pub(crate) fn take_entry(
    levels: &mut Vec<Level>,
    here: Here,
    word: Word,
) -> Result<Option<Taken>, AllocError>
    ensures { IfOk result (λ t. TookBy here (entry word) t levels.old.items levels.new.items) }
{
    if is_word(word, Word::Mark(Mark::Equal)) {
        take(levels, here, 0, &[Step::Up(0), Step::Up(0)])
    } else {
        take_more_entries(levels, here, word)
    }
}

/// An initialiser in front of these parts.
pub(crate) fn take_initial(
    levels: &mut Vec<Level>,
    here: Here,
    later: &[Step],
    word: Word,
) -> Result<Option<Taken>, AllocError>
    ensures { IfOk result (λ t. TookBy here (ahead (initial word) (reverse later.now)) t
        levels.old.items levels.new.items) }
{
    if is_word(word, Word::Mark(Mark::OpenBrace)) {
        put(levels, here, later)?;
        take(levels, here, 1, &[Step::Up(1), Step::Up(1)])
    } else {
        take_operand(levels, here, later, Mode::Assign, 1, word)
    }
}
