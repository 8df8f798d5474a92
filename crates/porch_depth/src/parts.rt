//! What each part that may come does with a word to the levels.

ghost use Rattle.std.specs.Prelude.{◌≡◌, ◌||◌, [], ◌∷◌, reverse, IfOk, Some, false, if◌then◌else◌};
ghost use Rattle.porch_tree.specs.declared.word.Mark.TheVariants as mark;
ghost use Rattle.porch_walk.specs.declared.symbol.Symbol.TheVariants as symbol;
ghost use Rattle.porch_walk.specs.Walk.{is_mark, kinds_of};
ghost use Rattle.porch_walk.specs.Plans.{took, item, plan, is_kind};
ghost use Rattle.porch_depth.specs.inside.Takes.{TookBy, goes_on, outcome};

use crate::declarations::{
    take_behind_void, take_contents, take_count, take_declarator, take_entries, take_entry,
    take_initial, take_more_entries, take_more_parameters, take_nameless, take_parameters,
};
use crate::expressions::{
    begins_base, begins_operand, take_opened, take_operand, take_operator, take_suffix,
};
use crate::statements::take_statement;
use crate::take::{Here, lie, take, take_if};
use porch_tree::{Keyword, Mark, TagSort, Word};
use porch_walk::{Kinds, Level, Mode, Naming, Reading, Step, Symbol, Taken, is_word, kinds_with};
use std::alloc::AllocError;

// what is behind `struct` or `enum`, or behind a tag
fn take_tag(
    levels: &mut Vec<Level>,
    here: Here,
    sort: TagSort,
    word: Word,
) -> Result<Option<Taken>, AllocError>
    ensures { IfOk result (λ t. TookBy here (plan word false (symbol.Tag sort)) t
        levels.old.items levels.new.items) }
{
    if is_word(word, Word::Mark(Mark::OpenBrace)) {
        take_contents(levels, here, sort)
    } else {
        take(levels, here, 0, &[Step::Up(0)])
    }
}

fn take_tag_body(
    levels: &mut Vec<Level>,
    here: Here,
    sort: TagSort,
    word: Word,
) -> Result<Option<Taken>, AllocError>
    ensures { IfOk result (λ t. TookBy here (plan word false (symbol.TagBody sort)) t
        levels.old.items levels.new.items) }
{
    if is_word(word, Word::Mark(Mark::OpenBrace)) {
        take_contents(levels, here, sort)
    } else {
        let test = is_word(word, Word::Key(Keyword::Const));
        take_if(levels, here, test, 0, &[Step::Up(0)])
    }
}

fn take_fields(levels: &mut Vec<Level>, here: Here, word: Word) -> Result<Option<Taken>, AllocError>
    ensures { IfOk result (λ t. TookBy here (plan word false symbol.Fields) t
        levels.old.items levels.new.items) }
{
    if is_word(word, Word::Mark(Mark::CloseBrace)) {
        take(levels, here, 0, &[])
    } else {
        take(
            levels,
            here,
            1,
            &[Step::Up(0), Step::Up(1), Step::Up(2), Step::Up(1)],
        )
    }
}

// Where a comma parts, or a word ends: what is behind the comma.
fn take_parted(
    levels: &mut Vec<Level>,
    here: Here,
    word: Word,
    steps: &[Step],
) -> Result<Option<Taken>, AllocError>
    ensures { IfOk result (λ t. TookBy here
        (if is_mark mark.Comma word then took 0 (reverse steps.now) else took 0 []) t
        levels.old.items levels.new.items) }
{
    if is_word(word, Word::Mark(Mark::Comma)) {
        take(levels, here, 0, steps)
    } else {
        take(levels, here, 0, &[])
    }
}

fn take_arguments(
    levels: &mut Vec<Level>,
    here: Here,
    word: Word,
) -> Result<Option<Taken>, AllocError>
    ensures { IfOk result (λ t. TookBy here (plan word false symbol.Optional) t
        levels.old.items levels.new.items) }
{
    if begins_operand(word) {
        take_operand(levels, here, &[Step::Up(0)], Mode::Assign, 0, word)
    } else {
        Ok(None)
    }
}

fn take_pointer(
    levels: &mut Vec<Level>,
    here: Here,
    naming: Naming,
    word: Word,
) -> Result<Option<Taken>, AllocError>
    ensures { IfOk result (λ t. TookBy here (plan word false (symbol.Pointer naming)) t
        levels.old.items levels.new.items) }
{
    if is_word(word, Word::Key(Keyword::Const)) {
        take(levels, here, 0, &[Step::Up(0)])
    } else {
        take_declarator(levels, here, &[], naming, 0, word)
    }
}

fn take_next_initial(
    levels: &mut Vec<Level>,
    here: Here,
    word: Word,
) -> Result<Option<Taken>, AllocError>
    ensures { IfOk result (λ t. TookBy here (plan word false symbol.NextInitial) t
        levels.old.items levels.new.items) }
{
    if is_word(word, Word::Mark(Mark::CloseBrace)) {
        take(levels, here, 0, &[])
    } else {
        take_initial(levels, here, &[Step::Up(0)], word)
    }
}

fn take_first_entry(
    levels: &mut Vec<Level>,
    here: Here,
    word: Word,
) -> Result<Option<Taken>, AllocError>
    ensures { IfOk result (λ t. TookBy here (plan word false symbol.FirstEntry) t
        levels.old.items levels.new.items) }
{
    if is_word(word, Word::Mark(Mark::OpenBrace)) {
        take(levels, here, 1, &[Step::Up(1)])
    } else {
        take_entry(levels, here, word)
    }
}

fn take_body(
    levels: &mut Vec<Level>,
    here: Here,
    known: bool,
    word: Word,
) -> Result<Option<Taken>, AllocError>
    ensures { IfOk result (λ t. TookBy here (plan word known symbol.Body) t
        levels.old.items levels.new.items) }
{
    if is_word(word, Word::Key(Keyword::Static)) || begins_base(known, word) {
        take(levels, here, 0, &[Step::Up(0), Step::Up(0), Step::Up(0)])
    } else {
        take_statement(levels, here, &[Step::Up(0)], word)
    }
}

fn take_cases(levels: &mut Vec<Level>, here: Here, word: Word) -> Result<Option<Taken>, AllocError>
    ensures { IfOk result (λ t. TookBy here (plan word false symbol.Cases) t
        levels.old.items levels.new.items) }
{
    if is_word(word, Word::Key(Keyword::Case)) {
        take(levels, here, 0, &[Step::Up(0), Step::Up(0), Step::Up(0)])
    } else if is_word(word, Word::Key(Keyword::Default)) {
        take(levels, here, 0, &[Step::Up(0), Step::Up(0)])
    } else {
        take_statement(levels, here, &[Step::Up(0)], word)
    }
}

fn is_kind(seen: Kinds, word: Word) -> bool
    ensures { result ≡ is_kind (kinds_of seen word) }
{
    match kinds_with(seen, word) {
        None => false,
        Some(_) => true,
    }
}

fn begins_brackets(word: Word) -> bool
    ensures { result ≡ (is_mark mark.OpenBracket word || is_mark mark.OpenParenthesis word) }
{
    is_word(word, Word::Mark(Mark::OpenBracket)) || is_word(word, Word::Mark(Mark::OpenParenthesis))
}

/// What a part does with the word.
pub(crate) fn take_symbol(
    levels: &mut Vec<Level>,
    here: Here,
    symbol: Symbol,
    word: Word,
    known: bool,
) -> Result<Option<Taken>, AllocError>
    ensures { IfOk result (λ t. TookBy here (plan word known symbol) t
        levels.old.items levels.new.items) }
{
    match symbol {
        Symbol::Must(_) | Symbol::EndTypedef => take(levels, here, 0, &[]),
        Symbol::Base => take(levels, here, 0, &[Step::Up(0)]),
        Symbol::Operand(mode) => take_operand(levels, here, &[], mode, 0, word),
        Symbol::Open(mode) => take_opened(levels, here, mode, known, word),
        Symbol::Suffixes => take_suffix(levels, here, word),
        Symbol::Behind(unary) => take_operator(levels, here, unary, word),
        Symbol::Optional => take_arguments(levels, here, word),
        Symbol::Texts | Symbol::Kind(_) | Symbol::Consts | Symbol::ConstantValue | Symbol::Else => {
            let test = goes_on(symbol, word);
            take_if(levels, here, test, 0, &[Step::Up(0)])
        }
        Symbol::Commas | Symbol::Brackets | Symbol::Counts => {
            let test = goes_on(symbol, word);
            take_if(levels, here, test, 0, &[Step::Up(0), Step::Up(0)])
        }
        Symbol::Tag(sort) => take_tag(levels, here, sort, word),
        Symbol::TagBody(sort) => take_tag_body(levels, here, sort, word),
        Symbol::Fields => take_fields(levels, here, word),
        Symbol::MoreDeclarators => { take_parted(levels, here, word, &[Step::Up(0), Step::Up(1)]) }
        Symbol::Constants => {
            take_parted(levels, here, word, &[Step::Up(0), Step::Up(0), Step::Up(0)])
        }
        Symbol::MoreInitials => take_parted(levels, here, word, &[Step::Up(0)]),
        Symbol::Declarator(naming) => take_declarator(levels, here, &[], naming, 0, word),
        Symbol::Pointer(naming) => take_pointer(levels, here, naming, word),
        Symbol::Nameless => take_nameless(levels, here, word),
        Symbol::Count => take_count(levels, here, word),
        Symbol::Parameters => take_parameters(levels, here, word),
        Symbol::Void => take_behind_void(levels, here, word),
        Symbol::MoreParameters => take_more_parameters(levels, here, word),
        Symbol::Entries | Symbol::FileEntries => take_entries(levels, here, word),
        Symbol::Entry => take_entry(levels, here, word),
        Symbol::MoreEntries => take_more_entries(levels, here, word),
        Symbol::Initial => take_initial(levels, here, &[], word),
        Symbol::NextInitial => take_next_initial(levels, here, word),
        Symbol::FirstEntry => take_first_entry(levels, here, word),
        Symbol::Body => take_body(levels, here, known, word),
        Symbol::Statements => take_statement(levels, here, &[Step::Up(0)], word),
        Symbol::Statement => take_statement(levels, here, &[], word),
        Symbol::Cases => take_cases(levels, here, word),
    }
}

// Whether a part that may be left out takes the word, of those that take one word and are offered more.
fn goes_on(symbol: Symbol, word: Word) -> bool
    ensures { result ≡ goes_on symbol word }
{
    match symbol {
        Symbol::Texts => is_word(word, Word::Text),
        Symbol::Kind(seen) => is_kind(seen, word),
        Symbol::Consts => is_word(word, Word::Key(Keyword::Const)),
        Symbol::ConstantValue => is_word(word, Word::Mark(Mark::Equal)),
        Symbol::Else => is_word(word, Word::Key(Keyword::Else)),
        Symbol::Commas => is_word(word, Word::Mark(Mark::Comma)),
        Symbol::Counts => is_word(word, Word::Mark(Mark::OpenBracket)),
        Symbol::Brackets => begins_brackets(word),
        _ => false,
    }
}

/// Where nothing may come but an item, or the end of a function's block.
pub(crate) fn take_item(
    levels: &mut Vec<Level>,
    here: Here,
    word: Word,
) -> Result<Taken, AllocError>
    ensures { IfOk result (λ t. Some (t, reverse levels.new.items)
        ≡ outcome here (Some (item word)) (reverse levels.old.items)) }
{
    if is_word(word, Word::Mark(Mark::CloseBrace)) {
        lie(levels, here, 1, &[])
    } else if is_word(word, Word::Key(Keyword::Typedef)) {
        lie(levels, here, 0, &[Step::Up(0), Step::Up(1), Step::Up(0)])
    } else {
        lie(levels, here, 0, &[Step::Up(0), Step::Up(0)])
    }
}
