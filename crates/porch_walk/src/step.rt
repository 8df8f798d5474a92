//! Single steps of the walk: what is pending behind one more word.

ghost use Rattle.std.specs.Prelude.{◌≡◌, ◌++◌, ◌&&◌, [], ◌∷◌, IfOk, MatchOption, List, ℕ, Bool};
ghost use Rattle.porch_walk.specs.declared.symbol.Symbol.TheVariants as sym;
ghost use Rattle.porch_walk.specs.declared.symbol.Naming.TheVariants as naming;
ghost use Rattle.porch_walk.specs.Walk.{keyword_number, mark_number, word_number, is as is_word, is_infix, is_assigning, rest_of, takes_type, behind_type, contents, kinds_of, nested, base_of, operand, statement};
ghost use Rattle.porch_walk.specs.inside.Steps.{upward, Took, Same, pushed, Turned, Untouched, Begun};

use crate::symbol::{Kinds, Mode, Naming, Symbol};
use porch_tree::{Keyword, Mark, TagSort, Word};
use std::alloc::AllocError;

/// What a symbol did with a word.
#[derive(Clone, Copy, Debug)]
pub(crate) enum Turn {
    Took,
    Refused,
    /// The symbol is left out here.
    LeftOut,
    /// It took the name of a typedef.
    Named,
    /// It took the semicolon of a typedef.
    Declared,
    /// It took the brace of a function's block.
    Entered,
    /// It took the brace that closes a function's block.
    Left,
}

fn keyword(word: Keyword) -> u8
    ensures { result ≡ keyword_number word }
{
    match word {
        Keyword::Auto => 0,
        Keyword::Break => 1,
        Keyword::Case => 2,
        Keyword::Char => 3,
        Keyword::Const => 4,
        Keyword::Continue => 5,
        Keyword::Default => 6,
        Keyword::Do => 7,
        Keyword::Double => 8,
        Keyword::Else => 9,
        Keyword::Enum => 10,
        Keyword::Extern => 11,
        Keyword::Float => 12,
        Keyword::For => 13,
        Keyword::Goto => 14,
        Keyword::If => 15,
        Keyword::Int => 16,
        Keyword::Long => 17,
        Keyword::Register => 18,
        Keyword::Return => 19,
        Keyword::Short => 20,
        Keyword::Signed => 21,
        Keyword::Sizeof => 22,
        Keyword::Static => 23,
        Keyword::Struct => 24,
        Keyword::Switch => 25,
        Keyword::Typedef => 26,
        Keyword::Union => 27,
        Keyword::Unsigned => 28,
        Keyword::Void => 29,
        Keyword::Volatile => 30,
        Keyword::While => 31,
    }
}

fn mark(word: Mark) -> u8
    ensures { result ≡ mark_number word }
{
    match word {
        Mark::OpenBracket => 0,
        Mark::CloseBracket => 1,
        Mark::OpenParenthesis => 2,
        Mark::CloseParenthesis => 3,
        Mark::OpenBrace => 4,
        Mark::CloseBrace => 5,
        Mark::Dot => 6,
        Mark::Arrow => 7,
        Mark::PlusPlus => 8,
        Mark::MinusMinus => 9,
        Mark::And => 10,
        Mark::Star => 11,
        Mark::Plus => 12,
        Mark::Minus => 13,
        Mark::Tilde => 14,
        Mark::Not => 15,
        Mark::Slash => 16,
        Mark::Percent => 17,
        Mark::ShiftLeft => 18,
        Mark::ShiftRight => 19,
        Mark::Less => 20,
        Mark::Greater => 21,
        Mark::LessEqual => 22,
        Mark::GreaterEqual => 23,
        Mark::EqualEqual => 24,
        Mark::NotEqual => 25,
        Mark::Caret => 26,
        Mark::Or => 27,
        Mark::AndAnd => 28,
        Mark::OrOr => 29,
        Mark::Question => 30,
        Mark::Colon => 31,
        Mark::Semicolon => 32,
        Mark::Equal => 33,
        Mark::StarEqual => 34,
        Mark::SlashEqual => 35,
        Mark::PercentEqual => 36,
        Mark::PlusEqual => 37,
        Mark::MinusEqual => 38,
        Mark::ShiftLeftEqual => 39,
        Mark::ShiftRightEqual => 40,
        Mark::AndEqual => 41,
        Mark::CaretEqual => 42,
        Mark::OrEqual => 43,
        Mark::Comma => 44,
    }
}

fn number(word: Word) -> u8
    ensures { result ≡ word_number word }
{
    match word {
        Word::Name => 0,
        Word::Whole => 1,
        Word::Character => 2,
        Word::Text => 3,
        Word::Key(word) => 4 + keyword(word),
        Word::Mark(word) => 36 + mark(word),
    }
}

/// Whether two words are the same one.
pub fn is(word: Word, other: Word) -> bool
    ensures { result ≡ is_word word other }
{
    number(word) == number(other)
}

/// Whether a word is a binary operator.
pub fn infix(word: Word) -> bool
    ensures { result ≡ is_infix word }
{
    matches!(
        word,
        Word::Mark(
            Mark::And
                | Mark::Star
                | Mark::Plus
                | Mark::Minus
                | Mark::Slash
                | Mark::Percent
                | Mark::ShiftLeft
                | Mark::ShiftRight
                | Mark::Less
                | Mark::Greater
                | Mark::LessEqual
                | Mark::GreaterEqual
                | Mark::EqualEqual
                | Mark::NotEqual
                | Mark::Caret
                | Mark::Or
                | Mark::AndAnd
                | Mark::OrOr
        )
    )
}

/// Whether a word is an operator that assigns.
pub fn assigning(word: Word) -> bool
    ensures { result ≡ is_assigning word }
{
    matches!(
        word,
        Word::Mark(
            Mark::Equal
                | Mark::StarEqual
                | Mark::SlashEqual
                | Mark::PercentEqual
                | Mark::PlusEqual
                | Mark::MinusEqual
                | Mark::ShiftLeftEqual
                | Mark::ShiftRightEqual
                | Mark::AndEqual
                | Mark::CaretEqual
                | Mark::OrEqual
        )
    )
}

#[tactic(auto, using(crate::proofs::Upward::upward_append))]
pub(crate) fn put(pending: &mut Vec<Symbol>, symbols: &[Symbol]) -> Result<(), AllocError>
    ensures { IfOk result
        (λ _. upward pending.new.items ≡ upward symbols.now ++ upward pending.old.items) }
{
    pending.extend_from_slice(symbols)?;
    Ok(())
}

#[tactic(auto, using(crate::proofs::Upward::upward_append))]
pub(crate) fn next(pending: &mut Vec<Symbol>) -> Option<Symbol>
    ensures { MatchOption result ((upward pending.old.items ≡ []) × (upward pending.new.items ≡ []))
        (λ s. upward pending.old.items ≡ s ∷ upward pending.new.items) }
{
    pending.pop()
}

fn put_rest(pending: &mut Vec<Symbol>, mode: Mode) -> Result<(), AllocError>
    ensures { IfOk result
        (λ _. upward pending.new.items ≡ rest_of mode (upward pending.old.items)) }
{
    match mode {
        Mode::Assign => put(pending, &[Symbol::Behind(true)]),
        Mode::Cond => put(pending, &[Symbol::Behind(false)]),
        Mode::Cast | Mode::Unary | Mode::Size => Ok(()),
    }
}

fn put_behind_type(pending: &mut Vec<Symbol>, mode: Mode) -> Result<(), AllocError>
    ensures { IfOk result
        (λ _. upward pending.new.items ≡ behind_type mode (upward pending.old.items)) }
{
    match mode {
        Mode::Assign | Mode::Cond => put(
            pending,
            &[Symbol::Behind(false), Symbol::Operand(Mode::Cast)],
        ),
        Mode::Cast | Mode::Unary => put(pending, &[Symbol::Operand(Mode::Cast)]),
        Mode::Size => Ok(()),
    }
}

fn takes(mode: Mode) -> bool
    ensures { result ≡ takes_type mode }
{
    match mode {
        Mode::Unary => false,
        Mode::Assign | Mode::Cond | Mode::Cast | Mode::Size => true,
    }
}

/// Which words of a kind have been read behind one more, if it may come.
pub fn kinds_with(seen: Kinds, word: Word) -> Option<Kinds>
    ensures { result ≡ kinds_of seen word }
{
    match word {
        Word::Key(Keyword::Const) => Some(seen),
        Word::Key(Keyword::Char) => {
            if seen.char || seen.length || seen.int {
                None
            } else {
                Some(Kinds {
                    char: true,
                    length: seen.length,
                    int: seen.int,
                    sign: seen.sign,
                })
            }
        }
        Word::Key(Keyword::Short | Keyword::Long) => {
            if seen.char || seen.length {
                None
            } else {
                Some(Kinds {
                    char: seen.char,
                    length: true,
                    int: seen.int,
                    sign: seen.sign,
                })
            }
        }
        Word::Key(Keyword::Int) => {
            if seen.char || seen.int {
                None
            } else {
                Some(Kinds {
                    char: seen.char,
                    length: seen.length,
                    int: true,
                    sign: seen.sign,
                })
            }
        }
        Word::Key(Keyword::Signed | Keyword::Unsigned) => {
            if seen.sign {
                None
            } else {
                Some(Kinds {
                    char: seen.char,
                    length: seen.length,
                    int: seen.int,
                    sign: true,
                })
            }
        }
        _ => None,
    }
}

/// What is pending behind the first word of a base, if the word is one.
pub(crate) fn base_symbol(word: Word, known: bool) -> Option<Symbol>
    ensures { (types : List (List ℕ)) (fresh : List ℕ) (i : Bool) (ss : List _)
        → base_of types fresh i ss word known ≡ pushed types fresh i ss result }
{
    match word {
        Word::Name => { if known { Some(Symbol::Consts) } else { None } }
        Word::Key(Keyword::Const) => Some(Symbol::Base),
        Word::Key(Keyword::Void) => Some(Symbol::Consts),
        Word::Key(Keyword::Struct) => Some(Symbol::Tag(TagSort::Struct)),
        Word::Key(Keyword::Enum) => Some(Symbol::Tag(TagSort::Enum)),
        Word::Key(Keyword::Char) => Some(Symbol::Kind(Kinds {
            char: true,
            length: false,
            int: false,
            sign: false,
        })),
        Word::Key(Keyword::Short | Keyword::Long) => Some(Symbol::Kind(Kinds {
            char: false,
            length: true,
            int: false,
            sign: false,
        })),
        Word::Key(Keyword::Int) => Some(Symbol::Kind(Kinds {
            char: false,
            length: false,
            int: true,
            sign: false,
        })),
        Word::Key(Keyword::Signed | Keyword::Unsigned) => Some(Symbol::Kind(Kinds {
            char: false,
            length: false,
            int: false,
            sign: true,
        })),
        _ => None,
    }
}

/// An operand in front of these symbols.
fn begin_operand(
    pending: &mut Vec<Symbol>,
    under: &[Symbol],
    below: &[Symbol],
    mode: Mode,
    word: Word,
) -> Result<bool, AllocError>
    ensures took { IfOk result (λ b. Took
        (λ ts f i. operand ts f i mode
        (upward below.now ++ (upward under.now ++ upward pending.old.items)) word)
        b (upward pending.new.items)) }
    ensures same { IfOk result (λ b. Same b (upward pending.old.items) (upward pending.new.items)) }
{
    match word {
        Word::Name | Word::Whole | Word::Character => {
            put(pending, under)?;
            put(pending, below)?;
            put_rest(pending, mode)?;
            put(pending, &[Symbol::Suffixes])?;
            Ok(true)
        }
        Word::Text => {
            put(pending, under)?;
            put(pending, below)?;
            put_rest(pending, mode)?;
            put(pending, &[Symbol::Suffixes, Symbol::Texts])?;
            Ok(true)
        }
        Word::Key(Keyword::Sizeof) => {
            put(pending, under)?;
            put(pending, below)?;
            put_rest(pending, mode)?;
            put(pending, &[Symbol::Operand(Mode::Size)])?;
            Ok(true)
        }
        Word::Mark(Mark::OpenParenthesis) => {
            put(pending, under)?;
            put(pending, below)?;
            put(pending, &[Symbol::Open(mode)])?;
            Ok(true)
        }
        Word::Mark(Mark::PlusPlus | Mark::MinusMinus) => {
            put(pending, under)?;
            put(pending, below)?;
            put_rest(pending, mode)?;
            put(pending, &[Symbol::Operand(Mode::Unary)])?;
            Ok(true)
        }
        Word::Mark(Mark::And | Mark::Star | Mark::Plus | Mark::Minus | Mark::Tilde | Mark::Not) => {
            put(pending, under)?;
            put(pending, below)?;
            put_rest(pending, mode)?;
            put(pending, &[Symbol::Operand(Mode::Cast)])?;
            Ok(true)
        }
        _ => Ok(false),
    }
}

fn must_turn(
    pending: &mut Vec<Symbol>,
    wanted: Word,
    word: Word,
    known: bool,
) -> Result<Turn, AllocError>
    ensures turned { IfOk result
        (λ t. Turned known (sym.Must wanted ∷ upward pending.old.items) t word
        (upward pending.old.items) (upward pending.new.items)) }
    ensures untouched { IfOk result
        (λ t. Untouched t (upward pending.old.items) (upward pending.new.items)) }
{
    if is(word, wanted) {
        Ok(Turn::Took)
    } else {
        Ok(Turn::Refused)
    }
}

fn texts_turn(pending: &mut Vec<Symbol>, word: Word, known: bool) -> Result<Turn, AllocError>
    ensures turned { IfOk result (λ t. Turned known (sym.Texts ∷ upward pending.old.items) t word
        (upward pending.old.items) (upward pending.new.items)) }
    ensures untouched { IfOk result
        (λ t. Untouched t (upward pending.old.items) (upward pending.new.items)) }
{
    if is(word, Word::Text) {
        put(pending, &[Symbol::Texts])?;
        Ok(Turn::Took)
    } else {
        Ok(Turn::LeftOut)
    }
}

fn suffixes_turn(pending: &mut Vec<Symbol>, word: Word, known: bool) -> Result<Turn, AllocError>
    ensures turned { IfOk result (λ t. Turned known (sym.Suffixes ∷ upward pending.old.items) t word
        (upward pending.old.items) (upward pending.new.items)) }
    ensures untouched { IfOk result
        (λ t. Untouched t (upward pending.old.items) (upward pending.new.items)) }
{
    match word {
        Word::Mark(Mark::OpenBracket) => {
            put(
                pending,
                &[
                    Symbol::Suffixes,
                    Symbol::Must(Word::Mark(Mark::CloseBracket)),
                    Symbol::Commas,
                    Symbol::Operand(Mode::Assign),
                ],
            )?;
            Ok(Turn::Took)
        }
        Word::Mark(Mark::OpenParenthesis) => {
            put(
                pending,
                &[
                    Symbol::Suffixes,
                    Symbol::Must(Word::Mark(Mark::CloseParenthesis)),
                    Symbol::Optional,
                ],
            )?;
            Ok(Turn::Took)
        }
        Word::Mark(Mark::Dot | Mark::Arrow) => {
            put(pending, &[Symbol::Suffixes, Symbol::Must(Word::Name)])?;
            Ok(Turn::Took)
        }
        Word::Mark(Mark::PlusPlus | Mark::MinusMinus) => {
            put(pending, &[Symbol::Suffixes])?;
            Ok(Turn::Took)
        }
        _ => Ok(Turn::LeftOut),
    }
}

fn assigns(unary: bool, word: Word) -> bool
    ensures { result ≡ (unary && is_assigning word) }
{
    if unary { assigning(word) } else { false }
}

fn behind_turn(
    pending: &mut Vec<Symbol>,
    unary: bool,
    word: Word,
    known: bool,
) -> Result<Turn, AllocError>
    ensures turned { IfOk result
        (λ t. Turned known (sym.Behind unary ∷ upward pending.old.items) t word
        (upward pending.old.items) (upward pending.new.items)) }
    ensures untouched { IfOk result
        (λ t. Untouched t (upward pending.old.items) (upward pending.new.items)) }
{
    if infix(word) {
        put(
            pending,
            &[Symbol::Behind(false), Symbol::Operand(Mode::Cast)],
        )?;
        Ok(Turn::Took)
    } else if is(word, Word::Mark(Mark::Question)) {
        put(
            pending,
            &[
                Symbol::Operand(Mode::Cond),
                Symbol::Must(Word::Mark(Mark::Colon)),
                Symbol::Commas,
                Symbol::Operand(Mode::Assign),
            ],
        )?;
        Ok(Turn::Took)
    } else if assigns(unary, word) {
        put(pending, &[Symbol::Operand(Mode::Assign)])?;
        Ok(Turn::Took)
    } else {
        Ok(Turn::LeftOut)
    }
}

fn commas_turn(pending: &mut Vec<Symbol>, word: Word, known: bool) -> Result<Turn, AllocError>
    ensures turned { IfOk result (λ t. Turned known (sym.Commas ∷ upward pending.old.items) t word
        (upward pending.old.items) (upward pending.new.items)) }
    ensures untouched { IfOk result
        (λ t. Untouched t (upward pending.old.items) (upward pending.new.items)) }
{
    if is(word, Word::Mark(Mark::Comma)) {
        put(pending, &[Symbol::Commas, Symbol::Operand(Mode::Assign)])?;
        Ok(Turn::Took)
    } else {
        Ok(Turn::LeftOut)
    }
}

fn operand_turn(
    pending: &mut Vec<Symbol>,
    mode: Mode,
    word: Word,
    known: bool,
) -> Result<Turn, AllocError>
    ensures turned { IfOk result
        (λ t. Turned known (sym.Operand mode ∷ upward pending.old.items) t word
        (upward pending.old.items) (upward pending.new.items)) }
    ensures untouched { IfOk result
        (λ t. Untouched t (upward pending.old.items) (upward pending.new.items)) }
{
    if begin_operand(pending, &[], &[], mode, word)? {
        Ok(Turn::Took)
    } else {
        Ok(Turn::Refused)
    }
}

fn optional_turn(pending: &mut Vec<Symbol>, word: Word, known: bool) -> Result<Turn, AllocError>
    ensures turned { IfOk result (λ t. Turned known (sym.Optional ∷ upward pending.old.items) t word
        (upward pending.old.items) (upward pending.new.items)) }
    ensures untouched { IfOk result
        (λ t. Untouched t (upward pending.old.items) (upward pending.new.items)) }
{
    if begin_operand(pending, &[], &[Symbol::Commas], Mode::Assign, word)? {
        Ok(Turn::Took)
    } else {
        Ok(Turn::LeftOut)
    }
}

/// An expression in parentheses of which the first has been read.
fn begin_nested(pending: &mut Vec<Symbol>, mode: Mode, word: Word) -> Result<bool, AllocError>
    ensures { IfOk result (λ b. Took (λ ts f i. nested ts f i mode (upward pending.old.items) word)
        b (upward pending.new.items)) }
{
    put_rest(pending, mode)?;
    begin_operand(
        pending,
        &[],
        &[
            Symbol::Suffixes,
            Symbol::Must(Word::Mark(Mark::CloseParenthesis)),
            Symbol::Commas,
        ],
        Mode::Assign,
        word,
    )
}

fn open_turn(
    pending: &mut Vec<Symbol>,
    mode: Mode,
    word: Word,
    known: bool,
) -> Result<Turn, AllocError>
    ensures turned { IfOk result
        (λ t. Turned known (sym.Open mode ∷ upward pending.old.items) t word
        (upward pending.old.items) (upward pending.new.items)) }
    ensures untouched { IfOk result
        (λ t. Untouched t (upward pending.old.items) (upward pending.new.items)) }
{
    if takes(mode) {
        match base_symbol(word, known) {
            Some(symbol) => {
                put_behind_type(pending, mode)?;
                put(
                    pending,
                    &[
                        Symbol::Must(Word::Mark(Mark::CloseParenthesis)),
                        Symbol::Declarator(Naming::Abstract),
                        symbol,
                    ],
                )?;
                Ok(Turn::Took)
            }
            None => {
                if begin_nested(pending, mode, word)? {
                    Ok(Turn::Took)
                } else {
                    Ok(Turn::Refused)
                }
            }
        }
    } else if begin_nested(pending, mode, word)? {
        Ok(Turn::Took)
    } else {
        Ok(Turn::Refused)
    }
}

fn base_turn(pending: &mut Vec<Symbol>, word: Word, known: bool) -> Result<Turn, AllocError>
    ensures turned { IfOk result (λ t. Turned known (sym.Base ∷ upward pending.old.items) t word
        (upward pending.old.items) (upward pending.new.items)) }
    ensures untouched { IfOk result
        (λ t. Untouched t (upward pending.old.items) (upward pending.new.items)) }
{
    match base_symbol(word, known) {
        Some(symbol) => {
            put(pending, &[symbol])?;
            Ok(Turn::Took)
        }
        None => Ok(Turn::Refused),
    }
}

fn kind_turn(
    pending: &mut Vec<Symbol>,
    seen: Kinds,
    word: Word,
    known: bool,
) -> Result<Turn, AllocError>
    ensures turned { IfOk result
        (λ t. Turned known (sym.Kind seen ∷ upward pending.old.items) t word
        (upward pending.old.items) (upward pending.new.items)) }
    ensures untouched { IfOk result
        (λ t. Untouched t (upward pending.old.items) (upward pending.new.items)) }
{
    match kinds_with(seen, word) {
        Some(kinds) => {
            put(pending, &[Symbol::Kind(kinds)])?;
            Ok(Turn::Took)
        }
        None => Ok(Turn::LeftOut),
    }
}

fn consts_turn(pending: &mut Vec<Symbol>, word: Word, known: bool) -> Result<Turn, AllocError>
    ensures turned { IfOk result (λ t. Turned known (sym.Consts ∷ upward pending.old.items) t word
        (upward pending.old.items) (upward pending.new.items)) }
    ensures untouched { IfOk result
        (λ t. Untouched t (upward pending.old.items) (upward pending.new.items)) }
{
    if is(word, Word::Key(Keyword::Const)) {
        put(pending, &[Symbol::Consts])?;
        Ok(Turn::Took)
    } else {
        Ok(Turn::LeftOut)
    }
}

fn put_contents(pending: &mut Vec<Symbol>, sort: TagSort) -> Result<(), AllocError>
    ensures { IfOk result
        (λ _. upward pending.new.items ≡ contents sort (upward pending.old.items)) }
{
    match sort {
        TagSort::Struct => put(
            pending,
            &[
                Symbol::Consts,
                Symbol::Fields,
                Symbol::MoreDeclarators,
                Symbol::Declarator(Naming::Must),
                Symbol::Base,
            ],
        ),
        TagSort::Enum => put(
            pending,
            &[
                Symbol::Consts,
                Symbol::Constants,
                Symbol::ConstantValue,
                Symbol::Must(Word::Name),
            ],
        ),
    }
}

fn tag_turn(
    pending: &mut Vec<Symbol>,
    sort: TagSort,
    word: Word,
    known: bool,
) -> Result<Turn, AllocError>
    ensures turned { IfOk result (λ t. Turned known (sym.Tag sort ∷ upward pending.old.items) t word
        (upward pending.old.items) (upward pending.new.items)) }
    ensures untouched { IfOk result
        (λ t. Untouched t (upward pending.old.items) (upward pending.new.items)) }
{
    if is(word, Word::Name) {
        put(pending, &[Symbol::TagBody(sort)])?;
        Ok(Turn::Took)
    } else if is(word, Word::Mark(Mark::OpenBrace)) {
        put_contents(pending, sort)?;
        Ok(Turn::Took)
    } else {
        Ok(Turn::Refused)
    }
}

fn tag_body_turn(
    pending: &mut Vec<Symbol>,
    sort: TagSort,
    word: Word,
    known: bool,
) -> Result<Turn, AllocError>
    ensures turned { IfOk result
        (λ t. Turned known (sym.TagBody sort ∷ upward pending.old.items) t word
        (upward pending.old.items) (upward pending.new.items)) }
    ensures untouched { IfOk result
        (λ t. Untouched t (upward pending.old.items) (upward pending.new.items)) }
{
    if is(word, Word::Mark(Mark::OpenBrace)) {
        put_contents(pending, sort)?;
        Ok(Turn::Took)
    } else if is(word, Word::Key(Keyword::Const)) {
        put(pending, &[Symbol::Consts])?;
        Ok(Turn::Took)
    } else {
        Ok(Turn::LeftOut)
    }
}

fn fields_turn(pending: &mut Vec<Symbol>, word: Word, known: bool) -> Result<Turn, AllocError>
    ensures turned { IfOk result (λ t. Turned known (sym.Fields ∷ upward pending.old.items) t word
        (upward pending.old.items) (upward pending.new.items)) }
    ensures untouched { IfOk result
        (λ t. Untouched t (upward pending.old.items) (upward pending.new.items)) }
{
    if is(word, Word::Mark(Mark::CloseBrace)) {
        Ok(Turn::Took)
    } else {
        match base_symbol(word, known) {
            Some(symbol) => {
                put(
                    pending,
                    &[
                        Symbol::Fields,
                        Symbol::MoreDeclarators,
                        Symbol::Declarator(Naming::Must),
                        symbol,
                    ],
                )?;
                Ok(Turn::Took)
            }
            None => Ok(Turn::Refused),
        }
    }
}

fn more_declarators_turn(
    pending: &mut Vec<Symbol>,
    word: Word,
    known: bool,
) -> Result<Turn, AllocError>
    ensures turned { IfOk result
        (λ t. Turned known (sym.MoreDeclarators ∷ upward pending.old.items) t word
        (upward pending.old.items) (upward pending.new.items)) }
    ensures untouched { IfOk result
        (λ t. Untouched t (upward pending.old.items) (upward pending.new.items)) }
{
    if is(word, Word::Mark(Mark::Comma)) {
        put(
            pending,
            &[Symbol::MoreDeclarators, Symbol::Declarator(Naming::Must)],
        )?;
        Ok(Turn::Took)
    } else if is(word, Word::Mark(Mark::Semicolon)) {
        Ok(Turn::Took)
    } else {
        Ok(Turn::Refused)
    }
}

fn constant_value_turn(
    pending: &mut Vec<Symbol>,
    word: Word,
    known: bool,
) -> Result<Turn, AllocError>
    ensures turned { IfOk result
        (λ t. Turned known (sym.ConstantValue ∷ upward pending.old.items) t word
        (upward pending.old.items) (upward pending.new.items)) }
    ensures untouched { IfOk result
        (λ t. Untouched t (upward pending.old.items) (upward pending.new.items)) }
{
    if is(word, Word::Mark(Mark::Equal)) {
        put(pending, &[Symbol::Operand(Mode::Cond)])?;
        Ok(Turn::Took)
    } else {
        Ok(Turn::LeftOut)
    }
}

fn constants_turn(pending: &mut Vec<Symbol>, word: Word, known: bool) -> Result<Turn, AllocError>
    ensures turned { IfOk result
        (λ t. Turned known (sym.Constants ∷ upward pending.old.items) t word
        (upward pending.old.items) (upward pending.new.items)) }
    ensures untouched { IfOk result
        (λ t. Untouched t (upward pending.old.items) (upward pending.new.items)) }
{
    if is(word, Word::Mark(Mark::Comma)) {
        put(
            pending,
            &[
                Symbol::Constants,
                Symbol::ConstantValue,
                Symbol::Must(Word::Name),
            ],
        )?;
        Ok(Turn::Took)
    } else if is(word, Word::Mark(Mark::CloseBrace)) {
        Ok(Turn::Took)
    } else {
        Ok(Turn::Refused)
    }
}

fn brackets_turn(pending: &mut Vec<Symbol>, word: Word, known: bool) -> Result<Turn, AllocError>
    ensures turned { IfOk result (λ t. Turned known (sym.Brackets ∷ upward pending.old.items) t word
        (upward pending.old.items) (upward pending.new.items)) }
    ensures untouched { IfOk result
        (λ t. Untouched t (upward pending.old.items) (upward pending.new.items)) }
{
    if is(word, Word::Mark(Mark::OpenBracket)) {
        put(pending, &[Symbol::Brackets, Symbol::Count])?;
        Ok(Turn::Took)
    } else if is(word, Word::Mark(Mark::OpenParenthesis)) {
        put(pending, &[Symbol::Brackets, Symbol::Parameters])?;
        Ok(Turn::Took)
    } else {
        Ok(Turn::LeftOut)
    }
}

fn counts_turn(pending: &mut Vec<Symbol>, word: Word, known: bool) -> Result<Turn, AllocError>
    ensures turned { IfOk result (λ t. Turned known (sym.Counts ∷ upward pending.old.items) t word
        (upward pending.old.items) (upward pending.new.items)) }
    ensures untouched { IfOk result
        (λ t. Untouched t (upward pending.old.items) (upward pending.new.items)) }
{
    if is(word, Word::Mark(Mark::OpenBracket)) {
        put(pending, &[Symbol::Counts, Symbol::Count])?;
        Ok(Turn::Took)
    } else {
        Ok(Turn::LeftOut)
    }
}

fn count_turn(pending: &mut Vec<Symbol>, word: Word, known: bool) -> Result<Turn, AllocError>
    ensures turned { IfOk result (λ t. Turned known (sym.Count ∷ upward pending.old.items) t word
        (upward pending.old.items) (upward pending.new.items)) }
    ensures untouched { IfOk result
        (λ t. Untouched t (upward pending.old.items) (upward pending.new.items)) }
{
    if is(word, Word::Mark(Mark::CloseBracket)) {
        Ok(Turn::Took)
    } else if begin_operand(
        pending,
        &[],
        &[Symbol::Must(Word::Mark(Mark::CloseBracket))],
        Mode::Cond,
        word,
    )? {
        Ok(Turn::Took)
    } else {
        Ok(Turn::Refused)
    }
}

fn more_parameters_turn(
    pending: &mut Vec<Symbol>,
    word: Word,
    known: bool,
) -> Result<Turn, AllocError>
    ensures turned { IfOk result
        (λ t. Turned known (sym.MoreParameters ∷ upward pending.old.items) t word
        (upward pending.old.items) (upward pending.new.items)) }
    ensures untouched { IfOk result
        (λ t. Untouched t (upward pending.old.items) (upward pending.new.items)) }
{
    if is(word, Word::Mark(Mark::Comma)) {
        put(
            pending,
            &[
                Symbol::MoreParameters,
                Symbol::Declarator(Naming::May),
                Symbol::Base,
            ],
        )?;
        Ok(Turn::Took)
    } else if is(word, Word::Mark(Mark::CloseParenthesis)) {
        Ok(Turn::Took)
    } else {
        Ok(Turn::Refused)
    }
}

fn more_entries_turn(pending: &mut Vec<Symbol>, word: Word, known: bool) -> Result<Turn, AllocError>
    ensures turned { IfOk result
        (λ t. Turned known (sym.MoreEntries ∷ upward pending.old.items) t word
        (upward pending.old.items) (upward pending.new.items)) }
    ensures untouched { IfOk result
        (λ t. Untouched t (upward pending.old.items) (upward pending.new.items)) }
{
    if is(word, Word::Mark(Mark::Comma)) {
        put(pending, &[Symbol::Entry, Symbol::Declarator(Naming::Must)])?;
        Ok(Turn::Took)
    } else if is(word, Word::Mark(Mark::Semicolon)) {
        Ok(Turn::Took)
    } else {
        Ok(Turn::Refused)
    }
}

fn entry_turn(pending: &mut Vec<Symbol>, word: Word, known: bool) -> Result<Turn, AllocError>
    ensures turned { IfOk result (λ t. Turned known (sym.Entry ∷ upward pending.old.items) t word
        (upward pending.old.items) (upward pending.new.items)) }
    ensures untouched { IfOk result
        (λ t. Untouched t (upward pending.old.items) (upward pending.new.items)) }
{
    if is(word, Word::Mark(Mark::Equal)) {
        put(pending, &[Symbol::MoreEntries, Symbol::Initial])?;
        Ok(Turn::Took)
    } else {
        more_entries_turn(pending, word, known)
    }
}

fn initial_turn(pending: &mut Vec<Symbol>, word: Word, known: bool) -> Result<Turn, AllocError>
    ensures turned { IfOk result (λ t. Turned known (sym.Initial ∷ upward pending.old.items) t word
        (upward pending.old.items) (upward pending.new.items)) }
    ensures untouched { IfOk result
        (λ t. Untouched t (upward pending.old.items) (upward pending.new.items)) }
{
    if is(word, Word::Mark(Mark::OpenBrace)) {
        put(pending, &[Symbol::MoreInitials, Symbol::Initial])?;
        Ok(Turn::Took)
    } else if begin_operand(pending, &[], &[], Mode::Assign, word)? {
        Ok(Turn::Took)
    } else {
        Ok(Turn::Refused)
    }
}

fn more_initials_turn(
    pending: &mut Vec<Symbol>,
    word: Word,
    known: bool,
) -> Result<Turn, AllocError>
    ensures turned { IfOk result
        (λ t. Turned known (sym.MoreInitials ∷ upward pending.old.items) t word
        (upward pending.old.items) (upward pending.new.items)) }
    ensures untouched { IfOk result
        (λ t. Untouched t (upward pending.old.items) (upward pending.new.items)) }
{
    if is(word, Word::Mark(Mark::Comma)) {
        put(pending, &[Symbol::NextInitial])?;
        Ok(Turn::Took)
    } else if is(word, Word::Mark(Mark::CloseBrace)) {
        Ok(Turn::Took)
    } else {
        Ok(Turn::Refused)
    }
}

fn next_initial_turn(pending: &mut Vec<Symbol>, word: Word, known: bool) -> Result<Turn, AllocError>
    ensures turned { IfOk result
        (λ t. Turned known (sym.NextInitial ∷ upward pending.old.items) t word
        (upward pending.old.items) (upward pending.new.items)) }
    ensures untouched { IfOk result
        (λ t. Untouched t (upward pending.old.items) (upward pending.new.items)) }
{
    if is(word, Word::Mark(Mark::CloseBrace)) {
        Ok(Turn::Took)
    } else if is(word, Word::Mark(Mark::OpenBrace)) {
        put(
            pending,
            &[Symbol::MoreInitials, Symbol::MoreInitials, Symbol::Initial],
        )?;
        Ok(Turn::Took)
    } else if begin_operand(pending, &[], &[Symbol::MoreInitials], Mode::Assign, word)? {
        Ok(Turn::Took)
    } else {
        Ok(Turn::Refused)
    }
}

fn end_typedef_turn(pending: &mut Vec<Symbol>, word: Word, known: bool) -> Result<Turn, AllocError>
    ensures turned { IfOk result
        (λ t. Turned known (sym.EndTypedef ∷ upward pending.old.items) t word
        (upward pending.old.items) (upward pending.new.items)) }
    ensures untouched { IfOk result
        (λ t. Untouched t (upward pending.old.items) (upward pending.new.items)) }
{
    if is(word, Word::Mark(Mark::Semicolon)) {
        Ok(Turn::Declared)
    } else {
        Ok(Turn::Refused)
    }
}

fn first_entry_turn(pending: &mut Vec<Symbol>, word: Word, known: bool) -> Result<Turn, AllocError>
    ensures turned { IfOk result
        (λ t. Turned known (sym.FirstEntry ∷ upward pending.old.items) t word
        (upward pending.old.items) (upward pending.new.items)) }
    ensures untouched { IfOk result
        (λ t. Untouched t (upward pending.old.items) (upward pending.new.items)) }
{
    if is(word, Word::Mark(Mark::OpenBrace)) {
        put(pending, &[Symbol::Body])?;
        Ok(Turn::Entered)
    } else {
        entry_turn(pending, word, known)
    }
}

fn else_turn(pending: &mut Vec<Symbol>, word: Word, known: bool) -> Result<Turn, AllocError>
    ensures turned { IfOk result (λ t. Turned known (sym.Else ∷ upward pending.old.items) t word
        (upward pending.old.items) (upward pending.new.items)) }
    ensures untouched { IfOk result
        (λ t. Untouched t (upward pending.old.items) (upward pending.new.items)) }
{
    if is(word, Word::Key(Keyword::Else)) {
        put(pending, &[Symbol::Statement])?;
        Ok(Turn::Took)
    } else {
        Ok(Turn::LeftOut)
    }
}

fn named_turn(pending: &mut Vec<Symbol>, word: Word, known: bool) -> Result<Turn, AllocError>
    ensures turned { IfOk result
        (λ t. Turned known (sym.Declarator naming.Must ∷ upward pending.old.items) t word
        (upward pending.old.items) (upward pending.new.items)) }
    ensures untouched { IfOk result
        (λ t. Untouched t (upward pending.old.items) (upward pending.new.items)) }
{
    if is(word, Word::Mark(Mark::Star)) {
        put(pending, &[Symbol::Pointer(Naming::Must)])?;
        Ok(Turn::Took)
    } else if is(word, Word::Name) {
        put(pending, &[Symbol::Brackets])?;
        Ok(Turn::Took)
    } else if is(word, Word::Mark(Mark::OpenParenthesis)) {
        put(
            pending,
            &[
                Symbol::Brackets,
                Symbol::Must(Word::Mark(Mark::CloseParenthesis)),
                Symbol::Declarator(Naming::Must),
            ],
        )?;
        Ok(Turn::Took)
    } else {
        Ok(Turn::Refused)
    }
}

fn typedef_turn(pending: &mut Vec<Symbol>, word: Word, known: bool) -> Result<Turn, AllocError>
    ensures turned { IfOk result
        (λ t. Turned known (sym.Declarator naming.Typedef ∷ upward pending.old.items) t word
        (upward pending.old.items) (upward pending.new.items)) }
    ensures untouched { IfOk result
        (λ t. Untouched t (upward pending.old.items) (upward pending.new.items)) }
{
    if is(word, Word::Mark(Mark::Star)) {
        put(pending, &[Symbol::Pointer(Naming::Typedef)])?;
        Ok(Turn::Took)
    } else if is(word, Word::Name) {
        put(pending, &[Symbol::Brackets])?;
        Ok(Turn::Named)
    } else if is(word, Word::Mark(Mark::OpenParenthesis)) {
        put(
            pending,
            &[
                Symbol::Brackets,
                Symbol::Must(Word::Mark(Mark::CloseParenthesis)),
                Symbol::Declarator(Naming::Typedef),
            ],
        )?;
        Ok(Turn::Took)
    } else {
        Ok(Turn::Refused)
    }
}

fn parameter_turn(pending: &mut Vec<Symbol>, word: Word, known: bool) -> Result<Turn, AllocError>
    ensures turned { IfOk result
        (λ t. Turned known (sym.Declarator naming.May ∷ upward pending.old.items) t word
        (upward pending.old.items) (upward pending.new.items)) }
    ensures untouched { IfOk result
        (λ t. Untouched t (upward pending.old.items) (upward pending.new.items)) }
{
    if is(word, Word::Mark(Mark::Star)) {
        put(pending, &[Symbol::Pointer(Naming::May)])?;
        Ok(Turn::Took)
    } else if is(word, Word::Name) {
        put(pending, &[Symbol::Brackets])?;
        Ok(Turn::Took)
    } else if is(word, Word::Mark(Mark::OpenParenthesis)) {
        put(pending, &[Symbol::Nameless])?;
        Ok(Turn::Took)
    } else if is(word, Word::Mark(Mark::OpenBracket)) {
        put(pending, &[Symbol::Brackets, Symbol::Count])?;
        Ok(Turn::Took)
    } else {
        Ok(Turn::LeftOut)
    }
}

fn abstract_turn(pending: &mut Vec<Symbol>, word: Word, known: bool) -> Result<Turn, AllocError>
    ensures turned { IfOk result
        (λ t. Turned known (sym.Declarator naming.Abstract ∷ upward pending.old.items) t word
        (upward pending.old.items) (upward pending.new.items)) }
    ensures untouched { IfOk result
        (λ t. Untouched t (upward pending.old.items) (upward pending.new.items)) }
{
    if is(word, Word::Mark(Mark::Star)) {
        put(pending, &[Symbol::Pointer(Naming::Abstract)])?;
        Ok(Turn::Took)
    } else if is(word, Word::Mark(Mark::OpenBracket)) {
        put(pending, &[Symbol::Counts, Symbol::Count])?;
        Ok(Turn::Took)
    } else {
        Ok(Turn::LeftOut)
    }
}

fn declarator_turn(
    pending: &mut Vec<Symbol>,
    naming: Naming,
    word: Word,
    known: bool,
) -> Result<Turn, AllocError>
    ensures turned { IfOk result
        (λ t. Turned known (sym.Declarator naming ∷ upward pending.old.items) t word
        (upward pending.old.items) (upward pending.new.items)) }
    ensures untouched { IfOk result
        (λ t. Untouched t (upward pending.old.items) (upward pending.new.items)) }
{
    match naming {
        Naming::Must => named_turn(pending, word, known),
        Naming::Typedef => typedef_turn(pending, word, known),
        Naming::May => parameter_turn(pending, word, known),
        Naming::Abstract => abstract_turn(pending, word, known),
    }
}

fn pointer_turn(
    pending: &mut Vec<Symbol>,
    naming: Naming,
    word: Word,
    known: bool,
) -> Result<Turn, AllocError>
    ensures turned { IfOk result
        (λ t. Turned known (sym.Pointer naming ∷ upward pending.old.items) t word
        (upward pending.old.items) (upward pending.new.items)) }
    ensures untouched { IfOk result
        (λ t. Untouched t (upward pending.old.items) (upward pending.new.items)) }
{
    if is(word, Word::Key(Keyword::Const)) {
        put(pending, &[Symbol::Pointer(naming)])?;
        Ok(Turn::Took)
    } else {
        declarator_turn(pending, naming, word, known)
    }
}

fn nameless_turn(pending: &mut Vec<Symbol>, word: Word, known: bool) -> Result<Turn, AllocError>
    ensures turned { IfOk result (λ t. Turned known (sym.Nameless ∷ upward pending.old.items) t word
        (upward pending.old.items) (upward pending.new.items)) }
    ensures untouched { IfOk result
        (λ t. Untouched t (upward pending.old.items) (upward pending.new.items)) }
{
    if is(word, Word::Mark(Mark::CloseParenthesis)) {
        put(pending, &[Symbol::Brackets])?;
        Ok(Turn::Took)
    } else if is(word, Word::Key(Keyword::Void)) {
        put(pending, &[Symbol::Brackets, Symbol::Void])?;
        Ok(Turn::Took)
    } else {
        match base_symbol(word, false) {
            Some(symbol) => {
                put(
                    pending,
                    &[
                        Symbol::Brackets,
                        Symbol::MoreParameters,
                        Symbol::Declarator(Naming::May),
                        symbol,
                    ],
                )?;
                Ok(Turn::Took)
            }
            None => {
                if is(word, Word::Mark(Mark::Star)) {
                    put(
                        pending,
                        &[
                            Symbol::Brackets,
                            Symbol::Must(Word::Mark(Mark::CloseParenthesis)),
                            Symbol::Pointer(Naming::May),
                        ],
                    )?;
                    Ok(Turn::Took)
                } else if is(word, Word::Name) {
                    put(
                        pending,
                        &[
                            Symbol::Brackets,
                            Symbol::Must(Word::Mark(Mark::CloseParenthesis)),
                            Symbol::Brackets,
                        ],
                    )?;
                    Ok(Turn::Took)
                } else if is(word, Word::Mark(Mark::OpenParenthesis)) {
                    put(
                        pending,
                        &[
                            Symbol::Brackets,
                            Symbol::Must(Word::Mark(Mark::CloseParenthesis)),
                            Symbol::Nameless,
                        ],
                    )?;
                    Ok(Turn::Took)
                } else if is(word, Word::Mark(Mark::OpenBracket)) {
                    put(
                        pending,
                        &[
                            Symbol::Brackets,
                            Symbol::Must(Word::Mark(Mark::CloseParenthesis)),
                            Symbol::Brackets,
                            Symbol::Count,
                        ],
                    )?;
                    Ok(Turn::Took)
                } else {
                    Ok(Turn::Refused)
                }
            }
        }
    }
}

fn parameters_turn(pending: &mut Vec<Symbol>, word: Word, known: bool) -> Result<Turn, AllocError>
    ensures turned { IfOk result
        (λ t. Turned known (sym.Parameters ∷ upward pending.old.items) t word
        (upward pending.old.items) (upward pending.new.items)) }
    ensures untouched { IfOk result
        (λ t. Untouched t (upward pending.old.items) (upward pending.new.items)) }
{
    if is(word, Word::Mark(Mark::CloseParenthesis)) {
        Ok(Turn::Took)
    } else if is(word, Word::Key(Keyword::Void)) {
        put(pending, &[Symbol::Void])?;
        Ok(Turn::Took)
    } else {
        match base_symbol(word, known) {
            Some(symbol) => {
                put(
                    pending,
                    &[
                        Symbol::MoreParameters,
                        Symbol::Declarator(Naming::May),
                        symbol,
                    ],
                )?;
                Ok(Turn::Took)
            }
            None => Ok(Turn::Refused),
        }
    }
}

fn void_turn(pending: &mut Vec<Symbol>, word: Word, known: bool) -> Result<Turn, AllocError>
    ensures turned { IfOk result (λ t. Turned known (sym.Void ∷ upward pending.old.items) t word
        (upward pending.old.items) (upward pending.new.items)) }
    ensures untouched { IfOk result
        (λ t. Untouched t (upward pending.old.items) (upward pending.new.items)) }
{
    if is(word, Word::Mark(Mark::CloseParenthesis)) {
        Ok(Turn::Took)
    } else if is(word, Word::Key(Keyword::Const)) {
        put(
            pending,
            &[
                Symbol::MoreParameters,
                Symbol::Declarator(Naming::May),
                Symbol::Consts,
            ],
        )?;
        Ok(Turn::Took)
    } else if is(word, Word::Mark(Mark::Star)) {
        put(
            pending,
            &[Symbol::MoreParameters, Symbol::Pointer(Naming::May)],
        )?;
        Ok(Turn::Took)
    } else if is(word, Word::Name) {
        put(pending, &[Symbol::MoreParameters, Symbol::Brackets])?;
        Ok(Turn::Took)
    } else if is(word, Word::Mark(Mark::OpenParenthesis)) {
        put(pending, &[Symbol::MoreParameters, Symbol::Nameless])?;
        Ok(Turn::Took)
    } else if is(word, Word::Mark(Mark::OpenBracket)) {
        put(
            pending,
            &[Symbol::MoreParameters, Symbol::Brackets, Symbol::Count],
        )?;
        Ok(Turn::Took)
    } else {
        more_parameters_turn(pending, word, known)
    }
}

fn entries_turn(pending: &mut Vec<Symbol>, word: Word, known: bool) -> Result<Turn, AllocError>
    ensures turned { IfOk result (λ t. Turned known (sym.Entries ∷ upward pending.old.items) t word
        (upward pending.old.items) (upward pending.new.items)) }
    ensures untouched { IfOk result
        (λ t. Untouched t (upward pending.old.items) (upward pending.new.items)) }
{
    if is(word, Word::Mark(Mark::Semicolon)) {
        Ok(Turn::Took)
    } else if is(word, Word::Mark(Mark::Star)) {
        put(pending, &[Symbol::Entry, Symbol::Pointer(Naming::Must)])?;
        Ok(Turn::Took)
    } else if is(word, Word::Name) {
        put(pending, &[Symbol::Entry, Symbol::Brackets])?;
        Ok(Turn::Took)
    } else if is(word, Word::Mark(Mark::OpenParenthesis)) {
        put(
            pending,
            &[
                Symbol::Entry,
                Symbol::Brackets,
                Symbol::Must(Word::Mark(Mark::CloseParenthesis)),
                Symbol::Declarator(Naming::Must),
            ],
        )?;
        Ok(Turn::Took)
    } else {
        Ok(Turn::Refused)
    }
}

fn file_entries_turn(pending: &mut Vec<Symbol>, word: Word, known: bool) -> Result<Turn, AllocError>
    ensures turned { IfOk result
        (λ t. Turned known (sym.FileEntries ∷ upward pending.old.items) t word
        (upward pending.old.items) (upward pending.new.items)) }
    ensures untouched { IfOk result
        (λ t. Untouched t (upward pending.old.items) (upward pending.new.items)) }
{
    if is(word, Word::Mark(Mark::Semicolon)) {
        Ok(Turn::Took)
    } else if is(word, Word::Mark(Mark::Star)) {
        put(
            pending,
            &[Symbol::FirstEntry, Symbol::Pointer(Naming::Must)],
        )?;
        Ok(Turn::Took)
    } else if is(word, Word::Name) {
        put(pending, &[Symbol::FirstEntry, Symbol::Brackets])?;
        Ok(Turn::Took)
    } else if is(word, Word::Mark(Mark::OpenParenthesis)) {
        put(
            pending,
            &[
                Symbol::FirstEntry,
                Symbol::Brackets,
                Symbol::Must(Word::Mark(Mark::CloseParenthesis)),
                Symbol::Declarator(Naming::Must),
            ],
        )?;
        Ok(Turn::Took)
    } else {
        Ok(Turn::Refused)
    }
}

/// A statement in front of these symbols.
fn begin_statement(
    pending: &mut Vec<Symbol>,
    below: &[Symbol],
    word: Word,
) -> Result<bool, AllocError>
    ensures took { IfOk result (λ b. Took
        (λ ts f i. statement ts f i (upward below.now ++ upward pending.old.items) word)
        b (upward pending.new.items)) }
    ensures same { IfOk result (λ b. Same b (upward pending.old.items) (upward pending.new.items)) }
{
    match word {
        Word::Key(Keyword::If) => {
            put(pending, below)?;
            put(
                pending,
                &[
                    Symbol::Else,
                    Symbol::Statement,
                    Symbol::Must(Word::Mark(Mark::CloseParenthesis)),
                    Symbol::Commas,
                    Symbol::Operand(Mode::Assign),
                    Symbol::Must(Word::Mark(Mark::OpenParenthesis)),
                ],
            )?;
            Ok(true)
        }
        Word::Key(Keyword::While) => {
            put(pending, below)?;
            put(
                pending,
                &[
                    Symbol::Statement,
                    Symbol::Must(Word::Mark(Mark::CloseParenthesis)),
                    Symbol::Commas,
                    Symbol::Operand(Mode::Assign),
                    Symbol::Must(Word::Mark(Mark::OpenParenthesis)),
                ],
            )?;
            Ok(true)
        }
        Word::Key(Keyword::Do) => {
            put(pending, below)?;
            put(
                pending,
                &[
                    Symbol::Must(Word::Mark(Mark::Semicolon)),
                    Symbol::Must(Word::Mark(Mark::CloseParenthesis)),
                    Symbol::Commas,
                    Symbol::Operand(Mode::Assign),
                    Symbol::Must(Word::Mark(Mark::OpenParenthesis)),
                    Symbol::Must(Word::Key(Keyword::While)),
                    Symbol::Statement,
                ],
            )?;
            Ok(true)
        }
        Word::Key(Keyword::For) => {
            put(pending, below)?;
            put(
                pending,
                &[
                    Symbol::Statement,
                    Symbol::Must(Word::Mark(Mark::CloseParenthesis)),
                    Symbol::Optional,
                    Symbol::Must(Word::Mark(Mark::Semicolon)),
                    Symbol::Optional,
                    Symbol::Must(Word::Mark(Mark::Semicolon)),
                    Symbol::Optional,
                    Symbol::Must(Word::Mark(Mark::OpenParenthesis)),
                ],
            )?;
            Ok(true)
        }
        Word::Key(Keyword::Switch) => {
            put(pending, below)?;
            put(
                pending,
                &[
                    Symbol::Must(Word::Mark(Mark::CloseBrace)),
                    Symbol::Cases,
                    Symbol::Must(Word::Mark(Mark::OpenBrace)),
                    Symbol::Must(Word::Mark(Mark::CloseParenthesis)),
                    Symbol::Commas,
                    Symbol::Operand(Mode::Assign),
                    Symbol::Must(Word::Mark(Mark::OpenParenthesis)),
                ],
            )?;
            Ok(true)
        }
        Word::Key(Keyword::Break | Keyword::Continue) => {
            put(pending, below)?;
            put(pending, &[Symbol::Must(Word::Mark(Mark::Semicolon))])?;
            Ok(true)
        }
        Word::Key(Keyword::Return) => {
            put(pending, below)?;
            put(
                pending,
                &[Symbol::Must(Word::Mark(Mark::Semicolon)), Symbol::Optional],
            )?;
            Ok(true)
        }
        Word::Mark(Mark::OpenBrace) => {
            put(pending, below)?;
            put(
                pending,
                &[Symbol::Must(Word::Mark(Mark::CloseBrace)), Symbol::Body],
            )?;
            Ok(true)
        }
        Word::Mark(Mark::Semicolon) => {
            put(pending, below)?;
            Ok(true)
        }
        _ => begin_operand(
            pending,
            below,
            &[Symbol::Must(Word::Mark(Mark::Semicolon)), Symbol::Commas],
            Mode::Assign,
            word,
        ),
    }
}

fn statement_turn(pending: &mut Vec<Symbol>, word: Word, known: bool) -> Result<Turn, AllocError>
    ensures turned { IfOk result
        (λ t. Turned known (sym.Statement ∷ upward pending.old.items) t word
        (upward pending.old.items) (upward pending.new.items)) }
    ensures untouched { IfOk result
        (λ t. Untouched t (upward pending.old.items) (upward pending.new.items)) }
{
    if begin_statement(pending, &[], word)? {
        Ok(Turn::Took)
    } else {
        Ok(Turn::Refused)
    }
}

fn statements_turn(pending: &mut Vec<Symbol>, word: Word, known: bool) -> Result<Turn, AllocError>
    ensures turned { IfOk result
        (λ t. Turned known (sym.Statements ∷ upward pending.old.items) t word
        (upward pending.old.items) (upward pending.new.items)) }
    ensures untouched { IfOk result
        (λ t. Untouched t (upward pending.old.items) (upward pending.new.items)) }
{
    if begin_statement(pending, &[Symbol::Statements], word)? {
        Ok(Turn::Took)
    } else {
        Ok(Turn::LeftOut)
    }
}

fn cases_turn(pending: &mut Vec<Symbol>, word: Word, known: bool) -> Result<Turn, AllocError>
    ensures turned { IfOk result (λ t. Turned known (sym.Cases ∷ upward pending.old.items) t word
        (upward pending.old.items) (upward pending.new.items)) }
    ensures untouched { IfOk result
        (λ t. Untouched t (upward pending.old.items) (upward pending.new.items)) }
{
    if is(word, Word::Key(Keyword::Case)) {
        put(
            pending,
            &[
                Symbol::Cases,
                Symbol::Must(Word::Mark(Mark::Colon)),
                Symbol::Operand(Mode::Cond),
            ],
        )?;
        Ok(Turn::Took)
    } else if is(word, Word::Key(Keyword::Default)) {
        put(
            pending,
            &[Symbol::Cases, Symbol::Must(Word::Mark(Mark::Colon))],
        )?;
        Ok(Turn::Took)
    } else {
        if begin_statement(pending, &[Symbol::Cases], word)? {
            Ok(Turn::Took)
        } else {
            Ok(Turn::LeftOut)
        }
    }
}

fn body_turn(pending: &mut Vec<Symbol>, word: Word, known: bool) -> Result<Turn, AllocError>
    ensures turned { IfOk result (λ t. Turned known (sym.Body ∷ upward pending.old.items) t word
        (upward pending.old.items) (upward pending.new.items)) }
    ensures untouched { IfOk result
        (λ t. Untouched t (upward pending.old.items) (upward pending.new.items)) }
{
    if is(word, Word::Key(Keyword::Static)) {
        put(pending, &[Symbol::Body, Symbol::Entries, Symbol::Base])?;
        Ok(Turn::Took)
    } else {
        match base_symbol(word, known) {
            Some(symbol) => {
                put(pending, &[Symbol::Body, Symbol::Entries, symbol])?;
                Ok(Turn::Took)
            }
            None => {
                if begin_statement(pending, &[Symbol::Statements], word)? {
                    Ok(Turn::Took)
                } else {
                    Ok(Turn::LeftOut)
                }
            }
        }
    }
}

/// What a symbol in front of what is pending does with a word.
pub(crate) fn symbol_turn(
    pending: &mut Vec<Symbol>,
    symbol: Symbol,
    word: Word,
    known: bool,
) -> Result<Turn, AllocError>
    ensures turned { IfOk result (λ t. Turned known (symbol ∷ upward pending.old.items) t word
        (upward pending.old.items) (upward pending.new.items)) }
    ensures untouched { IfOk result
        (λ t. Untouched t (upward pending.old.items) (upward pending.new.items)) }
{
    match symbol {
        Symbol::Must(wanted) => must_turn(pending, wanted, word, known),
        Symbol::Operand(mode) => operand_turn(pending, mode, word, known),
        Symbol::Open(mode) => open_turn(pending, mode, word, known),
        Symbol::Behind(unary) => behind_turn(pending, unary, word, known),
        Symbol::Kind(seen) => kind_turn(pending, seen, word, known),
        Symbol::Tag(sort) => tag_turn(pending, sort, word, known),
        Symbol::TagBody(sort) => tag_body_turn(pending, sort, word, known),
        Symbol::Declarator(naming) => declarator_turn(pending, naming, word, known),
        Symbol::Pointer(naming) => pointer_turn(pending, naming, word, known),
        Symbol::Texts => texts_turn(pending, word, known),
        Symbol::Suffixes => suffixes_turn(pending, word, known),
        Symbol::Commas => commas_turn(pending, word, known),
        Symbol::Optional => optional_turn(pending, word, known),
        Symbol::Base => base_turn(pending, word, known),
        Symbol::Consts => consts_turn(pending, word, known),
        Symbol::Fields => fields_turn(pending, word, known),
        Symbol::MoreDeclarators => more_declarators_turn(pending, word, known),
        Symbol::ConstantValue => constant_value_turn(pending, word, known),
        Symbol::Constants => constants_turn(pending, word, known),
        Symbol::Nameless => nameless_turn(pending, word, known),
        Symbol::Brackets => brackets_turn(pending, word, known),
        Symbol::Counts => counts_turn(pending, word, known),
        Symbol::Count => count_turn(pending, word, known),
        Symbol::Parameters => parameters_turn(pending, word, known),
        Symbol::Void => void_turn(pending, word, known),
        Symbol::MoreParameters => more_parameters_turn(pending, word, known),
        Symbol::Entries => entries_turn(pending, word, known),
        Symbol::Entry => entry_turn(pending, word, known),
        Symbol::MoreEntries => more_entries_turn(pending, word, known),
        Symbol::Initial => initial_turn(pending, word, known),
        Symbol::MoreInitials => more_initials_turn(pending, word, known),
        Symbol::NextInitial => next_initial_turn(pending, word, known),
        Symbol::FileEntries => file_entries_turn(pending, word, known),
        Symbol::FirstEntry => first_entry_turn(pending, word, known),
        Symbol::EndTypedef => end_typedef_turn(pending, word, known),
        Symbol::Body => body_turn(pending, word, known),
        Symbol::Statements => statements_turn(pending, word, known),
        Symbol::Statement => statement_turn(pending, word, known),
        Symbol::Else => else_turn(pending, word, known),
        Symbol::Cases => cases_turn(pending, word, known),
    }
}

/// An item begins, where nothing is pending outside of every block.
pub(crate) fn begin_item(
    pending: &mut Vec<Symbol>,
    word: Word,
    known: bool,
) -> Result<bool, AllocError>
    requires { upward pending.old.items ≡ [] }
    ensures { IfOk result (λ b. Begun known b word (upward pending.new.items)) }
{
    if is(word, Word::Key(Keyword::Typedef)) {
        put(
            pending,
            &[
                Symbol::EndTypedef,
                Symbol::Declarator(Naming::Typedef),
                Symbol::Base,
            ],
        )?;
        Ok(true)
    } else if is(word, Word::Key(Keyword::Static)) {
        put(pending, &[Symbol::FileEntries, Symbol::Base])?;
        Ok(true)
    } else {
        match base_symbol(word, known) {
            Some(symbol) => {
                put(pending, &[Symbol::FileEntries, symbol])?;
                Ok(true)
            }
            None => Ok(false),
        }
    }
}
