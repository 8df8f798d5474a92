//! What words are where an operand begins, and behind one.

ghost use Rattle.std.specs.Prelude.{◌≡◌};
ghost use Rattle.porch_parse.specs.Parts.{part_of, start_of, mark_part, mark_start};

use porch_tree::{Assigning, Infix, Keyword, Mark, Prefix, Word};

/// What a word is behind an operand.
#[derive(Clone, Copy, Debug)]
pub enum Part {
    Infix(Infix),
    Assigning(Assigning),
    Question,
    Colon,
    Comma,
    Open,
    Close,
    OpenBracket,
    CloseBracket,
    Dot,
    Arrow,
    Increase,
    Decrease,
    /// `;` or `}`
    End,
    /// One more string literal.
    Text,
    Other,
}

/// What a word is where an operand begins.
#[derive(Clone, Copy, Debug)]
pub enum Start {
    Name,
    Whole,
    Character,
    Text,
    Prefix(Prefix),
    Open,
    /// The end of a list of arguments that has none.
    Close,
    Other,
}

fn mark_part(mark: Mark) -> Part
    ensures { result ≡ mark_part mark }
{
    match mark {
        Mark::OrOr => Part::Infix(Infix::Any),
        Mark::AndAnd => Part::Infix(Infix::All),
        Mark::Or => Part::Infix(Infix::BitOr),
        Mark::Caret => Part::Infix(Infix::BitXor),
        Mark::And => Part::Infix(Infix::BitAnd),
        Mark::EqualEqual => Part::Infix(Infix::Equal),
        Mark::NotEqual => Part::Infix(Infix::NotEqual),
        Mark::Less => Part::Infix(Infix::Less),
        Mark::Greater => Part::Infix(Infix::Greater),
        Mark::LessEqual => Part::Infix(Infix::LessEqual),
        Mark::GreaterEqual => Part::Infix(Infix::GreaterEqual),
        Mark::ShiftLeft => Part::Infix(Infix::ShiftLeft),
        Mark::ShiftRight => Part::Infix(Infix::ShiftRight),
        Mark::Plus => Part::Infix(Infix::Add),
        Mark::Minus => Part::Infix(Infix::Sub),
        Mark::Star => Part::Infix(Infix::Mul),
        Mark::Slash => Part::Infix(Infix::Div),
        Mark::Percent => Part::Infix(Infix::Rem),
        Mark::Equal => Part::Assigning(Assigning::Plain),
        Mark::StarEqual => Part::Assigning(Assigning::Mul),
        Mark::SlashEqual => Part::Assigning(Assigning::Div),
        Mark::PercentEqual => Part::Assigning(Assigning::Rem),
        Mark::PlusEqual => Part::Assigning(Assigning::Add),
        Mark::MinusEqual => Part::Assigning(Assigning::Sub),
        Mark::ShiftLeftEqual => Part::Assigning(Assigning::ShiftLeft),
        Mark::ShiftRightEqual => Part::Assigning(Assigning::ShiftRight),
        Mark::AndEqual => Part::Assigning(Assigning::BitAnd),
        Mark::CaretEqual => Part::Assigning(Assigning::BitXor),
        Mark::OrEqual => Part::Assigning(Assigning::BitOr),
        Mark::Question => Part::Question,
        Mark::Colon => Part::Colon,
        Mark::Comma => Part::Comma,
        Mark::OpenParenthesis => Part::Open,
        Mark::CloseParenthesis => Part::Close,
        Mark::OpenBracket => Part::OpenBracket,
        Mark::CloseBracket => Part::CloseBracket,
        Mark::Dot => Part::Dot,
        Mark::Arrow => Part::Arrow,
        Mark::PlusPlus => Part::Increase,
        Mark::MinusMinus => Part::Decrease,
        Mark::Semicolon | Mark::CloseBrace => Part::End,
        Mark::OpenBrace | Mark::Tilde | Mark::Not => Part::Other,
    }
}

fn mark_start(mark: Mark) -> Start
    ensures { result ≡ mark_start mark }
{
    match mark {
        Mark::PlusPlus => Start::Prefix(Prefix::Increase),
        Mark::MinusMinus => Start::Prefix(Prefix::Decrease),
        Mark::And => Start::Prefix(Prefix::Address),
        Mark::Star => Start::Prefix(Prefix::Pointee),
        Mark::Plus => Start::Prefix(Prefix::Plus),
        Mark::Minus => Start::Prefix(Prefix::Minus),
        Mark::Tilde => Start::Prefix(Prefix::Complement),
        Mark::Not => Start::Prefix(Prefix::Not),
        Mark::OpenParenthesis => Start::Open,
        Mark::CloseParenthesis => Start::Close,
        Mark::OpenBracket
        | Mark::CloseBracket
        | Mark::OpenBrace
        | Mark::CloseBrace
        | Mark::Dot
        | Mark::Arrow
        | Mark::Slash
        | Mark::Percent
        | Mark::ShiftLeft
        | Mark::ShiftRight
        | Mark::Less
        | Mark::Greater
        | Mark::LessEqual
        | Mark::GreaterEqual
        | Mark::EqualEqual
        | Mark::NotEqual
        | Mark::Caret
        | Mark::Or
        | Mark::AndAnd
        | Mark::OrOr
        | Mark::Question
        | Mark::Colon
        | Mark::Semicolon
        | Mark::Equal
        | Mark::StarEqual
        | Mark::SlashEqual
        | Mark::PercentEqual
        | Mark::PlusEqual
        | Mark::MinusEqual
        | Mark::ShiftLeftEqual
        | Mark::ShiftRightEqual
        | Mark::AndEqual
        | Mark::CaretEqual
        | Mark::OrEqual
        | Mark::Comma => Start::Other,
    }
}

/// What the word is behind an operand.
pub(crate) fn part_at(word: Word) -> Part
    ensures { result ≡ part_of word }
{
    match word {
        Word::Text => Part::Text,
        Word::Mark(mark) => mark_part(mark),
        Word::Name | Word::Whole | Word::Character | Word::Key(_) => Part::Other,
    }
}

/// What the word is where an operand begins.
pub(crate) fn start_at(word: Word) -> Start
    ensures { result ≡ start_of word }
{
    match word {
        Word::Name => Start::Name,
        Word::Whole => Start::Whole,
        Word::Character => Start::Character,
        Word::Text => Start::Text,
        Word::Key(Keyword::Sizeof) => Start::Prefix(Prefix::Sizeof),
        Word::Key(_) => Start::Other,
        Word::Mark(mark) => mark_start(mark),
    }
}
