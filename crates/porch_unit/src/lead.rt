//! What words are where a statement can stand.

ghost use Rattle.std.specs.Prelude.{◌≡◌};
ghost use Rattle.porch_unit.specs.Units.{lead_of, key_lead, mark_lead};

use porch_tree::{Keyword, Mark, Word};

/// What a word is where a statement can stand.
#[derive(Clone, Copy, Debug)]
pub enum Lead {
    OpensBlock,
    Closes,
    EndsEmpty,
    If,
    While,
    Do,
    For,
    Switch,
    Break,
    Continue,
    Return,
    Case,
    Default,
    Other,
}

fn key_lead(key: Keyword) -> Lead
    ensures { result ≡ key_lead key }
{
    match key {
        Keyword::If => Lead::If,
        Keyword::While => Lead::While,
        Keyword::Do => Lead::Do,
        Keyword::For => Lead::For,
        Keyword::Switch => Lead::Switch,
        Keyword::Break => Lead::Break,
        Keyword::Continue => Lead::Continue,
        Keyword::Return => Lead::Return,
        Keyword::Case => Lead::Case,
        Keyword::Default => Lead::Default,
        Keyword::Auto
        | Keyword::Char
        | Keyword::Const
        | Keyword::Double
        | Keyword::Else
        | Keyword::Enum
        | Keyword::Extern
        | Keyword::Float
        | Keyword::Goto
        | Keyword::Int
        | Keyword::Long
        | Keyword::Register
        | Keyword::Short
        | Keyword::Signed
        | Keyword::Sizeof
        | Keyword::Static
        | Keyword::Struct
        | Keyword::Typedef
        | Keyword::Union
        | Keyword::Unsigned
        | Keyword::Void
        | Keyword::Volatile => Lead::Other,
    }
}

fn mark_lead(mark: Mark) -> Lead
    ensures { result ≡ mark_lead mark }
{
    match mark {
        Mark::OpenBrace => Lead::OpensBlock,
        Mark::CloseBrace => Lead::Closes,
        Mark::Semicolon => Lead::EndsEmpty,
        Mark::OpenBracket
        | Mark::CloseBracket
        | Mark::OpenParenthesis
        | Mark::CloseParenthesis
        | Mark::Dot
        | Mark::Arrow
        | Mark::PlusPlus
        | Mark::MinusMinus
        | Mark::And
        | Mark::Star
        | Mark::Plus
        | Mark::Minus
        | Mark::Tilde
        | Mark::Not
        | Mark::Slash
        | Mark::Percent
        | Mark::ShiftLeft
        | Mark::ShiftRight
        | Mark::Less
        | Mark::Greater
        | Mark::LessEqual
        | Mark::GreaterEqual
        | Mark::EqualEqual
        | Mark::NotEqual
        | Mark::Caret
        | Mark::Or
        | Mark::AndAnd
        | Mark::OrOr
        | Mark::Question
        | Mark::Colon
        | Mark::Equal
        | Mark::Comma
        | Mark::StarEqual
        | Mark::SlashEqual
        | Mark::PercentEqual
        | Mark::PlusEqual
        | Mark::MinusEqual
        | Mark::ShiftLeftEqual
        | Mark::ShiftRightEqual
        | Mark::AndEqual
        | Mark::CaretEqual
        | Mark::OrEqual => Lead::Other,
    }
}

/// What a word is where a statement can stand.
pub fn lead_at(word: Word) -> Lead
    ensures { result ≡ lead_of word }
{
    match word {
        Word::Key(key) => key_lead(key),
        Word::Mark(mark) => mark_lead(mark),
        Word::Name | Word::Whole | Word::Character | Word::Text => Lead::Other,
    }
}
