//! What words are in a type.

ghost use Rattle.std.specs.Prelude.{◌≡◌};
ghost use Rattle.porch_parts.specs.Signs.{sign_of, key_sign, mark_sign};

use porch_tree::{Keyword, Mark, TagSort, Word};

/// What a word is in a type.
#[derive(Clone, Copy, Debug)]
pub enum Sign {
    Const,
    /// A word of a kind other than `const`.
    Kind(Keyword),
    Void,
    Tag(TagSort),
    Name,
    Star,
    Open,
    Close,
    OpenBracket,
    CloseBracket,
    OpenBrace,
    CloseBrace,
    Comma,
    Semicolon,
    Equal,
    Other,
}

fn key_sign(key: Keyword) -> Sign
    ensures { result ≡ key_sign key }
{
    match key {
        Keyword::Const => Sign::Const,
        Keyword::Char => Sign::Kind(Keyword::Char),
        Keyword::Short => Sign::Kind(Keyword::Short),
        Keyword::Int => Sign::Kind(Keyword::Int),
        Keyword::Long => Sign::Kind(Keyword::Long),
        Keyword::Signed => Sign::Kind(Keyword::Signed),
        Keyword::Unsigned => Sign::Kind(Keyword::Unsigned),
        Keyword::Void => Sign::Void,
        Keyword::Struct => Sign::Tag(TagSort::Struct),
        Keyword::Enum => Sign::Tag(TagSort::Enum),
        Keyword::Auto
        | Keyword::Break
        | Keyword::Case
        | Keyword::Continue
        | Keyword::Default
        | Keyword::Do
        | Keyword::Double
        | Keyword::Else
        | Keyword::Extern
        | Keyword::Float
        | Keyword::For
        | Keyword::Goto
        | Keyword::If
        | Keyword::Register
        | Keyword::Return
        | Keyword::Sizeof
        | Keyword::Static
        | Keyword::Switch
        | Keyword::Typedef
        | Keyword::Union
        | Keyword::Volatile
        | Keyword::While => Sign::Other,
    }
}

fn mark_sign(mark: Mark) -> Sign
    ensures { result ≡ mark_sign mark }
{
    match mark {
        Mark::Star => Sign::Star,
        Mark::OpenParenthesis => Sign::Open,
        Mark::CloseParenthesis => Sign::Close,
        Mark::OpenBracket => Sign::OpenBracket,
        Mark::CloseBracket => Sign::CloseBracket,
        Mark::OpenBrace => Sign::OpenBrace,
        Mark::CloseBrace => Sign::CloseBrace,
        Mark::Comma => Sign::Comma,
        Mark::Semicolon => Sign::Semicolon,
        Mark::Equal => Sign::Equal,
        Mark::Dot
        | Mark::Arrow
        | Mark::PlusPlus
        | Mark::MinusMinus
        | Mark::And
        | Mark::Plus
        | Mark::Minus
        | Mark::Tilde
        | Mark::Not
        | Mark::Slash
        | Mark::Percent
        | Mark::ShiftLeft
        | Mark::ShiftRight
        | Mark::Less
        | Mark::Greater
        | Mark::LessEqual
        | Mark::GreaterEqual
        | Mark::EqualEqual
        | Mark::NotEqual
        | Mark::Caret
        | Mark::Or
        | Mark::AndAnd
        | Mark::OrOr
        | Mark::Question
        | Mark::Colon
        | Mark::StarEqual
        | Mark::SlashEqual
        | Mark::PercentEqual
        | Mark::PlusEqual
        | Mark::MinusEqual
        | Mark::ShiftLeftEqual
        | Mark::ShiftRightEqual
        | Mark::AndEqual
        | Mark::CaretEqual
        | Mark::OrEqual => Sign::Other,
    }
}

/// What the word is in a type.
pub fn sign_at(word: Word) -> Sign
    ensures { result ≡ sign_of word }
{
    match word {
        Word::Name => Sign::Name,
        Word::Key(key) => key_sign(key),
        Word::Mark(mark) => mark_sign(mark),
        Word::Whole | Word::Character | Word::Text => Sign::Other,
    }
}
