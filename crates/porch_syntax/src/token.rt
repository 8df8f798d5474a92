//! The tokens of the language.

/// A token. A name is the number of its declaration in the text, from 0.
#[derive(Clone, Copy, Debug, PartialEq, Eq)]
pub enum Token {
    Int,
    Main,
    Void,
    While,
    Return,
    Putchar,
    Name(u32),
    /// A decimal constant, from 0 to 2147483647.
    Whole(i32),
    /// A character constant: the byte between the quotes.
    Character(u8),
    OpenParenthesis,
    CloseParenthesis,
    OpenBrace,
    CloseBrace,
    Semicolon,
    Assign,
    Less,
    Plus,
    Minus,
    Star,
}
