//! Tokens, and the words that the grammar sees in them.

ghost use Rattle.std.specs.Prelude.{◌≡◌};
ghost use Rattle.porch_lex.specs.Words.{kind_word};

use porch_tree::{Keyword, Mark, Word};

/// The classes of tokens.
#[derive(Clone, Copy, Debug, PartialEq, Eq)]
pub enum TokenKind {
    Name,
    /// A keyword, and which one.
    Keyword(Keyword),
    /// An integer constant.
    Whole,
    /// A character constant.
    Character,
    /// One string literal.
    Text,
    /// An operator or a punctuation mark, and which one.
    Mark(Mark),
}

/// A token: its class, and the bytes of the text, from `from` up to and without `to`, that spell it.
/// It takes 12 bytes.
#[derive(Clone, Copy, Debug, PartialEq, Eq)]
pub struct Token {
    pub kind: TokenKind,
    pub from: u32,
    pub to: u32,
}

/// The bytes that a token takes.
const TOKEN_BYTES: usize = 12;

const _: () = prove!(std::mem::size_of::<Token>() == TOKEN_BYTES);

/// The token as the grammar tells it apart.
pub fn word_at(token: Token) -> Word
    ensures { result ≡ kind_word token.kind }
{
    match token.kind {
        TokenKind::Name => Word::Name,
        TokenKind::Keyword(keyword) => Word::Key(keyword),
        TokenKind::Whole => Word::Whole,
        TokenKind::Character => Word::Character,
        TokenKind::Text => Word::Text,
        TokenKind::Mark(mark) => Word::Mark(mark),
    }
}
