//! From the text of a source to its tokens.
//!
//! `lex` is the one call that reads a text. What it gives is said in `specs/`: `Lexemes` says what stands
//! at the front of a text, `Tokens` which tokens a text has and where it first breaks a rule of tokens.
//! `token` has the tokens, `refusal` what a text is refused with, by the lexer and by all that read its
//! tokens. Behind the call `lexer` goes over the text and `lexeme` reads one piece of it, with the help of
//! `constant`, `literal`, `gap`, `mark` and `keyword`. `value` has the values of constants and characters,
//! `laws` what holds of all tokens, and `worked` some small texts.
#![tactic(auto)]

mod character;
mod constant;
mod gap;
mod keyword;
pub mod laws;
pub mod lexeme;
mod lexer;
mod literal;
mod mark;
pub mod refusal;
pub mod token;
mod value;
pub mod worked;

pub use constant::base_of;
pub use lexer::{SOURCE_LIMIT, lex};
pub use refusal::{Refusal, Rule, SourceFault};
pub use token::{Token, TokenKind, word_at};
pub use value::{behind_character, behind_first, character_of, is_long, is_unsigned, whole_of};
