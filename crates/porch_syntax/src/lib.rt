//! From the text of a C program of the part of the language that runs, without comments and includes, to its tree.
//!
//! `tree` has the tree, and `parse` is the one call. What the language is stands
//! in `specs/`: `Token` says how a text spells tokens, and `Language` which tokens a tree has and which texts are
//! programs. The files behind the call: `lexer` splits the text into tokens, each a piece that `lexeme` names, and
//! `program` reads them one by one, through `statement` and `expression`. Nothing recurses over the text: open
//! parentheses and blocks are kept in lists.
#![tactic(auto)]

mod expression;
mod lexeme;
mod lexer;
pub mod parser;
mod program;
mod statement;
pub mod token;
pub mod tree;

pub use parser::{a_text_is_one_program, parse};
pub use tree::{Expr, Sign, Stmt, Tree};
