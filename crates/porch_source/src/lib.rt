//! From the text of a source to its program, or to the first rule that it breaks.
//!
//! `read_program` is the one call. It splits the text into tokens (porch_lex), looks for the first fault of
//! the grammar (porch_depth), and reads what is left of the text without comments and includes as a program
//! of the part of the language that runs (porch_syntax). `fault` has what a text is refused with, `comments` makes the
//! text without comments, and `laws` says that a text has one answer. Start at `specs/Sources`.
#![tactic(auto)]

mod comments;
pub mod fault;
pub mod laws;
mod source;

pub use comments::without_comments;
pub use fault::SourceFault;
pub use source::read_program;
