//! One line of the text of flat programs: a word and its arguments, as they are written. Start at `specs/Text`, which has
//! the text whole.
#![tactic(auto)]

mod command;
mod line;
mod put;
mod word;

pub use command::put_command;
pub use line::{put_head, put_init, put_type};
pub use put::{Argument, number, put_none, put_two, variable};
pub use word::{Word, text_of_word};
