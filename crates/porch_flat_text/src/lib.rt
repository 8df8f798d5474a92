//! The text of flat programs, printed and read. Each program has one text; `porch_flat_line` has its lines.
//!
//! `print.rt` writes a program, `parse.rt` reads one. `draft.rt` has what each line makes of a program: a line is read
//! leniently, written again, and taken where it stands so in the text. `specs/FirstWrong` says which line is refused.
#![tactic(auto)]

mod command;
mod cut;
mod draft;
mod find;
mod laws;
mod number;
mod parse;
mod print;

pub use laws::texts_tell_programs_apart;
pub use parse::{FlatFault, parse_flat};
pub use print::print_flat;
