//! The top call: what a command line does, over a source and sinks that are handed in.
//!
//! Start at `top`, whose call `porch` does all of it. `naming` finds the layout, `reading` reads the source; `compiled`
//! makes the program that `exec` runs over bytes; `line` writes the closing line. What an answer says stands in
//! `specs/Answers.antt`, the lines in `specs/Lines.antt`, the runs that words order in `specs/Words.antt` and
//! `specs/Layouts.antt`.
//!
//! It stands on the words of the command line, on the compiler, from the text to a flat program, and on the byte machine.
//! The program `porch` hands it the standard streams and the current folder.
#![tactic(auto)]

mod compiled;
mod exec;
mod line;
mod naming;
mod reading;
mod status;
mod top;
mod words;

pub use crate::status::{Status, number_of_status};
pub use crate::top::{close, porch};
