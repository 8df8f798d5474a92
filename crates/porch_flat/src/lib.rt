//! Flat programs: types, globals, and functions that are lists of commands.
//!
//! `flat.rt` has the program as data, `labels.rt` where its labels stand, `valid.rt` the programs that break no rule.
//! `specs/Valid` says what the rules are.
//!
//! `whole.rt` is the whole flat text as data: every command. In `src/whole/` stand the rules as they are checked: `form.rt`
//! has a command's form, `types.rt`, `numbers.rt`, `kinds.rt`, `arguments.rt`, `arity.rt`, `jumps.rt` and `modes.rt` the
//! rules of a command and a function, `rules.rt` the first rule that a line breaks, `walk.rt` the first line that breaks
//! one, `calls.rt` which functions reach a checkpoint, and `valid.rt` the programs that break none. `specs/whole/Rules`
//! says what the rules are. The program that runs uses the smaller `flat` as yet.
#![tactic(auto)]

mod checks;
pub mod flat;
pub mod labels;
pub mod valid;
pub mod whole;
pub mod worked;

pub use flat::{Command, Flat, Function, GlobalObject, Init, Operand};
pub use labels::Labels;
pub use valid::{Plain, Valid, ValidFault};
