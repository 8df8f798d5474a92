//! Commands on variables and pointers, resolved for a layout and done in memory.
//!
//! Start at `instruction.rt`, which has the resolved commands. `resolution.rt` turns a command of a function into an
//! instruction that does the same, `fine.rt` tests that it may be done in each frame of its function, and `actions.rt`
//! does it. `specs/Instructions` says what an instruction does to memory, and `specs/Resolved` when that is what a
//! command does by the column of `porch_bytes`.
#![tactic(auto)]

mod actions;
mod fine;
mod frame;
pub mod instruction;
mod laws;
mod resolution;
pub mod scope;

pub use actions::{act, read_cell, read_source, write_cell};
pub use fine::is_fine;
pub use frame::act_in_frame;
pub use laws::scopes_are_of_functions;
pub use resolution::{pointee_of_pointer, resolve, resolve_operand, resolve_variable};
