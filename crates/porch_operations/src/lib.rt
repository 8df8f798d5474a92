//! The operations of the byte machine: every resolved command, done in memory, the heap and what is shown.
//!
//! Start at `operation.rt`, which has the operations and where they lead, and at [`perform`], which does one.
//! `specs/Operations` says what each does. Frames aren't its work: a call and a return only say where they lead.
#![tactic(auto)]

mod copying;
mod heap_calls;
pub mod operation;
mod output;
mod resolving;
mod work;

pub use resolving::{resolve_call, resolve_operation};
pub use work::perform;
