//! The resolved code of a function: an operation for each of its commands, and the arguments of its calls.
//!
//! Start at [`resolve_function`]. `specs/Code` says when code does what a function's commands do.
#![tactic(auto)]

mod arguments;
mod routine;

pub use arguments::CodeFault;
pub use routine::{Routine, resolve_function};
