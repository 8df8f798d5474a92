//! Calls of `printf`: the conversions of a format against the arguments behind it, and the pieces that are
//! shown. Each call gives what its definition in porch_check gives, or the rule that is broken and its place.
//!
//! Stands on porch_literals for the bytes of formats and on porch_arguments for the values of arguments.
//! `call` has a whole call, `showing` the bytes of a format one after another, `pieces` what stands
//! shown so far, `argument` one argument.
#![tactic(auto)]

mod argument;
mod call;
mod pieces;
mod showing;

pub use call::printed;
