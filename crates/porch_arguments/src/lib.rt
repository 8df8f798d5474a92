//! The arguments of calls: their values from left to right, what becomes of them where parameters are
//! wanted, and calls of functions of the program. Each call gives what its definition in porch_check gives,
//! or the rule that is broken and its place.
//!
//! Stands on porch_access for the value of what an argument was found to be. `argument` has one argument,
//! `values` the values of all, `fits` their conversion to the parameters, `calls` the whole call; `forms` has
//! the literals among arguments, `turned` lists the other way round.
#![tactic(auto)]

mod argument;
mod calls;
mod fits;
mod forms;
mod turned;
mod values;

pub use argument::{Argument, Valued};
pub use calls::call_of;
pub use fits::fit_value;
pub use forms::{is_char_pointer, take_literal};
pub use turned::{count_of, take_first, turn};
