//! Nodes of a typed expression that lead to a place or come from one: each call makes a node of what its
//! operands were found to be, or answers the rule that is broken there.
//!
//! Stands on porch_operands, which decides over what can be copied, and on porch_nodes. `forms` takes a
//! form apart. `reading` has the value of an object, `address` what `&`, `++` and `--` make of one,
//! `members` `.` and `->`, `assignments` `=` with and without an operator.
#![tactic(auto)]

pub mod address;
pub mod assignments;
pub mod forms;
pub mod members;
pub mod reading;
