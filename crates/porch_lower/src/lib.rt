//! Lowering: the flat program that means what a tree means.
//!
//! `expression.rt` has the commands for a value, `statement.rt` those for statements, `temporaries.rt` how many variables
//! they take besides the declared ones, and `program.rt` the program. `specs/Code` says which commands those are, and
//! `specs/Lowered` what is promised of them.
#![tactic(auto)]

mod expression;
mod laws;
mod program;
mod statement;
mod temporaries;

pub use laws::sources_are_lowerable;
pub use program::lower;
