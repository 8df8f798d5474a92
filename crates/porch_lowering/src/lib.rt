//! How a typed program becomes a flat one: definitions, for the whole language, and programs that are worked out.
//!
//! `specs/Lowering` is where to start: functions, their temporaries, and the program. `specs/Statement` and
//! `specs/Expression` have the commands of each form of the tree. There is nothing to run: each function of `worked` states
//! what some programs become, which the check computes.
#![tactic(auto)]

pub mod worked;
