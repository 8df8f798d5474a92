//! The byte machine in code: a program that is prepared for a layout, a stack and a heap, and run step by step.
//!
//! Start at [`Machine`]. A step is that of `porch_bytes/specs/Column`, command for command; `specs/Running` says what a
//! run of steps in one call is. No command of `porch` uses this crate yet; `exec` runs the machine of `porch_machine`.
#![tactic(auto)]

mod advance;
mod counting;
mod directs;
mod end;
mod laws;
mod machine;
mod plain;
mod prepared;
mod straight;

pub use end::Stop;
pub use laws::runs_are_parts_of_runs;
pub use machine::Machine;
