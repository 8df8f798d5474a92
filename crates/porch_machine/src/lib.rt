//! The machine: a flat program over bytes, under a layout.
//!
//! `specs/Column` says what a command does to bytes, `specs/Room` where objects lie and `specs/Leaf` how numbers do,
//! `specs/StandsFor` when bytes stand for a state of the flat abstract machine, `specs/ByteRun` what a run is and
//! `specs/Laws` what it has to do with what the program means. `machine.rt` has the machine. `resolving.rt` gives each jump
//! the place of its label first, so that a step takes the same time in each program.
#![tactic(auto)]

mod code;
mod ints;
mod laws;
mod machine;
mod resolving;
pub mod step;

pub use laws::{prepared_bytes_stand, runs_agree, runs_are_one, runs_end};
pub use machine::Machine;
pub use step::Step;
