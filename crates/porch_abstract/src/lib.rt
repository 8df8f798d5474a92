//! The flat abstract machine: a flat program over objects, without bytes.
//!
//! `specs/Machine` says what a command does, `specs/Run` what a run is and what a program means. [`Abstract`] takes the
//! steps; `specs/Held` says what contracts see of it. `laws` has what is proved of every run.
#![tactic(auto)]

mod effects;
pub mod laws;
mod machine;
mod phase;
mod run;
pub mod whole;

pub use machine::Abstract;
pub use phase::AStep;
