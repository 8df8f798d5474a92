//! Runs of the byte machine have ends.
//!
//! Start at [`runs_end`]. `specs/Left` has what is left of a run, a number that falls with each step that goes on: by the
//! turns that are left, then by the frames, and then by the commands that are left of the innermost one's function.
#![tactic(auto)]

mod laws;

pub use laws::{runs_end, steps_come_nearer};
