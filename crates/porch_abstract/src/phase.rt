//! How far a run has come, and what a step answers.

use porch_values::Act;

/// How far a run has come.
#[derive(Clone, Copy, Debug, PartialEq, Eq)]
pub(crate) enum Phase {
    /// Before turn 1.
    Begun,
    /// `main` was called.
    Running,
    /// `main` has returned.
    Over,
}

/// What a step of the abstract machine did.
#[derive(Clone, Copy, Debug, PartialEq, Eq)]
pub enum AStep {
    /// The run goes on.
    Went,
    /// The program ended with this value.
    Ended { value: i32 },
    /// The run met an undefined act. The machine stays as it was before it.
    Act { act: Act },
}
