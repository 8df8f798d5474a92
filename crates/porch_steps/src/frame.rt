//! How far a run has come, and its frames.

/// How far a run has come.
#[derive(Clone, Copy, Debug, PartialEq, Eq)]
pub(crate) enum Phase {
    /// Before turn 1.
    Begun,
    /// In a function.
    Running,
    /// Behind the end of `main`.
    Over,
}

/// A function that was called and hasn't returned: its number, the place of its next command, and the
/// variable of the caller that its value goes to.
#[derive(Clone, Copy, Debug)]
pub(crate) struct Frame {
    pub(crate) function: usize,
    pub(crate) next: usize,
    pub(crate) into: Option<u32>,
}
