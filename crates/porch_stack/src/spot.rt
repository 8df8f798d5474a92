//! Where a machine stands: its frames, and the turns.

use porch_instructions::instruction::Context;

/// A function that was called and hasn't returned: its number, the place of its next command, the address of its
/// variables, and the variable of the caller that its value goes to.
#[derive(Clone, Copy, Debug, PartialEq, Eq)]
pub struct Held {
    pub function: u32,
    pub next: usize,
    pub at: u64,
    pub into: Option<u32>,
}

/// How far a run has come: before `main` is called, in a function, or after the end of `main`.
#[derive(Clone, Copy, Debug, PartialEq, Eq)]
pub enum Stage {
    Before,
    Running,
    Over,
}

/// Where a machine stands: the innermost frame, its callers from the outermost on, what operations are done in, and
/// the turns. Before `main` is called and after its end the frame says nothing.
#[derive(Drop)]
pub struct Spot {
    pub stage: Stage,
    pub frame: Held,
    pub callers: Vec<Held>,
    pub here: Context,
    pub turns: u64,
}
