//! What a run is limited to.

/// The most turns of a program, and of a wait for the next checkpoint.
pub const MOST_TURNS: u64 = 4_611_686_018_427_387_904;

/// The least bytes of a stack.
pub const LEAST_STACK: u64 = 4_096;

/// The most bytes of a stack.
pub const MOST_STACK: u64 = 16_777_216;

/// The least bytes of a heap.
pub const LEAST_HEAP: u64 = 16;

/// The most bytes of a heap.
pub const MOST_HEAP: u64 = 67_108_864;

/// What a run is limited to. Which values are allowed is `AreLimits` in `specs/Limits`.
#[derive(Clone, Copy, Debug, PartialEq, Eq)]
pub struct Limits {
    /// The least number of turns from one checkpoint to the next, 1 to `MOST_TURNS`.
    pub every: u64,
    /// The most turns of the run, 1 to `MOST_TURNS`.
    pub turns: u64,
    /// Bytes of the stack, `LEAST_STACK` to `MOST_STACK`.
    pub stack: u64,
    /// Bytes of the heap, `LEAST_HEAP` to `MOST_HEAP`.
    pub heap: u64,
}
