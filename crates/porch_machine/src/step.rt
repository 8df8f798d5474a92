//! What a step answers.

use porch_values::Act;

/// What a step of a machine did.
#[derive(Clone, Copy, Debug, PartialEq, Eq)]
pub enum Step {
    /// The run goes on.
    Went,
    /// The run goes on, and `shown` has bytes.
    Out,
    /// The program ended with this value.
    Ended { value: i32 },
    /// A trap.
    Trap { act: Act },
    /// A frame of `asked` bytes doesn't fit, as `left` bytes of the stack are left.
    StackFull { asked: u64, left: u64 },
}
