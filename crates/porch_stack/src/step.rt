//! What a step answers.

use porch_heap::HeapFull;
use porch_values::Act;

/// What a step of a machine did.
#[derive(Clone, Copy, Debug, PartialEq, Eq)]
pub enum Step {
    /// The run goes on.
    Went,
    /// The run goes on, and bytes were shown.
    Out,
    /// A checkpoint was reached; the run goes on after it.
    Due,
    /// The program ended with this value.
    Ended { value: i32 },
    /// A trap. The state stays.
    Trap { act: Act },
    /// A frame of `asked` bytes doesn't fit, as `left` bytes of the stack are left. The state stays.
    StackFull { asked: u64, left: u64 },
    /// An allocation has no place. The state stays.
    HeapFull(HeapFull),
}
