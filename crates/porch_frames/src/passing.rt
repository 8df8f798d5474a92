//! Arguments and parameters.

use porch_instructions::instruction::{Cell, Source};

/// An argument: what it is read from in the caller's frame, and the parameter in the frame of the function that is
/// called.
#[derive(Clone, Copy, Debug, PartialEq, Eq)]
pub struct Passing {
    pub from: Source,
    pub to: Cell,
}
