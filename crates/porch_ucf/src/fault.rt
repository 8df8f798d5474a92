//! Why a checkpoint isn't read.

ghost use Rattle.std.specs.Prelude.{◌≡◌};
ghost use Rattle.porch_ucf.specs.declared.fault.ImageFault.TheVariants.{NoMemory};

use std::alloc::{AllocError, AllocFailed};
use thiserror::Error;

/// What is wrong with a file of a session's folder, in the order in which it is looked for: first the
/// program's text, then whether the newest checkpoint is known, then that checkpoint, then the output.
/// This crate answers those from `Magic` to `Word`.
#[derive(Clone, Copy, Debug, PartialEq, Eq)]
pub enum Reason {
    /// The text is that of no flat program.
    FlatSyntax,
    /// The program breaks a rule.
    NotValid,
    /// Both checkpoint files are open with one number.
    Tie,
    /// The name of the format doesn't stand at its place.
    Magic,
    /// The version isn't 1.
    Version,
    /// A place that has to hold 0 doesn't.
    Reserved,
    /// The counts can't be those of a checkpoint.
    Counts,
    /// The file is shorter than it says.
    Length,
    /// The digest isn't that of the bytes before it.
    Digest,
    /// The body is shorter than its rows.
    Rows,
    /// A frame doesn't stand at a call of the next one, or the last one at a checkpoint.
    Frame,
    /// A heap block has no type, or no size that a block can have.
    Block,
    /// The data is longer or shorter than its objects.
    Size,
    /// A pointer's word names nothing.
    Word,
    /// The output is shorter than the checkpoint says.
    Short,
}

/// Why a text is no checkpoint of a program that can be read under a layout.
#[derive(Clone, Copy, Debug, PartialEq, Eq, Error)]
pub enum ImageFault {
    /// The byte at which the text is wrong, and why.
    #[error("{reason:?} at byte {place}")]
    Damaged { place: u64, reason: Reason },
    /// It is of another program: the digest that it has, and the program's.
    #[error("the checkpoint is of another program")]
    OtherProgram { kept: [u8; 32], found: [u8; 32] },
    /// A long value that the layout has no room for, and the byte at which it stands.
    #[error("the value {value} at byte {place} is too wide")]
    TooNarrow { value: i128, place: u64 },
    #[error("no memory")]
    NoMemory,
}

impl From<AllocError> for ImageFault {
    ghost from_gives = { λ _ fault. fault ≡ NoMemory };

    fn from(_: AllocError) -> Self {
        ImageFault::NoMemory
    }
}

impl<T: Drop> From<AllocFailed<T>> for ImageFault {
    ghost from_gives = { λ _ fault. fault ≡ NoMemory };

    fn from(_: AllocFailed<T>) -> Self {
        ImageFault::NoMemory
    }
}
