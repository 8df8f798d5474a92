//! What a source text is refused with.

ghost use Rattle.porch_lex.specs.declared.refusal.SourceFault.TheVariants.{NoMemory};
ghost use Rattle.std.specs.Prelude.{◌≡◌};

use std::alloc::{AllocError, AllocFailed};
use thiserror::Error;

/// The rules that a source text can break.
#[derive(Clone, Copy, Debug, PartialEq, Eq)]
pub enum Rule {
    /// A byte begins no token.
    Byte,
    /// A constant, a literal or a comment isn't formed as it has to be.
    Word,
    /// An integer constant is greater than its spelling allows.
    WideConstant,
    /// No unit of the grammar goes on with this token.
    Syntax,
    /// A part lies within too many others.
    Nesting,
    /// A directive or a keyword of C90 that Porch leaves out.
    Outside,
    /// A name, a tag or a member isn't declared.
    Unknown,
    /// A name, a tag, a member, a body or a label is declared twice.
    Twice,
    /// Types don't fit.
    Mismatch,
    /// An operand has to be a place and is none.
    NotPlace,
    /// A cast to or from a pointer.
    PointerCast,
    /// An operator joins `unsigned int` with `long`.
    MixedLong,
    /// `sizeof` outside an allocation.
    SizeofPlace,
    /// A string literal where none may stand.
    StringValue,
    /// A format of `printf` that its arguments don't match.
    Format,
    /// A structure as a parameter or a result.
    StructValue,
    /// There is no `main`.
    NoMain,
    /// A limit on a size is passed.
    TooLarge,
}

/// A broken rule, and the byte of the text, from 0, where it is broken.
#[derive(Clone, Copy, Debug, PartialEq, Eq)]
pub struct Refusal {
    pub at: u32,
    pub rule: Rule,
}

/// Why a text isn't taken.
#[derive(Debug, Drop, Error)]
pub enum SourceFault {
    #[error("the source is refused")]
    Refused(Refusal),
    #[error("no memory")]
    NoMemory,
}

impl From<AllocError> for SourceFault {
    ghost from_gives = { λ _ e. e ≡ NoMemory };

    fn from(_error: AllocError) -> SourceFault {
        SourceFault::NoMemory
    }
}

impl<T: Drop> From<AllocFailed<T>> for SourceFault {
    ghost from_gives = { λ _ e. e ≡ NoMemory };

    fn from(_error: AllocFailed<T>) -> SourceFault {
        SourceFault::NoMemory
    }
}
