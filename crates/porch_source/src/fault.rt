//! Why a text has no program.

ghost use Rattle.std.specs.Prelude.{◌≡◌};
ghost use Rattle.porch_source.specs.declared.fault.SourceFault.TheVariants.{NoMemory};

use porch_lex::Refusal;
use std::alloc::AllocError;
use thiserror::Error;

/// Why a text has no program that runs.
#[derive(Debug, Drop, Error)]
pub enum SourceFault {
    /// It breaks a rule of the language, and which one first.
    #[error("the source is refused")]
    Refused(Refusal),
    /// It breaks no rule that is looked at, and isn't in the part of the language that runs yet. This goes
    /// away with the last part of the language.
    #[error("the source isn't in the part of the language that runs")]
    Unbuilt,
    #[error("no memory")]
    NoMemory,
}

impl From<AllocError> for SourceFault {
    ghost from_gives = { λ _ e. e ≡ NoMemory };

    fn from(_error: AllocError) -> SourceFault {
        SourceFault::NoMemory
    }
}
