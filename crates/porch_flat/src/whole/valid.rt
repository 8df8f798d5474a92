//! Flat programs that break no rule.

ghost use Rattle.std.specs.Prelude.{◌≡◌, IfOk, IfErr, OnOk};
ghost use Rattle.porch_flat.specs.declared.whole.Sort.TheVariants as sort;
ghost use Rattle.porch_flat.specs.declared.whole.valid.ValidFault.TheVariants.{NoMemory};
ghost use Rattle.porch_flat.specs.whole.Rules.{IsValid, IsRefused};

use crate::whole::calls::reaching;
use crate::whole::copies::copy_flat;
use crate::whole::walk::find_fault;
use crate::whole::{Flat, FlatRule, Sort};
use std::alloc::{AllocError, Global};
use std::marker::Model;
use thiserror::Error;

/// Why a program isn't taken.
#[derive(Clone, Copy, Debug, PartialEq, Eq, Error)]
pub enum ValidFault {
    /// It breaks this rule in this line of its text, counted from 1, and no rule before it: none in an
    /// earlier line, and in this line none that stands earlier among the rules.
    #[error("line {line} breaks {rule:?}")]
    NotValid { line: u64, rule: FlatRule },
    #[error("no memory")]
    NoMemory,
}

impl From<AllocError> for ValidFault {
    ghost from_gives = { λ _ fault. fault ≡ NoMemory };

    fn from(_: AllocError) -> Self {
        ValidFault::NoMemory
    }
}

// Refuses a program with a command for saving and rebuilding frames, or one that breaks another rule.
#[tactic(auto, using(crate::proofs::Faults::valid_result, crate::proofs::Faults::refused_by))]
fn check_plain(alloc: Global, flat: &Flat) -> Result<(), ValidFault>
    ensures valid { OnOk result (IsValid sort.Plain flat.now) }
    ensures refused { IfErr result (λ fault. IsRefused sort.Plain flat.now fault) }
    ensures taken { IsValid sort.Plain flat.now → IfErr result (λ fault. fault ≡ NoMemory) }
{
    find_fault(alloc, Sort::Plain, flat, &[])
}

/// A valid program without commands for saving and rebuilding frames.
#[derive(Drop)]
pub struct Plain {
    flat: Flat,
}

impl Model for Plain {
    ghost use Rattle.porch_flat.specs.declared.whole.Flat.{Flat};
    ghost use Rattle.porch_flat.specs.declared.whole.Sort.TheVariants as sort;
    ghost use Rattle.porch_flat.specs.whole.Rules.{IsValid};

    ghost Value = { Flat };

    ghost view = { λ p. p.flat };

    ghost invariant = { λ p. IsValid sort.Plain p.flat };
}

impl Plain {
    /// Takes a program that breaks no rule; another is dropped. The time is linear in the text of the
    /// program.
    pub fn new(alloc: Global, flat: Flat) -> Result<Plain, ValidFault>
        ensures same { IfOk result (λ p. p ≡ flat) }
        ensures valid { IfOk result (λ p. IsValid sort.Plain p) }
        ensures refused { IfErr result (λ fault. IsRefused sort.Plain flat fault) }
        ensures taken { IsValid sort.Plain flat → IfErr result (λ fault. fault ≡ NoMemory) }
    {
        check_plain(alloc, &flat)?;
        Ok(Plain { flat })
    }

    /// Takes a program that is known to break no rule. It takes no memory.
    pub fn from_valid(flat: Flat) -> Plain
        requires { IsValid sort.Plain flat }
        ensures same { result ≡ flat }
    {
        Plain { flat }
    }

    /// The program. It takes no memory.
    pub fn flat(&self) -> &Flat
        ensures same { result.now ≡ self.now }
        ensures valid { IsValid sort.Plain self.now }
    {
        &self.flat
    }

    /// The program, taken out. It takes no memory.
    pub fn into_flat(self) -> Flat
        ensures same { result ≡ self }
        ensures valid { IsValid sort.Plain self }
    {
        let Plain { flat } = self;
        flat
    }

    /// The program as one that saves its frames, where it has none to save. It takes no memory.
    pub fn into_valid(self) -> Valid
        requires { IsValid sort.Rewritten self }
        ensures same { result ≡ self }
    {
        let Plain { flat } = self;
        Valid { flat }
    }
}

// Refuses a program in which a function doesn't save and rebuild its frames as it has to, or that breaks
// another rule.
#[tactic(auto, using(crate::proofs::Faults::valid_result, crate::proofs::Faults::refused_by))]
fn check_rewritten(alloc: Global, flat: &Flat) -> Result<(), ValidFault>
    ensures valid { OnOk result (IsValid sort.Rewritten flat.now) }
    ensures refused { IfErr result (λ fault. IsRefused sort.Rewritten flat.now fault) }
    ensures taken { IsValid sort.Rewritten flat.now → IfErr result (λ fault. fault ≡ NoMemory) }
{
    let kept = reaching(alloc, flat)?;
    find_fault(alloc, Sort::Rewritten, flat, kept.as_slice())
}

/// A valid program that saves and rebuilds the frames of each function that reaches a checkpoint.
#[derive(Drop)]
pub struct Valid {
    flat: Flat,
}

impl Model for Valid {
    ghost use Rattle.porch_flat.specs.declared.whole.Flat.{Flat};
    ghost use Rattle.porch_flat.specs.declared.whole.Sort.TheVariants as sort;
    ghost use Rattle.porch_flat.specs.whole.Rules.{IsValid};

    ghost Value = { Flat };

    ghost view = { λ p. p.flat };

    ghost invariant = { λ p. IsValid sort.Rewritten p.flat };
}

impl Valid {
    /// Takes a program that breaks no rule; another is dropped. The time is linear in the text of the
    /// program.
    pub fn new(alloc: Global, flat: Flat) -> Result<Valid, ValidFault>
        ensures same { IfOk result (λ p. p ≡ flat) }
        ensures valid { IfOk result (λ p. IsValid sort.Rewritten p) }
        ensures refused { IfErr result (λ fault. IsRefused sort.Rewritten flat fault) }
        ensures taken { IsValid sort.Rewritten flat → IfErr result (λ fault. fault ≡ NoMemory) }
    {
        check_rewritten(alloc, &flat)?;
        Ok(Valid { flat })
    }

    /// An equal program.
    pub fn copy(&self, alloc: Global) -> Result<Valid, AllocError>
        ensures { IfOk result (λ p. p ≡ self.now) }
    {
        let flat = copy_flat(alloc, &self.flat)?;
        Ok(Valid { flat })
    }

    /// Takes a program that is known to break no rule. It takes no memory.
    pub fn from_valid(flat: Flat) -> Valid
        requires { IsValid sort.Rewritten flat }
        ensures same { result ≡ flat }
    {
        Valid { flat }
    }

    /// The program. It takes no memory.
    pub fn flat(&self) -> &Flat
        ensures same { result.now ≡ self.now }
        ensures valid { IsValid sort.Rewritten self.now }
    {
        &self.flat
    }

    /// The program, taken out. It takes no memory.
    pub fn into_flat(self) -> Flat
        ensures same { result ≡ self }
        ensures valid { IsValid sort.Rewritten self }
    {
        let Valid { flat } = self;
        flat
    }
}
