//! Flat programs that break no rule.

ghost use Rattle.std.specs.Prelude.{◌≡◌, ◌∷◌, [], IfOk, IfErr, OnOk};
ghost use Rattle.porch_flat.specs.Valid.{IsMain, IsValid, IsRefused};
ghost use Rattle.porch_flat.specs.declared.valid.ValidFault.TheVariants.{NoMemory};

use crate::checks::is_valid;
use crate::flat::{Flat, Function};
use std::alloc::{AllocError, Global};
use std::marker::Model;
use thiserror::Error;

/// Why a program isn't taken.
#[derive(Clone, Copy, Debug, PartialEq, Eq, Error)]
pub enum ValidFault {
    /// It breaks a rule, or isn't built so far.
    #[error("the program isn't valid")]
    NotValid,
    #[error("no memory")]
    NoMemory,
}

impl From<AllocError> for ValidFault {
    ghost from_gives = { λ _ fault. fault ≡ NoMemory };

    fn from(_: AllocError) -> Self {
        ValidFault::NoMemory
    }
}

// A program that breaks a rule is refused.
fn check(alloc: Global, flat: &Flat) -> Result<(), ValidFault>
    ensures valid { OnOk result (IsValid flat.now) }
    ensures refused { IfErr result (λ fault. IsRefused flat.now fault) }
{
    if is_valid(alloc, flat)? {
        Ok(())
    } else {
        Err(ValidFault::NotValid)
    }
}

/// A valid program without commands for saving and restoring.
#[derive(Drop)]
pub struct Plain {
    flat: Flat,
}

impl Model for Plain {
    ghost use Rattle.porch_flat.specs.declared.flat.Flat.{Flat};
    ghost use Rattle.porch_flat.specs.Valid.{IsValid};

    ghost Value = { Flat };

    ghost view = { λ p. p.flat };

    ghost invariant = { λ p. IsValid p.flat };
}

impl Plain {
    /// Takes a program that breaks no rule; another is dropped.
    pub fn new(alloc: Global, flat: Flat) -> Result<Plain, ValidFault>
        ensures same { IfOk result (λ p. p ≡ flat) }
        ensures valid { IfOk result (λ p. IsValid p) }
        ensures refused { IfErr result (λ fault. IsRefused flat fault) }
    {
        check(alloc, &flat)?;
        Ok(Plain { flat })
    }

    /// The program. It takes no memory.
    pub fn flat(&self) -> &Flat
        ensures same { result.now ≡ self.now }
        ensures valid { IsValid self.now }
    {
        &self.flat
    }

    /// The program, taken out. It takes no memory.
    pub fn into_flat(self) -> Flat
        ensures same { result ≡ self }
        ensures valid { IsValid self }
    {
        let Plain { flat } = self;
        flat
    }
}

/// A valid program that saves and rebuilds its own frames where it has to. None that is built so far has to.
#[derive(Drop)]
pub struct Valid {
    flat: Flat,
}

impl Model for Valid {
    ghost use Rattle.porch_flat.specs.declared.flat.Flat.{Flat};
    ghost use Rattle.porch_flat.specs.Valid.{IsValid};

    ghost Value = { Flat };

    ghost view = { λ p. p.flat };

    ghost invariant = { λ p. IsValid p.flat };
}

impl Valid {
    /// Takes a program that breaks no rule; another is dropped.
    pub fn new(alloc: Global, flat: Flat) -> Result<Valid, ValidFault>
        ensures same { IfOk result (λ p. p ≡ flat) }
        ensures valid { IfOk result (λ p. IsValid p) }
        ensures refused { IfErr result (λ fault. IsRefused flat fault) }
    {
        check(alloc, &flat)?;
        Ok(Valid { flat })
    }

    /// The program. It takes no memory.
    pub fn flat(&self) -> &Flat
        ensures same { result.now ≡ self.now }
        ensures valid { IsValid self.now }
    {
        &self.flat
    }

    /// Its only function. It takes no memory.
    pub fn main(&self) -> &Function
        ensures only { self.now.functions ≡ result.now ∷ [] }
        ensures main { IsMain result.now }
        ensures valid { IsValid self.now }
    {
        &self.flat.functions.as_slice()[0]
    }
}
