//! The functions of the program that were declared so far.

ghost use Rattle.std.specs.Prelude.{◌≡◌, ◌++◌, ◌∷◌, [], None, OnOk, OnErr};
ghost use Rattle.porch_check.specs.Scopes.{of_name};

use indexmap::IndexMap;
use std::alloc::{AllocError, Global};
use std::marker::Model;

/// The functions of the program that were declared so far, in their order, each with the type of its first
/// declaration. One is found in a time that doesn't depend on how many there are.
#[derive(Drop)]
pub struct Declared<'t> {
    types: IndexMap<&'t [u8], u32>,
}

impl<'t> Model for Declared<'t> {
    ghost use Rattle.std.specs.Prelude.{List, ℕ};
    ghost use Rattle.porch_scopes.specs.Views.{declared_of};

    ghost Value = { List (List ℕ × ℕ) };

    ghost view = { λ d. declared_of d.types.entries };
}

impl<'t> Declared<'t> {
    /// None.
    pub fn new(alloc: Global) -> Declared<'t>
        ensures { result ≡ [] }
    {
        Declared {
            types: IndexMap::new(alloc),
        }
    }

    /// The type of a function's first declaration.
    pub fn find(&self, name: &[u8]) -> Option<u32>
        ensures { result ≡ of_name name.now self.now }
    {
        self.types.get(name).copied()
    }

    /// Puts a function behind the others. Its name is none of theirs.
    pub fn push(&mut self, name: &'t [u8], shape: u32) -> Result<(), AllocError>
        requires new { of_name name.now self.old ≡ None }
        ensures functions { OnOk result (self.new ≡ self.old ++ (name.now, shape) ∷ []) }
        ensures failed { OnErr result (self.new ≡ self.old) }
    {
        self.types.insert(name, shape)?;
        Ok(())
    }
}
