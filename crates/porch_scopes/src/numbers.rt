//! The numbers of the types that are made of others, so that equal ones have one number.

ghost use Rattle.std.specs.Prelude.{◌≡◌, List, length, IfOk, OnOk, OnErr, None, ◌++◌, ◌∷◌, [], ℕ};
ghost use Rattle.porch_check.specs.Shapes.{Row, place_in, pointer, array, function};
ghost use Rattle.porch_scopes.specs.inside.Numbers.{AreNumbers, AddsRow};

use indexmap::IndexMap;
use std::alloc::{AllocError, Global};

/// An array: what it is of, and its count.
#[derive(Clone, Copy, PartialEq, Eq, Hash)]
pub(crate) struct Elements {
    pub(crate) of: u32,
    pub(crate) count: Option<u64>,
}

/// The numbers of pointers by what they point to, of arrays, and of functions by their results with their
/// parameters behind.
#[derive(Drop)]
pub(crate) struct Numbers {
    pub(crate) pointers: IndexMap<u32, u32>,
    pub(crate) arrays: IndexMap<Elements, u32>,
    pub(crate) functions: IndexMap<Vec<u32>, u32>,
}

impl Numbers {
    /// None.
    pub(crate) fn new(alloc: Global) -> Numbers
        ensures pointers { result.pointers.entries ≡ [] }
        ensures arrays { result.arrays.entries ≡ [] }
        ensures functions { result.functions.entries ≡ [] }
    {
        Numbers {
            pointers: IndexMap::new(alloc),
            arrays: IndexMap::new(alloc),
            functions: IndexMap::new(alloc),
        }
    }

    pub(crate) fn pointer(&self, to: u32) -> Option<u32>
        ensures { (rows : List Row) → AreNumbers rows self.now
            → result ≡ place_in (pointer to) rows 0 }
    {
        self.pointers.get(&to).copied()
    }

    pub(crate) fn array(&self, of: u32, count: Option<u64>) -> Option<u32>
        ensures { (rows : List Row) → AreNumbers rows self.now
            → result ≡ place_in (array of count) rows 0 }
    {
        self.arrays.get(&Elements { of, count }).copied()
    }

    /// Of a function: its result, with its parameters behind.
    pub(crate) fn function(&self, types: &[u32]) -> Option<u32>
        ensures { (rows : List Row) (r : ℕ) (ps : List ℕ) → AreNumbers rows self.now
            → types.now ≡ r ∷ ps
            → result ≡ place_in (function r ps) rows 0 }
    {
        self.functions.get(types).copied()
    }

    /// Gives the next number to a pointer.
    pub(crate) fn add_pointer(&mut self, to: u32, number: u32) -> Result<(), AllocError>
        ensures added { OnOk result (AddsRow (pointer to) number self.old self.new) }
        ensures failed { OnErr result ((rows : List Row) → AreNumbers rows self.old
            → AreNumbers rows self.new) }
    {
        self.pointers.insert(to, number)?;
        Ok(())
    }

    /// Gives the next number to an array.
    pub(crate) fn add_array(
        &mut self,
        of: u32,
        count: Option<u64>,
        number: u32,
    ) -> Result<(), AllocError>
        ensures added { OnOk result (AddsRow (array of count) number self.old self.new) }
        ensures failed { OnErr result ((rows : List Row) → AreNumbers rows self.old
            → AreNumbers rows self.new) }
    {
        self.arrays.insert(Elements { of, count }, number)?;
        Ok(())
    }

    /// Gives the next number to a function of this result, with its parameters behind.
    pub(crate) fn add_function(&mut self, types: Vec<u32>, number: u32) -> Result<(), AllocError>
        ensures added { OnOk result ((r : ℕ) (ps : List ℕ) → types.items ≡ r ∷ ps
            → AddsRow (function r ps) number self.old self.new) }
        ensures failed { OnErr result ((rows : List Row) → AreNumbers rows self.old
            → AreNumbers rows self.new) }
    {
        self.functions.insert(types, number)?;
        Ok(())
    }
}
