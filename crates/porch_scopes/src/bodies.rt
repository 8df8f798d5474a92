//! The functions that have a body somewhere in the text.

ghost use Rattle.std.specs.Prelude.{◌≡◌, ◌++◌, ◌∷◌, [], ℕ, List, length, IfOk, OnOk, OnErr};
ghost use Rattle.std.specs.Str.{bytes_eq};
ghost use Rattle.porch_scopes.specs.Bodies.{body_number};
ghost use Rattle.porch_scopes.specs.inside.Numbered.{numbered_as, first_number};

use indexmap::IndexMap;
use std::alloc::{AllocError, Global};
use std::marker::Model;

/// The names of the functions that have a body, in the order of the bodies. The number of one is found in a
/// time that doesn't depend on how many there are.
#[derive(Drop)]
pub struct Bodies<'t> {
    names: Vec<&'t [u8]>,
    numbers: IndexMap<&'t [u8], u32>,
}

impl<'t> Model for Bodies<'t> {
    ghost use Rattle.std.specs.Prelude.{List, ℕ};
    ghost use Rattle.porch_scopes.specs.inside.Completes.{tags_of};
    ghost use Rattle.porch_scopes.specs.inside.Numbered.{AreNumbered};

    ghost Value = { List (List ℕ) };

    ghost view = { λ b. tags_of b.names.items };

    ghost invariant = { λ b. AreNumbered (tags_of b.names.items) b.numbers.entries };
}

impl<'t> Bodies<'t> {
    /// None.
    pub fn new(alloc: Global) -> Bodies<'t>
        ensures { result ≡ [] }
    {
        Bodies {
            names: Vec::new(alloc),
            numbers: IndexMap::new(alloc),
        }
    }

    /// The number of a function that has a body: the place of its first one among them all.
    pub fn find(&self, name: &[u8]) -> Option<u32>
        ensures { result ≡ body_number name.now self.now }
    {
        self.numbers.get(name).copied()
    }

    /// Puts the function of one more body behind the others. More than 2^32 count as want of memory.
    pub fn push(&mut self, name: &'t [u8]) -> Result<(), AllocError>
        ensures names { OnOk result (self.new ≡ self.old ++ name.now ∷ []) }
        ensures failed { OnErr result (self.new ≡ self.old) }
    {
        let number = next_number(&self.names)?;
        self.names.reserve(1)?;
        note(&mut self.numbers, name, number)?;
        self.names.push_reserved(name);
        Ok(())
    }
}

// Gives a number to a name, unless it has one.
fn note<'t>(
    numbers: &mut IndexMap<&'t [u8], u32>,
    name: &'t [u8],
    number: u32,
) -> Result<(), AllocError>
    ensures noted { OnOk result ((x : List ℕ)
        → numbered_as x numbers.new.entries
        ≡ first_number (numbered_as x numbers.old.entries) (bytes_eq x name.now) number) }
    ensures failed { OnErr result (numbers.new.entries ≡ numbers.old.entries) }
{
    if !numbers.contains_key(name) {
        numbers.insert(name, number)?;
    }
    Ok(())
}

fn next_number<'t>(names: &[&'t [u8]]) -> Result<u32, AllocError>
    ensures { IfOk result (λ n. n ≡ length names.now) }
{
    match u32::try_from(names.len()) {
        Ok(number) => Ok(number),
        Err(_) => Err(AllocError),
    }
}
