//! The tags of structs that a scope completes somewhere.

ghost use Rattle.std.specs.Prelude.{◌≡◌, ◌++◌, ◌∷◌, [], OnOk, OnErr};
ghost use Rattle.std.specs.List.{list_any};
ghost use Rattle.std.specs.Str.{bytes_eq};

use indexmap::IndexSet;
use std::alloc::{AllocError, Global};
use std::marker::Model;

/// The tags of structs that a brace in a scope completes, wherever in it. Whether it does is found in a
/// time that doesn't depend on how many there are.
#[derive(Drop)]
pub struct Completes<'t> {
    tags: Vec<&'t [u8]>,
    known: IndexSet<&'t [u8]>,
}

impl<'t> Model for Completes<'t> {
    ghost use Rattle.std.specs.Prelude.{List, ℕ};
    ghost use Rattle.porch_scopes.specs.inside.Completes.{tags_of, AreKnown};

    ghost Value = { List (List ℕ) };

    ghost view = { λ c. tags_of c.tags.items };

    ghost invariant = { λ c. AreKnown c.tags.items c.known.keys };
}

impl<'t> Completes<'t> {
    /// None.
    pub fn new(alloc: Global) -> Completes<'t>
        ensures { result ≡ [] }
    {
        Completes {
            tags: Vec::new(alloc),
            known: IndexSet::new(alloc),
        }
    }

    /// Whether a tag is among them.
    pub fn contains(&self, tag: &[u8]) -> bool
        ensures { result ≡ list_any (λ y. bytes_eq tag.now y) self.now }
    {
        self.known.contains(tag)
    }

    /// Puts a tag behind the others.
    pub fn push(&mut self, tag: &'t [u8]) -> Result<(), AllocError>
        ensures tags { OnOk result (self.new ≡ self.old ++ tag.now ∷ []) }
        ensures failed { OnErr result (self.new ≡ self.old) }
    {
        self.tags.reserve(1)?;
        self.known.insert(tag)?;
        self.tags.push_reserved(tag);
        Ok(())
    }
}
