//! The members of a struct, by name and in their order.

ghost use Rattle.std.specs.Prelude.{◌≡◌, ◌+◌, ◌++◌, ◌∷◌, [], slice_get, OnOk, OnErr, false};
ghost use Rattle.std.specs.Option.{option_map};
ghost use Rattle.std.specs.List.{list_any};
ghost use Rattle.std.specs.Str.{bytes_eq};
ghost use Rattle.porch_check.specs.Shapes as shapes;
ghost use Rattle.porch_check.specs.Operators.{member_named};
ghost use Rattle.porch_check.specs.Declarations.{no_members};
ghost use Rattle.porch_scopes.specs.Views.{as_member, as_place, place_of};
ghost use Rattle.porch_scopes.specs.Sizes.{AreWithin};

use indexmap::IndexMap;
use std::alloc::{AllocError, Global};
use std::marker::Model;

/// A member: its type, and its first leaf in the struct.
#[derive(Clone, Copy, Debug)]
pub struct Member {
    pub shape: u32,
    pub leaf: u64,
}

/// The members of a struct so far, and their leaves. A member is found in a time that doesn't depend on
/// how many there are.
#[derive(Drop)]
pub struct Members<'t> {
    known: IndexMap<&'t [u8], Member>,
    leaves: u64,
}

impl<'t> Model for Members<'t> {
    ghost use Rattle.porch_check.specs.Declarations.{Members};
    ghost use Rattle.porch_scopes.specs.Views.{members_of};
    ghost use Rattle.porch_scopes.specs.Sizes.{AreWithin};

    ghost Value = { Members };

    ghost view = { λ m. members_of m.known.entries m.leaves };

    ghost invariant = { λ m. AreWithin (members_of m.known.entries m.leaves).list m.leaves };
}

impl<'t> Members<'t> {
    /// None.
    pub fn new(alloc: Global) -> Members<'t>
        ensures { result ≡ no_members }
    {
        Members {
            known: IndexMap::new(alloc),
            leaves: 0,
        }
    }

    /// How many leaves all of them have.
    pub fn leaves(&self) -> u64
        ensures value { result ≡ self.now.leaves }
        ensures within { AreWithin self.now.list self.now.leaves }
    {
        self.leaves
    }

    /// The member of a name.
    pub fn find(&self, name: &[u8]) -> Option<Member>
        ensures { member_named name.now self.now.list ≡ option_map (as_member name.now) result }
    {
        self.known.get(name).copied()
    }

    /// The member of a place in their order.
    pub fn get(&self, place: usize) -> Option<Member>
        ensures { option_map as_place result ≡ option_map place_of (slice_get self.now.list place) }
    {
        match self.known.get_index(place) {
            Some((_, member)) => Some(*member),
            None => None,
        }
    }

    /// Whether a member has a name.
    #[tactic(auto, using(crate::proofs::MembersByName::contained))]
    pub fn contains(&self, name: &[u8]) -> bool
        ensures { result ≡ list_any
            (λ (m : shapes.Member). bytes_eq name.now m.name) self.now.list }
    {
        self.find(name).is_some()
    }

    /// Puts a member behind the others. Its name is none of theirs. More than 2^64 leaves count as want
    /// of memory.
    pub fn push(&mut self, name: &'t [u8], shape: u32, leaves: u64) -> Result<(), AllocError>
        requires new { list_any
            (λ (m : shapes.Member). bytes_eq name.now m.name) self.old.list ≡ false }
        ensures list { OnOk result (self.new.list ≡ self.old.list
            ++ record { name = name.now; shape = shape; leaf = self.old.leaves } ∷ []) }
        ensures leaves { OnOk result (self.new.leaves ≡ self.old.leaves + leaves) }
        ensures failed { OnErr result (self.new ≡ self.old) }
    {
        let leaf = self.leaves;
        let all = match leaf.checked_add(leaves) {
            Some(all) => all,
            None => return Err(AllocError),
        };
        self.known.insert(name, Member { shape, leaf })?;
        self.leaves = all;
        Ok(())
    }
}
