//! Objects by where they begin.

ghost use Rattle.std.specs.Prelude.{◌≡◌, ◌↔◌, ◌<◌, ◌≤◌, ◌+◌, ◌++◌, ◌∷◌, ◌^◌, [], ℕ, length, slice_get, Some, IfSome, IfOk};
ghost use Rattle.porch_find.specs.Roots.{IsRising, IsLastAt};

use std::alloc::{AllocError, Global};
use std::marker::Model;

/// An object of `count` elements of type `ty`, which begins at byte `at`: an address, or a place in
/// the data of a checkpoint.
#[derive(Clone, Copy, Debug, PartialEq, Eq)]
pub struct Root {
    pub at: u64,
    pub ty: u32,
    pub count: u32,
}

/// A list of roots, with room that is taken once. Contracts see its items and its room.
#[derive(Drop)]
pub struct Roots {
    roots: Vec<Root>,
}

impl Model for Roots {
    ghost use Rattle.std.specs.Prelude.{vec_capacity};
    ghost use Rattle.porch_find.specs.Roots.{RootList};

    ghost Value = { RootList };

    ghost view = { λ r. record { items = r.roots.items; room = vec_capacity r.roots } };
}

impl Roots {
    /// An empty list with room for so many roots.
    pub fn with_room(alloc: Global, room: usize) -> Result<Roots, AllocError>
        ensures empty { IfOk result (λ roots. roots.items ≡ []) }
        ensures room { IfOk result (λ roots. room ≤ roots.room) }
    {
        Ok(Roots {
            roots: Vec::with_capacity(alloc, room)?,
        })
    }

    /// These roots. It takes no memory.
    pub fn from_vec(roots: Vec<Root>) -> Roots
        ensures { result.items ≡ roots.items }
    {
        Roots { roots }
    }

    /// The roots, in order.
    pub fn as_slice(&self) -> &[Root]
        ensures { result.now ≡ self.now.items }
    {
        self.roots.as_slice()
    }

    /// The root of a number.
    pub fn get(&self, number: usize) -> Root
        requires { number < length self.now.items }
        ensures root { slice_get self.now.items number ≡ Some result }
        ensures few { result.count < 2 ^ 32 }
    {
        let root = self.roots[number];
        counts_fit(root.count);
        root
    }

    /// Puts a root last. It takes no memory.
    pub fn put(&mut self, root: Root)
        requires { length self.old.items < self.old.room }
        ensures items { self.new.items ≡ self.old.items ++ root ∷ [] }
        ensures room { self.old.room ≤ self.new.room }
    {
        let _ = self.roots.push(root);
    }

    /// Leaves no root, and the room as it was.
    pub fn clear(&mut self)
        ensures items { self.new.items ≡ [] }
        ensures room { self.old.room ≤ self.new.room }
    {
        self.roots.clear();
    }

    /// The number of the last root that begins at or before a place; none where all begin after it.
    pub fn root_at(&self, place: u64) -> Option<usize>
        requires { IsRising self.now.items }
        ensures last { (i : ℕ) → (result ≡ Some i) ↔ IsLastAt self.now.items place i }
        ensures within { IfSome result (λ i. i < length self.now.items) }
    {
        last_at(self.roots.as_slice(), place)
    }
}

/// Halves the roots between those that begin at or before the place and those that begin after it.
fn last_at(roots: &[Root], place: u64) -> Option<usize>
    requires { IsRising roots.now }
    ensures last { (i : ℕ) → (result ≡ Some i) ↔ IsLastAt roots.now place i }
    ensures within { IfSome result (λ i. i < length roots.now) }
{
    let mut low = 0;
    let mut high = roots.len();
    'halves: while low < high {
        let middle = low + (high - low) / 2;
        if roots[middle].at <= place {
            low = middle + 1;
        } else {
            high = middle;
        }
    }
    if low == 0 { None } else { Some(low - 1) }
}

/// A number of 32 bits is one, which the range of a parameter says.
fn counts_fit(count: u32)
    ensures { count < 2 ^ 32 }
{}
