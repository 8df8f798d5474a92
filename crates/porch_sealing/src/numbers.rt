//! The last numbers of types, by the first ones.

ghost use Rattle.std.specs.Prelude.{◌≡◌, ◌<◌, ◌^◌, ◌+◌, ◌++◌, ◌∷◌, [], ℕ, nat_eq, length, IfOk, OnOk, OnErr};
ghost use Rattle.porch_check.specs.Sealing.{position_of};
ghost use Rattle.porch_sealing.specs.inside.Places.{first_place, place_in};

use indexmap::IndexMap;
use std::alloc::{AllocError, Global};
use std::marker::Model;

/// The numbers of the types that were completed, in the order in which they became so. The place of one
/// is its last number, and is found in a time that doesn't depend on how many there are.
#[derive(Drop)]
pub struct LastNumbers {
    complete: Vec<u32>,
    places: IndexMap<u32, u32>,
}

impl Model for LastNumbers {
    ghost use Rattle.std.specs.Prelude.{List, ℕ};
    ghost use Rattle.porch_sealing.specs.inside.Places.{ArePlaces};

    ghost Value = { List ℕ };

    ghost view = { λ n. n.complete.items };

    ghost invariant = { λ n. ArePlaces n.complete.items n.places.entries };
}

impl LastNumbers {
    /// Of no type.
    pub fn new(alloc: Global) -> LastNumbers
        ensures { result ≡ [] }
    {
        LastNumbers {
            complete: Vec::new(alloc),
            places: IndexMap::new(alloc),
        }
    }

    /// The last number of a type; how many there are, where it isn't among them.
    pub fn find(&self, number: u32) -> u32
        ensures { result ≡ position_of number self.now }
    {
        match self.places.get(&number) {
            Some(place) => *place,
            None => self.complete.len() as u32,
        }
    }

    /// The first numbers, in the order of the last ones.
    pub fn as_slice(&self) -> &[u32]
        ensures { result.now ≡ self.now }
    {
        self.complete.as_slice()
    }

    /// Puts one more type behind the others. 2^32 and more count as want of memory.
    pub fn push(&mut self, number: u32) -> Result<(), AllocError>
        ensures numbers { OnOk result (self.new ≡ self.old ++ number ∷ []) }
        ensures failed { OnErr result (self.new ≡ self.old) }
    {
        let place = next_place(&self.complete)?;
        self.complete.reserve(1)?;
        note(&mut self.places, number, place)?;
        self.complete.push_reserved(number);
        Ok(())
    }
}

// Gives a place to a number, unless it has one.
fn note(places: &mut IndexMap<u32, u32>, number: u32, place: u32) -> Result<(), AllocError>
    ensures noted { OnOk result ((n : ℕ) → place_in n places.new.entries
        ≡ first_place (place_in n places.old.entries) (nat_eq n number) place) }
    ensures failed { OnErr result (places.new.entries ≡ places.old.entries) }
{
    if !places.contains_key(&number) {
        places.insert(number, place)?;
    }
    Ok(())
}

// There is a number for how many there will be, too.
fn next_place(complete: &[u32]) -> Result<u32, AllocError>
    ensures place { IfOk result (λ n. n ≡ length complete.now) }
    ensures few { OnOk result (length complete.now + 1 < 2 ^ 32) }
{
    match u32::try_from(complete.len()) {
        Ok(place) => {
            if place < u32::MAX {
                Ok(place)
            } else {
                Err(AllocError)
            }
        }
        Err(_) => Err(AllocError),
    }
}
