//! The numbers of the functions of a program.

ghost use Rattle.std.specs.Prelude.{◌≡◌, ◌++◌, ◌∷◌, [], OnOk, OnErr};
ghost use Rattle.porch_check.specs.Calls.{number_of};

use porch_scopes::Bodies;
use std::alloc::{AllocError, Global};
use std::marker::Model;

/// The numbers of the functions that have a body: their places among the bodies of the text.
#[derive(Drop)]
pub struct Numbers<'t> {
    bodies: Bodies<'t>,
    count: u32,
}

impl<'t> Model for Numbers<'t> {
    ghost use Rattle.std.specs.Prelude.{◌≡◌, List, ℕ, length};

    ghost Value = { List (List ℕ) };

    ghost view = { λ n. n.bodies };

    ghost invariant = { λ n. n.count ≡ length n.bodies };
}

impl<'t> Numbers<'t> {
    /// None.
    pub fn new(alloc: Global) -> Numbers<'t>
        ensures { result ≡ [] }
    {
        Numbers {
            bodies: Bodies::new(alloc),
            count: 0,
        }
    }

    /// Puts the function of one more body behind the others. More than 2^32 count as want of memory.
    pub fn push(&mut self, name: &'t [u8]) -> Result<(), AllocError>
        ensures names { OnOk result (self.new ≡ self.old ++ name.now ∷ []) }
        ensures failed { OnErr result (self.new ≡ self.old) }
    {
        match self.count.checked_add(1) {
            Some(count) => {
                self.bodies.push(name)?;
                self.count = count;
                Ok(())
            }
            None => Err(AllocError),
        }
    }

    /// The number of a function: the place of its first body. One without a body has the number behind all.
    #[tactic(auto, using(crate::proofs::Behind::first_body, crate::proofs::Behind::no_body))]
    pub fn number(&self, name: &[u8]) -> u32
        ensures { result ≡ number_of name.now self.now }
    {
        match self.bodies.find(name) {
            Some(number) => number,
            None => self.count,
        }
    }
}
