//! Where the temporaries of each type begin among the variables of a function.

ghost use Rattle.std.specs.Prelude.{◌≡◌, ℕ, IfOk};
ghost use Rattle.porch_lowering.specs.Lowering.{pool_start};
ghost use Rattle.porch_emitter.specs.Pools.{most_in};
ghost use Rattle.porch_emitter.specs.Starts.{start_in};

use crate::pools::Pools;
use std::alloc::{AllocError, Global};

/// A number for each type: that of the first variable that is a temporary of it.
#[derive(Drop)]
pub struct Starts {
    of: Vec<u32>,
    // for types past those
    other: u32,
}

impl Starts {
    /// The same number for each type.
    pub fn alike(alloc: Global, number: u32) -> Starts
        ensures { start_in result ≡ (λ ty. number) }
    {
        Starts {
            of: Vec::new(alloc),
            other: number,
        }
    }

    /// Behind so many variables the most temporaries of type 0 that were in use, then those of type 1, and so
    /// on. Numbers past 2^32 count as want of memory.
    pub fn after(alloc: Global, variables: u32, pools: &Pools) -> Result<Starts, AllocError>
        ensures { IfOk result (λ starts.
            start_in starts ≡ pool_start variables (most_in pools.now)) }
    {
        let mut of = Vec::new(alloc);
        let mut at = variables;
        for pool in pools.as_slice() {
            of.push(at)?;
            let Some(next) = at.checked_add(pool.most) else {
                return Err(AllocError);
            };
            at = next;
        }
        Ok(Starts { of, other: at })
    }

    /// The number of a type.
    pub fn get(&self, ty: u32) -> u32
        ensures { result ≡ start_in self.now ty }
    {
        if (ty as usize) < self.of.len() {
            self.of[ty as usize]
        } else {
            self.other
        }
    }
}
