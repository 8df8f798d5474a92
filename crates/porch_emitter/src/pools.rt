//! Temporaries by type: how many are in use, and the most that were at once.

ghost use Rattle.std.specs.Prelude.{◌≡◌, ℕ, IfOk, OnOk, map, max};
ghost use Rattle.porch_lowering.specs.Code.{InUse, and_one, at_most, none_in_use};
ghost use Rattle.porch_emitter.specs.Pools.{most_in, pool_in, used_in, with_number};
ghost use Rattle.porch_emitter.specs.inside.Pools.{counted, has_place};

use std::alloc::{AllocError, Global};

/// Temporaries by type. A type that has no place has none.
#[derive(Drop)]
pub struct Pools {
    of: Vec<Pool>,
}

/// The temporaries of one type.
#[derive(Clone, Copy, Debug)]
pub(crate) struct Pool {
    pub(crate) used: u32,
    pub(crate) most: u32,
}

const NO_TEMPORARIES: Pool = Pool { used: 0, most: 0 };

impl Pools {
    /// No temporaries of any type.
    pub fn new(alloc: Global) -> Pools
        ensures used { used_in result ≡ none_in_use }
        ensures most { most_in result ≡ none_in_use }
    {
        Pools {
            of: Vec::new(alloc),
        }
    }

    /// How many temporaries of a type are in use.
    pub fn used(&self, ty: u32) -> u32
        ensures { result ≡ used_in self.now ty }
    {
        self.pool(ty).used
    }

    /// The most temporaries of a type that were in use where they were counted.
    pub fn most(&self, ty: u32) -> u32
        ensures { result ≡ most_in self.now ty }
    {
        self.pool(ty).most
    }

    /// One more temporary of a type is in use. The answer is how many were. 2^32 of them count as want of
    /// memory.
    pub fn take(&mut self, ty: u32) -> Result<u32, AllocError>
        ensures number { IfOk result (λ n. n ≡ used_in self.old ty) }
        ensures used { OnOk result (used_in self.new ≡ and_one ty (used_in self.old)) }
        ensures most { OnOk result (most_in self.new ≡ most_in self.old) }
    {
        let used = self.used(ty);
        let Some(more) = used.checked_add(1) else {
            return Err(AllocError);
        };
        self.set_used(ty, more)?;
        Ok(used)
    }

    /// A temporary of a type, the last that was taken, is free again.
    pub fn give_back(&mut self, ty: u32)
        ensures used { (used : InUse) → used_in self.old ≡ and_one ty used
            → used_in self.new ≡ used }
        ensures most { most_in self.new ≡ most_in self.old }
    {
        let used = self.used(ty);
        if 0 < used {
            self.put_used(ty, used - 1);
        }
    }

    /// So many temporaries of a type are in use.
    pub fn set_used(&mut self, ty: u32, used: u32) -> Result<(), AllocError>
        ensures used { OnOk result (used_in self.new ≡ with_number ty used (used_in self.old)) }
        ensures most { OnOk result (most_in self.new ≡ most_in self.old) }
    {
        self.reach(ty)?;
        self.put_used(ty, used);
        Ok(())
    }

    /// What is in use counts among the most that is.
    pub fn count(&mut self)
        ensures used { used_in self.new ≡ used_in self.old }
        ensures most { most_in self.new ≡ at_most (most_in self.old) (used_in self.old) }
    {
        for pool in self.of.iter_mut() {
            *pool = counted(*pool);
        }
    }

    /// Those of the types that have a place.
    pub(crate) fn as_slice(&self) -> &[Pool]
        ensures { result.now ≡ self.now.of.items }
    {
        self.of.as_slice()
    }

    fn pool(&self, ty: u32) -> Pool
        ensures { result ≡ pool_in self.now ty }
    {
        if (ty as usize) < self.of.len() {
            self.of[ty as usize]
        } else {
            NO_TEMPORARIES
        }
    }

    // A type is given a place.
    fn reach(&mut self, ty: u32) -> Result<(), AllocError>
        ensures same { (n : ℕ) → pool_in self.new n ≡ pool_in self.old n }
        ensures reached { OnOk result (has_place ty self.new) }
    {
        while self.of.len() <= ty as usize {
            self.of.push(NO_TEMPORARIES)?;
        }
        Ok(())
    }

    // So many temporaries of a type that has a place are in use.
    fn put_used(&mut self, ty: u32, used: u32)
        requires { has_place ty self.old }
        ensures used { (n : ℕ) → used_in self.new n ≡ with_number ty used (used_in self.old) n }
        ensures most { (n : ℕ) → most_in self.new n ≡ most_in self.old n }
    {
        self.of[ty as usize].used = used;
    }
}

fn counted(pool: Pool) -> Pool
    ensures { result ≡ counted pool }
{
    Pool {
        used: pool.used,
        most: pool.most.max(pool.used),
    }
}
