//! Code in the making.

ghost use Rattle.std.specs.Prelude.{◌≡◌, ℕ, ◌+◌, [], ◌∷◌, IfOk, OnOk};
ghost use Rattle.porch_lowering.specs.Code.{InUse, and_one};
ghost use Rattle.porch_lowering.specs.Operators.{next_of};
ghost use Rattle.porch_emitter.specs.Pools.{most_in, with_number};
ghost use Rattle.porch_emitter.specs.Starts.{start_in};
ghost use Rattle.porch_emitter.specs.Made.{and_taken, made_of, nothing_made, with_commands, with_count, with_label, with_used};

use crate::pools::Pools;
use crate::starts::Starts;
use porch_flat::whole::Command;
use sqlite_items::Items;
use std::alloc::{AllocError, Global};

/// The code of a function in the making.
#[derive(Drop)]
pub struct Emitter {
    commands: Items<Command>,
    starts: Starts,
    pools: Pools,
    label: u32,
}

impl Emitter {
    /// Nothing is made yet, and the temporaries of each type begin at these numbers.
    pub fn new(alloc: Global, starts: Starts) -> Emitter
        ensures { made_of result ≡ nothing_made (start_in starts) }
    {
        Emitter {
            commands: Items::new(alloc),
            starts,
            pools: Pools::new(alloc),
            label: 0,
        }
    }

    /// The commands, and the most temporaries that were in use.
    pub fn finish(self) -> (Items<Command>, Pools)
        ensures commands { result.0 ≡ (made_of self).commands }
        ensures most { most_in result.1 ≡ (made_of self).most }
    {
        let Emitter {
            commands,
            pools,
            ..
        } = self;
        (commands, pools)
    }

    /// Puts a command behind the others.
    pub fn push(&mut self, command: Command) -> Result<(), AllocError>
        ensures { OnOk result
            (made_of self.new ≡ with_commands (made_of self.old) (command ∷ [])) }
    {
        self.commands.push(command)
    }

    /// What is in use counts among the most that is.
    pub fn count(&mut self)
        ensures { made_of self.new ≡ with_count (made_of self.old) }
    {
        self.pools.count();
    }

    /// How many temporaries of a type are in use.
    pub fn used(&self, ty: u32) -> u32
        ensures { result ≡ (made_of self.now).used ty }
    {
        self.pools.used(ty)
    }

    /// So many temporaries of a type are in use.
    pub fn set_used(&mut self, ty: u32, used: u32) -> Result<(), AllocError>
        ensures { OnOk result (made_of self.new
            ≡ with_used (made_of self.old) (with_number ty used (made_of self.old).used)) }
    {
        self.pools.set_used(ty, used)
    }

    /// The next free temporary of a type, which is in use from now on. Numbers past 2^32 count as want of
    /// memory.
    pub fn take(&mut self, ty: u32) -> Result<u32, AllocError>
        ensures temporary { IfOk result (λ t.
            t ≡ next_of (made_of self.old).start ty (made_of self.old).used) }
        ensures taken { OnOk result (made_of self.new
            ≡ with_used (made_of self.old) (and_one ty (made_of self.old).used)) }
    {
        let used = self.pools.take(ty)?;
        let Some(temporary) = self.starts.get(ty).checked_add(used) else {
            return Err(AllocError);
        };
        Ok(temporary)
    }

    /// A temporary of a type, the last that was taken, is free again.
    pub fn give_back(&mut self, ty: u32)
        ensures { (used : InUse) → (made_of self.old).used ≡ and_one ty used
            → made_of self.new ≡ with_used (made_of self.old) used }
    {
        self.pools.give_back(ty);
    }

    /// The temporary of the type that was taken, if one was, is free again.
    pub fn let_go(&mut self, taken: Option<u32>)
        ensures { (used : InUse) → (made_of self.old).used ≡ and_taken taken used
            → made_of self.new ≡ with_used (made_of self.old) used }
    {
        if let Some(ty) = taken {
            self.give_back(ty);
        }
    }

    /// The first free label.
    pub fn label(&self) -> u32
        ensures { result ≡ (made_of self.now).label }
    {
        self.label
    }

    /// So many labels are taken. Numbers past 2^32 count as want of memory.
    pub fn take_labels(&mut self, count: u32) -> Result<(), AllocError>
        ensures { OnOk result (made_of self.new
            ≡ with_label (made_of self.old) ((made_of self.old).label + count)) }
    {
        let Some(label) = self.label.checked_add(count) else {
            return Err(AllocError);
        };
        self.label = label;
        Ok(())
    }
}
