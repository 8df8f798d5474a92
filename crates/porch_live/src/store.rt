//! The store: what lives, and how calls, allocations and checkpoints are counted.
ghost use Rattle.std.specs.Prelude.{◌≡◌, [], is_some, IfOk, OnOk, OnErr};
ghost use Rattle.std.specs.Option.{option_map};
ghost use Rattle.porch_objects.specs.Store.{store_of, object_at, seen, leaf_at, changed, forgotten, with_leaf_at, innermost, variable_home, entered, left, reached_one, with_blocks};
ghost use Rattle.porch_objects.specs.Pointers.{allocate, release, without_block};
ghost use Rattle.porch_live.specs.inside.Edits.{done};
ghost use Rattle.porch_live.specs.Answers.{after, allocation_of};
ghost use Rattle.porch_live.specs.Innermost.{innermost_variables, with_innermost};
ghost use Rattle.porch_live.specs.Views.{home_of, value_of};

use crate::edit::Edit;
use crate::entries::{
    edit_in, end_block, last_number, last_object, object_in, push, put_last, remove_last, set_last,
    take_last,
};
use crate::entry::Entry;
use crate::object::{Object, Root, edit_one, new_object, one_object};
use crate::value::{Home, Value, block_to_free, count_of, if_good, is_good};
use porch_types::Types;
use porch_values::Act;
use std::alloc::{AllocError, Global};
use std::marker::Model;

/// What lives: the globals, the calls that haven't returned with their variables, and the
/// allocations that weren't freed. Contracts see it as the store of `porch_objects`.
///
/// Calls, allocations and checkpoints are counted in 64 bits. Where a count would pass 2^64 - 1,
/// the call answers `AllocError`, and nothing changes.
#[derive(Drop)]
pub struct Store {
    globals: Vec<Object>,
    // the innermost last
    calls: Vec<Entry>,
    // by rising number; an entry without an object was freed
    blocks: Vec<Entry>,
    // how many entries of blocks were freed
    freed: usize,
    called: u64,
    allocated: u64,
    checkpoints: u64,
}

impl Model for Store {
    ghost use Rattle.porch_objects.specs.Store as store;

    ghost Value = { store.Store };

    ghost use Rattle.porch_live.specs.inside.Entries.{store_in, AreEntries};

    ghost view = { λ s. store_in s.globals.items s.calls.items s.blocks.items
        s.called s.allocated s.checkpoints };

    ghost invariant = { λ s. AreEntries s.calls.items s.blocks.items s.called s.allocated };
}

impl Store {
    /// A store of globals alone.
    pub fn new(alloc: Global, globals: Vec<Object>) -> Store
        ensures { result ≡ store_of globals.items }
    {
        Store {
            globals,
            calls: Vec::new(alloc),
            blocks: Vec::new(alloc),
            freed: 0,
            called: 0,
            allocated: 0,
            checkpoints: 0,
        }
    }

    /// The object of a name, where it lives.
    pub fn object(&self, home: Home) -> Option<&Object>
        ensures { option_map (λ object. object.now) result ≡ object_at self.now (home_of home) }
    {
        match home {
            Home::Global(global) => self.globals.get(global as usize),
            Home::Call { call, variable } => object_in(&self.calls, call, variable as usize),
            Home::Block(block) => object_in(&self.blocks, block, 0),
        }
    }

    /// Whether an object lives.
    pub fn is_alive(&self, home: Home) -> bool
        ensures { result ≡ is_some (object_at self.now (home_of home)) }
    {
        self.object(home).is_some()
    }

    /// A value as it is seen now: a pointer to an object that doesn't live, or one past a shared
    /// end over a checkpoint(), is indeterminate.
    pub fn seen(&self, value: Value) -> Value
        ensures { value_of result ≡ seen self.now (value_of value) }
    {
        match value {
            Value::Number(_) => value,
            Value::Null => value,
            Value::Pointer { home, leaf: _ } => if_good(self.is_alive(home), value),
            Value::Past {
                home,
                leaf: _,
                until,
            } => if_good(
                self.is_alive(home) && is_good(until, self.checkpoints),
                value,
            ),
            Value::Indeterminate => value,
        }
    }

    /// The value of a leaf, as it was stored; indeterminate where there is no such leaf.
    pub fn leaf(&self, home: Home, leaf: u64) -> Value
        ensures { value_of result ≡ leaf_at self.now (home_of home) leaf }
    {
        match self.object(home) {
            Some(object) => object.leaf(leaf),
            None => Value::Indeterminate,
        }
    }

    /// The value of a variable of the innermost call, as it was stored: of its first leaf. Indeterminate
    /// where there is none.
    pub fn variable(&self, variable: u32) -> Value
        ensures { value_of result ≡ leaf_at self.now (variable_home self.now variable) 0 }
    {
        match last_object(&self.calls, variable as usize) {
            Some(object) => object.leaf(0),
            None => Value::Indeterminate,
        }
    }

    /// Gives a variable of the innermost call a value: its first leaf. Where there is none nothing changes.
    pub fn set_variable(&mut self, variable: u32, value: Value)
        ensures { self.new ≡ with_leaf_at self.old (variable_home self.old variable) 0
            (value_of value) }
    {
        set_last(&mut self.calls, variable as usize, value);
    }

    /// Takes the variables of the innermost call out, where there is one: it has none then.
    pub fn take_variables(&mut self) -> Option<Vec<Object>>
        ensures variables { option_map (λ variables. variables.items) result
            ≡ innermost_variables self.old }
        ensures rest { self.new ≡ with_innermost self.old [] }
    {
        take_last(&mut self.calls)
    }

    /// Gives the innermost call other variables, where there is one.
    pub fn put_variables(&mut self, variables: Vec<Object>)
        ensures { self.new ≡ with_innermost self.old variables.items }
    {
        put_last(&mut self.calls, variables);
    }

    /// Gives a leaf a value. Where there is no such leaf nothing changes. A leaf of a large object may need
    /// memory.
    pub fn set_leaf(&mut self, home: Home, leaf: u64, value: Value) -> Result<(), AllocError>
        ensures set { OnOk result (self.new
            ≡ with_leaf_at self.old (home_of home) leaf (value_of value)) }
        ensures same { OnErr result (self.new ≡ self.old) }
    {
        self.edit(home, &Edit::Leaf { leaf, value })
    }

    /// All leaves of an object become indeterminate. Where there is no such object nothing changes.
    pub fn forget(&mut self, home: Home)
        ensures { self.new ≡ forgotten self.old (home_of home) }
    {
        let _ = self.edit(home, &Edit::Forget);
    }

    /// Changes an object, where it lives. To forget takes no memory.
    pub(crate) fn edit(&mut self, home: Home, edit: &Edit) -> Result<(), AllocError>
        ensures { self.new ≡ changed (done edit.now result) self.old (home_of home) }
    {
        match home {
            Home::Global(global) => edit_one(&mut self.globals, global as usize, edit),
            Home::Call { call, variable } => {
                edit_in(&mut self.calls, call, variable as usize, edit)
            }
            Home::Block(block) => edit_in(&mut self.blocks, block, 0, edit),
        }
    }

    /// The number of the innermost call, and one that no call has yet where none is made.
    pub fn innermost(&self) -> u64
        ensures { result ≡ innermost self.now }
    {
        last_number(&self.calls, self.called)
    }

    /// A call begins, with these variables.
    pub fn enter(&mut self, variables: Vec<Object>) -> Result<(), AllocError>
        ensures entered { OnOk result (self.new ≡ entered self.old variables.items) }
        ensures same { OnErr result (self.new ≡ self.old) }
    {
        if self.called == u64::MAX {
            return Err(AllocError);
        }
        push(&mut self.calls, Entry::new(self.called, variables))?;
        self.called += 1;
        Ok(())
    }

    /// The innermost call ends, and its variables with it. Without a call nothing changes.
    pub fn leave(&mut self)
        ensures { self.new ≡ left self.old }
    {
        remove_last(&mut self.calls);
    }

    /// So many elements of a type come to life, zero or without a value: a pointer to the first of
    /// them. `alloc` is the allocator. Answers the act `Count` where the count is below 1 or above
    /// 2,147,483,647; then nothing changes.
    pub fn allocate(
        &mut self,
        alloc: Global,
        types: &Types,
        ty: u32,
        zeros: bool,
        count: i128,
    ) -> Result<Result<Value, Act>, AllocError>
        ensures allocated { IfOk result (λ answer. allocation_of answer self.new
            ≡ allocate types.now ty zeros count self.old) }
        ensures refused { IfOk result (λ answer. OnErr answer (self.new ≡ self.old)) }
        ensures same { OnErr result (self.new ≡ self.old) }
    {
        let Some(count) = count_of(count) else {
            return Ok(Err(Act::Count));
        };
        if self.allocated == u64::MAX {
            return Err(AllocError);
        }
        let object = new_object(alloc, types, zeros, Root { ty, count })?;
        let number = self.allocated;
        push(
            &mut self.blocks,
            Entry::new(number, one_object(alloc, object)?),
        )?;
        self.allocated += 1;
        Ok(Ok(Value::Pointer {
            home: Home::Block(number),
            leaf: 0,
        }))
    }

    /// The object that a pointer to its first leaf names comes to its end; null names none. Where
    /// it answers an act, nothing changes.
    pub fn release(&mut self, pointer: Value) -> Result<(), Act>
        ensures released { after result self.new ≡ release self.old (value_of pointer) }
        ensures same { OnErr result (self.new ≡ self.old) }
    {
        match block_to_free(self.seen(pointer)) {
            Ok(Some(block)) => {
                self.end_block(block);
                Ok(())
            }
            Ok(None) => Ok(()),
            Err(act) => Err(act),
        }
    }

    fn end_block(&mut self, block: u64)
        ensures { self.new ≡ with_blocks self.old (without_block self.old.blocks block) }
    {
        self.freed = end_block(&mut self.blocks, block, self.freed);
    }

    /// How many calls of checkpoint() were reached.
    pub fn checkpoints(&self) -> u64
        ensures { result ≡ self.now.checkpoints }
    {
        self.checkpoints
    }

    /// One more checkpoint() was reached.
    pub fn reach_checkpoint(&mut self) -> Result<(), AllocError>
        ensures reached { OnOk result (self.new ≡ reached_one self.old) }
        ensures same { OnErr result (self.new ≡ self.old) }
    {
        if self.checkpoints == u64::MAX {
            return Err(AllocError);
        }
        self.checkpoints += 1;
        Ok(())
    }
}
