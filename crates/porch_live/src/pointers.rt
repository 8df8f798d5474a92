//! What is done through pointers and with them.
ghost use Rattle.std.specs.Prelude.{◌≡◌, map, IfOk, OnErr};
ghost use Rattle.porch_objects.specs.Pointers.{load, store, member, equality, copy, leaves_from};
ghost use Rattle.porch_objects.specs.Store.{object_at};
ghost use Rattle.porch_live.specs.Views.{home_of, value_of};
ghost use Rattle.porch_live.specs.Answers.{after, value_in};
ghost use Rattle.porch_live.specs.inside.Edits.{has_part};

use crate::comparisons::equal;
use crate::edit::Edit;
use crate::places::find_places;
use crate::store::Store;
use crate::value::{Home, Value, access_after, determined};
use porch_types::Types;
use porch_values::Act;
use std::alloc::{AllocError, Global};

impl Store {
    /// The value of the leaf that a pointer names.
    pub fn load(&self, pointer: Value) -> Result<Value, Act>
        ensures { value_in result ≡ load self.now (value_of pointer) }
    {
        match self.seen(pointer) {
            Value::Indeterminate => Err(Act::Indeterminate),
            Value::Pointer { home, leaf } => determined(self.seen(self.leaf(home, leaf))),
            Value::Number(_) => Err(Act::Access),
            Value::Null => Err(Act::Access),
            Value::Past {
                home: _,
                leaf: _,
                until: _,
            } => Err(Act::Access),
        }
    }

    /// Gives the leaf that a pointer names a value. A leaf of a large object may need memory. Where it answers
    /// an act or an error, nothing changes.
    pub fn store(&mut self, pointer: Value, value: Value) -> Result<Result<(), Act>, AllocError>
        ensures stored { IfOk result (λ answer. after answer self.new
            ≡ store self.old (value_of pointer) (value_of value)) }
        ensures refused { IfOk result (λ answer. OnErr answer (self.new ≡ self.old)) }
        ensures same { OnErr result (self.new ≡ self.old) }
    {
        let value = self.seen(value);
        match self.seen(pointer) {
            Value::Indeterminate => Ok(Err(Act::Indeterminate)),
            Value::Pointer { home, leaf } => {
                match determined(value) {
                    Ok(value) => {
                        self.set_leaf(home, leaf, value)?;
                        Ok(Ok(()))
                    }
                    Err(act) => Ok(Err(act)),
                }
            }
            Value::Number(_) => Ok(Err(access_after(value))),
            Value::Null => Ok(Err(access_after(value))),
            Value::Past {
                home: _,
                leaf: _,
                until: _,
            } => Ok(Err(access_after(value))),
        }
    }

    /// The subobject that begins so many leaves behind the beginning of what a pointer names.
    /// Answers `AllocError` where the number of that leaf would pass 2^64 - 1.
    pub fn member(&self, pointer: Value, leaf: u32) -> Result<Result<Value, Act>, AllocError>
        ensures { IfOk result (λ answer. value_in answer
            ≡ member self.now (value_of pointer) leaf) }
    {
        match self.seen(pointer) {
            Value::Indeterminate => Ok(Err(Act::Indeterminate)),
            Value::Pointer { home, leaf: first } => {
                match first.checked_add(u64::from(leaf)) {
                    Some(leaf) => Ok(Ok(Value::Pointer { home, leaf })),
                    None => Err(AllocError),
                }
            }
            Value::Number(_) => Ok(Err(Act::Access)),
            Value::Null => Ok(Err(Act::Access)),
            Value::Past {
                home: _,
                leaf: _,
                until: _,
            } => Ok(Err(Act::Access)),
        }
    }

    /// Whether two pointers to a type are equal.
    pub fn equality(&self, types: &Types, pointee: u32, p: Value, q: Value) -> Result<bool, Act>
        ensures { result ≡ equality types.now pointee self.now (value_of p) (value_of q) }
    {
        match determined(self.seen(p)) {
            Ok(p) => match determined(self.seen(q)) {
                Ok(q) => equal(types, pointee, p, q),
                Err(act) => Err(act),
            },
            Err(act) => Err(act),
        }
    }

    /// So many leaves are copied as they are, also those that are indeterminate. `alloc` is the
    /// allocator. Answers `AllocError` also where the object that is written has fewer leaves from
    /// there on than are copied. Where it answers an act or an error, nothing changes.
    pub fn copy(
        &mut self,
        alloc: Global,
        count: u64,
        to: Value,
        from: Value,
    ) -> Result<Result<(), Act>, AllocError>
        ensures copied { IfOk result (λ answer. after answer self.new
            ≡ copy count self.old (value_of to) (value_of from)) }
        ensures refused { IfOk result (λ answer. OnErr answer (self.new ≡ self.old)) }
        ensures same { OnErr result (self.new ≡ self.old) }
    {
        match find_places(self.seen(to), self.seen(from)) {
            Ok(places) => {
                let values = self.leaves_from(alloc, places.other, places.first, count)?;
                if !self.has_part(places.home, places.leaf, values.len()) {
                    return Err(AllocError);
                }
                let at = places.leaf;
                self.edit(places.home, &Edit::Part { at, values })?;
                Ok(Ok(()))
            }
            Err(act) => Ok(Err(act)),
        }
    }

    /// So many leaves of an object from one on, or as many as it has.
    fn leaves_from(
        &self,
        alloc: Global,
        home: Home,
        leaf: u64,
        count: u64,
    ) -> Result<Vec<Value>, AllocError>
        ensures { IfOk result (λ values. map value_of values.items
            ≡ leaves_from (object_at self.now (home_of home)) leaf count) }
    {
        match self.object(home) {
            Some(object) => object.leaves_from(alloc, leaf, count),
            None => Ok(Vec::new(alloc)),
        }
    }

    /// Whether an object has so many leaves from one on.
    fn has_part(&self, home: Home, leaf: u64, count: usize) -> bool
        ensures { result ≡ has_part (object_at self.now (home_of home)) leaf count }
    {
        match self.object(home) {
            Some(object) => object.has_part(leaf, count),
            None => false,
        }
    }
}
