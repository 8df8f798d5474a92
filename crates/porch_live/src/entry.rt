//! The objects of one call or of one allocation, under its number.
ghost use Rattle.std.specs.Prelude.{◌≡◌, [], slice_get};
ghost use Rattle.std.specs.Option.{option_map};
ghost use Rattle.porch_objects.specs.Store.{changed_at};
ghost use Rattle.porch_live.specs.inside.Entries.{is_live, with_variables};
ghost use Rattle.porch_live.specs.inside.Edits.{done, first_becomes};

use crate::edit::Edit;
use crate::object::{Object, edit_one, set_first};
use crate::value::Value;
use std::alloc::AllocError;
use std::marker::Model;
use std::mem;

/// The objects of a call or of an allocation. Contracts see it as a call with its variables.
#[derive(Drop)]
pub(crate) struct Entry {
    number: u64,
    objects: Vec<Object>,
}

impl Model for Entry {
    ghost use Rattle.porch_objects.specs.Store as store;

    ghost Value = { store.Activation };

    ghost view = { λ e. record { number = e.number; variables = e.objects.items } };
}

impl Entry {
    pub(crate) fn new(number: u64, objects: Vec<Object>) -> Entry
        ensures { result ≡ record { number = number; variables = objects.items } }
    {
        Entry { number, objects }
    }

    pub(crate) fn number(&self) -> u64
        ensures { result ≡ self.now.number }
    {
        self.number
    }

    pub(crate) fn object(&self, index: usize) -> Option<&Object>
        ensures { option_map (λ object. object.now) result ≡ slice_get self.now.variables index }
    {
        self.objects.get(index)
    }

    /// Changes an object, where it is there.
    pub(crate) fn edit(&mut self, index: usize, edit: &Edit) -> Result<(), AllocError>
        ensures { self.new ≡ with_variables self.old (changed_at (done edit.now result)
            self.old.variables (slice_get self.old.variables index) index) }
    {
        edit_one(&mut self.objects, index, edit)
    }

    /// Gives the first leaf of an object a value, where it is there.
    pub(crate) fn set_first(&mut self, index: usize, value: Value)
        ensures { self.new ≡ with_variables self.old (changed_at (first_becomes value)
            self.old.variables (slice_get self.old.variables index) index) }
    {
        set_first(&mut self.objects, index, value);
    }

    /// Whether it has an object.
    pub(crate) fn is_live(&self) -> bool
        ensures { result ≡ is_live self.now }
    {
        !self.objects.is_empty()
    }

    /// Takes its objects out: it has none then.
    pub(crate) fn take(&mut self) -> Vec<Object>
        ensures objects { result.items ≡ self.old.variables }
        ensures rest { self.new ≡ with_variables self.old [] }
    {
        let alloc = *self.objects.allocator();
        mem::replace(&mut self.objects, Vec::new(alloc))
    }

    /// Gives it other objects.
    pub(crate) fn put(&mut self, objects: Vec<Object>)
        ensures { self.new ≡ with_variables self.old objects.items }
    {
        self.objects = objects;
    }

    /// Its objects come to their end.
    pub(crate) fn end(&mut self)
        ensures { self.new ≡ with_variables self.old [] }
    {
        let alloc = *self.objects.allocator();
        self.objects = Vec::new(alloc);
    }
}
