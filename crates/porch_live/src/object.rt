//! Objects, each a root with the values of its leaves.
ghost use Rattle.std.specs.Prelude.{◌≡◌, ◌+◌, ◌<◌, ◌≤◌, ◌∷◌, [], nat_le, take, drop, length, map, replicate, slice_get, slice_set, slice_index_or, IfOk, IfSome, OnOk, OnErr};
ghost use Rattle.porch_objects.specs.Store.{indeterminate, number, with_leaves, changed_at, leaf_of, fresh, zeroed};
ghost use Rattle.porch_objects.specs.Pointers.{block_of};
ghost use Rattle.porch_live.specs.Innermost.{with_int};
ghost use Rattle.porch_live.specs.Views.{value_of, root_of};
ghost use Rattle.porch_live.specs.inside.Edits.{done, first_becomes, with_part};
ghost use Rattle.porch_live.specs.inside.Leaves.{values_in};

use crate::edit::Edit;
use crate::leaves::Leaves;
use crate::roots::leaves_in;
use crate::value::Value;
use crate::zeros::zero_leaves;
use porch_types::Types;
use std::alloc::{AllocError, Global};
use std::marker::Model;

/// So many elements of a type in a row.
#[derive(Clone, Copy, Debug)]
pub struct Root {
    pub ty: u32,
    pub count: u32,
}

/// An object. Contracts see its root and the values of its leaves in order.
#[derive(Drop)]
pub struct Object {
    root: Root,
    leaves: Leaves,
}

impl Model for Object {
    ghost use Rattle.std.specs.Prelude.{map};
    ghost use Rattle.porch_objects.specs.Store as store;

    ghost Value = { store.Object };

    ghost use Rattle.porch_live.specs.Views.{value_of, root_of};
    ghost use Rattle.porch_live.specs.inside.Leaves.{values_in};

    ghost view = { λ o. record { root = root_of o.root; leaves = map value_of (values_in o.leaves) } };
}

impl Object {
    /// An object that was given no value.
    pub fn fresh(alloc: Global, types: &Types, root: Root) -> Result<Object, AllocError>
        ensures { IfOk result (λ object. object ≡ fresh types.now (root_of root)) }
    {
        let leaves = Leaves::alike(alloc, leaves_in(types, root), Value::Indeterminate)?;
        Ok(Object { root, leaves })
    }

    /// An object whose leaves are all 0 and null.
    pub fn zeroed(alloc: Global, types: &Types, root: Root) -> Result<Object, AllocError>
        ensures { IfOk result (λ object. object ≡ zeroed types.now (root_of root)) }
    {
        let leaves = zero_leaves(alloc, types, root.ty, leaves_in(types, root))?;
        Ok(Object { root, leaves })
    }

    /// An object of one leaf, with its value.
    pub fn single(root: Root, value: Value) -> Object
        ensures { result ≡ record { root = root_of root; leaves = value_of value ∷ [] } }
    {
        Object {
            root,
            leaves: Leaves::One(value),
        }
    }

    /// The root.
    pub fn root(&self) -> Root
        ensures { root_of result ≡ self.now.root }
    {
        self.root
    }

    /// How many leaves it has.
    pub fn len(&self) -> usize
        ensures { result ≡ length self.now.leaves }
    {
        self.leaves.len()
    }

    /// The value of a leaf; indeterminate behind the last.
    pub fn leaf(&self, leaf: u64) -> Value
        ensures { value_of result ≡ slice_index_or self.now.leaves leaf indeterminate }
    {
        self.leaves.get(leaf as usize)
    }

    /// Gives a leaf a value. Behind the last leaf nothing changes. A leaf of a large object may need memory;
    /// where it is refused, nothing changes.
    pub fn set_leaf(&mut self, leaf: u64, value: Value) -> Result<(), AllocError>
        ensures set { OnOk result (self.new
            ≡ with_leaves self.old (slice_set self.old.leaves leaf (value_of value))) }
        ensures same { OnErr result (self.new ≡ self.old) }
    {
        self.leaves.set(leaf as usize, value)
    }

    /// Gives the first leaf a value, where there is one.
    fn set_first(&mut self, value: Value)
        ensures { self.new ≡ first_becomes value self.old }
    {
        self.leaves.set_first(value);
    }

    /// The int that it holds, where it has one leaf and that holds one.
    #[inline(always)]
    pub fn int(&self) -> Option<i32>
        ensures { IfSome result (λ z. slice_index_or self.now.leaves 0 indeterminate ≡ number z) }
    {
        self.leaves.only_int()
    }

    /// Gives the first leaf an int, where there is one.
    #[inline(always)]
    pub fn set_int(&mut self, int: i32)
        ensures { self.new ≡ with_leaves self.old (slice_set self.old.leaves 0 (number int)) }
    {
        self.leaves.set_first_int(int);
    }

    pub(crate) fn edit(&mut self, edit: &Edit) -> Result<(), AllocError>
        ensures { self.new ≡ done edit.now result self.old }
    {
        match edit {
            Edit::Leaf { leaf, value } => self.set_leaf(*leaf, *value),
            Edit::Part { at, values } => self.set_part(*at as usize, values),
            Edit::Forget => {
                self.forget();
                Ok(())
            }
        }
    }

    /// So many leaves from one on, or as many as there are.
    pub(crate) fn leaves_from(
        &self,
        alloc: Global,
        leaf: u64,
        count: u64,
    ) -> Result<Vec<Value>, AllocError>
        ensures { IfOk result (λ values. map value_of values.items
            ≡ take count (drop leaf self.now.leaves)) }
    {
        self.leaves.part(alloc, leaf as usize, count as usize)
    }

    /// Whether it has so many leaves from one on.
    pub(crate) fn has_part(&self, leaf: u64, count: usize) -> bool
        ensures { result ≡ nat_le (leaf + count) (length self.now.leaves) }
    {
        let at = leaf as usize;
        let len = self.leaves.len();
        if at > len {
            return false;
        }
        count <= len - at
    }

    /// All leaves become indeterminate.
    fn forget(&mut self)
        ensures { self.new
            ≡ with_leaves self.old (replicate (length self.old.leaves) indeterminate) }
    {
        self.leaves.fill(Value::Indeterminate);
    }

    /// Leaves from one on become others, where the object has all of them.
    fn set_part(&mut self, at: usize, values: &[Value]) -> Result<(), AllocError>
        ensures set { OnOk result (self.new ≡ with_part at (map value_of values.now) self.old) }
        ensures same { OnErr result (self.new ≡ self.old) }
    {
        let len = self.leaves.len();
        if at <= len && values.len() <= len - at {
            self.leaves.put_part(at, values)
        } else {
            Ok(())
        }
    }
}

/// The int that one of these objects holds, where it is known.
#[inline(always)]
pub fn int_at(objects: &[Object], index: u32) -> Option<i32>
    ensures { IfSome result (λ z. leaf_of (slice_get objects.now index) 0 ≡ number z) }
{
    let at = index as usize;
    if at < objects.len() {
        objects[at].int()
    } else {
        None
    }
}

/// Gives the first leaf of one of these objects an int, where it is there.
#[inline(always)]
pub fn set_int_at(objects: &mut [Object], index: u32, int: i32)
    ensures { objects.new ≡ with_int objects.old index int }
{
    let at = index as usize;
    if at < objects.len() {
        let object = &mut objects[at];
        object.set_int(int);
    }
}

/// Changes one of these objects, where it is there.
pub(crate) fn edit_one(objects: &mut [Object], index: usize, edit: &Edit) -> Result<(), AllocError>
    ensures { objects.new ≡ changed_at (done edit.now result) objects.old
        (slice_get objects.old index) index }
{
    if index < objects.len() {
        let object = &mut objects[index];
        object.edit(edit)
    } else {
        Ok(())
    }
}

/// Gives the first leaf of one of these objects a value, where it is there.
pub(crate) fn set_first(objects: &mut [Object], index: usize, value: Value)
    ensures { objects.new ≡ changed_at (first_becomes value) objects.old
        (slice_get objects.old index) index }
{
    if index < objects.len() {
        let object = &mut objects[index];
        object.set_first(value);
    }
}

/// An object that is zero or without a value.
pub(crate) fn new_object(
    alloc: Global,
    types: &Types,
    zeros: bool,
    root: Root,
) -> Result<Object, AllocError>
    ensures { IfOk result (λ object. object ≡ block_of types.now zeros (root_of root)) }
{
    if zeros {
        Object::zeroed(alloc, types, root)
    } else {
        Object::fresh(alloc, types, root)
    }
}

pub(crate) fn one_object(alloc: Global, object: Object) -> Result<Vec<Object>, AllocError>
    ensures { IfOk result (λ objects. objects.items ≡ object ∷ []) }
{
    let mut objects = Vec::new(alloc);
    match objects.push(object) {
        Ok(()) => Ok(objects),
        Err(_) => Err(AllocError),
    }
}
