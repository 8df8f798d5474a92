//! The values of an object's leaves.
ghost use Rattle.std.specs.Prelude.{◌≡◌, ◌+◌, ◌<◌, ◌≤◌, length, take, drop, replicate, slice_get, slice_set, slice_index_or, IfOk, IfSome, OnOk, OnErr};
ghost use Rattle.porch_sparse.specs.Repeated.{repeated};
ghost use Rattle.porch_live.specs.declared.value.Value.TheVariants.{Indeterminate, Number};
ghost use Rattle.porch_live.specs.inside.Edits.{spliced_in};
ghost use Rattle.porch_live.specs.inside.Leaves.{values_in};

use crate::value::{Value, int_in};
use porch_sparse::Sparse;
use std::alloc::{AllocError, Global};
use std::slice::from_ref;

/// So many leaves are kept one by one at most. An object of more leaves, as a large array, takes memory for
/// those that were written.
pub(crate) const MOST_KEPT: u64 = 64;

/// The values of an object's leaves, in order. A leaf that stands alone, as most variables do, needs no
/// memory of its own.
#[derive(Drop)]
pub(crate) enum Leaves {
    One(Value),
    Many(Vec<Value>),
    Few(Box<Sparse<Value>>),
}

impl Leaves {
    /// So many leaves of one value.
    pub(crate) fn alike(alloc: Global, count: u64, value: Value) -> Result<Leaves, AllocError>
        ensures { IfOk result (λ leaves. values_in leaves ≡ replicate count value) }
    {
        if count == 1 {
            return Ok(Leaves::One(value));
        }
        if count > MOST_KEPT {
            return few(alloc, Sparse::alike(alloc, count, value)?);
        }
        let mut values = Vec::new(alloc);
        values.resize(count as usize, value)?;
        Ok(Leaves::Many(values))
    }

    /// So many leaves, whose values are a pattern over and over.
    pub(crate) fn repeated(
        alloc: Global,
        count: u64,
        pattern: Vec<Value>,
    ) -> Result<Leaves, AllocError>
        requires { 0 < length pattern.items }
        ensures { IfOk result (λ leaves. values_in leaves ≡ repeated count pattern.items) }
    {
        few(alloc, Sparse::repeated(alloc, count, pattern))
    }

    /// How many leaves there are.
    pub(crate) fn len(&self) -> usize
        ensures { result ≡ length (values_in self.now) }
    {
        match self {
            Leaves::One(_) => 1,
            Leaves::Many(values) => values.len(),
            Leaves::Few(values) => values.len() as usize,
        }
    }

    /// The value of a leaf; indeterminate behind the last.
    pub(crate) fn get(&self, at: usize) -> Value
        ensures { result ≡ slice_index_or (values_in self.now) at Indeterminate }
    {
        match self {
            Leaves::One(only) => { if at == 0 { *only } else { Value::Indeterminate } }
            Leaves::Many(values) => {
                if at < values.len() {
                    values[at]
                } else {
                    Value::Indeterminate
                }
            }
            Leaves::Few(values) => get_few(values, at),
        }
    }

    /// So many leaves from one on, or as many as there are.
    pub(crate) fn part(
        &self,
        alloc: Global,
        at: usize,
        count: usize,
    ) -> Result<Vec<Value>, AllocError>
        ensures { IfOk result (λ part. part.items ≡ take count (drop at (values_in self.now))) }
    {
        match self {
            Leaves::One(only) => Vec::from_slice(alloc, part_of(from_ref(only), at, count)),
            Leaves::Many(values) => Vec::from_slice(alloc, part_of(values, at, count)),
            Leaves::Few(values) => values.part(alloc, at as u64, count as u64),
        }
    }

    /// A leaf becomes a value. Behind the last leaf nothing changes.
    pub(crate) fn set(&mut self, at: usize, value: Value) -> Result<(), AllocError>
        ensures set { OnOk result (values_in self.new ≡ slice_set (values_in self.old) at value) }
        ensures same { OnErr result (values_in self.new ≡ values_in self.old) }
    {
        match self {
            Leaves::One(only) => {
                if at == 0 {
                    *only = value;
                }
                Ok(())
            }
            Leaves::Many(values) => {
                if at < values.len() {
                    values[at] = value;
                }
                Ok(())
            }
            Leaves::Few(values) => values.set(at as u64, value),
        }
    }

    /// The first leaf becomes a value, where there is one.
    pub(crate) fn set_first(&mut self, value: Value)
        ensures { values_in self.new ≡ slice_set (values_in self.old) 0 value }
    {
        match self {
            Leaves::One(only) => *only = value,
            Leaves::Many(values) => {
                if 0 < values.len() {
                    values[0] = value;
                }
            }
            Leaves::Few(values) => values.set_first(value),
        }
    }

    /// The int in the first leaf, where there is one leaf and it holds one.
    #[inline(always)]
    pub(crate) fn only_int(&self) -> Option<i32>
        ensures { IfSome result (λ z. slice_index_or (values_in self.now) 0 Indeterminate
            ≡ Number z) }
    {
        match self {
            Leaves::One(only) => int_in(only),
            Leaves::Many(_) => None,
            Leaves::Few(_) => None,
        }
    }

    /// The first leaf becomes an int, where there is one.
    #[inline(always)]
    pub(crate) fn set_first_int(&mut self, int: i32)
        ensures { values_in self.new ≡ slice_set (values_in self.old) 0 (Number int) }
    {
        match self {
            Leaves::One(only) => *only = Value::Number(i128::from(int)),
            Leaves::Many(_) => self.set_first_number(int),
            Leaves::Few(_) => self.set_first_number(int),
        }
    }

    // It isn't inlined, so that no value is made where there is one leaf.
    #[inline(never)]
    fn set_first_number(&mut self, int: i32)
        ensures { values_in self.new ≡ slice_set (values_in self.old) 0 (Number int) }
    {
        self.set_first(Value::Number(i128::from(int)));
    }

    /// All leaves become one value.
    pub(crate) fn fill(&mut self, value: Value)
        ensures { values_in self.new ≡ replicate (length (values_in self.old)) value }
    {
        match self {
            Leaves::One(only) => *only = value,
            Leaves::Many(values) => values.fill(value),
            Leaves::Few(values) => values.fill(value),
        }
    }

    /// Leaves from one on become others.
    pub(crate) fn put_part(&mut self, at: usize, values: &[Value]) -> Result<(), AllocError>
        requires { at + length values.now ≤ length (values_in self.old) }
        ensures put { OnOk result (values_in self.new
            ≡ spliced_in (values_in self.old) at values.now) }
        ensures same { OnErr result (values_in self.new ≡ values_in self.old) }
    {
        match self {
            Leaves::One(only) => {
                put_one(only, values);
                Ok(())
            }
            Leaves::Many(old) => {
                old[at..at + values.len()].copy_from_slice(values);
                Ok(())
            }
            Leaves::Few(old) => old.put(at as u64, values),
        }
    }
}

fn few(alloc: Global, values: Sparse<Value>) -> Result<Leaves, AllocError>
    ensures { IfOk result (λ leaves. values_in leaves ≡ values) }
{
    Ok(Leaves::Few(Box::new(alloc, values)?))
}

fn get_few(values: &Sparse<Value>, at: usize) -> Value
    ensures { result ≡ slice_index_or values.now at Indeterminate }
{
    match values.get(at as u64) {
        Some(value) => value,
        None => Value::Indeterminate,
    }
}

fn put_one(only: &mut Value, values: &[Value])
    ensures { only.new ≡ slice_index_or values.now 0 only.old }
{
    if let Some(first) = first_of(values) {
        *only = first;
    }
}

fn first_of(values: &[Value]) -> Option<Value>
    ensures { result ≡ slice_get values.now 0 }
{
    values.first().copied()
}

fn part_of(values: &[Value], at: usize, count: usize) -> &[Value]
    ensures { result.now ≡ take count (drop at values.now) }
{
    if at > values.len() {
        return &values[values.len()..];
    }
    let rest = &values[at..];
    if count < rest.len() {
        return &rest[..count];
    }
    rest
}
