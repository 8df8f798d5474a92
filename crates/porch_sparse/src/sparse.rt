//! Lists of many values, of which few were written.
ghost use Rattle.std.specs.Prelude.{◌≡◌, ◌<◌, ◌≤◌, ◌+◌, ◌++◌, ◌^◌, length, take, drop, replicate, slice_get, slice_set, IfOk, OnOk, OnErr};
ghost use Rattle.porch_sparse.specs.Repeated.{repeated};

use crate::places::{make_place, make_places, value_at, write, write_all};
use std::alloc::{AllocError, Global};
use std::collections::BTreeMap;
use std::marker::Model;

/// A list of many values, of which few were written. Contracts see it as the list. It takes memory
/// for what was written and for a pattern that stands elsewhere over and over, and finds a value in the
/// logarithm of how many were written.
#[derive(Drop)]
pub struct Sparse<V> {
    len: u64,
    // the first value has a place of its own, so that it is written without memory
    first: V,
    pattern: Vec<V>,
    written: BTreeMap<u64, V>,
}

impl<V> Model for Sparse<V> {
    ghost use Rattle.std.specs.Prelude.{List, ◌<◌, length};
    ghost use Rattle.std.specs.Coded.{coded_list};

    ghost Value = { List V };

    ghost coded = { coded_list V.code };

    ghost use Rattle.porch_sparse.specs.inside.Places.{values_of};

    ghost view = { λ s. values_of s.len s.first s.pattern.items s.written };

    ghost invariant = { λ s. 0 < length s.pattern.items };
}

impl<V: Copy> Sparse<V> {
    /// So many values, all alike.
    pub fn alike(alloc: Global, len: u64, value: V) -> Result<Sparse<V>, AllocError>
        ensures { IfOk result (λ values. values ≡ replicate len value) }
    {
        let mut pattern = Vec::with_capacity(alloc, 1)?;
        pattern.push(value)?;
        Ok(Sparse {
            len,
            first: value,
            pattern,
            written: BTreeMap::new(alloc),
        })
    }

    /// So many values, which are a pattern over and over.
    pub fn repeated(alloc: Global, len: u64, pattern: Vec<V>) -> Sparse<V>
        requires { 0 < length pattern.items }
        ensures { result ≡ repeated len pattern.items }
    {
        Sparse {
            len,
            first: pattern[0],
            pattern,
            written: BTreeMap::new(alloc),
        }
    }

    /// How many values there are.
    pub fn len(&self) -> u64
        ensures { result ≡ length self.now }
    {
        self.len
    }

    /// The value at an index, where it is there.
    pub fn get(&self, at: u64) -> Option<V>
        ensures { result ≡ slice_get self.now at }
    {
        if at < self.len {
            Some(value_at(self.first, &self.pattern, &self.written, at))
        } else {
            None
        }
    }

    /// So many values from an index on, or as many as there are.
    pub fn part(&self, alloc: Global, at: u64, count: u64) -> Result<Vec<V>, AllocError>
        ensures { IfOk result (λ values. values.items ≡ take count (drop at self.now)) }
    {
        let count = count.min(self.len.saturating_sub(at));
        let mut values = Vec::with_capacity(alloc, count as usize)?;
        for ahead in 0..count {
            values.push(value_at(self.first, &self.pattern, &self.written, at + ahead))?;
        }
        Ok(values)
    }

    /// The first value becomes another, where there is one.
    pub fn set_first(&mut self, value: V)
        ensures { self.new ≡ slice_set self.old 0 value }
    {
        self.first = value;
    }

    /// A value becomes another, where it is there. Where it answers an error, nothing changes.
    pub fn set(&mut self, at: u64, value: V) -> Result<(), AllocError>
        ensures set { OnOk result (self.new ≡ slice_set self.old at value) }
        ensures same { OnErr result (self.new ≡ self.old) }
    {
        if at >= self.len {
            return Ok(());
        }
        make_place(&self.pattern, &mut self.written, at)?;
        write(&mut self.first, &mut self.written, at, value);
        Ok(())
    }

    /// Values from an index on become others. Where it answers an error, nothing changes.
    pub fn put(&mut self, at: u64, values: &[V]) -> Result<(), AllocError>
        requires { at + length values.now ≤ length self.old }
        ensures put { OnOk result (self.new ≡ take at self.old
            ++ (values.now ++ drop (at + length values.now) self.old)) }
        ensures same { OnErr result (self.new ≡ self.old) }
    {
        make_places(&self.pattern, &mut self.written, at, values.len() as u64)?;
        write_all(&mut self.first, &mut self.written, at, values);
        Ok(())
    }

    /// All values become one.
    pub fn fill(&mut self, value: V)
        ensures { self.new ≡ replicate (length self.old) value }
    {
        self.first = value;
        self.pattern.truncate(1);
        self.pattern[0] = value;
        self.written.clear();
    }
}
