//! Leaves that are all 0 and null.
ghost use Rattle.std.specs.Prelude.{◌≡◌, ℕ, ◌<◌, map, length, IsTrue, IfOk};
ghost use Rattle.porch_live.specs.Views.{value_of};
ghost use Rattle.porch_live.specs.inside.Leaves.{values_in, zeros_of, zero_at};

use crate::leaves::{Leaves, MOST_KEPT};
use crate::roots::{is_pointer, zero_of};
use crate::value::Value;
use porch_types::Types;
use std::alloc::{AllocError, Global};

/// So many leaves of a type, which are all 0 and null.
pub(crate) fn zero_leaves(
    alloc: Global,
    types: &Types,
    ty: u32,
    count: u64,
) -> Result<Leaves, AllocError>
    requires { 0 < count → ty < length types.now }
    ensures { IfOk result (λ leaves. map value_of (values_in leaves)
        ≡ zeros_of types.now ty count) }
{
    if count == 1 {
        return Ok(Leaves::One(zero_of(types, types.leaf_type(ty, 0))));
    }
    if count <= MOST_KEPT {
        return Ok(Leaves::Many(zeros(alloc, types, ty, count)?));
    }
    many_zeros(alloc, types, ty, count)
}

/// Many leaves of a type: those of one element over and over.
fn many_zeros(alloc: Global, types: &Types, ty: u32, count: u64) -> Result<Leaves, AllocError>
    requires { ty < length types.now }
    ensures { IfOk result (λ leaves. map value_of (values_in leaves)
        ≡ zeros_of types.now ty count) }
{
    let element = types.leaves(ty);
    if are_alike(types, ty, element) {
        return Leaves::alike(alloc, count, zero_of(types, types.leaf_type(ty, 0)));
    }
    let pattern = zeros(alloc, types, ty, element)?;
    Leaves::repeated(alloc, count, pattern)
}

/// Whether so many leaves of a type are all 0, or all null.
fn are_alike(types: &Types, ty: u32, count: u64) -> bool
    requires { ty < length types.now }
    ensures { IsTrue result → (leaf : ℕ) → leaf < count
        → zero_at types.now ty leaf ≡ zero_at types.now ty 0 }
{
    let first = is_pointer(types, types.leaf_type(ty, 0));
    for leaf in 0..count {
        if is_pointer(types, types.leaf_type(ty, leaf)) != first {
            return false;
        }
    }
    true
}

/// The values of so many leaves of a type that are all 0 and null.
fn zeros(alloc: Global, types: &Types, ty: u32, count: u64) -> Result<Vec<Value>, AllocError>
    requires { 0 < count → ty < length types.now }
    ensures { IfOk result (λ values. map value_of values.items
        ≡ zeros_of types.now ty count) }
{
    let mut values = Vec::with_capacity(alloc, count as usize)?;
    for leaf in 0..count {
        values.push(zero_of(types, types.leaf_type(ty, leaf)))?;
    }
    Ok(values)
}
