//! Whether a type may come next in a list, and what is kept of it.
ghost use Rattle.std.specs.Prelude.{◌≡◌, ◌<◌, ◌≤◌, ◌+◌, ◌-◌, ◌^◌, Some, None, IfErr, [], ◌++◌, ◌∷◌, length, min, All, OnOk, OnErr, IfOk, IfNone, nat_le};
ghost use Rattle.std.specs.List.{find};
ghost use Rattle.porch_types.specs.Leaves.{leaves_of, leaf_count, leaves_together, parts_of, width_of, MOST_LEAVES};
ghost use Rattle.porch_types.specs.Adding.{later_part, add_fault};
ghost use Rattle.porch_types.specs.Entries.{types_of};
ghost use Rattle.porch_types.specs.inside.Kept.{IsKept, IsNext, starts_from, starts_of};

use crate::entries::{Entry, leaves_at};
use crate::shapes::Ty;
use crate::types::TypeFault;
use std::alloc::{AllocError, Global};

const MOST_LEAVES_OF_ONE: u64 = 1_048_576;

/// The first of these numbers that is not below `number`.
fn first_later(members: &[u32], number: u32) -> Option<u32>
    ensures { result ≡ find (λ part. nat_le number part) members.now }
{
    members.iter().copied().find(|part| number <= *part)
}

fn later(ty: &Ty, number: u32) -> Option<u32>
    ensures { result ≡ later_part number ty.now }
{
    match ty {
        Ty::Whole { kind: _ } => None,
        Ty::Pointer { to: _ } => None,
        Ty::Array { of, count: _ } => first_later(&[*of], number),
        Ty::Struct { members } => first_later(members.as_slice(), number),
    }
}

/// How many elements or members a type has.
fn width(ty: &Ty) -> usize
    ensures { result ≡ width_of ty.now }
{
    match ty {
        Ty::Whole { kind: _ } => 1,
        Ty::Pointer { to: _ } => 1,
        Ty::Array { of: _, count } => *count as usize,
        Ty::Struct { members } => members.as_slice().len(),
    }
}

/// The leaves of the members together, or 2^64 - 1 where they are more.
fn member_leaves(entries: &[Entry], members: &[u32]) -> u64
    requires kept { IsKept entries.now }
    requires earlier { All (λ part. part < length entries.now) members.now }
    ensures { result ≡ min (leaves_together (leaves_of (types_of entries.now)) members.now)
        (2 ^ 64 - 1) }
{
    let mut sum = 0u64;
    for member in members {
        sum = sum.saturating_add(leaves_at(entries, *member));
    }
    sum
}

/// The leaves of a type whose parts are earlier ones, or 2^64 - 1 where they are more.
fn total(entries: &[Entry], ty: &Ty) -> u64
    requires kept { IsKept entries.now }
    requires earlier { All (λ part. part < length entries.now) (parts_of ty.now) }
    ensures { result ≡ min (leaf_count (leaves_of (types_of entries.now)) ty.now) (2 ^ 64 - 1) }
{
    match ty {
        Ty::Whole { kind: _ } => 1,
        Ty::Pointer { to: _ } => 1,
        Ty::Array { of, count } => u64::from(*count) * leaves_at(entries, *of),
        Ty::Struct { members } => member_leaves(entries, members.as_slice()),
    }
}

/// Why this type may not stand next, and else the number of its leaves.
pub(crate) fn checked_leaves(entries: &[Entry], ty: &Ty) -> Result<u64, TypeFault>
    requires kept { IsKept entries.now }
    requires few { length entries.now < 2 ^ 31 }
    ensures ok { OnOk result (add_fault (types_of entries.now) ty.now ≡ None) }
    ensures err { IfErr result (λ fault. add_fault (types_of entries.now) ty.now ≡ Some fault) }
    ensures leaves { IfOk result
        (λ leaves. leaves ≡ leaf_count (leaves_of (types_of entries.now)) ty.now) }
    ensures small { IfOk result (λ leaves. leaves ≤ MOST_LEAVES) }
    ensures occupied { OnOk result (0 < width_of ty.now) }
    ensures earlier { OnOk result (All (λ part. part < length entries.now) (parts_of ty.now)) }
{
    if let Some(number) = later(ty, entries.len() as u32) {
        return Err(TypeFault::Later { number });
    }
    if width(ty) == 0 {
        return Err(TypeFault::Empty);
    }
    let leaves = total(entries, ty);
    if leaves > MOST_LEAVES_OF_ONE {
        return Err(TypeFault::TooLarge { leaves });
    }
    Ok(leaves)
}

/// The first leaf of each member.
fn member_starts(alloc: Global, entries: &[Entry], members: &[u32]) -> Result<Vec<u64>, AllocError>
    requires kept { IsKept entries.now }
    requires earlier { All (λ part. part < length entries.now) members.now }
    requires small { leaves_together (leaves_of (types_of entries.now)) members.now ≤ MOST_LEAVES }
    ensures { IfOk result
        (λ v. v.items ≡ starts_from (leaves_of (types_of entries.now)) 0 members.now) }
{
    let mut starts = Vec::with_capacity(alloc, members.len())?;
    let mut next = 0;
    for member in members {
        starts.push(next)?;
        next += leaves_at(entries, *member);
    }
    Ok(starts)
}

/// The first leaf of each member of a struct, and nothing for another type.
pub(crate) fn type_starts(alloc: Global, entries: &[Entry], ty: &Ty) -> Result<Vec<u64>, AllocError>
    requires kept { IsKept entries.now }
    requires earlier { All (λ part. part < length entries.now) (parts_of ty.now) }
    requires small { leaf_count (leaves_of (types_of entries.now)) ty.now ≤ MOST_LEAVES }
    ensures { IfOk result (λ v. v.items ≡ starts_of (leaves_of (types_of entries.now)) ty.now) }
{
    match ty {
        Ty::Whole { kind: _ } => Ok(Vec::new(alloc)),
        Ty::Pointer { to: _ } => Ok(Vec::new(alloc)),
        Ty::Array { of: _, count: _ } => Ok(Vec::new(alloc)),
        Ty::Struct { members } => member_starts(alloc, entries, members.as_slice()),
    }
}

/// Puts an entry last.
pub(crate) fn put(entries: &mut Vec<Entry>, entry: Entry) -> Result<(), AllocError>
    requires kept { IsKept entries.old.items }
    requires next { IsNext entries.old.items entry }
    ensures ok { OnOk result (types_of entries.new.items
        ≡ types_of entries.old.items ++ entry.ty ∷ []) }
    ensures kept { IsKept entries.new.items }
    ensures err { OnErr result (entries.new.items ≡ entries.old.items) }
{
    entries.push(entry)?;
    Ok(())
}
