//! Types with the numbers of their leaves, and the part that holds a leaf.
ghost use Rattle.std.specs.Prelude.{◌≡◌, ◌<◌, ◌≤◌, ◌+◌, length, Some, None, IfSome, IfOk};
ghost use Rattle.porch_types.specs.Rows.{part_at, row_at};
ghost use Rattle.porch_types.specs.Leaves.{leaves_of};
ghost use Rattle.porch_types.specs.Entries.{types_of};
ghost use Rattle.porch_types.specs.inside.Kept.{IsKept, content, contents};

use crate::parts::{Part, Row, element, member};
use crate::shapes::Ty;
use std::alloc::{AllocError, Global};

/// A type of the list, with the number of its leaves and the first leaf of each member.
#[derive(Drop)]
pub(crate) struct Entry {
    pub(crate) ty: Ty,
    pub(crate) leaves: u64,
    pub(crate) starts: Vec<u64>,
}

/// Equal entries.
pub(crate) fn copy_entries(alloc: Global, entries: &[Entry]) -> Result<Vec<Entry>, AllocError>
    ensures { IfOk result (λ copy. contents copy.items ≡ contents entries.now) }
{
    let mut copies = Vec::with_capacity(alloc, entries.len())?;
    for entry in entries {
        copies.push(copy_entry(alloc, entry)?)?;
    }
    Ok(copies)
}

fn copy_entry(alloc: Global, entry: &Entry) -> Result<Entry, AllocError>
    ensures { IfOk result (λ copy. content copy ≡ content entry.now) }
{
    let ty = entry.ty.copy(alloc)?;
    let starts = Vec::from_slice(alloc, entry.starts.as_slice())?;
    Ok(Entry {
        ty,
        leaves: entry.leaves,
        starts,
    })
}

pub(crate) fn leaves_at(entries: &[Entry], ty: u32) -> u64
    requires kept { IsKept entries.now }
    requires known { ty < length entries.now }
    ensures value { result ≡ leaves_of (types_of entries.now) ty }
    ensures some { 0 < result }
    ensures small { result ≤ 1048576 }
{
    entries[ty as usize].leaves
}

pub(crate) fn part_in(entries: &[Entry], ty: u32, place: u64) -> Option<Part>
    requires kept { IsKept entries.now }
    requires known { ty < length entries.now }
    ensures value { result ≡ part_at (types_of entries.now) ty place }
    ensures earlier { IfSome result (λ part. part.ty < ty) }
    ensures begun { IfSome result (λ part. part.first ≤ place) }
    ensures row { IfSome result (λ part. part.row.first ≤ part.first) }
{
    let entry = &entries[ty as usize];
    match &entry.ty {
        Ty::Whole { kind: _ } => None,
        Ty::Pointer { to: _ } => None,
        Ty::Array { of, count } => {
            element(*of, leaves_at(entries, *of), u64::from(*count), place)
        }
        Ty::Struct { members } => {
            member(
                members.as_slice(),
                entry.starts.as_slice(),
                entry.leaves,
                place,
            )
        }
    }
}
