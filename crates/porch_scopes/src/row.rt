//! What is known of a type.

ghost use Rattle.std.specs.Prelude.{◌≡◌, ◌<◌, ◌++◌, ◌∷◌, [], length, IfOk, OnOk, OnErr, false, slice_set, vec_capacity, vec_len};
ghost use Rattle.porch_check.specs.Shapes.{with_complete};
ghost use Rattle.porch_check.specs.Declarations.{no_members};

use crate::members::Members;
use porch_shape::Shape;
use std::alloc::{AllocError, Global};

/// A type: what it is, its leaves where it is complete, its members where it is a complete struct, and
/// whether a brace later in the text completes it.
#[derive(Drop)]
pub(crate) struct Row<'t> {
    pub(crate) shape: Shape,
    pub(crate) leaves: Option<u64>,
    pub(crate) members: Members<'t>,
    pub(crate) awaited: bool,
}

impl<'t> Row<'t> {
    /// A type without members.
    pub(crate) fn new(alloc: Global, shape: Shape, leaves: Option<u64>) -> Row<'t>
        ensures { result
            ≡ record { shape = shape; leaves = leaves; members = no_members; awaited = false } }
    {
        Row {
            shape,
            leaves,
            members: Members::new(alloc),
            awaited: false,
        }
    }
}

/// Room for one more type, and its number.
pub(crate) fn has_room<'t>(
    rows: &mut Vec<Row<'t>>,
    complete: &mut Vec<u32>,
) -> Result<u32, AllocError>
    ensures number { IfOk result (λ n. n ≡ length rows.old.items) }
    ensures room { OnOk result (vec_len rows.new < vec_capacity rows.new) }
    ensures complete_room { OnOk result (vec_len complete.new < vec_capacity complete.new) }
    ensures rows { rows.new.items ≡ rows.old.items }
    ensures complete { complete.new.items ≡ complete.old.items }
{
    let number = match u32::try_from(rows.len()) {
        Ok(number) => number,
        Err(_) => return Err(AllocError),
    };
    rows.reserve(1)?;
    complete.reserve(1)?;
    Ok(number)
}

/// Puts a type behind the others, where there is room.
pub(crate) fn put<'t>(rows: &mut Vec<Row<'t>>, complete: &mut Vec<u32>, row: Row<'t>)
    requires few { length rows.old.items < 4294967296 }
    requires room { vec_len rows.old < vec_capacity rows.old }
    requires complete_room { vec_len complete.old < vec_capacity complete.old }
    ensures rows { rows.new.items ≡ rows.old.items ++ row.entry ∷ [] }
    ensures complete { complete.new.items
        ≡ with_complete (length rows.old.items) row.entry.leaves complete.old.items }
{
    let number = rows.len() as u32;
    if row.leaves.is_some() {
        complete.push_reserved(number);
    }
    rows.push_reserved(row);
}

/// Puts another row in the place of one.
pub(crate) fn set<'t>(rows: &mut Vec<Row<'t>>, number: u32, row: Row<'t>)
    ensures { rows.new.items ≡ slice_set rows.old.items number row.entry }
{
    let at = number as usize;
    if at < rows.len() {
        rows[at] = row;
    }
}
