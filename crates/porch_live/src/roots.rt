//! What a list of types says of a root, also where it doesn't have the root's type.
ghost use Rattle.std.specs.Prelude.{◌≡◌, ◌<◌, ◌≤◌, ◌+◌, ◌*◌, ◌/◌, ◌^◌, length, slice_get, pos, if◌then◌else◌, IfSome};
ghost use Rattle.porch_types.specs.Leaves.{leaves_of};
ghost use Rattle.porch_types.specs.Rows.{row_at, has_shared_end};
ghost use Rattle.porch_objects.specs.Store.{leaves_in, zero_of, null, number};
ghost use Rattle.porch_live.specs.Views.{value_of, root_of};
ghost use Rattle.porch_live.specs.inside.Rows.{IsNear, row_without_type};

use crate::object::Root;
use crate::value::Value;
use porch_types::{Row, Ty, Types, leaves_add_up, rows_lie_inside};

/// The leaves of a type; none of one that isn't there.
pub fn leaves_of(types: &Types, ty: u32) -> u64
    ensures value { result ≡ leaves_of types.now ty }
    ensures known { 0 < result → ty < length types.now }
    ensures few { result ≤ 1_048_576 }
{
    if (ty as usize) < types.len() {
        types.leaves(ty)
    } else {
        0
    }
}

/// The leaves of a root.
pub(crate) fn leaves_in(types: &Types, root: Root) -> u64
    ensures value { result ≡ leaves_in types.now (root_of root) }
    ensures known { 0 < result → root.ty < length types.now }
{
    u64::from(root.count) * leaves_of(types, root.ty)
}

/// What a leaf of a type is without an initialiser: null or 0.
pub(crate) fn zero_of(types: &Types, ty: u32) -> Value
    requires { ty < length types.now }
    ensures { value_of result ≡ zero_of (slice_get types.now ty) }
{
    if is_pointer(types, ty) {
        Value::Null
    } else {
        Value::Number(0)
    }
}

/// Whether a type is a pointer's.
pub(crate) fn is_pointer(types: &Types, ty: u32) -> bool
    requires { ty < length types.now }
    ensures { zero_of (slice_get types.now ty)
        ≡ (if result then null else number (pos 0)) }
{
    match types.get(ty) {
        Ty::Pointer { to: _ } => true,
        Ty::Whole { kind: _ } => false,
        Ty::Array { of: _, count: _ } => false,
        Ty::Struct { members: _ } => false,
    }
}

/// The row of the subobject of type `pointee` that begins at a leaf of a root.
pub(crate) fn row_of(types: &Types, root: Root, place: u64, pointee: u32) -> Option<Row>
    ensures value { result ≡ row_at types.now root.ty root.count place pointee }
    ensures near { IfSome result (λ row. IsNear types.now pointee place row) }
{
    if (root.ty as usize) < types.len() {
        rows_lie_inside();
        leaves_add_up();
        types.row_of(root.ty, u64::from(root.count), place, pointee)
    } else {
        row_without_type(root, place, pointee)
    }
}

/// An element of a type that isn't there has no leaf.
fn row_without_type(root: Root, place: u64, pointee: u32) -> Option<Row>
    ensures { result ≡ row_without_type root.ty root.count place pointee }
{
    if root.count > 0 && root.ty == pointee && place == 0 {
        Some(Row {
            first: 0,
            len: u64::from(root.count),
        })
    } else {
        None
    }
}

/// Whether the end of the element that begins at a leaf is shared with the object that follows.
pub(crate) fn has_shared_end(types: &Types, root: Root, place: u64, pointee: u32) -> bool
    requires { place ≤ 2 ^ 53 }
    ensures { result ≡ has_shared_end types.now root.ty root.count place pointee }
{
    row_of(types, root, place + leaves_of(types, pointee), pointee).is_some()
}

/// How often a number of leaves fits; never where it is 0.
pub(crate) fn quotient(whole: u64, leaves: u64) -> u64
    ensures value { result ≡ whole / leaves }
    ensures small { result ≤ whole }
{
    if leaves == 0 { 0 } else { whole / leaves }
}
