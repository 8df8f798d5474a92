//! How the table of measures is read, and how a place is found by it.

ghost use Rattle.std.specs.Prelude.{◌≡◌, ◌<◌, ◌≤◌, ◌*◌, ◌^◌, ℕ, length, slice_get, Some};
ghost use Rattle.porch_types.specs.Leaves.{leaves_of};
ghost use Rattle.porch_types.specs.Rows.{part_at};
ghost use Rattle.porch_metrics.specs.Extents.{extent_of};
ghost use Rattle.porch_metrics.specs.Places.{part_place, place_of};
ghost use Rattle.porch_metrics.specs.Bounds.{IsExtentOf};
ghost use Rattle.porch_metrics.specs.inside.Tables.{IsTable, IsMember, IsPartOf, start_of};

use crate::table::{Measured, Table, align_in, size_in};
use porch_types::{Part, Ty, Types};

pub(crate) fn size_at(types: &Types, table: &Table, ty: u32) -> u64
    requires table { IsTable types.now table.now }
    requires known { ty < length types.now }
    ensures value { result ≡ (extent_of table.now.layout types.now ty).size }
    ensures bounds { IsExtentOf (leaves_of types.now ty) (extent_of table.now.layout types.now ty) }
{
    size_in(&table.measured, ty)
}

pub(crate) fn align_at(types: &Types, table: &Table, ty: u32) -> u64
    requires table { IsTable types.now table.now }
    requires known { ty < length types.now }
    ensures value { result ≡ (extent_of table.now.layout types.now ty).align }
    ensures bounds { IsExtentOf (leaves_of types.now ty) (extent_of table.now.layout types.now ty) }
{
    align_in(&table.measured, ty)
}

/// Goes down the parts that hold the leaf, from the element that holds it on.
pub(crate) fn place_in(types: &Types, table: &Table, ty: u32, leaf: u64) -> u64
    requires table { IsTable types.now table.now }
    requires known { ty < length types.now }
    requires near { leaf ≤ 2 ^ 52 }
    ensures value { result ≡ place_of table.now.layout types.now ty leaf }
    ensures most { result ≤ 8 * leaf }
{
    let leaves = types.leaves(ty);
    let mut place = leaf / leaves * size_at(types, table, ty);
    let mut inner = leaf % leaves;
    let mut whole = ty;
    'down: while let Some(part) = types.part_at(whole, inner) {
        place += part_start(types, table, whole, part);
        inner -= part.first;
        whole = part.ty;
    }
    place
}

/// Where a part that holds a leaf begins in its whole.
fn part_start(types: &Types, table: &Table, ty: u32, part: Part) -> u64
    requires table { IsTable types.now table.now }
    requires known { ty < length types.now }
    requires found { IsPartOf types.now ty part }
    ensures { result ≡ start_of table.now.layout types.now ty part.index }
{
    match types.get(ty) {
        Ty::Whole { kind: _ } => 0,
        Ty::Pointer { to: _ } => 0,
        Ty::Array { of, count: _ } => part.index * size_at(types, table, *of),
        Ty::Struct { members: _ } => member_start(types, table, ty, part.index),
    }
}

/// Where member number `index` of a struct begins.
fn member_start(types: &Types, table: &Table, ty: u32, index: u64) -> u64
    requires table { IsTable types.now table.now }
    requires known { ty < length types.now }
    requires member { IsMember (slice_get types.now ty) index }
    ensures { result ≡ start_of table.now.layout types.now ty index }
{
    let measured: &[Measured] = &table.measured;
    let entry = &measured[ty as usize];
    let places: &[u64] = &entry.places;
    places[index as usize]
}
