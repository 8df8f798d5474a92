//! The measures of each type of a list, kept in a table.

ghost use Rattle.std.specs.Prelude.{◌≡◌, ◌<◌, ◌≤◌, ◌+◌, ◌*◌, ◌^◌, ℕ, All, length, IfOk, max};
ghost use Rattle.porch_layout.specs.Layouts.{IsLayout};
ghost use Rattle.porch_types.specs.Leaves.{parts_of};
ghost use Rattle.porch_metrics.specs.Extents.{kind_extent};
ghost use Rattle.porch_metrics.specs.inside.Tables.{extents_in, AreSmall, IsTable};
ghost use Rattle.porch_metrics.specs.inside.Tables.{IsStructMeasured, IsTypeMeasured};

use crate::rounding::rounded_up;
use porch_layout::Layout;
use porch_types::{Kind, Ty, Types, leaves_add_up};
use std::alloc::{AllocError, Global};

/// The size and alignment of a type in bytes, and where each member of a struct begins.
#[derive(Drop)]
pub(crate) struct Measured {
    pub(crate) size: u64,
    pub(crate) align: u64,
    pub(crate) places: Vec<u64>,
}

/// The measures of each type of a list, under a layout.
#[derive(Drop)]
pub(crate) struct Table {
    pub(crate) layout: Layout,
    pub(crate) measured: Vec<Measured>,
}

/// Measures each type, the parts of a type before it.
pub(crate) fn measure(alloc: Global, types: &Types, layout: &Layout) -> Result<Table, AllocError>
    requires { IsLayout layout.now }
    ensures table { IfOk result (λ table. IsTable types.now table) }
    ensures layout { IfOk result (λ table. table.layout ≡ layout.now) }
{
    let len = types.len();
    leaves_add_up();
    let mut measured = Vec::with_capacity(alloc, len)?;
    for number in 0..len {
        let ty = types.get(number as u32);
        let next = measure_type(alloc, layout, ty, &measured)?;
        measured.push(next)?;
    }
    Ok(Table {
        layout: *layout,
        measured,
    })
}

pub(crate) fn size_in(measured: &[Measured], ty: u32) -> u64
    requires { ty < length measured.now }
    ensures { result ≡ (extents_in measured.now ty).size }
{
    measured[ty as usize].size
}

pub(crate) fn align_in(measured: &[Measured], ty: u32) -> u64
    requires { ty < length measured.now }
    ensures { result ≡ (extents_in measured.now ty).align }
{
    measured[ty as usize].align
}

/// Measures a type whose parts were measured.
fn measure_type(
    alloc: Global,
    layout: &Layout,
    ty: &Ty,
    measured: &[Measured],
) -> Result<Measured, AllocError>
    requires layout { IsLayout layout.now }
    requires known { All (λ part. part < length measured.now) (parts_of ty.now) }
    requires few { length (parts_of ty.now) ≤ 1_048_576 }
    requires small { AreSmall measured.now }
    ensures { IfOk result (IsTypeMeasured layout.now (extents_in measured.now) ty.now) }
{
    match ty {
        Ty::Whole { kind } => Ok(Measured {
            size: kind_size(layout, *kind),
            align: kind_align(layout, *kind),
            places: Vec::new(alloc),
        }),
        Ty::Pointer { to: _ } => Ok(Measured {
            size: u64::from(layout.pointer),
            align: u64::from(layout.align_pointer),
            places: Vec::new(alloc),
        }),
        Ty::Array { of, count } => Ok(Measured {
            size: u64::from(*count) * size_in(measured, *of),
            align: align_in(measured, *of),
            places: Vec::new(alloc),
        }),
        Ty::Struct { members } => { measure_struct(alloc, layout, members.as_slice(), measured) }
    }
}

/// Puts each member at the lowest multiple of its alignment behind the one before.
fn measure_struct(
    alloc: Global,
    layout: &Layout,
    members: &[u32],
    measured: &[Measured],
) -> Result<Measured, AllocError>
    requires layout { IsLayout layout.now }
    requires known { All (λ part. part < length measured.now) members.now }
    requires few { length members.now ≤ 1_048_576 }
    requires small { AreSmall measured.now }
    ensures { IfOk result (IsStructMeasured layout.now (extents_in measured.now) members.now) }
{
    let mut places = Vec::with_capacity(alloc, members.len())?;
    let mut end = 0u64;
    let mut align = u64::from(layout.least_struct);
    for member in members {
        let own = align_in(measured, *member);
        let place = rounded_up(end, own);
        places.push(place)?;
        end = place + size_in(measured, *member);
        align = align.max(own);
    }
    let size = rounded_up(end, align);
    Ok(Measured {
        size,
        align,
        places,
    })
}

fn kind_size(layout: &Layout, kind: Kind) -> u64
    ensures { result ≡ (kind_extent layout.now kind).size }
{
    match kind {
        Kind::Char => 1,
        Kind::UChar => 1,
        Kind::Short => 2,
        Kind::UShort => 2,
        Kind::Int => 4,
        Kind::UInt => 4,
        Kind::Long => u64::from(layout.long),
        Kind::ULong => u64::from(layout.long),
    }
}

fn kind_align(layout: &Layout, kind: Kind) -> u64
    ensures { result ≡ (kind_extent layout.now kind).align }
{
    match kind {
        Kind::Char => 1,
        Kind::UChar => 1,
        Kind::Short => u64::from(layout.align_short),
        Kind::UShort => u64::from(layout.align_short),
        Kind::Int => u64::from(layout.align_int),
        Kind::UInt => u64::from(layout.align_int),
        Kind::Long => u64::from(layout.align_long),
        Kind::ULong => u64::from(layout.align_long),
    }
}
