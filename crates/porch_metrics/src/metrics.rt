//! The sizes and places of a list of types.

ghost use Rattle.std.specs.Prelude.{◌≡◌, ◌<◌, ◌≤◌, ◌*◌, ◌%◌, ◌^◌, IfOk, length};
ghost use Rattle.porch_types.specs.Leaves.{IsTypes, leaves_of};
ghost use Rattle.porch_layout.specs.Layouts.{IsAlignment, IsLayout};
ghost use Rattle.porch_metrics.specs.Extents.{extent_of, ucf_layout};
ghost use Rattle.porch_metrics.specs.Places.{place_of};

use crate::descent::{align_at, place_in, size_at};
use crate::table::{Table, measure};
use porch_layout::Layout;
use porch_types::Types;
use std::alloc::{AllocError, Global};
use std::marker::Model;

/// Sizes and places of a list of types, under a layout and packed as in a UCF file, all in bytes.
#[derive(Drop)]
pub struct Metrics {
    types: Types,
    native: Table,
    packed: Table,
}

impl Model for Metrics {
    ghost use Rattle.porch_metrics.specs.Places.{Measures};
    ghost use Rattle.porch_metrics.specs.inside.Tables.{AreTables};

    ghost Value = { Measures };

    ghost view = { λ m. record { types = m.types; layout = m.native.layout } };

    ghost invariant = { λ m. AreTables m.types m.native m.packed };
}

impl Metrics {
    /// Measures each type. It keeps a copy of the types.
    pub fn new(alloc: Global, types: &Types, layout: &Layout) -> Result<Metrics, AllocError>
        requires { IsLayout layout.now }
        ensures { IfOk result (λ m. m ≡ record { types = types.now; layout = layout.now }) }
    {
        let types = types.copy(alloc)?;
        let native = measure(alloc, &types, layout)?;
        let packed = measure(alloc, &types, &packed_layout())?;
        Ok(Metrics {
            types,
            native,
            packed,
        })
    }

    /// The types that were measured.
    pub fn types(&self) -> &Types
        ensures { result.now ≡ self.now.types }
    {
        &self.types
    }

    /// The layout under which the types were measured.
    pub fn layout(&self) -> Layout
        ensures value { result ≡ self.now.layout }
        ensures allowed { IsLayout self.now.layout }
        ensures types { IsTypes self.now.types }
    {
        self.native.layout
    }

    /// The size of a type.
    pub fn size(&self, ty: u32) -> u64
        requires { ty < length self.now.types }
        ensures value { result ≡ (extent_of self.now.layout self.now.types ty).size }
        ensures some { 0 < result }
        ensures most { result ≤ 8 * leaves_of self.now.types ty }
        ensures whole { result % (extent_of self.now.layout self.now.types ty).align ≡ 0 }
    {
        size_at(&self.types, &self.native, ty)
    }

    /// The alignment of a type: 1, 2, 4 or 8.
    pub fn align(&self, ty: u32) -> u64
        requires { ty < length self.now.types }
        ensures alignment { IsAlignment result }
        ensures value { result ≡ (extent_of self.now.layout self.now.types ty).align }
    {
        align_at(&self.types, &self.native, ty)
    }

    /// Where a leaf begins. Leaves count on over elements of the type in a row.
    pub fn place(&self, ty: u32, leaf: u64) -> u64
        requires known { ty < length self.now.types }
        requires near { leaf ≤ 2 ^ 52 }
        ensures value { result ≡ place_of self.now.layout self.now.types ty leaf }
        ensures most { result ≤ 8 * leaf }
    {
        place_in(&self.types, &self.native, ty, leaf)
    }

    /// The size of a type in a UCF file.
    pub fn ucf_size(&self, ty: u32) -> u64
        requires { ty < length self.now.types }
        ensures value { result ≡ (extent_of ucf_layout self.now.types ty).size }
        ensures some { 0 < result }
        ensures most { result ≤ 8 * leaves_of self.now.types ty }
    {
        size_at(&self.types, &self.packed, ty)
    }

    /// Where a leaf begins in a UCF file. Leaves count on over elements of the type in a row.
    pub fn ucf_place(&self, ty: u32, leaf: u64) -> u64
        requires known { ty < length self.now.types }
        requires near { leaf ≤ 2 ^ 52 }
        ensures value { result ≡ place_of ucf_layout self.now.types ty leaf }
        ensures most { result ≤ 8 * leaf }
    {
        place_in(&self.types, &self.packed, ty, leaf)
    }
}

/// The layout whose places are those of a UCF file.
fn packed_layout() -> Layout
    ensures layout { result ≡ ucf_layout }
    ensures allowed { IsLayout result }
{
    Layout {
        big: true,
        long: 8,
        pointer: 8,
        align_short: 1,
        align_int: 1,
        align_long: 1,
        align_pointer: 1,
        least_struct: 1,
    }
}
