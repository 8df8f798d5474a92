//! Objects that are placed one after the other.

ghost use Rattle.std.specs.Prelude.{◌≡◌, ◌≤◌, ◌<◌, ◌+◌, ◌*◌, ◌^◌, ℕ, map, length, IfOk};
ghost use Rattle.porch_types.specs.Leaves.{leaves_of};
ghost use Rattle.porch_metrics.specs.Extents.{Extent, extent_of, round_up};
ghost use Rattle.porch_flat.specs.declared.flat.GlobalObject.{GlobalObject};
ghost use Rattle.porch_bytes.specs.Memory.{places_from, free_after};
ghost use Rattle.porch_map.specs.Known.{AreKnown};

use porch_flat::GlobalObject;
use porch_metrics::Metrics;
use std::alloc::{AllocError, Global};

/// Where objects begin, and where the next one may begin.
#[derive(Drop)]
pub struct Placed {
    pub places: Vec<u64>,
    pub end: u64,
}

/// Places objects of these types from a free place on: each at the lowest multiple of its alignment, with at least one
/// byte between it and the one before. It takes time in the number of objects.
pub fn place_objects(
    alloc: Global,
    metrics: &Metrics,
    types: &[u32],
    free: u64,
) -> Result<Placed, AllocError>
    requires known { AreKnown metrics.now.types types.now }
    requires few { length types.now ≤ 2 ^ 31 }
    requires low { free ≤ 16 }
    ensures places { IfOk result (λ placed. placed.places.items
        ≡ places_from (extent_of metrics.now.layout metrics.now.types) free types.now) }
    ensures end { IfOk result (λ placed. placed.end
        ≡ free_after (extent_of metrics.now.layout metrics.now.types) free types.now) }
    ensures most { IfOk result (λ placed. placed.end ≤ 2 ^ 56) }
{
    let mut places = Vec::with_capacity(alloc, types.len())?;
    let mut end = free;
    for ty in types {
        let begin = begin_of_object(metrics, *ty, end);
        places.push(begin)?;
        end = end_of_object(metrics, *ty, begin);
    }
    Ok(Placed { places, end })
}

// The lowest multiple of a type's alignment at or after a place.
fn begin_of_object(metrics: &Metrics, ty: u32, free: u64) -> u64
    requires known { ty < length metrics.now.types }
    requires low { free ≤ 2 ^ 56 }
    ensures value { result
        ≡ round_up free (extent_of metrics.now.layout metrics.now.types ty).align }
    ensures near { result < free + 8 }
{
    round_up_to(free, metrics.align(ty))
}

/// The lowest multiple of an alignment of at most 16 at or after a place.
pub(crate) fn round_up_to(place: u64, align: u64) -> u64
    requires some { 0 < align }
    requires few { align ≤ 16 }
    requires low { place ≤ 2 ^ 57 }
    ensures value { result ≡ round_up place align }
    ensures near { result < place + align }
{
    (place + (align - 1)) / align * align
}

// Where the object after one that begins at a place may begin.
fn end_of_object(metrics: &Metrics, ty: u32, begin: u64) -> u64
    requires known { ty < length metrics.now.types }
    requires low { begin ≤ 2 ^ 57 }
    ensures value { result
        ≡ begin + (extent_of metrics.now.layout metrics.now.types ty).size + 1 }
    ensures near { result ≤ begin + 2 ^ 24 }
{
    let _ = metrics.types().leaves(ty);
    begin + metrics.size(ty) + 1
}

/// The types of globals.
pub fn types_of_globals(alloc: Global, globals: &[GlobalObject]) -> Result<Vec<u32>, AllocError>
    ensures { IfOk result (λ types. types.items
        ≡ map (λ (g : GlobalObject). g.ty) globals.now) }
{
    let mut types = Vec::with_capacity(alloc, globals.len())?;
    for global in globals {
        types.push(global.ty)?;
    }
    Ok(types)
}
